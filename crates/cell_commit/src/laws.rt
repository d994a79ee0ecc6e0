//! What mapping and writing add, part by part. Each law is the contract of a function that changes nothing.

ghost use Rattle.std.specs.Prelude.{◌≡◌, ◌+◌, ◌-◌, ◌*◌, ◌^◌, ◌++◌, All, fold, length, map, min};
ghost use Rattle.cell_num.specs.Limits.{page_size};
ghost use Rattle.cell_world.specs.Placed.Place.{with_region};
ghost use Rattle.cell_world.specs.Linked.Relink.{patched};
ghost use Rattle.cell_commit.specs.Commit.{IsMapped, all_mapped, fields_written, patches_from};
ghost use Rattle.cell_commit.specs.Seals.{seal_table, spans_of};

use cell_link::FieldValue;
use cell_mem::Memory;
use cell_world::Region;

/// Each region stands in its place by starts, and is counted. The seals stay.
pub fn mapping_adds(memory: &Memory, regions: &[Region])
    ensures regions { (all_mapped memory.now regions.now).regions ≡ fold (λ rs r. with_region r rs) memory.now.regions regions.now }
    ensures maps { (all_mapped memory.now regions.now).maps ≡ min (memory.now.maps + length regions.now) (2 ^ 64 - 1) }
    ensures spare { (all_mapped memory.now regions.now).spare ≡ memory.now.spare - length regions.now }
    ensures seals { (all_mapped memory.now regions.now).sealed ≡ memory.now.sealed }
{
    let _maps = memory.maps();
}

/// Each region has each field that begins in it, and each field is counted.
pub fn writing_adds(memory: &Memory, fields: &[FieldValue])
    ensures regions { (fields_written memory.now fields.now).regions ≡ map (λ r. fold patched r (patches_from fields.now)) memory.now.regions }
    ensures patches { (fields_written memory.now fields.now).patches ≡ min (memory.now.patches + length fields.now) (2 ^ 64 - 1) }
    ensures spare { (fields_written memory.now fields.now).spare ≡ memory.now.spare }
{
    let _patches = memory.patches();
}

/// The bytes of the fields are sealed, and those that were.
pub fn writing_seals(memory: &Memory, spans: &[(u64, u64)], fields: &[FieldValue])
    requires spans { memory.now.sealed ≡ seal_table memory.now.base (page_size * memory.now.pages) spans.now }
    requires mapped { All (IsMapped memory.now) fields.now }
    ensures { (fields_written memory.now fields.now).sealed ≡ seal_table memory.now.base (page_size * memory.now.pages) (spans.now ++ spans_of fields.now) }
{
    memory.laid_out();
}
