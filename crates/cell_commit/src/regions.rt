//! New regions.

ghost use Rattle.std.specs.Prelude.{◌≡◌, length};
ghost use Rattle.cell_mem.specs.State.{IsRoom};
ghost use Rattle.cell_commit.specs.Commit.{AreRoom, all_mapped, mapped_one};

use cell_mem::{Memory, Perm};
use cell_world::Region;

fn map_region(memory: &mut Memory, region: Region)
    requires { IsRoom memory.old region.start (length region.bytes) }
    ensures { memory.new ≡ mapped_one memory.old region }
{
    let perm = Perm::of(region.permission);
    memory.map(region.start, perm, region.bytes.into_vec());
}

/// Maps the regions, one after another.
pub fn map_regions(memory: &mut Memory, regions: Vec<Region>)
    requires { AreRoom memory.old regions.items }
    ensures { memory.new ≡ all_mapped memory.old regions.items }
{
    for region in regions {
        map_region(memory, region);
    }
}
