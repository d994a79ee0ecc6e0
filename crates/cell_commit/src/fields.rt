//! The fields of the code and data.

ghost use Rattle.std.specs.Prelude.{◌≡◌, All, length};
ghost use Rattle.cell_commit.specs.Commit.{IsLaidOut, IsMapped, field_patched, field_written, fields_patched, fields_written};
ghost use Rattle.cell_mem.specs.State.{HasWrites};
ghost use Rattle.cell_link.specs.declared.value.FieldValue.{FieldValue as Value};

use cell_link::FieldValue;
use cell_mem::Memory;

/// Seals a field and writes it. The regions of every memory are laid out.
fn write_field(memory: &mut Memory, field: &FieldValue)
    requires mapped { IsMapped memory.old field.now }
    requires undo { HasWrites memory.old 1 }
    ensures written { memory.new ≡ field_written memory.old field.now }
    ensures laid { IsLaidOut memory.old }
{
    memory.laid_out();
    memory.seal(field.addr, field.width);
    memory.patch(field.addr, field.width, field.value);
}

/// Seals each field against stores and writes it, one after another.
pub fn write_fields(memory: &mut Memory, fields: &[FieldValue])
    requires mapped { All (IsMapped memory.old) fields.now }
    requires undo { HasWrites memory.old (length fields.now) }
    ensures { memory.new ≡ fields_written memory.old fields.now }
{
    for field in fields {
        write_field(memory, field);
    }
}

/// Writes a field. The regions of every memory are laid out.
fn patch_field(memory: &mut Memory, field: &FieldValue)
    requires mapped { IsMapped memory.old field.now }
    requires undo { HasWrites memory.old 1 }
    ensures written { memory.new ≡ field_patched memory.old field.now }
    ensures laid { IsLaidOut memory.old }
{
    memory.laid_out();
    memory.patch(field.addr, field.width, field.value);
}

/// Writes fields one after another, whose seals stay as they are. What is mapped stays so.
pub fn patch_fields(memory: &mut Memory, patches: &[FieldValue])
    requires mapped { All (IsMapped memory.old) patches.now }
    requires undo { HasWrites memory.old (length patches.now) }
    ensures patched { memory.new ≡ fields_patched memory.old patches.now }
    ensures still_mapped { (f : Value) → IsMapped memory.old f → IsMapped memory.new f }
{
    for patch in patches {
        patch_field(memory, patch);
    }
}
