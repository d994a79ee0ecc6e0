//! An object's image, which `cell_elfw` writes: how numbers stand in it; and, as contracts of functions
//! with an empty body, its law, that what can be written is read again, and an example.
#![tactic(auto)]

mod number;

ghost use Rattle.std.specs.Prelude.{◌≡◌, Ok};
ghost use Rattle.cell_object.specs.Reads.{reads};
ghost use Rattle.cell_object.specs.Image.{image};
ghost use Rattle.cell_image.specs.Example.{pointer};
ghost use Rattle.cell_object.specs.Writable.{IsWritable};

use cell_object::Object;
pub use number::put_number;

/// The image of a writable object is read as the object again. So `write_object` of `cell_elfw` writes
/// it, or lacks memory.
pub fn writable_is_read(object: &Object)
    requires { IsWritable object.now }
    ensures { reads (image object.now) ≡ Ok object.now }
{}

/// There are objects that can be written, as one with a section, two symbols and an entry.
pub fn pointer_is_writable()
    ensures { IsWritable pointer }
{}
