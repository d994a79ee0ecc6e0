//! What the bytes of files are read as.

ghost use Rattle.std.specs.Prelude.{ℕ, ◌≡◌, ◌≤◌, List, All, Ok, length, map};
ghost use Rattle.cell_object.specs.Reads.{reads};
ghost use Rattle.cell_object.specs.Readable.{IsReadable};
ghost use Rattle.cell_got.specs.Lower.{lowered};
ghost use Rattle.cell_object.specs.declared.object.Object.{Object};
ghost use Rattle.cell_world.specs.Coherent.{AreSound, IsLoadable};
ghost use Rattle.cell_world.specs.Gather.{source_of};
ghost use Rattle.cell_num.specs.Limits.{max_file_bytes};
ghost use Rattle.cell_world.specs.declared.file.File.{File};

/// Whatever the bytes of a file are, the object that they are read as keeps the rules; and that of a file within the limit, lowered, may be a cell's. So of every list of such files, as a folder has them, what the laws ask of their objects holds.
pub fn files_are_sound()
    ensures readable { (bytes : List ℕ) (object : Object) → reads bytes ≡ Ok object → IsReadable object }
    ensures loadable { (bytes : List ℕ) (object : Object) → length bytes ≤ max_file_bytes → lowered (reads bytes) ≡ Ok object → IsLoadable object }
    ensures files { (files : List File) → All (λ f. length f.bytes ≤ max_file_bytes) files → AreSound (map source_of files) }
{}
