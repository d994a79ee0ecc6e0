//! What a number of crates and a seed make.

ghost use Rattle.std.specs.Prelude.{◌≡◌, ◌≤◌, ◌<◌, ◌+◌, ◌*◌, ◌^◌, All, IfOk, Ok, length, true};
ghost use Rattle.std.specs.List.{list_all};
ghost use Rattle.cell_depot.specs.Files.{are_apart};
ghost use Rattle.cell_depot.specs.ObjectName.{is_object_name};
ghost use Rattle.cell_num.specs.Limits.{max_file_bytes};
ghost use Rattle.cell_script.specs.Script.{are_said, script_of};
ghost use Rattle.cell_gen.specs.Generated.{generated_files, generated_lines, generated_script};

use crate::files::make_files;
use crate::script::make_script;
use cell_world::File;
use std::alloc::{AllocError, Global};

/// Object files, and a script over them.
#[derive(Drop)]
pub struct Generated {
    /// Two for each crate: `k#gI.o`, and `n#gI-2.o`, which takes its place.
    pub files: Vec<File>,
    pub script: Vec<u8>,
}

/// Makes the run of so many crates, from 1 to 400, whose tables name three crates each, drawn by the seed.
#[tactic(auto, using(crate::proofs::Sizes::sizes, crate::proofs::Names::names))]
pub fn generate(alloc: Global, crates: u32, seed: u64) -> Result<Generated, AllocError>
    requires some { 1 ≤ crates }
    requires few { crates ≤ 400 }
    ensures files { IfOk result (λ g. g.files.items ≡ generated_files crates seed) }
    ensures script { IfOk result (λ g. g.script.items ≡ generated_script crates) }

    // The files are of different names, two for each crate, and none is too long.
    ensures two_each { IfOk result (λ g. length g.files.items ≡ 2 * crates) }
    ensures small { IfOk result (λ g. All (λ f. length f.bytes ≤ max_file_bytes) g.files.items) }
    ensures named { IfOk result (λ g. list_all (λ f. is_object_name f.name) g.files.items ≡ true) }
    ensures apart { IfOk result (λ g. are_apart g.files.items ≡ true) }

    // The script is short, and says the commands that it is meant to say.
    ensures short { IfOk result (λ g. length g.script.items < 2 ^ 20) }
    ensures reads { IfOk result (λ g. script_of g.script.items ≡ Ok (generated_lines crates)) }
    ensures said { are_said (generated_lines crates) ≡ true }
    ensures few_lines { length (generated_lines crates) ≡ 2 * crates + 1 }
{
    let files = make_files(alloc, crates, seed)?;
    let script = make_script(alloc, crates)?;
    Ok(Generated { files, script })
}
