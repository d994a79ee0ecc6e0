//! What a run works on: the folder, the script and the object files.

ghost use Rattle.std.specs.Prelude.{◌≡◌, ◌≢◌, ◌<◌, ◌^◌, true, Err, length, IfOk, IsErrOf};
ghost use Rattle.cell_io.specs.Causes.{HasCause};
ghost use Rattle.cell_io.specs.Files.{folder};
ghost use Rattle.cell_io.specs.Within.{IfTold, Gives};
ghost use Rattle.cell_script.specs.Script.{are_said};
ghost use Rattle.cell_input.specs.Objects.{AreObjectFiles};
ghost use Rattle.cell_input.specs.Taking.{commands_of, input_from};

use crate::folder::{Beside, take_folder};
use crate::reason::{REFUSALS, Reason};
use cell_io::{Host, Stop};
use cell_num::{Listed, MAX_SCRIPT_BYTES};
use cell_script::{Script, ScriptFail, read_script};
use cell_world::File;
use std::alloc::Global;

/// The object files in byte order of their names, and the commands.
#[derive(Drop)]
pub struct Input {
    pub files: Listed<File>,
    pub script: Script,
}

/// Reads the folder, then the script, then the object files; the script's lines come last.
pub fn take_from<H: Host>(
    alloc: Global,
    dir: &str,
    script: &str,
    host: &mut H,
) -> Result<Input, Stop<Reason>>
    ensures input { IfTold (H.files host.old) (λ all. Gives (λ input. input) result (input_from script.now (folder dir.now all))) }
    ensures files { IfOk result (λ input. AreObjectFiles input.files) }
    ensures said { IfOk result (λ input. are_said input.script ≡ true) }
    ensures files_kept { H.files host.new ≡ H.files host.old }
    ensures cause { HasCause (H.faults host.old) (H.faults host.new) (IsErrOf result Stop.ReadFault) }
{
    let beside = Beside {
        name: script,
        limit: MAX_SCRIPT_BYTES,
    };
    let folder = take_folder(alloc, dir, &beside, &REFUSALS, host)?;
    let script = commands(alloc, folder.text.as_slice())?;
    Ok(Input {
        files: folder.files,
        script,
    })
}

/// Reads the lines of the script.
fn commands(alloc: Global, text: &[u8]) -> Result<Script, Stop<Reason>>
    requires { length text.now < 2 ^ 32 }
    ensures lines { Gives (λ lines. lines) result (commands_of text.now) }
    ensures said { IfOk result (λ lines. are_said lines ≡ true) }
    ensures no_fault { result ≢ Err Stop.ReadFault }
{
    match read_script(alloc, text) {
        Ok(script) => Ok(script),
        Err(ScriptFail::Bad { line }) => Err(Stop::Refused(Reason::BadScript { line })),
        Err(ScriptFail::OutOfMemory) => Err(Stop::OutOfMemory),
    }
}
