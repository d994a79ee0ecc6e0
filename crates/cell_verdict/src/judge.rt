//! The verdict on a dump in a folder.

ghost use Rattle.std.specs.Prelude.{◌≡◌, ◌≤◌, IfErr, IfOk, IsErrOf, length};
ghost use Rattle.cell_io.specs.Causes.{HasCause};
ghost use Rattle.cell_io.specs.Files.{folder};
ghost use Rattle.cell_io.specs.Within.{IfTold, Gives};
ghost use Rattle.cell_input.specs.Objects.{AreObjectFiles};
ghost use Rattle.cell_num.specs.Limits.{max_dump_bytes};
ghost use Rattle.cell_verdict.specs.Verdict.{verdict_in, verdict_of};

use crate::status::{REFUSALS, Reason};
use cell_audit::AuditFail;
use cell_compared::audit;
use cell_depot::Depot;
use cell_input::{Beside, Folder, take_folder};
use cell_io::{Host, Stop};
use cell_num::MAX_DUMP_BYTES;
use std::alloc::Global;

/// Reads the folder, and audits the dump of that name in it: nothing where it is clean, or its first fault.
pub fn judge<H: Host>(
    alloc: Global,
    dir: &str,
    dump: &str,
    host: &mut H,
) -> Result<Option<AuditFail>, Stop<Reason>>
    ensures verdict { IfTold (H.files host.old) (λ all.
        Gives (λ verdict. verdict) result (verdict_in dump.now (folder dir.now all))) }
    ensures files { H.files host.new ≡ H.files host.old }
    ensures cause { HasCause (H.faults host.old) (H.faults host.new) (IsErrOf result Stop.ReadFault) }
{
    let beside = Beside {
        name: dump,
        limit: MAX_DUMP_BYTES,
    };
    let folder = take_folder(alloc, dir, &beside, &REFUSALS, host)?;
    verdict(alloc, folder)
}

/// Audits the text against the object files.
fn verdict(alloc: Global, folder: Folder) -> Result<Option<AuditFail>, Stop<Reason>>
    requires short { length folder.text ≤ max_dump_bytes }
    requires files { AreObjectFiles folder.files }
    ensures verdict { IfOk result (λ verdict. verdict ≡ verdict_of folder) }
    ensures stop { IfErr result (λ stop. stop ≡ Stop.OutOfMemory) }
{
    let depot = Depot::of_files(alloc, folder.files.into_vec())?;
    match audit(alloc, folder.text.as_slice(), &depot) {
        Ok(()) => Ok(None),
        Err(AuditFail::OutOfMemory) => Err(Stop::OutOfMemory),
        Err(fault) => Ok(Some(fault)),
    }
}
