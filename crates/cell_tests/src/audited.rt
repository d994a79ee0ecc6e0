//! What the audit says of a dump.

use crate::folder::{Folder, ObjectFile, outcome_within, words_of};
use cell_io::MemSink;
use cell_verdict::{AuditStatus, cellaudit};
use std::alloc::{AllocError, Global};
use std::process::Abort;
use std::test::Fail;

/// Has a dump audited that lies beside these object files.
pub fn audit_of(
    alloc: Global,
    dump: &str,
    files: &[ObjectFile],
) -> Result<(AuditStatus, MemSink), AllocError> {
    let words = words_of(alloc, &["d", "s"])?;
    let mut folder = Folder {
        script: dump,
        files,
    };
    let mut sink = MemSink::new(alloc, 10000, Vec::new(alloc))?;
    let status = cellaudit(alloc, &words, &mut folder, &mut sink);
    Ok((status, sink))
}

/// The most bytes of a dump of what a test's script leaves.
const DUMP_ROOM: usize = 67_108_864;

/// These words with a small memory, unless they say how large it is: the audit goes over all of it.
fn small(alloc: Global, words: &[&'static str]) -> Result<Vec<&'static str>, AllocError> {
    let mut all = Vec::from_slice(alloc, words)?;
    if words.len() == 2 {
        all.extend_from_slice(&["--pages", "64"])?;
    }
    Ok(all)
}

/// Does a script with `dumpall` behind it in a small memory, and sees that the dump is clean.
pub fn try_audit(
    rt: &impl Abort,
    alloc: Global,
    words: &[&'static str],
    files: &[ObjectFile],
    script: &str,
) -> Result<(), Fail> {
    let words = small(alloc, words)?;
    let mut longer = String::from_str(alloc, script)?;
    longer.push_str("\ndumpall\n")?;
    let (_, dump) = outcome_within(alloc, DUMP_ROOM, &words, longer.as_str(), files)?;
    let dump = std::str::from_utf8(dump.written()).ok().ok_or("UTF-8")?;
    let (_, sink) = audit_of(alloc, dump, files)?;
    let said = std::str::from_utf8(sink.written()).ok().ok_or("UTF-8")?;
    assert!(rt; said == "ok\n", "{script} leaves {said}");
    Ok(())
}
