//! Scripts over the same files.

use crate::audited::try_audit;
use crate::folder::{ObjectFile, outcome};
use crate::sources::{SourceFile, object_files};
use cell_run::Status;
use std::alloc::Global;
use std::process::Abort;
use std::test::Fail;

/// A script, and what comes of it.
#[derive(Drop)]
pub struct Case {
    pub script: &'static str,
    pub status: Status,
    pub text: &'static str,
}

/// Does a script over these files, with these words, and sees that this comes of it, and that the dump of what it leaves is clean.
pub fn try_script(
    rt: &impl Abort,
    alloc: Global,
    words: &[&'static str],
    files: &[ObjectFile],
    script: &str,
    status: Status,
    text: &str,
) -> Result<(), Fail> {
    let (found, sink) = outcome(alloc, words, script, files)?;
    let written = std::str::from_utf8(sink.written()).ok().ok_or("UTF-8")?;
    assert!(rt; written == text, "{script} gave {written}");
    assert!(rt; found == status, "{script} gave {found:?}");
    if found == Status::Done || found == Status::SomeRefused {
        try_audit(rt, alloc, words, files, script)?;
    }
    Ok(())
}

/// Does each script over all the files, with these words.
pub fn try_all(
    rt: &impl Abort,
    alloc: Global,
    words: &[&'static str],
    sources: &[SourceFile],
    cases: &[Case],
) -> Result<(), Fail> {
    let files = object_files(alloc, sources)?;
    for case in cases {
        try_script(
            rt,
            alloc,
            words,
            &files,
            case.script,
            case.status,
            case.text,
        )?;
    }
    Ok(())
}
