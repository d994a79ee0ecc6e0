//! Runs over a folder in memory, in which nothing fails.

use cell_io::{MemFile, MemHost, MemSink, SoundHost};
use cell_run::{Status, cells_in_memory};
use std::alloc::{AllocError, Global};
use std::test::Fail;

/// A folder `d` with the file `s`.
pub fn folder(alloc: Global, script: &str) -> Result<SoundHost, AllocError> {
    let mut files = Vec::new(alloc);
    files.push(MemFile {
        dir: String::from_str(alloc, "d")?,
        name: String::from_str(alloc, "s")?,
        bytes: Vec::from_slice(alloc, script.as_bytes())?,
    })?;
    Ok(MemHost::sound(files))
}

/// The words of a run of that file of the folder.
fn words_for(alloc: Global, script: &str) -> Result<Vec<String>, AllocError> {
    let mut words = Vec::new(alloc);
    words.push(String::from_str(alloc, "d")?)?;
    words.push(String::from_str(alloc, script)?)?;
    Ok(words)
}

/// The file that is named as the script, what it has, and what comes of it.
struct Case {
    name: &'static str,
    script: &'static str,
    status: Status,
    text: &'static [u8],
}

const CASES: [Case; 3] = [
    Case {
        name: "s",
        script: "# nothing\n",
        status: Status::Done,
        text: b"",
    },
    Case {
        name: "t",
        script: "",
        status: Status::NoScript,
        text: b"no script t\n",
    },
    Case {
        name: "s",
        script: "\nfrob\n",
        status: Status::BadScript { line: 2 },
        text: b"bad script line 2\n",
    },
];

fn outcome(alloc: Global, case: &Case) -> Result<(Status, MemSink), AllocError> {
    let words = words_for(alloc, case.name)?;
    let mut host = folder(alloc, case.script)?;
    let mut sink = MemSink::new(alloc, 1000, Vec::new(alloc))?;
    let status = cells_in_memory(alloc, &words, &mut host, &mut sink);
    Ok((status, sink))
}

#[test]
fn scripts_without_commands(rt: HostRuntime) -> Result<(), Fail> {
    for (number, case) in CASES.iter().enumerate() {
        let (status, sink) = outcome(rt.alloc(), case)?;
        assert!(rt; status == case.status, "case {number}");
        assert!(rt; sink.written() == case.text, "case {number}");
    }
    Ok(())
}
