//! Folders of equal objects, and scripts that repeat themselves.

use crate::folder::words_of;
use crate::sources::assembled;
use cell_io::{MemSink, RepeatHost};
use cell_run::{Shelf, Status, cells};
use std::alloc::{AllocError, Global};
use std::test::Fail;

/// What the program answers and writes with these words, at most so many bytes. Its object files `k#c1.o`, `k#c2.o` and
/// so on are all assembled from one source.
pub fn outcome_with(
    alloc: Global,
    words: &[&str],
    objects: u32,
    source: &str,
    script: String,
    room: usize,
) -> Result<(Status, MemSink), Fail> {
    let words = words_of(alloc, words)?;
    let mut host = RepeatHost {
        alloc,
        names: 0,
        objects,
        script: script.into_bytes(),
        object: assembled(alloc, "k#c.o", source)?.bytes,
    };
    let mut sink = MemSink::new(alloc, room, Vec::new(alloc))?;
    let status = cells(alloc, &words, &mut host, &mut sink, &mut Shelf::new());
    Ok((status, sink))
}

/// The same with the folder and the script alone.
pub fn outcome(
    alloc: Global,
    objects: u32,
    source: &str,
    script: String,
    room: usize,
) -> Result<(Status, MemSink), Fail> {
    outcome_with(alloc, &["d", "s"], objects, source, script, room)
}

/// Adds these lines to the script, so many times.
pub fn add_times(script: &mut String, times: u32, lines: &str) -> Result<(), AllocError> {
    for _ in 0..times {
        script.push_str(lines)?;
    }
    Ok(())
}
