//! Streams and folders that fail.

ghost use Rattle.std.specs.Prelude.{◌≡◌, [], ◌∷◌, IfOk};
ghost use Rattle.cell_io.specs.Files.{names_differ};
ghost use Rattle.cell_io.specs.MemoryHost.{file_of};

use crate::folder::{Folder, ObjectFile, words_of};
use crate::samples::{POINTER, SEVEN, first_example};
use crate::sources::{object_file, object_files};
use crate::swap_transfer::{MOVES, MOVING, MOVING_TEXT};
use cell_io::{MemFile, MemHost, MemSink};
use cell_run::{Shelf, Status, cells};
use std::alloc::{AllocError, Global};
use std::process::Abort;
use std::test::Fail;

const SCRIPT: &str = "load k a\nload k b\ndump 2 1\n";

const TEXT: &[u8] = b"1 ok load #1 patched 0\n\
    2 ok load #2 patched 1\n\
    3 ok dump #2.1\n  \
    10001000 04 00 00 10 00 00 00 00 01 00 00 00 00 00 00 00\n";

/// Runs a script over this stream, in a small memory, since it is run many times.
fn write_to(
    alloc: Global,
    script: &str,
    files: &[ObjectFile],
    sink: &mut MemSink,
) -> Result<Status, AllocError> {
    let words = words_of(alloc, &["d", "s", "--pages", "16"])?;
    let mut folder = Folder { script, files };
    Ok(cells(alloc, &words, &mut folder, sink, &mut Shelf::new()))
}

#[test]
fn a_full_stream(rt: HostRuntime) -> Result<(), Fail> {
    let files = first_example(rt.alloc())?;
    for room in 0..TEXT.len() {
        let mut sink = MemSink::new(rt.alloc(), room, Vec::new(rt.alloc()))?;
        let status = write_to(rt.alloc(), SCRIPT, &files, &mut sink)?;
        assert!(rt; status == Status::WriteFault, "room {room}");
        assert!(rt; sink.written() == &TEXT[..room], "room {room}");
    }
    Ok(())
}

/// The number of a put that fails, and how much of the text was written before. Each answer is one put.
struct Failing {
    put: u32,
    written: usize,
}

const FAILING: [Failing; 3] = [
    Failing { put: 0, written: 0 },
    Failing {
        put: 1,
        written: 23,
    },
    Failing {
        put: 2,
        written: 46,
    },
];

/// The same of a run in which routines fail, and then carry a value over.
const FAILING_MOVES: [Failing; 7] = [
    Failing { put: 0, written: 0 },
    Failing {
        put: 1,
        written: 23,
    },
    Failing {
        put: 2,
        written: 46,
    },
    Failing {
        put: 3,
        written: 78,
    },
    Failing {
        put: 4,
        written: 128,
    },
    Failing {
        put: 5,
        written: 156,
    },
    Failing {
        put: 6,
        written: 203,
    },
];

/// Sees that the run ends at each of these puts, and how much of its text was written by then.
fn try_puts(
    rt: &impl Abort,
    alloc: Global,
    script: &str,
    files: &[ObjectFile],
    text: &[u8],
    puts: &[Failing],
) -> Result<(), AllocError> {
    for case in puts {
        let failing = Vec::from_slice(alloc, &[case.put])?;
        let mut sink = MemSink::new(alloc, 1000, failing)?;
        let status = write_to(alloc, script, files, &mut sink)?;
        assert!(rt; status == Status::WriteFault, "put {}", case.put);
        assert!(rt; sink.written().len() == case.written, "put {}", case.put);
        assert!(rt; text.starts_with(sink.written()), "put {}", case.put);
    }
    Ok(())
}

#[test]
fn a_put_that_fails(rt: HostRuntime) -> Result<(), Fail> {
    let alloc = rt.alloc();
    let files = first_example(alloc)?;
    try_puts(&rt, alloc, SCRIPT, &files, TEXT, &FAILING)?;
    let files = object_files(alloc, &MOVES)?;
    let text = MOVING_TEXT.as_bytes();
    try_puts(&rt, alloc, MOVING, &files, text, &FAILING_MOVES)?;
    Ok(())
}

/// A file of the folder `d`.
fn file(alloc: Global, name: &str, bytes: &[u8]) -> Result<MemFile, AllocError>
    ensures { IfOk result (λ f. file_of f ≡ record { dir = 100 ∷ []; name = name.now; bytes = bytes.now }) }
{
    Ok(MemFile {
        dir: String::from_str(alloc, "d")?,
        name: String::from_str(alloc, name)?,
        bytes: Vec::from_slice(alloc, bytes)?,
    })
}

/// The first example in a folder of which the call with this number fails.
fn failing_at(alloc: Global, call: u32) -> Result<MemHost, Fail> {
    let mut files = Vec::new(alloc);
    files.push(file(alloc, "s", SCRIPT.as_bytes())?)?;
    files.push(file(alloc, "k#b.o", &POINTER.image(alloc)?)?)?;
    files.push(file(alloc, "k#a.o", &SEVEN.image(alloc)?)?)?;
    let failing = Vec::from_slice(alloc, &[call])?;
    Ok(MemHost::new(files, failing))
}

/// The run in which routines fail, and then carry a value over, in such a folder.
fn moves_failing_at(alloc: Global, call: u32) -> Result<MemHost, Fail> {
    let mut files = Vec::new(alloc);
    files.push(file(alloc, "s", MOVING.as_bytes())?)?;
    files.push(file(alloc, "k#s.o", &object_file(alloc, &MOVES[0])?.bytes)?)?;
    files.push(file(alloc, "k#c.o", &object_file(alloc, &MOVES[1])?.bytes)?)?;
    files.push(file(alloc, "n#c-2.o", &object_file(alloc, &MOVES[2])?.bytes)?)?;
    files.push(file(alloc, "n#c-3.o", &object_file(alloc, &MOVES[3])?.bytes)?)?;
    let failing = Vec::from_slice(alloc, &[call])?;
    Ok(MemHost::new(files, failing))
}

/// Runs the script of the folder `d` over this stream.
fn run_over(alloc: Global, host: &mut MemHost, sink: &mut MemSink) -> Result<Status, AllocError> {
    let words = words_of(alloc, &["d", "s"])?;
    Ok(cells(alloc, &words, host, sink, &mut Shelf::new()))
}

fn sink(alloc: Global) -> Result<MemSink, AllocError> {
    MemSink::new(alloc, 1000, Vec::new(alloc))
}

/// Runs the script of the folder, and sees that it ends so and writes this.
fn try_folder(
    rt: &impl Abort,
    alloc: Global,
    host: &mut MemHost,
    status: Status,
    text: &[u8],
) -> Result<(), AllocError> {
    let mut sink = sink(alloc)?;
    let answer = run_over(alloc, host, &mut sink)?;
    assert!(rt; answer == status, "{answer:?}");
    assert!(rt; sink.written() == text);
    Ok(())
}

#[test]
fn a_folder_that_fails(rt: HostRuntime) -> Result<(), Fail> {
    let alloc = rt.alloc();
    // One call lists the folder, and three read its files.
    for call in 0..4 {
        let mut host = failing_at(alloc, call)?;
        try_folder(&rt, alloc, &mut host, Status::ReadFault, b"")?;
    }
    // And five.
    for call in 0..6 {
        let mut host = moves_failing_at(alloc, call)?;
        try_folder(&rt, alloc, &mut host, Status::ReadFault, b"")?;
    }
    Ok(())
}

#[test]
fn a_folder_in_any_order(rt: HostRuntime) -> Result<(), Fail> {
    let alloc = rt.alloc();
    // No fifth call comes.
    let mut host = failing_at(alloc, 4)?;
    try_folder(&rt, alloc, &mut host, Status::Done, TEXT)?;
    // And no seventh.
    let mut host = moves_failing_at(alloc, 6)?;
    let text = MOVING_TEXT.as_bytes();
    try_folder(&rt, alloc, &mut host, Status::SomeRefused, text)?;
    Ok(())
}

/// One host and one stream serve two runs, of which the first lists no folder.
#[test]
fn a_run_after_one_that_failed(rt: HostRuntime) -> Result<(), Fail> {
    let mut host = failing_at(rt.alloc(), 0)?;
    let mut sink = sink(rt.alloc())?;
    assert!(rt; run_over(rt.alloc(), &mut host, &mut sink)? == Status::ReadFault);
    assert!(rt; run_over(rt.alloc(), &mut host, &mut sink)? == Status::Done);
    assert!(rt; sink.written() == TEXT);
    Ok(())
}
