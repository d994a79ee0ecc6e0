//! What the program writes.

use crate::broken::LONE_LOW;
use crate::cases::try_script;
use crate::folder::ObjectFile;
use crate::gnu::{GNU_CODE, GNU_KINDS, GNU_POINTER};
use crate::samples::{POINTER, SEVEN, ZEROS_FULL, ZEROS_OVER};
use cell_run::Status;
use std::alloc::Global;
use std::test::Fail;

/// A script, the object files beside it, and what comes of it.
struct Case {
    script: &'static str,
    files: &'static [&'static str],
    status: Status,
    text: &'static str,
}

const CASES: [Case; 20] = [
    Case {
        script: "load k a\nload k b\ndump 2 1\n",
        files: &["k#a.o", "k#b.o"],
        status: Status::Done,
        text: "1 ok load #1 patched 0\n\
            2 ok load #2 patched 1\n\
            3 ok dump #2.1\n  \
            10001000 04 00 00 10 00 00 00 00 01 00 00 00 00 00 00 00\n",
    },
    Case {
        script: "load k a\nload k b\ndumpall\n",
        files: &["k#a.o", "k#b.o"],
        status: Status::Done,
        text: "1 ok load #1 patched 0\n\
            2 ok load #2 patched 1\n\
            3 ok dumpall\n  \
            space 10000000 1024\n  \
            ns 0 k -\n  \
            cell 1 0 a k#a.o attached\n  \
            place 1 1 10000000\n  \
            cell 2 0 b k#b.o attached\n  \
            place 2 1 10001000\n  \
            link 2.1 0 1.1\n  \
            name 0 a::n 1.1+0\n  \
            name 0 b::p 2.1+0\n  \
            bytes 1.1 10000000 0700000000000000\n  \
            bytes 2.1 10001000 04000010000000000100000000000000\n  \
            end\n",
    },
    Case {
        script: "",
        files: &[],
        status: Status::Done,
        text: "",
    },
    Case {
        script: "load k a\ndump 1 1",
        files: &["k#a.o"],
        status: Status::Done,
        text: "1 ok load #1 patched 0\n2 ok dump #1.1\n  10000000 07 00 00 00 00 00 00 00\n",
    },
    Case {
        script: "load k c",
        files: &["k#a.o"],
        status: Status::SomeRefused,
        text: "1 E5 no-object c\n",
    },
    Case {
        script: "load k b\ndump 2 1",
        files: &["k#a.o", "k#b.o"],
        status: Status::Done,
        text: "1 ok load #1 #2 patched 1\n2 ok dump #2.1\n  10001000 07 00 00 00 00 00 00 00\n",
    },
    Case {
        script: "load k b\ndump 2 1",
        files: &["k#b.o"],
        status: Status::SomeRefused,
        text: "1 E9 missing a::n #1\n2 E1 unknown 2\n",
    },
    Case {
        script: "load k a\nload k a",
        files: &["k#a.o"],
        status: Status::SomeRefused,
        text: "1 ok load #1 patched 0\n2 E8 duplicate a #1\n",
    },
    Case {
        script: "load q a",
        files: &["k#a.o"],
        status: Status::SomeRefused,
        text: "1 E1 unknown q\n",
    },
    Case {
        script: "load k a\ndump 1 9",
        files: &["k#a.o"],
        status: Status::SomeRefused,
        text: "1 ok load #1 patched 0\n2 E1 unknown 9\n",
    },
    Case {
        script: "load k full",
        files: &["k#full.o"],
        status: Status::Done,
        text: "1 ok load #1 patched 0\n",
    },
    Case {
        script: "load k over",
        files: &["k#over.o"],
        status: Status::SomeRefused,
        text: "1 E11 exhausted 1025 1024\n",
    },
    Case {
        script: "load k a\nload k full\nload k b",
        files: &["k#a.o", "k#b.o", "k#full.o"],
        status: Status::SomeRefused,
        text: "1 ok load #1 patched 0\n2 E11 exhausted 1024 1023\n3 ok load #2 patched 1\n",
    },
    Case {
        script: "load k x",
        files: &["k#x.o"],
        status: Status::SomeRefused,
        text: "1 E7 object k#x.o rule 24 at 120\n",
    },
    Case {
        script: "load k",
        files: &[],
        status: Status::BadScript { line: 1 },
        text: "bad script line 1\n",
    },
    Case {
        script: "# a comment\n\nfrob\nload k",
        files: &[],
        status: Status::BadScript { line: 3 },
        text: "bad script line 3\n",
    },
    // Other files than objects in the folder, and a comment and a blank line between commands.
    Case {
        script: "# a comment\n\t load  k a \n\n#\ndump 1 1",
        files: &["k#a.o", "K#a.o", "k#a"],
        status: Status::Done,
        text: "2 ok load #1 patched 0\n5 ok dump #1.1\n  10000000 07 00 00 00 00 00 00 00\n",
    },
    // The bytes are those of GNU ld, with the sections at these starts: bench/objects.py links.
    // `.text` of `k#g.o` is empty and takes the page at 10001000.
    Case {
        script: "load k a\nload k g\ndump 2 1\ndump 2 2",
        files: &["k#a.o", "k#g.o"],
        status: Status::Done,
        text: "1 ok load #1 patched 0\n\
            2 ok load #2 patched 2\n\
            3 ok dump #2.1\n\
            4 ok dump #2.2\n  \
            10002000 00 00 00 10 00 00 00 00 08 00 00 10 00 00 00 00\n",
    },
    Case {
        script: "load k c\ndump 1 1\ndump 1 3\ndump 1 4\ndump 1 5",
        files: &["k#c.o"],
        status: Status::Done,
        text: "1 ok load #1 patched 12\n\
            2 ok dump #1.1\n  \
            10000000 17 15 00 00 13 05 05 00 63 08 05 00 97 00 00 00\n  \
            10000010 e7 80 00 01 83 35 85 00 67 80 00 00 17 26 00 00\n  \
            10000020 13 06 86 fe 97 26 00 00 83 a6 06 fe 17 27 00 00\n  \
            10000030 23 2c d7 fc 67 80 00 00\n\
            3 ok dump #1.3\n  \
            10002000 09 00 00 00 06 00 00 00\n\
            4 ok dump #1.4\n\
            5 ok dump #1.5\n  \
            10001000 05 00 00 00 00 00 00 00 00 00 00 10 00 00 00 00\n  \
            10001010 1c 00 00 00\n",
    },
    Case {
        script: "load k r\ndump 1 1\ndump 1 3",
        files: &["k#r.o"],
        status: Status::Done,
        text: "1 ok load #1 patched 28\n\
            2 ok dump #1.1\n  \
            10000000 13 00 00 00 37 15 00 10 13 05 45 00 83 25 45 00\n  \
            10000010 23 22 b5 00 37 16 00 10 13 06 06 02 ef 00 80 02\n  \
            10000020 63 12 b5 02 e3 e0 a5 fe 6f f0 df fd 97 00 00 00\n  \
            10000030 e7 80 80 01 00 00 00 00 00 00 00 00 00 00 00 00\n  \
            10000040 00 00 00 00 97 16 00 00 93 86 c6 fb 23 be d6 fa\n  \
            10000050 67 80 00 00\n\
            3 ok dump #1.3\n  \
            10001000 00 10 00 10 40 00 00 00 44 f0 ff ff ff ff ff ff\n  \
            10001010 44 00 00 10 00 00 00 00 2f f0 ff ff 45 00 00 10\n  \
            10001020 40 00 44 00 40 46 c2 d1 c8 3c\n",
    },
];

/// What is in the file of this name.
fn bytes_of(alloc: Global, name: &str) -> Result<Vec<u8>, Fail> {
    match name {
        "k#b.o" | "k#a" => POINTER.image(alloc),
        "k#x.o" => Ok(Vec::from_slice(alloc, &LONE_LOW)?),
        "k#full.o" => ZEROS_FULL.image(alloc),
        "k#over.o" => ZEROS_OVER.image(alloc),
        "k#g.o" => Ok(Vec::from_slice(alloc, &GNU_POINTER)?),
        "k#c.o" => Ok(Vec::from_slice(alloc, &GNU_CODE)?),
        "k#r.o" => Ok(Vec::from_slice(alloc, &GNU_KINDS)?),
        _ => SEVEN.image(alloc),
    }
}

fn files_of(
    alloc: Global,
    names: &'static [&'static str],
) -> Result<Vec<ObjectFile<'static>>, Fail> {
    let mut files = Vec::new(alloc);
    for name in names {
        files.push(ObjectFile {
            name: *name,
            bytes: bytes_of(alloc, *name)?,
        })?;
    }
    Ok(files)
}

#[test]
fn scripts(rt: HostRuntime) -> Result<(), Fail> {
    for case in &CASES {
        let files = files_of(rt.alloc(), case.files)?;
        try_script(
            &rt,
            rt.alloc(),
            &["d", "s"],
            &files,
            case.script,
            case.status,
            case.text,
        )?;
    }
    Ok(())
}

#[test]
fn a_file_cut_short(rt: HostRuntime) -> Result<(), Fail> {
    let mut bytes = SEVEN.image(rt.alloc())?;
    bytes.truncate(487);
    let files = [ObjectFile {
        name: "k#a.o",
        bytes,
    }];
    let text = "1 E7 object k#a.o rule 6 at 40\n";
    try_script(
        &rt,
        rt.alloc(),
        &["d", "s"],
        &files,
        "load k a",
        Status::SomeRefused,
        text,
    )
}
