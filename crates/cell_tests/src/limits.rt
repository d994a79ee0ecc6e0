//! How much a folder may have, and one more.

use crate::folder::words_of;
use cell_io::{MemSink, RepeatHost};
use cell_run::{Shelf, Status, What, cells};
use std::test::Fail;

/// So many names beside the script and so many object files, the bytes of the script, which is a comment,
/// and those of each object file; and what comes of it.
struct Limit {
    names: u32,
    objects: u32,
    script: usize,
    object: usize,
    status: Status,
    text: &'static [u8],
}

const NOTHING: Limit = Limit {
    names: 0,
    objects: 0,
    script: 0,
    object: 0,
    status: Status::Done,
    text: b"",
};

/// Each limit, and one past it.
const LIMITS: [Limit; 10] = [
    Limit {
        names: 65535,
        ..NOTHING
    },
    Limit {
        names: 65536,
        status: Status::TooLarge {
            what: What::Names,
            limit: 65536,
        },
        text: b"too large: names limit 65536\n",
        ..NOTHING
    },
    Limit {
        objects: 1024,
        ..NOTHING
    },
    Limit {
        objects: 1025,
        status: Status::TooLarge {
            what: What::Files,
            limit: 1024,
        },
        text: b"too large: files limit 1024\n",
        ..NOTHING
    },
    Limit {
        objects: 1,
        object: 1048576,
        ..NOTHING
    },
    Limit {
        objects: 1,
        object: 1048577,
        status: Status::TooLarge {
            what: What::FileBytes,
            limit: 1048576,
        },
        text: b"too large: file-bytes limit 1048576\n",
        ..NOTHING
    },
    Limit {
        objects: 64,
        object: 1048576,
        ..NOTHING
    },
    Limit {
        objects: 65,
        object: 1048576,
        status: Status::TooLarge {
            what: What::AllBytes,
            limit: 67108864,
        },
        text: b"too large: all-bytes limit 67108864\n",
        ..NOTHING
    },
    Limit {
        script: 1048576,
        ..NOTHING
    },
    Limit {
        script: 1048577,
        status: Status::TooLarge {
            what: What::ScriptBytes,
            limit: 1048576,
        },
        text: b"too large: script-bytes limit 1048576\n",
        ..NOTHING
    },
];

#[test]
fn limits_of_a_folder(rt: HostRuntime) -> Result<(), Fail> {
    let alloc = rt.alloc();
    let words = words_of(alloc, &["d", "s"])?;
    for case in &LIMITS {
        let mut host = RepeatHost {
            alloc,
            names: case.names,
            objects: case.objects,
            script: vec![in alloc; b'#'; case.script]?,
            object: vec![in alloc; 0; case.object]?,
        };
        let mut sink = MemSink::new(alloc, 1000, Vec::new(alloc))?;
        let status = cells(alloc, &words, &mut host, &mut sink, &mut Shelf::new());
        assert_eq!(rt; status, case.status);
        assert!(rt; sink.written() == case.text);
    }
    Ok(())
}
