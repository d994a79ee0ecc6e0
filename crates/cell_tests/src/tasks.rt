//! Tasks over whole scripts.

use crate::cases::try_script;
use crate::folder::outcome;
use crate::sources::{SourceFile, object_files};
use cell_run::Status;
use std::alloc::{AllocError, Global};
use std::test::Fail;

/// A script, the words after `d s`, the source of `k#f.o`, and what comes of it.
struct Case {
    script: &'static str,
    words: &'static [&'static str],
    source: &'static str,
    status: Status,
    text: &'static str,
}

/// Stores into a sealed field.
const SEALED: &str = ".text\n.globl w::go\nw::go: la t0,w::p\nsd zero,0(t0)\nret\n\
    .data\nw::p: .quad w::go";

/// Divides the least number by -1 and puts the quotient out.
const LEAST: &str = ".text\n.globl d::go\nd::go: li t0,1\nslli t0,t0,63\nli t1,-1\ndiv a0,t0,t1\n\
    li a7,2\necall\nli a7,0\necall";

/// Puts its argument out, yields, and ends with it.
const YIELDS: &str = ".text\n.globl y::go\ny::go: li a7,1\necall\nli a7,3\necall\nli a7,0\necall";

/// Ends at once by its first return, with its argument.
const RETURNS: &str = ".text\n.globl f::go\nf::go: ret";

/// Puts out what stands in x2, x1 and x10, a byte of x10 and one of 256 more.
const FIRST: &str =
    ".text\n.globl f::go\nf::go: mv s0,a0\nmv a0,sp\nli a7,2\necall\nmv a0,ra\necall\n\
    mv a0,s0\necall\nli a7,1\necall\naddi a0,a0,256\necall\nli a0,92\necall\nret";

/// Places where no task may begin, and two where one may.
const ENTRIES: &str =
    ".text\n.globl f::go\nf::go: ret\n.globl f::last\nf::last: nop\n.globl f::end\nf::end:\n\
    .data\n.globl f::x\nf::x: .quad 0, 0";

/// Text that fills its page, so that the stack of the first task stands behind it.
const FULL: &str = ".text\n.zero 4092\n.globl f::go\nf::go: nop";

/// Turns without end.
const LOOPS: &str = ".text\n.globl f::go\nf::go: j f::go";

static CASES: [Case; 12] = [
    Case {
        script: "load k f\ndump 1 1\nspawn k w::go 0\nstep 1 10\nstep 1 1\nstep 1 0\ntasks\nrun 5\n",
        words: &[],
        source: SEALED,
        status: Status::SomeRefused,
        text: "1 ok load #1 patched 3\n2 ok dump #1.1\n  \
            10000000 97 12 00 00 93 82 02 00 23 b0 02 00 67 80 00 00\n\
            3 ok spawn t1 pc 10000000\n4 ok step t1 turns 3 fault store at 10000008\n\
            5 E3 faulted t1 store 10000008\n6 E3 faulted t1 store 10000008\n\
            7 ok tasks\n  t1 fault store at 10000008 root #1\n8 ok run\n",
    },
    Case {
        script: "load k f\nspawn k d::go 0\nstep 1 50\n",
        words: &[],
        source: LEAST,
        status: Status::Done,
        text: "1 ok load #1 patched 0\n2 ok spawn t1 pc 10000000\n\
            3 ok step t1 turns 8 done 9223372036854775808\n  out t1 9223372036854775808\n",
    },
    Case {
        script: "load k f\nspawn k y::go 65\nspawn k y::go 66\ntasks\nrun 100\ntasks\nrun 100\ntasks\nrun 0\n",
        words: &[],
        source: YIELDS,
        status: Status::Done,
        text: "1 ok load #1 patched 0\n2 ok spawn t1 pc 10000000\n3 ok spawn t2 pc 10000000\n\
            4 ok tasks\n  t1 ready pc 10000000 root #1\n  t2 ready pc 10000000 root #1\n\
            5 ok run\n  t1 turns 4 ready\n  out t1 A\n  t2 turns 4 ready\n  out t2 B\n\
            6 ok tasks\n  t1 ready pc 10000010 root #1\n  t2 ready pc 10000010 root #1\n\
            7 ok run\n  t1 turns 2 done 65\n  t2 turns 2 done 66\n8 ok tasks\n9 ok run\n",
    },
    // A yield doesn't stop a step. A task whose turns are not enough goes on from where it stands.
    Case {
        script: "load k f\nspawn k y::go 10\nstep 1 0\nstep 1 1\nrun 1\nstep 1 3\nstep 1 9\nstep 1 9\nkill 1\n",
        words: &[],
        source: YIELDS,
        status: Status::SomeRefused,
        text: "1 ok load #1 patched 0\n2 ok spawn t1 pc 10000000\n3 ok step t1 turns 0 ready\n\
            4 ok step t1 turns 1 ready\n5 ok run\n  t1 turns 1 ready\n  out t1 \\x0a\n\
            6 ok step t1 turns 3 ready\n7 ok step t1 turns 1 done 10\n8 E1 unknown 1\n9 E1 unknown 1\n",
    },
    // A stack is given back where its task ends or is killed, and not where it faults. 16 pages: one of text, three
    // stacks, and three pages more.
    Case {
        script: "load k f\nspawn k f::go 7\nspawn k f::go 8\nspawn k f::go 9\nspawn k f::go 0\nstep 2 5\n\
            spawn k f::go 0\nkill 3\nspawn k f::go 0x10\nspawn k f::go 0\ntasks\nload k f\nstep 5 1\n",
        words: &["--pages", "16"],
        source: RETURNS,
        status: Status::SomeRefused,
        text: "1 ok load #1 patched 0\n2 ok spawn t1 pc 10000000\n3 ok spawn t2 pc 10000000\n\
            4 ok spawn t3 pc 10000000\n5 E11 exhausted 4 3\n6 ok step t2 turns 1 done 8\n\
            7 ok spawn t4 pc 10000000\n8 ok kill t3\n9 ok spawn t5 pc 10000000\n10 E11 exhausted 4 3\n\
            11 ok tasks\n  t1 ready pc 10000000 root #1\n  t4 ready pc 10000000 root #1\n  \
            t5 ready pc 10000000 root #1\n12 E8 duplicate f #1\n13 ok step t5 turns 1 done 16\n",
    },
    Case {
        script: "load k f\nspawn k w::go 0\nspawn k w::go 0\nspawn k w::go 0\nrun 9\nspawn k w::go 0\nkill 2\n\
            spawn k w::go 0\n",
        words: &["--pages", "16"],
        source: SEALED,
        status: Status::SomeRefused,
        text: "1 ok load #1 patched 3\n2 ok spawn t1 pc 10000000\n3 ok spawn t2 pc 10000000\n\
            4 ok spawn t3 pc 10000000\n5 ok run\n  t1 turns 3 fault store at 10000008\n  \
            t2 turns 3 fault store at 10000008\n  t3 turns 3 fault store at 10000008\n\
            6 E11 exhausted 4 2\n7 ok kill t2\n8 ok spawn t4 pc 10000000\n",
    },
    // x2 is 16 below the end of the stack, which stands behind the page of text; x1 is 0. A byte is put out modulo 256.
    Case {
        script: "load k f\nspawn k f::go 0x41\nstep 1 100\n",
        words: &[],
        source: FIRST,
        status: Status::Done,
        text: "1 ok load #1 patched 0\n2 ok spawn t1 pc 10000000\n3 ok step t1 turns 15 done 92\n  \
            out t1 268455920065AA\\x5c\n",
    },
    Case {
        script: "load k f\nspawn q f::go 0\nspawn k f::no 0\nspawn k f::x 0\nspawn k f::end 0\n\
            spawn k f::last 18446744073709551615\nspawn k f::go 0\ntasks\nstep 9 1\nkill 0\n",
        words: &[],
        source: ENTRIES,
        status: Status::SomeRefused,
        text: "1 ok load #1 patched 0\n2 E1 unknown q\n3 E10 no-entry f::no\n4 E10 no-entry f::x\n\
            5 E10 no-entry f::end\n6 ok spawn t1 pc 10000004\n7 ok spawn t2 pc 10000000\n\
            8 ok tasks\n  t1 ready pc 10000004 root #1\n  t2 ready pc 10000000 root #1\n\
            9 E1 unknown 9\n10 E1 unknown 0\n",
    },
    // E10 comes before E11.
    Case {
        script: "load k f\nspawn k f::go 0\nspawn k f::go 0\nspawn k f::go 0\nspawn k f::no 0\nspawn k f::go 0\n",
        words: &["--pages", "16"],
        source: LOOPS,
        status: Status::SomeRefused,
        text: "1 ok load #1 patched 1\n2 ok spawn t1 pc 10000000\n3 ok spawn t2 pc 10000000\n\
            4 ok spawn t3 pc 10000000\n5 E10 no-entry f::no\n6 E11 exhausted 4 3\n",
    },
    Case {
        script: "load k f\nspawn k f::go 0\nstep 1 100000\nrun 10000\nkill 1\nrun 10000\n",
        words: &[],
        source: LOOPS,
        status: Status::Done,
        text: "1 ok load #1 patched 1\n2 ok spawn t1 pc 10000000\n3 ok step t1 turns 100000 ready\n\
            4 ok run\n  t1 turns 10000 ready\n5 ok kill t1\n6 ok run\n",
    },
    // Off the end of the text, into a stack.
    Case {
        script: "load k f\nspawn k f::go 0\nstep 1 9\ntasks\n",
        words: &[],
        source: FULL,
        status: Status::Done,
        text: "1 ok load #1 patched 0\n2 ok spawn t1 pc 10000ffc\n\
            3 ok step t1 turns 2 fault fetch at 10001000\n\
            4 ok tasks\n  t1 fault fetch at 10001000 root #1\n",
    },
    Case {
        script: "tasks\nrun 1\nstep 1 1\nkill 1\nspawn k f::go 0\n",
        words: &[],
        source: LOOPS,
        status: Status::SomeRefused,
        text: "1 ok tasks\n2 ok run\n3 E1 unknown 1\n4 E1 unknown 1\n5 E10 no-entry f::go\n",
    },
];

/// The words of the program, with these after its folder and script.
fn all_words(alloc: Global, more: &[&'static str]) -> Result<Vec<&'static str>, AllocError> {
    let mut words = Vec::from_slice(alloc, &["d", "s"])?;
    for word in more {
        words.push(*word)?;
    }
    Ok(words)
}

#[test]
fn scripts(rt: HostRuntime) -> Result<(), Fail> {
    for case in &CASES {
        let file = SourceFile {
            name: "k#f.o",
            source: case.source,
        };
        let files = object_files(rt.alloc(), &[file])?;
        let words = all_words(rt.alloc(), case.words)?;
        try_script(
            &rt,
            rt.alloc(),
            &words,
            &files,
            case.script,
            case.status,
            case.text,
        )?;
    }
    Ok(())
}

/// A crate whose function yields before it calls another crate's.
const CALLER: SourceFile = SourceFile {
    name: "k#m.o",
    source: ".text\n.globl m::go\nm::go: li a7,3\necall\ncall o::f\nli a7,0\necall",
};

const CALLED: SourceFile = SourceFile {
    name: "k#o.o",
    source: ".text\n.globl o::f\no::f: li a0,1\nret",
};

/// A load, and one task more than there may be.
fn crowd(alloc: Global) -> Result<String, AllocError> {
    let mut script = String::from_str(alloc, "load k m\n")?;
    for _ in 0..65 {
        script.push_str("spawn k m::go 0\n")?;
    }
    script.push_str("run 9\nkill 64\nspawn k m::go 0\n")?;
    Ok(script)
}

#[test]
fn a_task_too_many(rt: HostRuntime) -> Result<(), Fail> {
    let files = object_files(rt.alloc(), &[CALLER, CALLED])?;
    let script = crowd(rt.alloc())?;
    let (status, sink) = outcome(rt.alloc(), &["d", "s"], script.as_str(), &files)?;
    let text = std::str::from_utf8(sink.written()).ok().ok_or("UTF-8")?;
    assert!(rt; status == Status::SomeRefused);
    let wanted =
        "65 ok spawn t64 pc 10000000\n66 E4 too-many tasks 64\n67 ok run\n  t1 turns 2 ready\n  t2 turns 2 ready\n";
    assert!(rt; text.contains(wanted), "{text}");
    let wanted = "  t64 turns 2 ready\n68 ok kill t64\n69 ok spawn t65 pc 10000000\n";
    assert!(rt; text.ends_with(wanted), "{text}");
    Ok(())
}
