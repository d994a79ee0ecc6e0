//! Runs over machines of given answers.

use crate::in_memory::folder;
use cell_io::MemSink;
use cell_num::{CellId, Listed, Name};
use cell_run::{Answer, FixedMachine, Status, cells};
use cell_world::{Refusal, Reply};
use std::alloc::{AllocError, Global};
use std::test::Fail;

fn numbered(alloc: Global, number: u32) -> Result<Listed<CellId>, AllocError> {
    Ok(Listed::from_vec(Vec::from_slice(alloc, &[CellId(number)])?))
}

/// The answer to a load that brings cell 7.
fn one_answer(alloc: Global) -> Result<Vec<Answer>, AllocError> {
    let mut answers = Vec::new(alloc);
    answers.push(Answer::Done(Reply::Load {
        fresh: numbered(alloc, 7)?,
        patched: 9,
    }))?;
    Ok(answers)
}

/// The same, a refusal, and the answer to a purge.
fn three_answers(alloc: Global) -> Result<Vec<Answer>, AllocError> {
    let mut answers = one_answer(alloc)?;
    answers.push(Answer::Refused(Refusal::Unknown {
        word: Name::of(alloc, b"k")?,
    }))?;
    answers.push(Answer::Done(Reply::Purge {
        removed: numbered(alloc, 7)?,
    }))?;
    Ok(answers)
}

/// The words between single spaces.
fn split(alloc: Global, text: &str) -> Result<Vec<String>, AllocError> {
    let mut words = Vec::new(alloc);
    for word in text.split(' ') {
        words.push(String::from_str(alloc, word)?)?;
    }
    Ok(words)
}

/// What comes of these words and the script `s` where a machine gives these answers.
fn run(
    alloc: Global,
    words: &str,
    script: &str,
    answers: Vec<Answer>,
) -> Result<(Status, MemSink), AllocError> {
    let mut machine = FixedMachine::new(answers);
    let words = split(alloc, words)?;
    let mut host = folder(alloc, script)?;
    let mut sink = MemSink::new(alloc, 1000, Vec::new(alloc))?;
    let status = cells(alloc, &words, &mut host, &mut sink, &mut machine);
    Ok((status, sink))
}

/// What a machine of given answers answers is what is written, whatever the commands would do elsewhere.
#[test]
fn given_answers(rt: HostRuntime) -> Result<(), Fail> {
    let answers = one_answer(rt.alloc())?;
    let (status, sink) = run(rt.alloc(), "d s", "load k a\n", answers)?;
    assert!(rt; status == Status::Done);
    assert!(rt; sink.written() == b"1 ok load #7 patched 9\n".as_slice());
    Ok(())
}

/// Where a machine has no answer left, the run ends, and what was written before stays.
#[test]
fn too_few_answers(rt: HostRuntime) -> Result<(), Fail> {
    let answers = one_answer(rt.alloc())?;
    let (status, sink) = run(rt.alloc(), "d s", "load k a\npurge\n", answers)?;
    assert!(rt; status == Status::OutOfMemory);
    assert!(rt; sink.written() == b"1 ok load #7 patched 9\n".as_slice());
    Ok(())
}

/// The totals of a generated run are counted from the answers.
#[test]
fn totals_of_given_answers(rt: HostRuntime) -> Result<(), Fail> {
    let answers = three_answers(rt.alloc())?;
    let (status, sink) = run(rt.alloc(), "--generate 1 --seed 0", "", answers)?;
    assert!(rt; status == Status::SomeRefused);
    let totals = b"commands 3 accepted 2 refused 1 cells 0 patched 9\n".as_slice();
    assert!(rt; sink.written() == totals);
    Ok(())
}
