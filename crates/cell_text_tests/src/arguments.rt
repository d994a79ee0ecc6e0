//! What a command line says.

use cell_arguments::*;
use std::alloc::{AllocError, Global};
use std::test::*;

/// The words between single spaces, of which two in a row stand for an empty word.
fn words(alloc: Global, text: &str) -> Result<Vec<String>, AllocError> {
    let mut words = Vec::new(alloc);
    for word in text.split(' ') {
        words.push(String::from_str(alloc, word)?)?;
    }
    Ok(words)
}

/// Base and pages, where the words are read.
fn memory(alloc: Global, text: &str) -> Result<Option<(u64, u32)>, AllocError> {
    let words = words(alloc, text)?;
    match read_arguments(alloc, words.as_slice()) {
        Ok(arguments) => Ok(Some((arguments.base, arguments.pages))),
        Err(ArgumentsFault::Usage) => Ok(None),
        Err(ArgumentsFault::OutOfMemory) => Err(AllocError),
    }
}

/// Words, and the base and the pages that they name.
struct Named(&'static str, u64, u32);

const NAMED: [Named; 10] = [
    Named("d s", 0x1000_0000, 1024),
    Named("--base=0x1000 d s", 0x1000, 1024),
    Named("d --base 0x1000 s --pages 16", 0x1000, 16),
    Named(
        "d s --base 0x7fffffff000 --pages=4096",
        0x7ff_ffff_f000,
        4096,
    ),
    Named("--pages 4096 -- d s", 0x1000_0000, 4096),
    Named("d -- --base", 0x1000_0000, 1024),
    Named(" s", 0x1000_0000, 1024),
    Named("d ", 0x1000_0000, 1024),
    Named("- s", 0x1000_0000, 1024),
    Named("--generate 2 --seed 3 --pages 16", 0x1000_0000, 16),
];

#[test]
fn options(rt: HostRuntime) -> Result<(), Fail> {
    for case in &NAMED {
        let wanted = Some((case.1, case.2));
        assert!(rt; memory(rt.alloc(), case.0)? == wanted, "{}", case.0);
    }
    Ok(())
}

const REFUSED: [&str; 48] = [
    "",
    "d",
    "d s x",
    "d s ",
    "d s -- x",
    "--help",
    "d s --help",
    "d s --version",
    "d s -h",
    "d s -b 0x1000",
    "d s --bas 0x1000",
    "d s --Base 0x1000",
    "d s --base 0x1000 --base 0x1000",
    "d s --pages 16 --base=0x1000 --pages 16",
    "d s --base",
    "d s --pages",
    "d s --base --pages 16",
    "d s --base=",
    "d s --base ",
    "d s --base 1000",
    "d s --base 0x",
    "d s --base 0X1000",
    "d s --base 0x0",
    "d s --base 0x01000",
    "d s --base 0xA000",
    "d s --base 0x10000001",
    "d s --base 0x7fffffff001",
    "d s --base 0x80000000000",
    "d s --base 0x10000000000001000",
    "d s --pages 15",
    "d s --pages 4097",
    "d s --pages 016",
    "d s --pages +16",
    "d s --pages 0x10",
    "d s --generate 1 --seed 1",
    "d s --generate 1",
    "d s --seed 1",
    "d --generate 1 --seed 1",
    "--generate 1",
    "--seed 1",
    "--generate 0 --seed 1",
    "--generate 401 --seed 1",
    "--generate 01 --seed 1",
    "--generate 1 --seed 00",
    "--generate 1 --seed 0x1",
    "--generate 1 --seed 18446744073709551616",
    "--generate 1 --generate 1 --seed 1",
    "--generate 1 --seed 1 --pages 15",
];

#[test]
fn refused_words(rt: HostRuntime) -> Result<(), Fail> {
    for text in &REFUSED {
        assert!(rt; memory(rt.alloc(), *text)?.is_none(), "{text}");
    }
    Ok(())
}
