//! A folder of files for the program to run in.

ghost use Rattle.std.specs.declared.option.Option.TheVariants.{None};

use cell_io::{Host, HostFault, MemSink};
use cell_run::{Shelf, Status, cells};
use std::alloc::{AllocError, Global};

/// An object file of a folder.
#[derive(Drop)]
pub struct ObjectFile<'a> {
    pub name: &'a str,
    pub bytes: Vec<u8>,
}

/// A folder, of which contracts know nothing.
#[derive(Drop)]
pub struct Folder<'a> {
    pub script: &'a str,
    pub files: &'a [ObjectFile<'a>],
}

impl<'a> Folder<'a> {
    fn bytes_of(&self, name: &str) -> &[u8] {
        for file in self.files {
            if file.name == name {
                return file.bytes.as_slice();
            }
        }
        self.script.as_bytes()
    }

    fn add_names(&self, into: &mut Vec<String>) -> Result<(), AllocError> {
        let alloc = *into.allocator();
        into.push(String::from_str(alloc, "s")?)?;
        for file in self.files {
            into.push(String::from_str(alloc, file.name)?)?;
        }
        Ok(())
    }
}

impl<'a> Host for Folder<'a> {
    ghost files = { λ _. None };

    ghost faults = { λ _. 0 };

    fn list(&mut self, _dir: &str, limit: u32, into: &mut Vec<String>) -> Result<(), HostFault> {
        into.clear();
        if self.add_names(into).is_err() {
            into.clear();
            return Err(HostFault::OutOfMemory);
        }
        into.truncate(limit as usize + 1);
        Ok(())
    }

    fn read(
        &mut self,
        _dir: &str,
        name: &str,
        limit: u32,
        into: &mut Vec<u8>,
    ) -> Result<(), HostFault> {
        into.clear();
        if into.extend_from_slice(self.bytes_of(name)).is_err() {
            into.clear();
            return Err(HostFault::OutOfMemory);
        }
        into.truncate(limit as usize + 1);
        Ok(())
    }
}

/// These words, as the program gets them.
pub fn words_of(alloc: Global, words: &[&str]) -> Result<Vec<String>, AllocError> {
    let mut all = Vec::new(alloc);
    for word in words {
        all.push(String::from_str(alloc, *word)?)?;
    }
    Ok(all)
}

/// What the program answers and writes. Its words are these, and its script is `s`.
pub fn outcome(
    alloc: Global,
    words: &[&str],
    script: &str,
    files: &[ObjectFile],
) -> Result<(Status, MemSink), AllocError> {
    outcome_within(alloc, 10000, words, script, files)
}

/// The same, with room for so many bytes of its text.
pub fn outcome_within(
    alloc: Global,
    room: usize,
    words: &[&str],
    script: &str,
    files: &[ObjectFile],
) -> Result<(Status, MemSink), AllocError> {
    let words = words_of(alloc, words)?;
    let mut folder = Folder { script, files };
    let mut sink = MemSink::new(alloc, room, Vec::new(alloc))?;
    let status = cells(alloc, &words, &mut folder, &mut sink, &mut Shelf::new());
    Ok((status, sink))
}
