//! Stand-ins for what the system gives: a stream whose calls go as they are told, and a folder of them.

use std::alloc::{AllocError, Global};
use std::fs::{Metadata, OpenFile, OpenOptions};
use std::io;
use std::io::{Error, ErrorKind, Read, Seek, SeekFrom, Write};
use std::rt::Files;

/// What one read or write does.
#[derive(Clone, Copy)]
pub enum Step {
    /// It moves at most so many bytes.
    Moves(usize),
    Interrupted,
    Fails,
}

/// A stream whose reads and writes take a step each, and go on without a limit after the last. Reads
/// give the bytes, over and over where they are to.
#[derive(Drop)]
pub struct Steps {
    pub steps: &'static [Step],
    pub taken: Vec<u8>,
    pub gives: &'static [u8],
    pub flushes: bool,
}

impl Steps {
    fn next(&mut self) -> io::Result<usize> {
        let Some((first, others)) = self.steps.split_first() else {
            return Ok(usize::MAX);
        };
        self.steps = others;
        match first {
            Step::Moves(most) => Ok(*most),
            Step::Interrupted => Err(Error::from(ErrorKind::Interrupted)),
            Step::Fails => Err(Error::from(ErrorKind::Other)),
        }
    }
}

impl Write for Steps {
    fn write(&mut self, buf: &[u8]) -> io::Result<usize> {
        let count = self.next()?.min(buf.len());
        self.taken.extend_from_slice(&buf[..count])?;
        Ok(count)
    }

    fn flush(&mut self) -> io::Result<()> {
        if self.flushes {
            Ok(())
        } else {
            Err(Error::from(ErrorKind::Other))
        }
    }
}

impl Read for Steps {
    fn read(&mut self, buf: &mut [u8]) -> io::Result<usize> {
        let count = self.next()?.min(buf.len()).min(self.gives.len());
        buf[..count].copy_from_slice(&self.gives[..count]);
        self.gives = &self.gives[count..];
        Ok(count)
    }
}

fn unsupported<T>() -> io::Result<T> {
    Err(Error::from(ErrorKind::Unsupported))
}

impl Seek for Steps {
    fn seek(&mut self, _to: SeekFrom) -> io::Result<u64> {
        unsupported()
    }
}

impl OpenFile for Steps {
    fn metadata(&self) -> io::Result<Metadata> {
        unsupported()
    }

    fn set_len(&self, _size: u64) -> io::Result<()> {
        unsupported()
    }

    fn sync_all(&self) -> io::Result<()> {
        unsupported()
    }

    fn sync_data(&self) -> io::Result<()> {
        unsupported()
    }
}

/// A file system in which each path is one file of these bytes, or no regular file, which is out of
/// memory when it is opened, and each folder has these names, each ended by a zero byte.
#[derive(Drop)]
pub struct Disk {
    pub alloc: Global,
    pub regular: bool,
    pub bytes: &'static [u8],
    pub names: &'static [u8],
    pub steps: &'static [Step],
}

impl Clone for Disk {
    fn clone(&self) -> Result<Disk, AllocError> {
        Ok(Disk {
            alloc: self.alloc,
            regular: self.regular,
            bytes: self.bytes,
            names: self.names,
            steps: self.steps,
        })
    }
}

impl Alloc for Disk {
    type A = Global;

    fn alloc(&self) -> Global {
        self.alloc
    }
}

impl Files for Disk {
    type File = Steps;

    type Dir = Steps;

    fn open_file(&self, _how: &OpenOptions, _path: &str) -> io::Result<Steps> {
        if !self.regular {
            return Err(Error::from(ErrorKind::OutOfMemory));
        }
        Ok(Steps {
            steps: self.steps,
            taken: Vec::new(self.alloc),
            gives: self.bytes,
            flushes: true,
        })
    }

    fn open_dir(&self, _path: &str) -> io::Result<Steps> {
        Ok(Steps {
            steps: self.steps,
            taken: Vec::new(self.alloc),
            gives: self.names,
            flushes: true,
        })
    }

    fn metadata(&self, _path: &str) -> io::Result<Metadata> {
        if self.regular {
            Ok(Metadata::of_file(self.bytes.len() as u64))
        } else {
            Ok(Metadata::of_dir())
        }
    }

    fn symlink_metadata(&self, path: &str) -> io::Result<Metadata> {
        self.metadata(path)
    }

    fn copy(&self, _from: &str, _to: &str) -> io::Result<u64> {
        unsupported()
    }

    fn rename(&self, _from: &str, _to: &str) -> io::Result<()> {
        unsupported()
    }

    fn remove_file(&self, _path: &str) -> io::Result<()> {
        unsupported()
    }

    fn create_dir(&self, _path: &str) -> io::Result<()> {
        unsupported()
    }

    fn remove_dir(&self, _path: &str) -> io::Result<()> {
        unsupported()
    }

    fn remove_dir_all<B: std::alloc::Allocator>(&self, _alloc: B, _path: &str) -> io::Result<()> {
        unsupported()
    }
}
