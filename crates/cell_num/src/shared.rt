//! Bytes of a buffer that has several owners.

ghost use Rattle.std.specs.Prelude.{◌≡◌, ◌==◌, ◌+◌, ◌≤◌, length, IfOk, IfSome, slice_range};
ghost use Rattle.std.specs.Str.{bytes_eq};

use std::alloc::{AllocError, Global};
use std::fmt;
use std::fmt::{Debug, Formatter, Write};
use std::marker::Model;
use std::rc::Rc;

/// A part of a buffer, which contracts see as the list of the part's bytes. The buffer stays as long
/// as a part of it does.
#[derive(Drop)]
pub struct Shared {
    buffer: Rc<Vec<u8>>,
    start: usize,
    len: usize,
}

impl Model for Shared {
    ghost use Rattle.std.specs.Prelude.{List, ℕ, ◌+◌, ◌≤◌, length, slice_range};

    ghost Value = { List ℕ };

    ghost view = { λ s. slice_range s.buffer.value.items s.start (s.start + s.len) };

    ghost invariant = { λ s. s.start + s.len ≤ length s.buffer.value.items };
}

/// One more owner of a buffer.
fn handle(buffer: &Rc<Vec<u8>>) -> Result<Rc<Vec<u8>>, AllocError>
    ensures { IfOk result (λ other. other.value.items ≡ buffer.now.value.items) }
{
    buffer.clone()
}

impl Shared {
    /// The bytes of a vector, of which none is copied. It takes the memory of one small block.
    pub fn from_vec(alloc: Global, items: Vec<u8>) -> Result<Shared, AllocError>
        ensures { IfOk result (λ shared. shared ≡ items.items) }
    {
        let len = items.len();
        let buffer = Rc::new(alloc, items)?;
        Ok(Shared {
            buffer,
            start: 0,
            len,
        })
    }

    pub fn len(&self) -> usize
        ensures { result ≡ length self.now }
    {
        self.len
    }

    pub fn is_empty(&self) -> bool
        ensures { result ≡ (length self.now == 0) }
    {
        self.len == 0
    }

    pub fn as_slice(&self) -> &[u8]
        ensures { result.now ≡ self.now }
    {
        &self.buffer.as_slice()[self.start..self.start + self.len]
    }

    /// A second handle on the same bytes. It takes no memory, and is an error only where there are
    /// more handles than a count can have.
    pub fn share(&self) -> Result<Shared, AllocError>
        ensures { IfOk result (λ other. other ≡ self.now) }
    {
        Ok(Shared {
            buffer: handle(&self.buffer)?,
            start: self.start,
            len: self.len,
        })
    }

    /// A handle on some of the bytes. It takes no memory, as `share`.
    pub fn part(&self, start: usize, len: usize) -> Result<Shared, AllocError>
        requires { start + len ≤ length self.now }
        ensures { IfOk result (λ part. part ≡ slice_range self.now start (start + len)) }
    {
        Ok(Shared {
            buffer: handle(&self.buffer)?,
            start: self.start + start,
            len,
        })
    }

    /// Whether the bytes are these.
    pub fn equals(&self, other: &[u8]) -> bool
        ensures { result ≡ bytes_eq self.now other.now }
    {
        self.as_slice() == other
    }
}

impl Debug for Shared {
    fn fmt<W: Write>(&self, f: &mut Formatter<W>) -> fmt::Result {
        f.debug_list().slice(self.as_slice()).finish()
    }
}
