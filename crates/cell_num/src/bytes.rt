//! Bytes, whoever has them.

ghost use Rattle.std.specs.Prelude.{◌≡◌, ◌==◌, IfOk, replicate};
ghost use Rattle.std.specs.List.{before_first, position};

use crate::Shared;
use std::alloc::{AllocError, Global};
use std::marker::Model;

/// Who has the bytes: a vector of their own, or a buffer with several owners.
#[derive(Debug, Drop)]
enum Store {
    Own(Vec<u8>),
    Part(Shared),

    /// What stands before the first zero byte of a part.
    Text(Shared),
}

/// Bytes, as a name or the contents of a section.
#[derive(Debug, Drop)]
pub struct Bytes {
    store: Store,
}

impl Model for Bytes {
    ghost use Rattle.std.specs.Prelude.{List, ℕ};

    ghost Value = { List ℕ };

    ghost use Rattle.cell_num.specs.Stored.{stored};

    ghost view = { λ b. stored b.store };
}

impl Bytes {
    /// The vector's bytes; it takes no memory.
    pub fn from_vec(items: Vec<u8>) -> Bytes
        ensures { result ≡ items.items }
    {
        Bytes {
            store: Store::Own(items),
        }
    }

    /// The bytes of the part; it takes no memory.
    pub fn from_shared(part: Shared) -> Bytes
        ensures { result ≡ part }
    {
        Bytes {
            store: Store::Part(part),
        }
    }

    /// The bytes before the first zero byte of the part, or all of them; it takes no memory. Where they
    /// end is looked for each time that they are asked for, and not here.
    pub fn text(part: Shared) -> Bytes
        ensures { result ≡ before_first (λ b. b == 0) part }
    {
        Bytes {
            store: Store::Text(part),
        }
    }

    pub fn as_slice(&self) -> &[u8]
        ensures { result.now ≡ self.now }
    {
        match &self.store {
            Store::Own(items) => items.as_slice(),
            Store::Part(part) => part.as_slice(),
            Store::Text(part) => before_zero(part.as_slice()),
        }
    }
}

/// So many bytes that are 0.
pub fn zeros(alloc: Global, count: usize) -> Result<Vec<u8>, AllocError>
    ensures { IfOk result (λ bytes. bytes.items ≡ replicate count 0) }
{
    vec![in alloc; 0u8; count]
}

fn first_zero(bytes: &[u8]) -> Option<usize>
    ensures { result ≡ position (λ b. b == 0) bytes.now }
{
    bytes.iter().position(|b| *b == 0)
}

/// The bytes before the first zero byte, or all.
#[tactic(auto, using(crate::proofs::FirstZeros::zeros))]
fn before_zero(bytes: &[u8]) -> &[u8]
    ensures { result.now ≡ before_first (λ b. b == 0) bytes.now }
{
    match first_zero(bytes) {
        Some(len) => &bytes[..len],
        None => bytes,
    }
}
