//! The bytes that are told of a stretch of addresses.

ghost use Rattle.std.specs.Prelude.{◌≡◌, ◌≢◌, ℕ, Some, IfOk};
ghost use Rattle.cell_num.specs.Lists.{or_else};
ghost use Rattle.cell_audit.specs.Told.{Covers, IsClear, IsSameStretch, Puts, byte_told, place_in, told_at};

use std::alloc::{AllocError, Global};

/// For each address of a stretch the byte that was told first, if one was.
#[derive(Debug, Drop)]
pub struct Told {
    base: u64,
    bytes: Vec<Option<u8>>,
}

impl Told {
    /// Nothing is told, and the stretch is empty.
    pub(crate) fn empty(alloc: Global) -> Told
        ensures { IsClear result 0 0 }
    {
        Told {
            base: 0,
            bytes: Vec::new(alloc),
        }
    }

    /// Nothing is told of so many bytes from the base on.
    pub(crate) fn of(alloc: Global, base: u64, size: usize) -> Result<Told, AllocError>
        ensures { IfOk result (λ told. IsClear told base size) }
    {
        let mut bytes = Vec::with_capacity(alloc, size)?;
        for _ in 0..size {
            bytes.push(None)?;
        }
        Ok(Told { base, bytes })
    }

    /// Tells the bytes of the addresses from there on, but for those that are told already. Nothing is kept of addresses
    /// outside the stretch, among them those from 2^64 on.
    pub(crate) fn put(&mut self, start: u64, bytes: &[u8])
        ensures { Puts start bytes.now self.old self.new }
    {
        for (i, byte) in bytes.iter().enumerate() {
            let Some(addr) = start.checked_add(i as u64) else {
                return;
            };
            self.put_byte(addr, *byte);
        }
    }

    /// Tells the byte of the address, if it is in the stretch and isn't told already.
    fn put_byte(&mut self, addr: u64, byte: u8)
        ensures here { Covers self.old addr → told_at self.new addr ≡ or_else (told_at self.old addr) (Some byte) }
        ensures others { (other : ℕ) → other ≢ addr → told_at self.new other ≡ told_at self.old other }
        ensures same { IsSameStretch self.old self.new }
    {
        let Some(place) = self.place_of(addr) else {
            return;
        };
        if self.bytes[place].is_none() {
            self.bytes[place] = Some(byte);
        }
    }

    /// The byte that is told of the address; 0 where none is.
    pub fn at(&self, addr: u64) -> u8
        ensures { result ≡ byte_told self.now addr }
    {
        match self.place_of(addr) {
            Some(place) => self.bytes[place].unwrap_or(0),
            None => 0,
        }
    }

    /// Where the address stands in the stretch.
    fn place_of(&self, addr: u64) -> Option<usize>
        ensures { result ≡ place_in self.now addr }
    {
        if addr < self.base {
            return None;
        }
        let place = addr - self.base;
        if place < self.bytes.len() as u64 {
            Some(place as usize)
        } else {
            None
        }
    }
}
