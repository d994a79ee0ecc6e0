//! A region: where it starts, what it may be used for, and its bytes.

ghost use Rattle.std.specs.Prelude.{All, ◌<◌, ◌≡◌, ◌+◌, ◌≤◌, true, option_map};
ghost use Rattle.cell_num.specs.Bits.{bytes_of};
ghost use Rattle.cell_world.specs.Running.Memory.{covers};
ghost use Rattle.cell_mem.specs.Access.{number_in};
ghost use Rattle.cell_mem.specs.Perm.{permission_of};
ghost use Rattle.cell_mem.specs.State.{part_of};
ghost use Rattle.cell_mem.specs.Writing.{HasBytes, put};

use crate::number::{put_number, read_number, read_word};
use crate::perm::Perm;
use bitflags::Flags;
use std::marker::Model;

/// A region of the memory. Contracts see the machine's region, which has three flags where this
/// one has a set.
#[derive(Drop)]
pub struct Region {
    start: u64,
    perm: Perm,
    bytes: Vec<u8>,
}

impl Model for Region {
    ghost use Rattle.cell_world.specs.World.{Region as Seen};

    ghost Value = { Seen };

    ghost use Rattle.cell_mem.specs.Region.{region_of_fields};

    ghost view = { region_of_fields };
}

impl Region {
    pub fn new(start: u64, perm: Perm, bytes: Vec<u8>) -> Region
        ensures all { result ≡ record { start = start; permission = permission_of perm; bytes = bytes.items } }
        ensures bytes { All (λ b. b < 256) bytes.items }
    {
        Region { start, perm, bytes }
    }

    pub fn bytes(&self) -> &[u8]
        ensures { result.now ≡ self.now.bytes }
    {
        self.bytes.as_slice()
    }

    /// Whether the address is in the region.
    pub fn has(&self, addr: u64) -> bool
        ensures { result ≡ covers self.now addr }
    {
        if addr < self.start {
            return false;
        }
        addr - self.start < self.bytes().len() as u64
    }

    pub fn may_read(&self) -> bool
        ensures { result ≡ self.now.permission.read }
    {
        self.perm.contains(Perm::READ)
    }

    pub fn may_write(&self) -> bool
        ensures { result ≡ self.now.permission.write }
    {
        self.perm.contains(Perm::WRITE)
    }

    pub fn may_execute(&self) -> bool
        ensures { result ≡ self.now.permission.exec }
    {
        self.perm.contains(Perm::EXEC)
    }

    /// So many bytes from an address on, where they are in the region.
    pub fn part(&self, addr: u64, count: u64) -> Option<&[u8]>
        requires { covers self.now addr ≡ true }
        ensures { option_map (λ bytes. bytes.now) result ≡ part_of self.now addr count }
    {
        let bytes = self.bytes();
        let from = (addr - self.start) as usize;
        if count > (bytes.len() - from) as u64 {
            return None;
        }
        Some(&bytes[from..from + count as usize])
    }

    /// The number in so many bytes, the lowest byte first.
    pub fn number(&self, addr: u64, width: u8) -> u64
        requires low { 1 ≤ width }
        requires high { width ≤ 8 }
        requires inside { HasBytes self.now addr width }
        ensures { result ≡ number_in self.now addr width }
    {
        read_number(self.bytes(), (addr - self.start) as usize, width)
    }

    /// The number in four bytes.
    pub fn word(&self, addr: u64) -> u32
        requires { HasBytes self.now addr 4 }
        ensures { result ≡ number_in self.now addr 4 }
    {
        read_word(self.bytes(), (addr - self.start) as usize)
    }

    /// Writes so many of the number's low bytes, the lowest first.
    #[inline(always)]
    pub fn write(&mut self, addr: u64, width: u8, value: u64)
        requires { HasBytes self.old addr width }
        ensures { self.new ≡ put addr (bytes_of width value) self.old }
    {
        let at = (addr - self.start) as usize;
        put_number(&mut self.bytes, at, width, value);
    }
}
