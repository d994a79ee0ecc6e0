//! The memory and its calls.

ghost use Rattle.std.specs.Prelude.{ℕ, ◌≡◌, ◌<◌, ◌+◌, ◌*◌, ◌/◌, ◌-◌, ◌≤◌, Some, None, Ok, Err, true, length, map, slice_set, slice_index_or, is_some, option_map, IfSome, IsSomeAnd, IfOk, IfErr, OnOk, OnErr};
ghost use Rattle.std.specs.Result.{result_map_both};
ghost use Rattle.cell_num.specs.Limits.{page_size};
ghost use Rattle.cell_num.specs.Bits.{bytes_of};
ghost use Rattle.cell_world.specs.Placed.Pages.{IsSpace};
ghost use Rattle.cell_world.specs.Coherent.{shape_of};
ghost use Rattle.cell_world.specs.Running.Undo.{AreBytes, put_back, put_in, record_of};
ghost use Rattle.cell_mem.specs.Access.{fetched, loaded, region_for, storable, stored};
ghost use Rattle.cell_mem.specs.Index.{IsLaid, IsWhole, first_page};
ghost use Rattle.cell_mem.specs.Inside.{undo_over};
ghost use Rattle.cell_mem.specs.Perm.{permission_of};
ghost use Rattle.cell_mem.specs.State.{HasWrites, IsRoom, MemoryState, before_in, begun_at, bytes_at, empty_memory, is_sealed, is_width, journal_in, mapped, patched_at, region_from, region_of, region_with, reserved, sealed_at, size_of, undone_at, unmapped, write_at, written_at};
ghost use Rattle.cell_mem.specs.Writing.{HasBytes, put};

use crate::fault::MemFault;
use crate::fill::{fill, nothing, repeated};
use crate::number::read_number;
use crate::perm::Perm;
use crate::region::Region;
use crate::undo::Undo;
use cell_num::PAGE_SIZE;
use cell_world::Record;
use std::alloc::{AllocError, Global};
use std::marker::Model;

/// The regions of the space, each at the page that it begins at; `firsts` has the number of that
/// page at each page of the region. `sealed` has a mark for each byte of the space: 1 where it is sealed. `near` is the
/// page at which the region begins that code was last fetched from. `spare` is how many regions more a caller may map.
/// `undo` is None while no undo is begun.
#[derive(Drop)]
pub struct Memory {
    base: u64,
    pages: u32,
    regions: Vec<Option<Region>>,
    firsts: Vec<Option<usize>>,
    sealed: Vec<u8>,
    near: usize,
    spare: usize,
    undo: Option<Undo>,
    patches: u64,
    maps: u64,
}

impl Model for Memory {
    ghost use Rattle.cell_mem.specs.State.{MemoryState};

    ghost Value = { MemoryState };

    ghost use Rattle.cell_mem.specs.Inside.{IsSound, state_of};

    ghost view = { state_of };

    ghost invariant = { IsSound };
}

/// Writes a number into the region that begins at a page.
#[inline(always)]
fn write_in(regions: &mut [Option<Region>], first: usize, addr: u64, width: u8, value: u64)
    requires there { first < length regions.old }
    requires inside { IsSomeAnd (slice_index_or regions.old first None) (λ r. HasBytes r addr width) }
    ensures { regions.new ≡ slice_set regions.old first (option_map (put addr (bytes_of width value)) (slice_index_or regions.old first None)) }
{
    match &mut regions[first] {
        Some(region) => region.write(addr, width, value),
        None => unreachable!(),
    }
}

impl Memory {
    /// A memory without regions. The marks of seals are made here.
    pub fn new(alloc: Global, base: u64, pages: u32) -> Result<Memory, AllocError>
        requires { IsSpace base pages }
        ensures { IfOk result (λ m. m ≡ empty_memory base pages) }
    {
        Ok(Memory {
            base,
            pages,
            regions: nothing(alloc, pages as usize)?,
            firsts: repeated(alloc, None, pages as usize)?,
            sealed: repeated(alloc, 0, PAGE_SIZE as usize * pages as usize)?,
            near: 0,
            spare: 0,
            undo: None,
            patches: 0,
            maps: 0,
        })
    }

    /// The address of the first page.
    pub fn base(&self) -> u64
        ensures { result ≡ self.now.base }
    {
        self.base
    }

    /// How many pages the space has.
    pub fn pages(&self) -> u32
        ensures { result ≡ self.now.pages }
    {
        self.pages
    }

    /// How many patches there were, also those that were undone since. The count stands still at its last value.
    pub fn patches(&self) -> u64
        ensures { result ≡ self.now.patches }
    {
        self.patches
    }

    /// How many regions were mapped, also those that are gone. The count stands still at its last value.
    pub fn maps(&self) -> u64
        ensures { result ≡ self.now.maps }
    {
        self.maps
    }

    /// The space keeps its limits.
    pub fn space(&self)
        ensures { IsSpace self.now.base self.now.pages }
    {
        let _ = &self.base;
    }

    /// The regions are whole pages of the space, ascending by their starts and apart.
    pub fn laid_out(&self)
        ensures { IsLaid self.now.base self.now.regions (self.now.base + page_size * self.now.pages) }
    {
        let _ = &self.base;
    }

    /// What stands in the regions are bytes.
    pub fn holds_bytes(&self)
        ensures { AreBytes self.now.regions }
    {
        let _ = &self.base;
    }

    /// Lets so many regions be mapped. Room for a region at each page is there from `new` on.
    pub fn reserve(&mut self, regions: u32) -> Result<(), AllocError>
        ensures ok { OnOk result (self.new ≡ reserved self.old regions) }
        ensures err { OnErr result (self.new ≡ self.old) }
    {
        self.spare = self.spare.max(regions as usize);
        Ok(())
    }

    /// The first page of the region that covers an address.
    fn first(&self, addr: u64) -> Option<usize>
        ensures { result ≡ option_map (first_page self.now.base) (region_of self.now addr) }
    {
        if addr < self.base {
            return None;
        }
        let page = (addr - self.base) / PAGE_SIZE;
        if page >= u64::from(self.pages) {
            return None;
        }
        self.firsts[page as usize]
    }

    /// The region that covers an address.
    fn region(&self, addr: u64) -> Option<&Region>
        ensures answer { option_map (λ r. r.now) result ≡ region_of self.now addr }
        ensures whole { IfSome result (λ r. IsWhole r.now) }
    {
        let first = self.first(addr)?;
        self.regions[first].as_ref()
    }

    /// The region that has the bytes of an aligned address.
    fn region_for(&self, addr: u64, width: u8) -> Result<&Region, MemFault>
        requires { is_width width ≡ true }
        ensures answer { result_map_both (λ r. r.now) (λ fault. fault) result ≡ region_for self.now addr width }
        ensures inside { IfOk result (λ r. HasBytes r.now addr width) }
        ensures mapped { OnOk result (is_some (region_with self.now addr width) ≡ true) }
    {
        if addr % u64::from(width) != 0 {
            return Err(MemFault::Misaligned);
        }
        self.region(addr).ok_or(MemFault::Unmapped)
    }

    /// The bytes from an address on, where one region has them all. The address has to be in the
    /// region also where no byte is asked for.
    pub fn bytes(&self, addr: u64, count: u64) -> Option<&[u8]>
        ensures { option_map (λ bytes. bytes.now) result ≡ bytes_at self.now addr count }
    {
        let region = self.region(addr)?;
        region.part(addr, count)
    }

    /// The number in so many bytes, the lowest byte first, where the region may be read.
    pub fn load(&self, addr: u64, width: u8) -> Result<u64, MemFault>
        requires { is_width width ≡ true }
        ensures { result ≡ loaded self.now addr width }
    {
        let region = self.region_for(addr, width)?;
        if !region.may_read() {
            return Err(MemFault::Denied);
        }
        Ok(region.number(addr, width))
    }

    /// The instruction word at an address, where the region may be executed.
    pub fn fetch(&self, addr: u64) -> Result<u32, MemFault>
        ensures { result ≡ fetched self.now addr }
    {
        let region = self.region_for(addr, 4)?;
        if !region.may_execute() {
            return Err(MemFault::Denied);
        }
        Ok(region.word(addr))
    }

    /// The region that is near, where it covers the address.
    fn near_region(&self, addr: u64) -> Option<&Region>
        ensures found { IfSome result (λ r. Some r.now ≡ region_of self.now addr) }
        ensures whole { IfSome result (λ r. IsWhole r.now) }
    {
        let region = self.regions[self.near].as_ref()?;
        if region.has(addr) { Some(region) } else { None }
    }

    /// The region that has the bytes of an aligned address, where it is the near one.
    fn near_for(&self, addr: u64, width: u8) -> Option<&Region>
        requires { is_width width ≡ true }
        ensures answer { IfSome result (λ r. Ok r.now ≡ region_for self.now addr width) }
        ensures inside { IfSome result (λ r. HasBytes r.now addr width) }
    {
        if addr % u64::from(width) != 0 {
            return None;
        }
        self.near_region(addr)
    }

    /// The instruction word at an address, where it stands in the near region and may be executed.
    fn near_word(&self, addr: u64) -> Option<u32>
        ensures { IfSome result (λ word. Ok word ≡ fetched self.now addr) }
    {
        let region = self.near_for(addr, 4)?;
        if region.may_execute() {
            Some(region.word(addr))
        } else {
            None
        }
    }

    /// The region that covers an address, where there is one, is near from here on.
    fn come_near(&mut self, addr: u64)
        ensures { self.new ≡ self.old }
    {
        if let Some(first) = self.first(addr) {
            self.near = first;
        }
    }

    /// What `fetch` answers, sooner where the last instruction came from the same region.
    pub fn fetch_next(&mut self, addr: u64) -> Result<u32, MemFault>
        ensures answer { result ≡ fetched self.old addr }
        ensures same { self.new ≡ self.old }
    {
        if let Some(word) = self.near_word(addr) {
            return Ok(word);
        }
        self.come_near(addr);
        self.fetch(addr)
    }

    /// The place of the first of so many bytes in the space.
    fn offset(&self, addr: u64, width: u8) -> usize
        requires { is_some (region_with self.now addr width) ≡ true }
        ensures value { result ≡ addr - self.now.base }
        ensures inside { result + width ≤ length self.now.sealed }
    {
        (addr - self.base) as usize
    }

    /// Whether one of the bytes is sealed. Their marks are read as one number.
    fn is_sealed(&self, addr: u64, width: u8) -> bool
        requires width { is_width width ≡ true }
        requires mapped { is_some (region_with self.now addr width) ≡ true }
        ensures { result ≡ is_sealed self.now addr width }
    {
        let at = self.offset(addr, width);
        read_number(&self.sealed, at, width) != 0
    }

    /// The tests of a store.
    fn check_store(&self, addr: u64, width: u8) -> Result<(), MemFault>
        requires { is_width width ≡ true }
        ensures { result ≡ storable self.now addr width }
    {
        let region = self.region_for(addr, width)?;
        if !region.may_write() {
            return Err(MemFault::Denied);
        }
        if self.is_sealed(addr, width) {
            return Err(MemFault::Sealed);
        }
        Ok(())
    }

    /// What a write of so many bytes displaces.
    fn displaced_by(&self, addr: u64, width: u8) -> Record
        requires width { is_width width ≡ true }
        requires mapped { is_some (region_with self.now addr width) ≡ true }
        ensures { (value : ℕ) → result ≡ record_of self.now.regions (write_at addr width value) }
    {
        match self.region(addr) {
            Some(region) => Record {
                addr,
                width,
                before: region.number(addr, width),
            },
            None => unreachable!(),
        }
    }

    /// Puts the number's low bytes in their place, whatever the permission and the seals. No undo notes it.
    #[inline(always)]
    fn put(&mut self, addr: u64, width: u8, value: u64)
        requires mapped { is_some (region_with self.old addr width) ≡ true }
        requires none { self.old.undo ≡ None }
        ensures { self.new ≡ record self.old { regions = put_in self.old.regions (write_at addr width value) } }
    {
        let Some(first) = self.first(addr) else {
            unreachable!();
        };
        write_in(&mut self.regions, first, addr, width, value);
    }

    /// Goes on with an undo that was taken out.
    fn resume(&mut self, undo: Undo)
        requires { self.old.undo ≡ None }
        ensures { self.new ≡ record self.old { undo = Some (undo_over self.old.regions undo) } }
    {
        self.undo = Some(undo);
    }

    /// Writes the number's low bytes, and notes in the begun undo what they displace.
    fn write_noted(&mut self, addr: u64, width: u8, value: u64)
        requires width { is_width width ≡ true }
        requires mapped { is_some (region_with self.old addr width) ≡ true }
        requires undo { HasWrites self.old 1 }
        ensures { self.new ≡ written_at self.old addr width value }
    {
        let Some(mut undo) = self.undo.take() else {
            self.put(addr, width, value);
            return;
        };
        undo.note(self.displaced_by(addr, width));
        self.put(addr, width, value);
        self.resume(undo);
    }

    /// Writes the number's low bytes, whatever the permission and the seals. A begun undo notes what they displace.
    #[inline(always)]
    fn write(&mut self, addr: u64, width: u8, value: u64)
        requires width { is_width width ≡ true }
        requires mapped { is_some (region_with self.old addr width) ≡ true }
        requires undo { HasWrites self.old 1 }
        ensures { self.new ≡ written_at self.old addr width value }
    {
        match &self.undo {
            None => self.put(addr, width, value),
            Some(_) => self.write_noted(addr, width, value),
        }
    }

    /// Writes so many of the number's low bytes, the lowest first, where the region may be written
    /// and none of the bytes is sealed.
    #[inline(always)]
    pub fn store(&mut self, addr: u64, width: u8, value: u64) -> Result<(), MemFault>
        requires width { is_width width ≡ true }
        requires undo { HasWrites self.old 1 }
        ensures ok { OnOk result (stored self.old addr width value ≡ Ok self.new) }
        ensures fault { IfErr result (λ fault. stored self.old addr width value ≡ Err fault) }
        ensures err { OnErr result (self.new ≡ self.old) }
    {
        self.check_store(addr, width)?;
        self.write(addr, width, value);
        Ok(())
    }

    /// Writes so many of the number's low bytes, the lowest first, whatever the region's permission
    /// and the seals.
    pub fn patch(&mut self, addr: u64, width: u8, value: u64)
        requires width { is_width width ≡ true }
        requires mapped { is_some (region_with self.old addr width) ≡ true }
        requires undo { HasWrites self.old 1 }
        ensures { self.new ≡ patched_at self.old addr width value }
    {
        self.write(addr, width, value);
        self.patches = self.patches.saturating_add(1);
    }

    /// Seals so many bytes against stores.
    pub fn seal(&mut self, addr: u64, width: u8)
        requires width { is_width width ≡ true }
        requires mapped { is_some (region_with self.old addr width) ≡ true }
        ensures { self.new ≡ sealed_at self.old addr width }
    {
        let at = self.offset(addr, width);
        fill(&mut self.sealed, at, usize::from(width), 1);
    }

    /// The page that an address of the space lies in.
    fn page_at(&self, addr: u64) -> usize
        requires low { self.now.base ≤ addr }
        ensures { result ≡ (addr - self.now.base) / page_size }
    {
        ((addr - self.base) / PAGE_SIZE) as usize
    }

    /// Maps a new region of these bytes.
    pub fn map(&mut self, start: u64, perm: Perm, bytes: Vec<u8>)
        requires { IsRoom self.old start (length bytes.items) }
        ensures { self.new ≡ mapped self.old start (permission_of perm) bytes.items }
    {
        let first = self.page_at(start);
        let count = bytes.len() / PAGE_SIZE as usize;
        self.regions[first] = Some(Region::new(start, perm, bytes));
        fill(&mut self.firsts, first, count, Some(first));
        self.spare -= 1;
        self.maps = self.maps.saturating_add(1);
    }

    /// How many bytes the region has that starts there.
    pub fn size_from(&self, start: u64) -> u64
        requires { is_some (region_from self.now start) ≡ true }
        ensures { result ≡ size_of (region_from self.now start) }
    {
        match &self.regions[self.page_at(start)] {
            Some(region) => region.bytes().len() as u64,
            None => unreachable!(),
        }
    }

    /// Takes away the region that starts there, and its seals.
    pub fn unmap(&mut self, start: u64)
        requires { is_some (region_from self.old start) ≡ true }
        ensures { self.new ≡ unmapped self.old start }
    {
        let first = self.page_at(start);
        let Some(region) = self.regions[first].take() else {
            unreachable!();
        };
        let size = region.bytes().len();
        let at = (start - self.base) as usize;
        fill(&mut self.firsts, first, size / PAGE_SIZE as usize, None);
        fill(&mut self.sealed, at, size, 0);
        self.spare += 1;
    }

    /// From here on so many writes may be undone: stores that succeed, and patches. The room for their
    /// records is taken here.
    pub fn begin_undo(&mut self, alloc: Global, writes: u32) -> Result<(), AllocError>
        requires { self.old.undo ≡ None }
        ensures ok { OnOk result (self.new ≡ begun_at self.old writes) }
        ensures err { OnErr result (self.new ≡ self.old) }
    {
        self.undo = Some(Undo::of(alloc, writes)?);
        Ok(())
    }

    /// The records of what the writes displaced since the undo was begun, the first first. There are
    /// none where none is begun.
    pub fn journal(&self) -> &[Record]
        ensures { result.now ≡ journal_in self.now }
    {
        match &self.undo {
            Some(undo) => undo.records(),
            None => &[],
        }
    }

    /// The regions that the begun undo gives back have the starts, lengths and permissions of those that are there.
    pub fn keeps_shapes(&self)
        ensures { map shape_of (before_in self.now) ≡ map shape_of self.now.regions }
    {
        let _ = &self.base;
    }

    /// Puts back what a write displaced, where it is still mapped.
    fn put_back(&mut self, displaced: Record)
        requires { self.old.undo ≡ None }
        ensures { self.new ≡ record self.old { regions = put_back self.old.regions displaced } }
    {
        self.laid_out();
        let there = self.bytes(displaced.addr, u64::from(displaced.width));
        if there.is_some() {
            self.put(displaced.addr, displaced.width, displaced.before);
        }
    }

    /// Goes back to where the undo was begun: each region that was there then and still is holds what it
    /// held. Regions that were mapped since stay mapped, what was unmapped stays so, and all that was
    /// patched and mapped counts. This takes no memory.
    pub fn undo(&mut self)
        requires { is_some self.old.undo ≡ true }
        ensures back { self.new ≡ undone_at self.old }
        ensures shapes { map shape_of self.new.regions ≡ map shape_of self.old.regions }
    {
        let Some(undo) = self.undo.take() else {
            unreachable!();
        };
        let records = undo.records();
        for passed in 0..records.len() {
            self.put_back(records[records.len() - 1 - passed]);
        }
    }

    /// Ends the undo: what was written stays. This takes no memory.
    pub fn forget(&mut self)
        requires { is_some self.old.undo ≡ true }
        ensures { self.new ≡ record self.old { undo = None } }
    {
        self.undo = None;
    }
}
