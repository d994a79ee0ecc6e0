//! The file that brings a name.

ghost use Rattle.std.specs.Prelude.{◌≡◌, ◌<◌, ◌≤◌, IfOk, IfSome, length, map, option_map};
ghost use Rattle.cell_num.specs.Limits.{max_file_bytes};
ghost use Rattle.cell_world.specs.Gather.{source_of, depot_files};
ghost use Rattle.cell_world.specs.Names.{chain};
ghost use Rattle.cell_gather.specs.Choosing.{choose_now, nearest_now, one_in, space_name, lacking};
ghost use Rattle.cell_world.specs.Following.{Follows};
ghost use Rattle.cell_gather.specs.Growing.{new_of, IsGrowing, with_new};
ghost use Rattle.cell_world.specs.declared.refusal.Refusal.TheVariants.{Ambiguous};

use crate::Gathered;
use crate::load::Load;
use cell_depot::DepotFault;
use cell_num::{CellId, Name};
use cell_space::crate_of;
use cell_world::{Fail, File, Refusal};
use std::alloc::{AllocError, Global};

/// A file, and the namespace in whose depot it is.
#[derive(Clone, Copy)]
pub struct Near<'a> {
    pub ns: u16,
    pub file: &'a File,
}

/// E9: a cell lacks a name, and nothing brings it.
fn missing(alloc: Global, name: &[u8], needed_by: CellId) -> Result<Refusal, AllocError>
    ensures { IfOk result (λ refusal. refusal ≡ lacking name.now needed_by) }
{
    let name = Name::of(alloc, name)?;
    Ok(Refusal::Missing { name, needed_by })
}

/// E6: more than one file may bring it.
fn ambiguous(alloc: Global, one: &File, two: &File) -> Result<Refusal, AllocError>
    ensures { IfOk result (λ refusal. refusal ≡ Ambiguous one.now.name two.now.name) }
{
    Ok(Refusal::Ambiguous {
        one: one.name.copy(alloc)?,
        two: two.name.copy(alloc)?,
    })
}

impl<'a> Load<'a> {
    /// The one file of a stem in the namespace's own depot.
    fn in_depot(&self, alloc: Global, ns: u16, stem: &[u8]) -> Result<Option<&'a File>, Fail>
        requires { ns < length self.now.spaces.now.namespaces }
        ensures file { Follows (λ file. option_map (λ f. source_of f.now) file) result (one_in (depot_files (map source_of self.now.depot.now) (space_name self.now.spaces.now.namespaces ns) stem.now)) }
        ensures small { IfOk result (λ file. IfSome file (λ f. length f.now.bytes ≤ max_file_bytes)) }
    {
        let depot = self.depot;
        match depot.find(self.spaces.ns_name(ns).bytes(), stem) {
            Ok(file) => Ok(Some(file)),
            Err(DepotFault::NoObject) => Ok(None),
            Err(DepotFault::Ambiguous { one, two }) => {
                let refusal = ambiguous(alloc, depot.at(one), depot.at(two))?;
                Err(Fail::Refused(refusal))
            }
        }
    }

    /// The one file of a stem in the nearest depot that has one, from the namespace itself up to `k`.
    fn nearest(&self, alloc: Global, ns: u16, stem: &[u8]) -> Result<Option<Near<'a>>, Fail>
        requires { ns < length self.now.spaces.now.namespaces }
        ensures file { Follows (λ near. option_map (λ n. (n.ns, source_of n.file.now)) near) result (nearest_now (map source_of self.now.depot.now) self.now.spaces.now.namespaces (chain self.now.spaces.now.namespaces ns) stem.now) }
        ensures there { IfOk result (λ near. IfSome near (λ n. n.ns < length self.now.spaces.now.namespaces)) }
        ensures small { IfOk result (λ near. IfSome near (λ n. length n.file.now.bytes ≤ max_file_bytes)) }
    {
        for space in self.spaces.chain(ns) {
            if let Some(file) = self.in_depot(alloc, space, stem)? {
                return Ok(Some(Near { ns: space, file }));
            }
        }
        Ok(None)
    }

    /// The file that brings a name that a cell in the namespace lacks. A crate that is there is not
    /// brought again.
    pub fn choose(
        &self,
        alloc: Global,
        gathered: &Gathered,
        ns: u16,
        needed_by: CellId,
        name: &[u8],
    ) -> Result<Near<'a>, Fail>
        requires growing { IsGrowing self.now.spaces.now self.now.next gathered.now }
        requires there { ns < length self.now.spaces.now.namespaces }
        ensures file { Follows (λ n. (n.ns, source_of n.file.now)) result (choose_now (map source_of self.now.depot.now) (with_new self.now.spaces.now (new_of gathered.now)) ns needed_by name.now) }
        ensures there { IfOk result (λ n. n.ns < length self.now.spaces.now.namespaces) }
        ensures small { IfOk result (λ n. length n.file.now.bytes ≤ max_file_bytes) }
    {
        let Some(end) = crate_of(name) else {
            return Err(Fail::Refused(missing(alloc, name, needed_by)?));
        };
        let stem = &name[..end];
        if gathered.ahead.has_stem(ns, stem) {
            return Err(Fail::Refused(missing(alloc, name, needed_by)?));
        }
        match self.nearest(alloc, ns, stem)? {
            Some(near) => Ok(near),
            None => Err(Fail::Refused(missing(alloc, name, needed_by)?)),
        }
    }
}
