//! What a change changes in cells that stay.

ghost use Rattle.std.specs.Prelude.{◌≡◌, ◌<◌, ◌^◌, ◌++◌, [], ◌∷◌, All, Bool, IfOk, OnOk, cond, filter, length, map, true};
ghost use Rattle.cell_object.specs.declared.object.Entry.{Entry as SomeEntry};
ghost use Rattle.cell_link.specs.declared.value.FieldValue.{FieldValue as Value};
ghost use Rattle.cell_placed.specs.Low.{IsLow};
ghost use Rattle.cell_plan.specs.Rising.{rises as Rises};
ghost use Rattle.cell_plan.specs.Spans.{span_in};
ghost use Rattle.cell_plan.specs.Taking.{Takes};

use crate::changes::{Change, marked_fields};
use crate::lasts::Lasts;
use crate::rising::rises;
use crate::span::Span;
use crate::spans::span_of;
use crate::steps::take_steps;
use crate::values::values_of;
use cell_commit::Rewiring;
use cell_link::{FieldValue, link_fields};
use cell_object::Entry;
use cell_world::{Fail, LinkRow, NewCell, Target};
use std::alloc::{AllocError, Global};
use std::mem::replace;

/// The fields that change, by what they hold then; what becomes of links; and where no task may stand.
#[derive(Drop)]
pub struct Changed {
    pub patches: Vec<FieldValue>,
    pub links: Rewiring,
    pub spans: Vec<Span>,
}

/// Room for what the fields of one cell after another hold, and for marks of those that change.
#[derive(Drop)]
pub(crate) struct FieldRoom {
    values: Vec<FieldValue>,
    marks: Vec<bool>,
}

impl FieldRoom {
    pub(crate) fn new(alloc: Global) -> FieldRoom {
        FieldRoom {
            values: Vec::new(alloc),
            marks: Vec::new(alloc),
        }
    }
}

impl Changed {
    /// Nothing changes, with room for so many fields and links that lead elsewhere.
    pub fn with_room(alloc: Global, room: usize) -> Result<Changed, AllocError>
        ensures patches { IfOk result (λ changed. changed.patches.items ≡ []) }
        ensures moves { IfOk result (λ changed. changed.links.moves.items ≡ []) }
        ensures backs { IfOk result (λ changed. changed.links.backs.items ≡ []) }
        ensures binds { IfOk result (λ changed. changed.links.binds.items ≡ []) }
        ensures unbinds { IfOk result (λ changed. changed.links.unbinds.items ≡ []) }
        ensures spans { IfOk result (λ changed. changed.spans.items ≡ []) }
    {
        Ok(Changed {
            patches: Vec::with_capacity(alloc, room)?,
            links: Rewiring {
                moves: Vec::with_capacity(alloc, room)?,
                backs: Vec::with_capacity(alloc, room)?,
                binds: Vec::new(alloc),
                unbinds: Vec::new(alloc),
            },
            spans: Vec::with_capacity(alloc, room)?,
        })
    }

    /// Adds fields that change in one cell.
    fn add(&mut self, alloc: Global, cell: &NewCell, changes: &[Change]) -> Result<(), AllocError>
        requires { IsLow cell.now }
        ensures patches { OnOk result (self.new.patches.items ≡ self.old.patches.items ++ map (λ f. f.value) changes.now) }
        ensures spans { OnOk result (self.new.spans.items ≡ self.old.spans.items ++ map (span_in cell.now) (map (λ f. f.field) changes.now)) }
        ensures links { self.new.links ≡ self.old.links }
    {
        let lasts = Lasts::of(alloc, cell)?;
        for change in changes {
            self.add_field(&lasts, &change.field, &change.value, true)?;
        }
        Ok(())
    }

    /// Adds a field with what it holds by then, where it changes.
    fn add_field(
        &mut self,
        lasts: &Lasts,
        field: &Entry,
        value: &FieldValue,
        changes: bool,
    ) -> Result<(), AllocError>
        requires { IsLow lasts.now.cell.now }
        ensures patches { OnOk result (self.new.patches.items ≡ self.old.patches.items ++ cond changes (value.now ∷ []) []) }
        ensures spans { OnOk result (self.new.spans.items ≡ self.old.spans.items ++ cond changes (span_in lasts.now.cell.now field.now ∷ []) []) }
        ensures links { self.new.links ≡ self.old.links }
    {
        if changes {
            self.patches.push(*value)?;
            self.spans.push(span_of(lasts, field))?;
        }
        Ok(())
    }

    /// Adds the marked ones of a cell's fields, each of which is an entry.
    fn add_marked(
        &mut self,
        lasts: &Lasts,
        values: &[FieldValue],
        marks: &[bool],
    ) -> Result<(), AllocError>
        requires low { IsLow lasts.now.cell.now }
        requires values { length values.now ≡ length lasts.now.cell.now.object.entries }
        requires marks { length marks.now ≡ length lasts.now.cell.now.object.entries }
        ensures patches { (value : SomeEntry → Value) (kept : SomeEntry → Bool) → values.now ≡ map value lasts.now.cell.now.object.entries → marks.now ≡ map kept lasts.now.cell.now.object.entries →
            OnOk result (self.new.patches.items ≡ self.old.patches.items ++ map value (filter kept lasts.now.cell.now.object.entries)) }
        ensures spans { (kept : SomeEntry → Bool) → marks.now ≡ map kept lasts.now.cell.now.object.entries →
            OnOk result (self.new.spans.items ≡ self.old.spans.items ++ map (span_in lasts.now.cell.now) (filter kept lasts.now.cell.now.object.entries)) }
        ensures links { self.new.links ≡ self.old.links }
    {
        let entries = lasts.cell.object.entries.as_slice();
        for index in 0..entries.len() {
            self.add_field(lasts, &entries[index], &values[index], marks[index])?;
        }
        Ok(())
    }

    /// Adds what changes in a cell each of whose entries is a field of its own.
    fn take_in_rising(
        &mut self,
        alloc: Global,
        room: &mut FieldRoom,
        cell: &NewCell,
        targets: &[Target],
        links: &[LinkRow],
    ) -> Result<(), Fail>
        requires rises { Rises 0 cell.now.object.entries ≡ true }
        requires each { length targets.now ≡ length cell.now.object.entries }
        requires few { length cell.now.object.entries < 2 ^ 32 }
        requires places { All (λ p. p.start < 2 ^ 63) cell.now.places }
        requires low { IsLow cell.now }
        ensures { Takes cell.now targets.now links.now self.old result self.new }
    {
        let values = replace(&mut room.values, Vec::new(alloc));
        let values = values_of(alloc, values, cell, targets)?;
        take_steps(&mut room.marks, &mut self.links, cell, targets, links)?;
        let lasts = Lasts::of(alloc, cell)?;
        self.add_marked(&lasts, values.as_slice(), &room.marks)?;
        room.values = values.into_vec();
        Ok(())
    }

    /// Adds what changes in a cell, whatever its table.
    fn take_in_any(
        &mut self,
        alloc: Global,
        room: &mut FieldRoom,
        cell: &NewCell,
        targets: &[Target],
        links: &[LinkRow],
    ) -> Result<(), Fail>
        requires each { length targets.now ≡ length cell.now.object.entries }
        requires few { length cell.now.object.entries < 2 ^ 32 }
        requires places { All (λ p. p.start < 2 ^ 63) cell.now.places }
        requires low { IsLow cell.now }
        ensures { Takes cell.now targets.now links.now self.old result self.new }
    {
        let values = link_fields(alloc, cell, targets)?;
        take_steps(&mut room.marks, &mut self.links, cell, targets, links)?;
        let changes = marked_fields(alloc, &cell.object, values.as_slice(), &room.marks)?;
        self.add(alloc, cell, &changes)?;
        Ok(())
    }

    /// Adds what changes in one cell: `links` are its links before, and `targets` what its entries name by
    /// now. The first entry that doesn't fit is refused.
    pub(crate) fn take_in(
        &mut self,
        alloc: Global,
        room: &mut FieldRoom,
        cell: &NewCell,
        targets: &[Target],
        links: &[LinkRow],
    ) -> Result<(), Fail>
        requires each { length targets.now ≡ length cell.now.object.entries }
        requires few { length cell.now.object.entries < 2 ^ 32 }
        requires places { All (λ p. p.start < 2 ^ 63) cell.now.places }
        requires low { IsLow cell.now }
        ensures { Takes cell.now targets.now links.now self.old result self.new }
    {
        if rises(cell.object.entries.as_slice()) {
            self.take_in_rising(alloc, room, cell, targets, links)
        } else {
            self.take_in_any(alloc, room, cell, targets, links)
        }
    }
}
