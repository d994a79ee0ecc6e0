//! The spans of a cell's fields.

ghost use Rattle.std.specs.Prelude.{◌≡◌, IfOk, map};
ghost use Rattle.cell_placed.specs.Low.{IsLow};
ghost use Rattle.cell_plan.specs.Spans.{span_in};

use crate::Span;
use crate::lasts::Lasts;
use crate::places::place_of;
use cell_num::RelKind;
use cell_object::Entry;
use cell_world::NewCell;
use std::alloc::{AllocError, Global};

/// A call is two instructions, and a high part goes on to the last low part that goes with it.
pub fn span_of(lasts: &Lasts, field: &Entry) -> Span
    requires { IsLow lasts.now.cell.now }
    ensures { result ≡ span_in lasts.now.cell.now field.now }
{
    let place = place_of(lasts.cell, field);
    let (first, last) = match field.kind {
        RelKind::Call | RelKind::CallPlt => (place + 4, place + 4),
        RelKind::Hi20 | RelKind::PcrelHi20 => (place + 1, lasts.last_low(field)),
        _ => (place + 1, place),
    };
    Span {
        cell: lasts.cell.id,
        section: field.section,
        offset: field.offset,
        first,
        last,
    }
}

/// The spans of some fields of a cell, each given by its first entry. The table of entries is gone over
/// once for all of them.
pub fn spans_of(alloc: Global, cell: &NewCell, fields: &[Entry]) -> Result<Vec<Span>, AllocError>
    requires { IsLow cell.now }
    ensures { IfOk result (λ spans. spans.items ≡ map (span_in cell.now) fields.now) }
{
    let lasts = Lasts::of(alloc, cell)?;
    let mut spans = Vec::new(alloc);
    for field in fields {
        spans.push(span_of(&lasts, field))?;
    }
    Ok(spans)
}
