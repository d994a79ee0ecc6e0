//! The first task that stands inside what a changed field is a part of.

ghost use Rattle.std.specs.Prelude.{◌≡◌, ◌&&◌, ◌||◌, ◌==◌, nat_lt, nat_le, List, map, None, option_map, fold, filter, Option};
ghost use Rattle.cell_world.specs.Changed.{FieldAt};
ghost use Rattle.cell_world.specs.Torn.{first_torn as first_torn_in};
ghost use Rattle.cell_world.specs.World.{Task};
ghost use Rattle.cell_plan.specs.Spans.{span_at, is_in, is_lower_span, lower_span, pc_of, torn_among, torn_in, refusal_of};

use crate::span::Span;
use cell_num::CellId;

/// A task and where it stands.
#[derive(Clone, Copy, Debug, PartialEq, Eq)]
pub struct TaskPc {
    pub task: u32,
    pub pc: u64,
}

/// A task that stands inside what the field at that place is a part of.
#[derive(Clone, Copy, Debug, PartialEq, Eq)]
pub struct Torn {
    pub task: u32,
    pub cell: CellId,
    pub section: u16,
    pub offset: u32,
}

fn is_inside(span: &Span, pc: u64) -> bool
    ensures { result ≡ is_in pc span.now }
{
    span.first <= pc && pc <= span.last
}

/// By cell, section and offset.
fn is_lower(span: &Span, other: &Span) -> bool
    ensures { result ≡ is_lower_span span.now other.now }
{
    (span.cell.0, span.section, span.offset) < (other.cell.0, other.section, other.offset)
}

/// The lower of the two; a span that is there already stays where they are at one place.
fn lower(lowest: Option<Span>, span: &Span) -> Option<Span>
    ensures { result ≡ lower_span lowest span.now }
{
    match lowest {
        Some(other) if !is_lower(span, &other) => Some(other),
        _ => Some(*span),
    }
}

/// The lowest of the spans that the address is in.
fn lowest_at(spans: &[Span], pc: u64) -> Option<Span>
    ensures { result ≡ fold lower_span None (filter (is_in pc) spans.now) }
{
    let mut lowest = None;
    for span in spans {
        if is_inside(span, pc) {
            lowest = lower(lowest, span);
        }
    }
    lowest
}

fn torn_span(spans: &[Span], task: &TaskPc) -> Option<Torn>
    ensures { result ≡ torn_in spans.now task.now }
{
    let span = lowest_at(spans, task.pc)?;
    Some(Torn {
        task: task.task,
        cell: span.cell,
        section: span.section,
        offset: span.offset,
    })
}

fn first_among(spans: &[Span], tasks: &[TaskPc]) -> Option<Torn>
    ensures { result ≡ torn_among spans.now tasks.now }
{
    for task in tasks {
        if let Some(torn) = torn_span(spans, task) {
            return Some(torn);
        }
    }
    None
}

/// The first of the tasks that stands inside what one of the fields is a part of, with the lowest
/// such field by cell, section and offset.
pub fn first_torn(spans: &[Span], tasks: &[TaskPc]) -> Option<Torn>
    ensures { (fields : List FieldAt) (ready : List Task) → spans.now ≡ map span_at fields → tasks.now ≡ map pc_of ready → option_map refusal_of result ≡ first_torn_in fields ready }
{
    first_among(spans, tasks)
}
