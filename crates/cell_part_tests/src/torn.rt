//! Tasks inside sequences.

use crate::cell::{START, cell, entry};
use cell_num::RelKind;
use cell_object::Entry;
use cell_plan::{CellId, Span, TaskPc, Torn, first_torn, spans_of};
use std::alloc::{AllocError, Global};
use std::test::*;

/// An entry of section 1: its offset, its kind, and the symbol that it names.
struct Part(u32, RelKind, u32);

fn entries_of(alloc: Global, parts: &[Part]) -> Result<Vec<Entry>, AllocError> {
    let mut entries = Vec::new(alloc);
    for part in parts {
        entries.push(entry(part.0, part.1, part.2))?;
    }
    Ok(entries)
}

/// The spans of these fields of a cell with these entries.
fn spans(alloc: Global, entries: &[Part], fields: &[Part]) -> Result<Vec<Span>, AllocError> {
    let entries = entries_of(alloc, entries)?;
    let fields = entries_of(alloc, fields)?;
    let cell = cell(alloc, 1, &entries)?;
    spans_of(alloc, &cell, &fields)
}

const CALL: &[Part] = &[Part(8, RelKind::Call, 1)];

const CALL_PLT: &[Part] = &[Part(0, RelKind::CallPlt, 1)];

const JUMP: &[Part] = &[Part(0, RelKind::Jal, 1)];

/// A high part with two low parts.
const HIGH_AND_LOW: &[Part] = &[
    Part(0, RelKind::Lo12I, 2),
    Part(4, RelKind::Hi20, 2),
    Part(8, RelKind::Lo12I, 2),
    Part(16, RelKind::Lo12S, 2),
    Part(20, RelKind::Lo12I, 3),
];

const HIGH: &[Part] = &[Part(4, RelKind::Hi20, 2)];

const LOW: &[Part] = &[Part(8, RelKind::Lo12I, 2)];

const TWO_HIGH: &[Part] = &[
    Part(12, RelKind::Lo12I, 2),
    Part(8, RelKind::Hi20, 2),
    Part(4, RelKind::Lo12I, 2),
    Part(0, RelKind::Hi20, 2),
];

const FIRST: &[Part] = &[Part(0, RelKind::Hi20, 2)];

/// The label of the low parts, symbol 1, is at the section's start.
const RELATIVE: &[Part] = &[
    Part(0, RelKind::PcrelHi20, 2),
    Part(12, RelKind::PcrelLo12S, 1),
    Part(8, RelKind::PcrelLo12I, 1),
];

const RELATIVE_HIGH: &[Part] = &[Part(0, RelKind::PcrelHi20, 2)];

/// The entries of a cell, those at fields that change, and of a task at an offset the field that it stands inside.
struct Standing(&'static [Part], &'static [Part], u16, Option<u32>);

const STANDING: [Standing; 20] = [
    Standing(CALL, CALL, 4, None),
    Standing(CALL, CALL, 8, None),
    Standing(CALL, CALL, 12, Some(8)),
    Standing(CALL, CALL, 16, None),
    Standing(CALL_PLT, CALL_PLT, 4, Some(0)),
    Standing(JUMP, JUMP, 4, None),
    // The sequence goes on to the last low part, and stops there.
    Standing(HIGH_AND_LOW, HIGH, 4, None),
    Standing(HIGH_AND_LOW, HIGH, 8, Some(4)),
    Standing(HIGH_AND_LOW, HIGH, 12, Some(4)),
    Standing(HIGH_AND_LOW, HIGH, 16, Some(4)),
    Standing(HIGH_AND_LOW, HIGH, 20, None),
    Standing(HIGH_AND_LOW, LOW, 12, None),
    // A low part goes with the nearest high part before it.
    Standing(TWO_HIGH, FIRST, 4, Some(0)),
    Standing(TWO_HIGH, FIRST, 8, None),
    Standing(TWO_HIGH, FIRST, 12, None),
    Standing(TWO_HIGH, TWO_HIGH, 12, Some(8)),
    Standing(FIRST, FIRST, 4, None),
    Standing(RELATIVE, RELATIVE_HIGH, 0, None),
    Standing(RELATIVE, RELATIVE_HIGH, 12, Some(0)),
    Standing(RELATIVE, RELATIVE_HIGH, 16, None),
];

fn torn_at(alloc: Global, case: &Standing) -> Result<Option<u32>, AllocError> {
    let spans = spans(alloc, case.0, case.1)?;
    let task = TaskPc {
        task: 1,
        pc: START + u64::from(case.2),
    };
    Ok(first_torn(&spans, &[task]).map(|torn| torn.offset))
}

#[test]
fn tasks_in_sequences(rt: HostRuntime) -> Result<(), Fail> {
    for (number, case) in STANDING.iter().enumerate() {
        assert!(rt; torn_at(rt.alloc(), case)? == case.3, "case {number}");
    }
    Ok(())
}

const TWO_SEQUENCES: &[Part] = &[
    Part(4, RelKind::Hi20, 2),
    Part(12, RelKind::Lo12I, 2),
    Part(0, RelKind::Hi20, 3),
    Part(16, RelKind::Lo12I, 3),
];

const BOTH_HIGH: &[Part] = &[Part(4, RelKind::Hi20, 2), Part(0, RelKind::Hi20, 3)];

const TASKS: [TaskPc; 3] = [
    TaskPc { task: 2, pc: START },
    TaskPc {
        task: 5,
        pc: START + 8,
    },
    TaskPc {
        task: 7,
        pc: START + 16,
    },
];

const LOWEST: Torn = Torn {
    task: 5,
    cell: CellId(1),
    section: 1,
    offset: 0,
};

/// The lowest field of the first task, whatever the table's order.
#[test]
fn the_lowest_field(rt: HostRuntime) -> Result<(), Fail> {
    let spans = spans(rt.alloc(), TWO_SEQUENCES, BOTH_HIGH)?;
    assert!(rt; first_torn(&spans, &TASKS) == Some(LOWEST));
    assert!(rt; first_torn(&spans, &TASKS[..1]) == None);
    assert!(rt; first_torn(&[], &TASKS) == None);
    Ok(())
}
