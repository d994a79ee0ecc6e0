//! The last pass: a GOT_HI20 has no addend.

ghost use Rattle.std.specs.Prelude.{◌≡◌, ◌<◌};
ghost use Rattle.std.specs.List.{flat_map};
ghost use Rattle.cell_object.specs.Bytes.{checked, between};
ghost use Rattle.cell_object.specs.Relocations.{entry_count, is_past_slot as past_slot, slot_rules};
ghost use Rattle.cell_file.specs.Outcome.{Passes};

use crate::table::Table;
use cell_file::{ReadFail, refuse_where};
use cell_num::{RelKind, is_got_hi20, kind_of};
use cell_object::RelaRow;

/// Whether an entry asks for a slot, and for some bytes past it.
fn is_past_slot(kind: RelKind, row: &RelaRow) -> bool
    ensures { result ≡ past_slot kind row.now.r_addend }
{
    is_got_hi20(kind) && row.r_addend != 0
}

/// An entry that asks for a slot has no addend: rule 25.
#[tactic(auto, using(crate::proofs::SlotPass::slot_step))]
fn check_slot(table: &Table, number: u64) -> Result<(), ReadFail>
    requires there { number < entry_count table.now.header }
    ensures { Passes result (checked (slot_rules table.now.file.bytes.now table.now.header number)) }
{
    let row = table.row(number);
    let Some(kind) = kind_of(row.r_type) else {
        return Ok(());
    };
    let broken = is_past_slot(kind, &row);
    refuse_where(broken, 25, table.place(number))
}

/// Tries the rule of the slots on the entries of a table.
#[tactic(auto, using(cell_file::proofs::Rounds::rounds))]
pub fn check_slots(table: &Table) -> Result<(), ReadFail>
    ensures { Passes result (checked (flat_map (slot_rules table.now.file.bytes.now table.now.header) (between 0 (entry_count table.now.header)))) }
{
    let count = table.count();
    let mut number = table.kept_from(0);
    while number < count {
        check_slot(table, number)?;
        number = table.kept_from(number + 1);
    }
    Ok(())
}
