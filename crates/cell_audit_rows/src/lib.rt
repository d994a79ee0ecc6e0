//! Examples of objects with slots, of dumps and of their audit, computed by the definitions. Each is the contract of a
//! function with an empty body.
#![tactic(auto)]

ghost use Rattle.std.specs.Prelude.{◌≡◌, Ok, Err, map};
ghost use Rattle.cell_world.specs.World.{empty_world};
ghost use Rattle.cell_rows.specs.Answers.{answers};
ghost use Rattle.cell_rows.specs.Loads as loads;
ghost use Rattle.cell_world.specs.DumpLines.{dump_lines};
ghost use Rattle.cell_dumped.specs.Texts.{line_text};
ghost use Rattle.cell_audit.specs.Audits.{audit_of};
ghost use Rattle.cell_audit_rows.specs.Slots as slots;
ghost use Rattle.cell_audit_rows.specs.Dumped as dumped;
ghost use Rattle.cell_audit_rows.specs.Damaged as damaged;

/// An entry that asks for a slot leads to the slot, and the slot to the symbol.
pub fn slots_are_linked()
    ensures { answers slots.files (empty_world 0x1000_0000 1024) slots.script ≡ slots.answered }
{}

/// A swap patches the slot alone, and code that loads the address by the slot gets the new one.
pub fn slots_are_patched()
    ensures { answers slots.files (empty_world 0x1000_0000 1024) slots.swap_script ≡ slots.swap_answered }
{}

/// What a dump shows of two cells, of which the second names a word of the first.
pub fn dumps()
    ensures { map line_text (dump_lines dumped.world) ≡ dumped.lines }
{}

/// That dump is clean, as a dump of an object with slots is after a swap.
pub fn clean_dumps()
    ensures first { audit_of (dumped.file dumped.lines) loads.files ≡ Ok tt }
    ensures slots { audit_of (dumped.file slots.lines) slots.files ≡ Ok tt }
    ensures writable { audit_of (dumped.file damaged.written) loads.files ≡ Ok tt }
{}

/// What an audit says of damaged dumps.
pub fn damaged_dumps()
    ensures { map (λ d. audit_of (dumped.file d.lines) loads.files) damaged.cases ≡ map (λ d. Err d.fault) damaged.cases }
{}
