//! Examples of what the machine answers, computed by its definitions. Each is the contract of a
//! function with an empty body.
#![tactic(auto)]

ghost use Rattle.std.specs.Prelude.{◌≡◌};
ghost use Rattle.cell_world.specs.World.{empty_world};
ghost use Rattle.cell_rows.specs.Answers.{answers};
ghost use Rattle.cell_rows.specs.Loads as loads;
ghost use Rattle.cell_rows.specs.Refusals as refusals;
ghost use Rattle.cell_rows.specs.Reach as reach;
ghost use Rattle.cell_rows.specs.Spaces as spaces;
ghost use Rattle.cell_rows.specs.Swaps as swaps;
ghost use Rattle.cell_rows.specs.Sequences as sequences;
ghost use Rattle.cell_rows.specs.Partners as partners;
ghost use Rattle.cell_rows.specs.Asides as asides;
ghost use Rattle.cell_rows.specs.Reexports as reexports;
ghost use Rattle.cell_rows.specs.Transfers as transfers;
ghost use Rattle.cell_rows.specs.Rooms as rooms;
ghost use Rattle.cell_rows.specs.Stricts as stricts;
ghost use Rattle.cell_rows.specs.Askers as askers;
ghost use Rattle.cell_rows.specs.Entries as entries;
ghost use Rattle.cell_rows.specs.Several as several;
ghost use Rattle.cell_rows.specs.Latecomers as latecomers;
ghost use Rattle.cell_rows.specs.Yielding as yielding;
ghost use Rattle.cell_rows.specs.Recovers as recovers;
ghost use Rattle.cell_rows.specs.Rebuilds as rebuilds;
ghost use Rattle.cell_rows.specs.Clones as clones;

/// A load links a field to a cell that was loaded before it, and a dump shows the address.
pub fn loads_and_dumps()
    ensures { answers loads.files (empty_world 0x1000_0000 1024) loads.script ≡ loads.answered }
{}

/// Words that name nothing, stems without a file or with two, and a name without a provider are refused.
pub fn refusals()
    ensures { answers refusals.files (empty_world 0x1000_0000 1024) refusals.script ≡ refusals.answered }
{}

/// An upper part reaches as far as the last address that rounds into 31 bits.
pub fn reach()
    ensures { answers reach.files (empty_world 0x7fff_e000 16) reach.script ≡ reach.answered }
{}

/// Siblings may repeat a name, and a namespace and its parent may not. What is needed comes from the parent's files,
/// and what the parent has is found from below.
pub fn spaces()
    ensures { answers spaces.files (empty_world 0x1000_0000 1024) spaces.script ≡ spaces.answered }
{}

/// A swap writes the one field that names what another cell has now, and removes the old cell.
pub fn swaps()
    ensures { answers swaps.files (empty_world 0x1000_0000 1024) swaps.script ≡ swaps.answered }
{}

/// No swap changes a call while a task stands between its two instructions. An old cell that a task stands in stays.
pub fn sequences()
    ensures { answers sequences.files (empty_world 0x1000_0000 1024) sequences.script ≡ sequences.answered }
{}

/// Cells that are replaced together go on naming each other while a task keeps them.
pub fn partners()
    ensures { answers partners.files (empty_world 0x1000_0000 1024) partners.script ≡ partners.answered }
{}

/// A swap redirects the fields of cells that stand aside too.
pub fn asides()
    ensures { answers asides.files (empty_world 0x1000_0000 1024) asides.script ≡ asides.answered }
{}

/// A name that a new cell takes over from an old one serves its users and later ones; without an heir for it the swap is refused.
pub fn reexports()
    ensures { answers reexports.files (empty_world 0x1000_0000 1024) reexports.script ≡ reexports.answered }
{}

/// A swap whose routine fails, by its code or for want of turns, leaves the data; with one turn more it stores into them.
pub fn transfers()
    ensures { answers transfers.files (empty_world 0x1000_0000 1024) transfers.script ≡ transfers.answered }
{}

/// A strict swap is refused while a task holds the old cell.
pub fn stricts()
    ensures { answers asides.files (empty_world 0x1000_0000 1024) stricts.script ≡ stricts.answered }
{}

/// A swap is refused where the new cell finds no room beside the old one and a task's stack, and not when the task is gone.
pub fn rooms()
    ensures { answers rooms.files (empty_world 0x1000_0000 16) rooms.script ≡ rooms.answered }
{}

/// A routine hears addresses in the old and in the new cells. What it stores counts: a strict swap is refused where an old cell is kept by then.
pub fn askers()
    ensures { answers askers.files (empty_world 0x1000_0000 1024) askers.script ≡ askers.answered }
{}

/// A routine begins at a definition of a new cell, in an executable section, which is asked before room is looked for; its stack comes after the new cells.
pub fn entries()
    ensures { answers entries.files (empty_world 0x1000_0000 16) entries.script ≡ entries.answered }
{}

/// Routines run one after the other with turns for all together, and the first that doesn't end well is named. One may be in a cell that was brought.
pub fn several()
    ensures { answers several.files (empty_world 0x1000_0000 1024) several.script ≡ several.answered }
{}

/// A weak name is 0 until a load brings its definition, which changes the field of the cell that was there. The link that it then has holds the definition's cell. After a swap that takes the definition away it is 0 again.
pub fn latecomers()
    ensures { answers latecomers.files (empty_world 0x1000_0000 1024) latecomers.script ≡ latecomers.answered }
{}

/// A load whose cell defines a name changes the call in the cell that has it weakly, but not while a task stands between the call's two instructions.
pub fn yielding()
    ensures { answers yielding.files (empty_world 0x1000_0000 1024) yielding.script ≡ yielding.answered }
{}

/// A faulted task is recovered: the crate that it stands in comes anew, with its data, and the task begins again with its argument.
pub fn recovers()
    ensures { answers recovers.files (empty_world 0x1000_0000 1024) recovers.script ≡ recovers.answered }
{}

/// A task that faulted outside all crates can't be recovered, but rebuilt. A task that is ready can't be recovered.
pub fn rebuilds()
    ensures { answers rebuilds.files (empty_world 0x1000_0000 1024) rebuilds.script ≡ rebuilds.answered }
{}

/// A clone has a crate of its own: once that of its original is swapped, a task in the one ends by the old crate, and a task in the other by the new one.
pub fn clones()
    ensures { answers clones.files (empty_world 0x1000_0000 1024) clones.script ≡ clones.answered }
{}

/// `k` has no sibling, a name isn't taken twice, and a namespace without a cell has a sibling without one.
pub fn refused_clones()
    ensures { answers clones.files (empty_world 0x1000_0000 1024) clones.refused ≡ clones.refused_so }
{}
