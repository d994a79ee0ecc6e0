//! All names in a dump, with their providers.

ghost use Rattle.std.specs.Prelude.{◌≡◌, ◌<◌, ◌++◌, ◌∷◌, [], IfOk, OnOk, filter, filter_map, flat_map, length};
ghost use Rattle.cell_num.specs.Lists.{In};
ghost use Rattle.cell_world.specs.World.{is_attached};
ghost use Rattle.cell_world.specs.DumpLines.{provider_line as line_of, provider_lines};
ghost use Rattle.cell_machine.specs.Machine.{IsSound, world_of};
ghost use Rattle.cell_view.specs.Whole.{Adds, names_shown};

use crate::all_cells::names_of;
use crate::all_links::part_of;
use crate::provider::found_in;
use cell_machine::Machine;
use cell_num::Name;
use cell_space::NameRows;
use cell_world::{DumpLine, NewCell};
use std::alloc::{AllocError, Global};

/// Where the provider of a name has it for a namespace, if it is in a section.
fn provider_line(
    alloc: Global,
    machine: &Machine,
    ns: u16,
    name: &[u8],
) -> Result<Option<DumpLine>, AllocError>
    requires sound { IsSound machine.now }
    requires there { ns < length machine.now.spaces.namespaces }
    ensures { IfOk result (λ line. line ≡ line_of (world_of machine.now) ns name.now) }
{
    let Some(found) = found_in(machine, ns, name) else {
        return Ok(None);
    };
    Ok(Some(DumpLine::Provider {
        ns: u64::from(ns),
        name: Name::of(alloc, name)?,
        at: part_of(found.key),
        offset: found.offset,
    }))
}

fn add_name(
    alloc: Global,
    machine: &Machine,
    ns: u16,
    name: &[u8],
    lines: &mut Vec<DumpLine>,
) -> Result<(), AllocError>
    requires sound { IsSound machine.now }
    requires there { ns < length machine.now.spaces.namespaces }
    ensures { OnOk result (lines.new.items ≡ lines.old.items ++ filter_map (line_of (world_of machine.now) ns) (name.now ∷ [])) }
{
    if let Some(line) = provider_line(alloc, machine, ns, name)? {
        lines.push(line)?;
    }
    Ok(())
}

/// Adds names, for a namespace.
fn add_names(
    alloc: Global,
    machine: &Machine,
    ns: u16,
    names: &NameRows,
    lines: &mut Vec<DumpLine>,
) -> Result<(), AllocError>
    requires sound { IsSound machine.now }
    requires there { ns < length machine.now.spaces.namespaces }
    ensures { OnOk result (lines.new.items ≡ lines.old.items ++ filter_map (λ a. line_of (world_of machine.now) ns a.name) names.now) }
{
    for place in 0..names.len() {
        let (name, _) = names.at(place);
        add_name(alloc, machine, ns, name, lines)?;
    }
    Ok(())
}

/// Adds the names of the cell, if it is attached.
fn add_names_of(
    alloc: Global,
    machine: &Machine,
    cell: &NewCell,
    lines: &mut Vec<DumpLine>,
) -> Result<(), AllocError>
    requires sound { IsSound machine.now }
    requires there { In cell.now machine.now.cells.items }
    ensures { OnOk result (Adds (world_of machine.now) (names_shown (world_of machine.now)) cell.now lines.old.items lines.new.items) }
{
    if machine.group(cell).is_some() {
        return Ok(());
    }
    add_names(alloc, machine, cell.ns, names_of(machine, cell), lines)
}

/// Adds the names of each of the cells.
fn add_names_of_cells(
    alloc: Global,
    machine: &Machine,
    lines: &mut Vec<DumpLine>,
) -> Result<(), AllocError>
    requires { IsSound machine.now }
    ensures { OnOk result (lines.new.items ≡ lines.old.items ++ flat_map (names_shown (world_of machine.now)) (world_of machine.now).cells) }
{
    let cells = machine.cells.as_slice();
    for index in 0..cells.len() {
        add_names_of(alloc, machine, &cells[index], lines)?;
    }
    Ok(())
}

/// Adds the names of all attached cells.
pub fn add_providers(
    alloc: Global,
    machine: &Machine,
    lines: &mut Vec<DumpLine>,
) -> Result<(), AllocError>
    requires { IsSound machine.now }
    ensures { OnOk result (lines.new.items ≡ lines.old.items ++ flat_map (provider_lines (world_of machine.now)) (filter (λ c. is_attached c.standing) (world_of machine.now).cells)) }
{
    add_names_of_cells(alloc, machine, lines)
}
