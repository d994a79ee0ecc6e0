//! The words of one line.

ghost use Rattle.std.specs.Prelude.{◌≡◌, List, [], ◌∷◌, map, codes, IfOk};
ghost use Rattle.cell_world.specs.declared.command.Command.TheVariants.{Ns, Load, Spawn, Step, Run, Kill, Unload, Purge, Find, Map, Tasks, Deps, Users, Dump, DumpAll, Recover, Rebuild, Clone};
ghost use Rattle.cell_script.specs.Grammar.{name, symbol, number, turns_of_one, turns_of_run, argument, alone, single, both, all_three, both_around, several, cell_names, swap_words, forms, command_in};
ghost use Rattle.cell_script.specs.Script.{is_comment, reading_in};

use crate::cells::read_cells;
use crate::swap::read_swap;
use crate::words::{
    is_name, is_symbol, read_argument, read_number, read_turns_of_one, read_turns_of_run,
};
use cell_num::Name;
use cell_world::Command;
use std::alloc::{AllocError, Global};

/// What a line says.
#[derive(Drop)]
pub enum Reading {
    Nothing,
    Does(Command),
    Bad,
}

/// Reads the words of a line.
pub fn read_words(alloc: Global, words: &[&[u8]]) -> Result<Reading, AllocError>
    ensures { IfOk result (λ reading. reading ≡ reading_in (map (λ word. word.now) words.now)) }
{
    if words.is_empty() || is_comment(words[0]) {
        return Ok(Reading::Nothing);
    }
    match read_command(alloc, words[0], &words[1..])? {
        Some(command) => Ok(Reading::Does(command)),
        None => Ok(Reading::Bad),
    }
}

fn is_comment(word: &[u8]) -> bool
    ensures { result ≡ is_comment word.now }
{
    match word {
        [] => false,
        [first, ..] => *first == b'#',
    }
}

/// The command with this first word, if its other words fit it.
fn read_command(
    alloc: Global,
    word: &[u8],
    arguments: &[&[u8]],
) -> Result<Option<Command>, AllocError>
    ensures { IfOk result (λ command. command ≡ command_in forms word.now (map (λ word. word.now) arguments.now)) }
{
    if word == b"ns".as_slice() {
        read_ns(alloc, arguments)
    } else if word == b"load".as_slice() {
        read_load(alloc, arguments)
    } else if word == b"spawn".as_slice() {
        read_spawn(alloc, arguments)
    } else if word == b"step".as_slice() {
        Ok(read_step(arguments))
    } else if word == b"run".as_slice() {
        Ok(read_run(arguments))
    } else if word == b"kill".as_slice() {
        Ok(read_kill(arguments))
    } else if word == b"swap".as_slice() {
        read_swap(alloc, arguments)
    } else if word == b"unload".as_slice() {
        read_unload(alloc, arguments)
    } else if word == b"purge".as_slice() {
        Ok(read_purge(arguments))
    } else if word == b"find".as_slice() {
        read_find(alloc, arguments)
    } else if word == b"map".as_slice() {
        Ok(read_map(arguments))
    } else if word == b"tasks".as_slice() {
        Ok(read_tasks(arguments))
    } else if word == b"deps".as_slice() {
        Ok(read_deps(arguments))
    } else if word == b"users".as_slice() {
        Ok(read_users(arguments))
    } else if word == b"dump".as_slice() {
        Ok(read_dump(arguments))
    } else if word == b"dumpall".as_slice() {
        Ok(read_dump_all(arguments))
    } else if word == b"recover".as_slice() {
        Ok(read_recover(arguments))
    } else if word == b"rebuild".as_slice() {
        Ok(read_rebuild(arguments))
    } else if word == b"clone".as_slice() {
        read_clone(alloc, arguments)
    } else {
        Ok(None)
    }
}

/// `ns NAME under PARENT`
fn read_ns(alloc: Global, arguments: &[&[u8]]) -> Result<Option<Command>, AllocError>
    ensures { IfOk result (λ command. command ≡ both_around (codes "under") name name (λ fresh parent. Ns fresh parent) (map (λ word. word.now) arguments.now)) }
{
    let [name, under, parent] = arguments else {
        return Ok(None);
    };
    if *under != b"under".as_slice() || !is_name(name) || !is_name(parent) {
        return Ok(None);
    }
    let name = Name::of(alloc, name)?;
    let parent = Name::of(alloc, parent)?;
    Ok(Some(Command::Ns { name, parent }))
}

/// `load NS STEM`
fn read_load(alloc: Global, arguments: &[&[u8]]) -> Result<Option<Command>, AllocError>
    ensures { IfOk result (λ command. command ≡ both name name (λ ns stem. Load ns stem) (map (λ word. word.now) arguments.now)) }
{
    let [ns, stem] = arguments else {
        return Ok(None);
    };
    if !is_name(ns) || !is_name(stem) {
        return Ok(None);
    }
    let ns = Name::of(alloc, ns)?;
    let stem = Name::of(alloc, stem)?;
    Ok(Some(Command::Load { ns, stem }))
}

/// `spawn NS SYMBOL ARG`
fn read_spawn(alloc: Global, arguments: &[&[u8]]) -> Result<Option<Command>, AllocError>
    ensures { IfOk result (λ command. command ≡ all_three name symbol argument (λ ns what arg. Spawn ns what arg) (map (λ word. word.now) arguments.now)) }
{
    let [ns, symbol, arg] = arguments else {
        return Ok(None);
    };
    if !is_name(ns) || !is_symbol(symbol) {
        return Ok(None);
    }
    let Some(arg) = read_argument(arg) else {
        return Ok(None);
    };
    let ns = Name::of(alloc, ns)?;
    let symbol = Name::of(alloc, symbol)?;
    Ok(Some(Command::Spawn { ns, symbol, arg }))
}

/// `step T N`
fn read_step(arguments: &[&[u8]]) -> Option<Command>
    ensures { result ≡ both number turns_of_one (λ task turns. Step task turns) (map (λ word. word.now) arguments.now) }
{
    let [task, turns] = arguments else {
        return None;
    };
    let task = read_number(task)?;
    let turns = read_turns_of_one(turns)?;
    Some(Command::Step { task, turns })
}

/// `run N`
fn read_run(arguments: &[&[u8]]) -> Option<Command>
    ensures { result ≡ single turns_of_run (λ turns. Run turns) (map (λ word. word.now) arguments.now) }
{
    let [turns] = arguments else {
        return None;
    };
    let turns = read_turns_of_run(turns)?;
    Some(Command::Run { turns })
}

/// `kill T`
fn read_kill(arguments: &[&[u8]]) -> Option<Command>
    ensures { result ≡ single number (λ task. Kill task) (map (λ word. word.now) arguments.now) }
{
    let [task] = arguments else {
        return None;
    };
    let task = read_number(task)?;
    Some(Command::Kill { task })
}

/// `unload NS/STEM ...`
fn read_unload(alloc: Global, arguments: &[&[u8]]) -> Result<Option<Command>, AllocError>
    ensures { IfOk result (λ command. command ≡ several cell_names (λ cells. Unload cells) (map (λ word. word.now) arguments.now)) }
{
    if arguments.is_empty() {
        return Ok(None);
    }
    let Some(cells) = read_cells(alloc, arguments)? else {
        return Ok(None);
    };
    Ok(Some(Command::Unload { cells }))
}

/// `purge`
fn read_purge(arguments: &[&[u8]]) -> Option<Command>
    ensures { result ≡ alone Purge (map (λ word. word.now) arguments.now) }
{
    match arguments {
        [] => Some(Command::Purge),
        _ => None,
    }
}

/// `find NS SYMBOL`
fn read_find(alloc: Global, arguments: &[&[u8]]) -> Result<Option<Command>, AllocError>
    ensures { IfOk result (λ command. command ≡ both name symbol (λ ns what. Find ns what) (map (λ word. word.now) arguments.now)) }
{
    let [ns, symbol] = arguments else {
        return Ok(None);
    };
    if !is_name(ns) || !is_symbol(symbol) {
        return Ok(None);
    }
    let ns = Name::of(alloc, ns)?;
    let symbol = Name::of(alloc, symbol)?;
    Ok(Some(Command::Find { ns, symbol }))
}

/// `map`
fn read_map(arguments: &[&[u8]]) -> Option<Command>
    ensures { result ≡ alone Map (map (λ word. word.now) arguments.now) }
{
    match arguments {
        [] => Some(Command::Map),
        [_, ..] => None,
    }
}

/// `tasks`
fn read_tasks(arguments: &[&[u8]]) -> Option<Command>
    ensures { result ≡ alone Tasks (map (λ word. word.now) arguments.now) }
{
    match arguments {
        [] => Some(Command::Tasks),
        _ => None,
    }
}

/// `deps CELL`
fn read_deps(arguments: &[&[u8]]) -> Option<Command>
    ensures { result ≡ single number (λ cell. Deps cell) (map (λ word. word.now) arguments.now) }
{
    let [cell] = arguments else {
        return None;
    };
    let cell = read_number(cell)?;
    Some(Command::Deps { cell })
}

/// `users CELL`
fn read_users(arguments: &[&[u8]]) -> Option<Command>
    ensures { result ≡ single number (λ cell. Users cell) (map (λ word. word.now) arguments.now) }
{
    let [cell] = arguments else {
        return None;
    };
    let cell = read_number(cell)?;
    Some(Command::Users { cell })
}

/// `dump CELL SECTION`
fn read_dump(arguments: &[&[u8]]) -> Option<Command>
    ensures { result ≡ both number number (λ cell section. Dump cell section) (map (λ word. word.now) arguments.now) }
{
    let [cell, section] = arguments else {
        return None;
    };
    let cell = read_number(cell)?;
    let section = read_number(section)?;
    Some(Command::Dump { cell, section })
}

/// `dumpall`
fn read_dump_all(arguments: &[&[u8]]) -> Option<Command>
    ensures { result ≡ alone DumpAll (map (λ word. word.now) arguments.now) }
{
    match arguments {
        [] => Some(Command::DumpAll),
        _ => None,
    }
}

/// `recover T`
fn read_recover(arguments: &[&[u8]]) -> Option<Command>
    ensures { result ≡ single number (λ task. Recover task) (map (λ word. word.now) arguments.now) }
{
    let [task] = arguments else {
        return None;
    };
    let task = read_number(task)?;
    Some(Command::Recover { task })
}

/// `rebuild T`
fn read_rebuild(arguments: &[&[u8]]) -> Option<Command>
    ensures { result ≡ single number (λ task. Rebuild task) (map (λ word. word.now) arguments.now) }
{
    let [task] = arguments else {
        return None;
    };
    let task = read_number(task)?;
    Some(Command::Rebuild { task })
}

/// `clone NS as NAME`
fn read_clone(alloc: Global, arguments: &[&[u8]]) -> Result<Option<Command>, AllocError>
    ensures { IfOk result (λ command. command ≡ both_around (codes "as") name name (λ ns fresh. Clone ns fresh) (map (λ word. word.now) arguments.now)) }
{
    let [ns, between, name] = arguments else {
        return Ok(None);
    };
    if *between != b"as".as_slice() || !is_name(ns) || !is_name(name) {
        return Ok(None);
    }
    let ns = Name::of(alloc, ns)?;
    let name = Name::of(alloc, name)?;
    Ok(Some(Command::Clone { ns, name }))
}
