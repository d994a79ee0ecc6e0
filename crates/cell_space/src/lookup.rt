//! Looking among the cells. Attached ones are found by the index, by their hash alone where few have
//! it, and else by one look-up for a namespace; what it finds is asked by its own table of names.

ghost use Rattle.std.specs.Prelude.{◌≡◌, ◌<◌, ◌≤◌, ◌&&◌, ◌==◌, ℕ, All, false, filter_map, find, length, nat_lt, option_map, slice_index_or, true};
ghost use Rattle.cell_num.specs.Lists.{first};
ghost use Rattle.cell_world.specs.Names.{chain};
ghost use Rattle.cell_space.specs.Named.{cell_numbered, provider_for, strong_provider, first_provider, offer, provider_as, number_as, clash_stem, clash_name, cell_at, is_rival, is_holder, is_in};
ghost use Rattle.cell_space.specs.Index.{held, has_word, is_at as at, kept_if, IsWhole};
ghost use Rattle.cell_world.specs.Before.{AreBefore};
ghost use Rattle.cell_space.specs.Keys.{number_in};
ghost use Rattle.cell_space.specs.Path.{IsPath};
ghost use Rattle.cell_space.specs.Rising.{IsRising, lower};
ghost use Rattle.cell_space.specs.Rooted.{AreRooted};
ghost use Rattle.cell_world.specs.declared.state.Standing.TheVariants.{Attached};
ghost use Rattle.cell_space.specs.declared.cell.SpaceCell.{SpaceCell as Known};

use crate::cell::SpaceCell;
use crate::chain::{chain_of, is_above};
use crate::index::{ANYWHERE, Holder, Index};
use crate::nearest::weak_provider;
use crate::path::Path;
use crate::provider::Provider;
use crate::word::{Word, WordKind, has_word, is_at};
use cell_num::CellId;
use cell_world::{Namespace, Standing};

/// How many of the cells can have a lower number at most: numbers rise by one at least.
fn most_before(cells: &[SpaceCell], number: u32) -> usize
    requires { IsRising cells.now }
    ensures within { result ≤ length cells.now }
    ensures rest { (k : ℕ) (d : Known) → result ≤ k → k < length cells.now → nat_lt (slice_index_or cells.now k d).cell.0 number ≡ false }
{
    if cells.is_empty() {
        return 0;
    }
    let above = number.saturating_sub(cells[0].cell.0);
    cells.len().min(above as usize)
}

/// How many of the cells have a lower number, where those before `low` have and those from `high` on
/// haven't.
fn cells_between(cells: &[SpaceCell], number: u32, low: usize, high: usize) -> usize
    requires rising { IsRising cells.now }
    requires order { low ≤ high }
    requires within { high ≤ length cells.now }
    requires before { (k : ℕ) (d : Known) → k < low → nat_lt (slice_index_or cells.now k d).cell.0 number ≡ true }
    requires rest { (k : ℕ) (d : Known) → high ≤ k → k < length cells.now → nat_lt (slice_index_or cells.now k d).cell.0 number ≡ false }
    ensures { AreBefore number_in number cells.now result }
{
    let mut from = low;
    let mut to = high;
    while from < to {
        let middle = from + (to - from) / 2;
        if cells[middle].cell.0 < number {
            from = middle + 1;
        } else {
            to = middle;
        }
    }
    from
}

/// How many of the cells have a lower number. It is looked for from where it is if no number between
/// them is free, in steps that double, since few cells are gone as a rule.
pub fn cells_before(cells: &[SpaceCell], number: u32) -> usize
    requires { IsRising cells.now }
    ensures { AreBefore number_in number cells.now result }
{
    let mut high = most_before(cells, number);
    let mut step = 1;
    while step <= high {
        let low = high - step;
        if cells[low].cell.0 < number {
            return cells_between(cells, number, low + 1, high);
        }
        high = low;
        step *= 2;
    }
    cells_between(cells, number, 0, high)
}

/// The cell of a number.
pub fn cell_numbered(cells: &[SpaceCell], number: u32) -> Option<&SpaceCell>
    requires { IsRising cells.now }
    ensures { option_map (λ c. c.now) result ≡ cell_numbered cells.now number }
{
    let cell = cells.get(cells_before(cells, number))?;
    if cell.cell.0 != number {
        return None;
    }
    Some(cell)
}

/// The cell as a provider of the name, where it is in the state and in the namespace's chain. The
/// way up is looked at last, since few cells have the name.
#[tactic(auto, using(crate::proofs::Searches::none_either_way))]
fn offer(
    namespaces: &[Namespace],
    ns: u16,
    cell: &SpaceCell,
    state: Standing,
    name: &[u8],
) -> Option<Provider>
    requires rooted { AreRooted namespaces.now }
    requires there { ns < length namespaces.now }
    ensures { option_map provider_as result ≡ offer (chain namespaces.now ns) state name.now cell.now }
{
    if !cell.is_in(state) {
        return None;
    }
    let Some(symbol) = cell.names.symbol_of(name) else {
        return None;
    };
    if !is_above(namespaces, ns, cell.ns) {
        return None;
    }
    Some(Provider {
        cell: cell.cell,
        symbol,
    })
}

/// The first cell that offers the name.
fn first_offer(
    namespaces: &[Namespace],
    ns: u16,
    cells: &[SpaceCell],
    state: Standing,
    name: &[u8],
) -> Option<Provider>
    requires rooted { AreRooted namespaces.now }
    requires there { ns < length namespaces.now }
    ensures { option_map provider_as result ≡ first (filter_map (offer (chain namespaces.now ns) state name.now) cells.now) }
{
    for cell in cells {
        if let Some(provider) = offer(namespaces, ns, cell, state, name) {
            return Some(provider);
        }
    }
    None
}

/// The first cell in a state that holds the name strongly, where each is asked.
fn first_provider(
    namespaces: &[Namespace],
    ns: u16,
    cells: &[SpaceCell],
    state: Standing,
    name: &[u8],
) -> Option<Provider>
    requires rooted { AreRooted namespaces.now }
    requires there { ns < length namespaces.now }
    ensures { option_map provider_as result ≡ first_provider (chain namespaces.now ns) state name.now cells.now }
{
    first_offer(namespaces, ns, cells, state, name)
}

/// The cell where it is attached in the namespace and has the word.
fn if_at<'a>(found: Option<&'a SpaceCell>, ns: u16, word: &Word) -> Option<&'a SpaceCell>
    ensures { option_map (λ c. c.now) result ≡ kept_if (at ns word.now.kind word.now.text.now) (option_map (λ c. c.now) found.entry) }
{
    match found {
        Some(cell) if is_at(cell, ns, word) => Some(cell),
        _ => None,
    }
}

/// The attached cell of the namespace that has the word, where each is asked.
fn holder_by_walk<'a>(cells: &'a [SpaceCell], ns: u16, word: &Word) -> Option<&'a SpaceCell>
    ensures { option_map (λ c. c.now) result ≡ find (at ns word.now.kind word.now.text.now) cells.now }
{
    for cell in cells {
        if is_at(cell, ns, word) {
            return Some(cell);
        }
    }
    None
}

/// The attached cell of the namespace that has the word.
pub fn holder<'a>(
    index: &Index,
    cells: &'a [SpaceCell],
    ns: u16,
    word: &Word,
) -> Option<&'a SpaceCell>
    requires rising { IsRising cells.now }
    requires whole { IsWhole (held index.now) cells.now }
    ensures { option_map (λ c. c.now) result ≡ find (at ns word.now.kind word.now.text.now) cells.now }
{
    match index.get(ns, word.hash) {
        None => None,
        Some(Holder::One(number)) => if_at(cell_numbered(cells, number), ns, word),
        Some(Holder::Many) => holder_by_walk(cells, ns, word),
    }
}

/// The one of the lower number.
fn lower<'a>(a: Option<&'a SpaceCell>, b: Option<&'a SpaceCell>) -> Option<&'a SpaceCell>
    ensures { option_map (λ c. c.now) result ≡ lower (option_map (λ c. c.now) a.entry) (option_map (λ c. c.now) b.entry) }
{
    match (a, b) {
        (Some(c), Some(d)) if d.cell.0 < c.cell.0 => Some(d),
        (Some(c), _) => Some(c),
        (None, b) => b,
    }
}

/// The cell of a number, where it is attached in the namespace's chain and has the word.
fn above_numbered<'a>(
    namespaces: &[Namespace],
    cells: &'a [SpaceCell],
    ns: u16,
    word: &Word,
    number: u32,
) -> Option<&'a SpaceCell>
    requires rooted { AreRooted namespaces.now }
    requires there { ns < length namespaces.now }
    requires rising { IsRising cells.now }
    ensures { option_map (λ c. c.now) result ≡ kept_if (λ c. has_word word.now.kind word.now.text.now c && is_holder (chain namespaces.now ns) Attached c) (cell_numbered cells.now number) }
{
    match cell_numbered(cells, number) {
        Some(cell)
            if has_word(cell, word.kind, word.text)
                && cell.is_in(Standing::Attached)
                && is_above(namespaces, ns, cell.ns) => { Some(cell) }
        _ => None,
    }
}

/// The lowest attached cell in the namespace's chain that has the word, where each namespace is asked.
fn lowest_by_chain<'a>(
    namespaces: &[Namespace],
    index: &Index,
    cells: &'a [SpaceCell],
    ns: u16,
    word: &Word,
) -> Option<&'a SpaceCell>
    requires rooted { AreRooted namespaces.now }
    requires there { ns < length namespaces.now }
    requires rising { IsRising cells.now }
    requires whole { IsWhole (held index.now) cells.now }
    ensures { option_map (λ c. c.now) result ≡ find (λ c. has_word word.now.kind word.now.text.now c && is_holder (chain namespaces.now ns) Attached c) cells.now }
{
    let mut lowest = None;
    for other in chain_of(namespaces, ns) {
        lowest = lower(lowest, holder(index, cells, other, word));
    }
    lowest
}

/// The lowest attached cell in the namespace's chain that has the word.
fn lowest_above<'a>(
    namespaces: &[Namespace],
    index: &Index,
    cells: &'a [SpaceCell],
    ns: u16,
    word: &Word,
) -> Option<&'a SpaceCell>
    requires rooted { AreRooted namespaces.now }
    requires there { ns < length namespaces.now }
    requires rising { IsRising cells.now }
    requires whole { IsWhole (held index.now) cells.now }
    ensures { option_map (λ c. c.now) result ≡ find (λ c. has_word word.now.kind word.now.text.now c && is_holder (chain namespaces.now ns) Attached c) cells.now }
{
    match index.get(ANYWHERE, word.hash) {
        None => None,
        Some(Holder::One(number)) => above_numbered(namespaces, cells, ns, word, number),
        Some(Holder::Many) => lowest_by_chain(namespaces, index, cells, ns, word),
    }
}

/// The attached cell of another namespace that has the word, where the two are on one path.
fn rival_in<'a>(
    namespaces: &[Namespace],
    index: &Index,
    cells: &'a [SpaceCell],
    path: &Path,
    other: u16,
    word: &Word,
) -> Option<&'a SpaceCell>
    requires rooted { AreRooted namespaces.now }
    requires path { IsPath namespaces.now path.now }
    requires other_there { other < length namespaces.now }
    requires rising { IsRising cells.now }
    requires whole { IsWhole (held index.now) cells.now }
    ensures { option_map (λ c. c.now) result ≡ find (λ c. has_word word.now.kind word.now.text.now c && is_rival namespaces.now path.now.ns c && c.ns == other) cells.now }
{
    if path.has(namespaces, other) {
        holder(index, cells, other, word)
    } else {
        None
    }
}

/// The cell of a number, where it is attached on the path and has the word.
fn rival_numbered<'a>(
    namespaces: &[Namespace],
    cells: &'a [SpaceCell],
    path: &Path,
    word: &Word,
    number: u32,
) -> Option<&'a SpaceCell>
    requires path { IsPath namespaces.now path.now }
    requires inside { All (λ c. c.ns < length namespaces.now) cells.now }
    requires rising { IsRising cells.now }
    ensures { option_map (λ c. c.now) result ≡ kept_if (λ c. has_word word.now.kind word.now.text.now c && is_rival namespaces.now path.now.ns c) (cell_numbered cells.now number) }
{
    match cell_numbered(cells, number) {
        Some(cell)
            if has_word(cell, word.kind, word.text)
                && cell.is_in(Standing::Attached)
                && path.has(namespaces, cell.ns) => { Some(cell) }
        _ => None,
    }
}

/// The lowest attached cell on one path with the namespace that has the word, where each namespace is asked.
fn lowest_on_path<'a>(
    namespaces: &[Namespace],
    index: &Index,
    cells: &'a [SpaceCell],
    path: &Path,
    word: &Word,
) -> Option<&'a SpaceCell>
    requires rooted { AreRooted namespaces.now }
    requires path { IsPath namespaces.now path.now }
    requires few { length namespaces.now ≤ 256 }
    requires inside { All (λ c. c.ns < length namespaces.now) cells.now }
    requires rising { IsRising cells.now }
    requires whole { IsWhole (held index.now) cells.now }
    ensures { option_map (λ c. c.now) result ≡ find (λ c. has_word word.now.kind word.now.text.now c && is_rival namespaces.now path.now.ns c) cells.now }
{
    let mut lowest = None;
    for other in 0..namespaces.len() {
        lowest = lower(
            lowest,
            rival_in(namespaces, index, cells, path, other as u16, word),
        );
    }
    lowest
}

/// The lowest attached cell on one path with the namespace that has the word.
fn lowest_rival<'a>(
    namespaces: &[Namespace],
    index: &Index,
    cells: &'a [SpaceCell],
    path: &Path,
    word: &Word,
) -> Option<&'a SpaceCell>
    requires rooted { AreRooted namespaces.now }
    requires path { IsPath namespaces.now path.now }
    requires few { length namespaces.now ≤ 256 }
    requires inside { All (λ c. c.ns < length namespaces.now) cells.now }
    requires rising { IsRising cells.now }
    requires whole { IsWhole (held index.now) cells.now }
    ensures { option_map (λ c. c.now) result ≡ find (λ c. has_word word.now.kind word.now.text.now c && is_rival namespaces.now path.now.ns c) cells.now }
{
    match index.get(ANYWHERE, word.hash) {
        None => None,
        Some(Holder::One(number)) => rival_numbered(namespaces, cells, path, word, number),
        Some(Holder::Many) => lowest_on_path(namespaces, index, cells, path, word),
    }
}

/// The attached cell that holds the name strongly.
fn attached_provider(
    namespaces: &[Namespace],
    index: &Index,
    cells: &[SpaceCell],
    ns: u16,
    name: &[u8],
) -> Option<Provider>
    requires rooted { AreRooted namespaces.now }
    requires there { ns < length namespaces.now }
    requires rising { IsRising cells.now }
    requires whole { IsWhole (held index.now) cells.now }
    ensures { option_map provider_as result ≡ first_provider (chain namespaces.now ns) Attached name.now cells.now }
{
    let word = Word::of(WordKind::Name, name);
    let cell = lowest_above(namespaces, index, cells, ns, &word)?;
    let symbol = cell.names.symbol_of(name)?;
    Some(Provider {
        cell: cell.cell,
        symbol,
    })
}

/// The strong holder for a cell in a state, or for a namespace as for an attached one.
pub fn strong_provider(
    namespaces: &[Namespace],
    index: &Index,
    cells: &[SpaceCell],
    ns: u16,
    state: Standing,
    name: &[u8],
) -> Option<Provider>
    requires rooted { AreRooted namespaces.now }
    requires there { ns < length namespaces.now }
    requires rising { IsRising cells.now }
    requires whole { IsWhole (held index.now) cells.now }
    ensures { option_map provider_as result ≡ strong_provider (chain namespaces.now ns) state name.now cells.now }
{
    if let Standing::Detached(group) = state {
        let put_aside = first_provider(namespaces, ns, cells, Standing::Detached(group), name);
        if let Some(provider) = put_aside {
            return Some(provider);
        }
    }
    attached_provider(namespaces, index, cells, ns, name)
}

/// The provider for a cell in a state, or for a namespace as for an attached one: a strong holder, or
/// else a weak one.
pub fn provider_for(
    namespaces: &[Namespace],
    index: &Index,
    cells: &[SpaceCell],
    ns: u16,
    state: Standing,
    name: &[u8],
) -> Option<Provider>
    requires rooted { AreRooted namespaces.now }
    requires there { ns < length namespaces.now }
    requires rising { IsRising cells.now }
    requires whole { IsWhole (held index.now) cells.now }
    ensures { option_map provider_as result ≡ provider_for (chain namespaces.now ns) state name.now cells.now }
{
    match strong_provider(namespaces, index, cells, ns, state, name) {
        Some(provider) => Some(provider),
        None => weak_provider(namespaces, index, cells, ns, state, name),
    }
}

/// The first attached cell on one path with the namespace that has the stem.
pub fn clash_stem(
    namespaces: &[Namespace],
    index: &Index,
    cells: &[SpaceCell],
    path: &Path,
    stem: &[u8],
) -> Option<CellId>
    requires rooted { AreRooted namespaces.now }
    requires path { IsPath namespaces.now path.now }
    requires few { length namespaces.now ≤ 256 }
    requires inside { All (λ c. c.ns < length namespaces.now) cells.now }
    requires rising { IsRising cells.now }
    requires whole { IsWhole (held index.now) cells.now }
    ensures { option_map number_as result ≡ clash_stem namespaces.now path.now.ns stem.now cells.now }
{
    let word = Word::of(WordKind::Stem, stem);
    match lowest_rival(namespaces, index, cells, path, &word) {
        Some(cell) => Some(cell.cell),
        None => None,
    }
}

/// The first attached cell on one path with the namespace that has the name.
pub fn clash_name(
    namespaces: &[Namespace],
    index: &Index,
    cells: &[SpaceCell],
    path: &Path,
    name: &[u8],
) -> Option<CellId>
    requires rooted { AreRooted namespaces.now }
    requires path { IsPath namespaces.now path.now }
    requires few { length namespaces.now ≤ 256 }
    requires inside { All (λ c. c.ns < length namespaces.now) cells.now }
    requires rising { IsRising cells.now }
    requires whole { IsWhole (held index.now) cells.now }
    ensures { option_map number_as result ≡ clash_name namespaces.now path.now.ns name.now cells.now }
{
    let word = Word::of(WordKind::Name, name);
    match lowest_rival(namespaces, index, cells, path, &word) {
        Some(cell) => Some(cell.cell),
        None => None,
    }
}

/// The attached cell of a stem in the namespace itself.
pub fn cell_at(index: &Index, cells: &[SpaceCell], ns: u16, stem: &[u8]) -> Option<CellId>
    requires rising { IsRising cells.now }
    requires whole { IsWhole (held index.now) cells.now }
    ensures { option_map number_as result ≡ cell_at ns stem.now cells.now }
{
    match holder(index, cells, ns, &Word::of(WordKind::Stem, stem)) {
        Some(cell) => Some(cell.cell),
        None => None,
    }
}
