//! Pieces of a line.

ghost use Rattle.std.specs.Prelude.{◌≡◌, [], ◌∷◌, ◌++◌, codes, OnOk};
ghost use Rattle.std.specs.List.{concat, flat_map};
ghost use Rattle.cell_text.specs.Number.{hex};
ghost use Rattle.cell_print.specs.Lines.{cell_word, cells_word, escaped, found_word, holder_word, is_plain, key_word, live_word, place_word, spaced, standing_word, state_word, task_word, why_word, Extends};
ghost use Rattle.cell_print.specs.Pieces.{text};
ghost use Rattle.cell_print.specs.Words.{cause_word};

use crate::word::{cause_word, kind_word, many_word};
use cell_num::{Cause, CellId, Holder, Name, RelKind, SecKey, Why};
use cell_text::{put_dec, put_hex, put_hex_byte};
use cell_world::{Found, Many, TaskState};
use std::alloc::AllocError;

/// A piece of a line, before it is text.
#[derive(Clone, Copy)]
pub enum Piece<'a> {
    Text(&'a [u8]),
    Name(&'a Name),
    /// A number in decimal.
    Dec(u32),
    /// A longer one.
    Long(u64),
    /// A number in lower-case hex.
    Hex(u64),
    Cell(CellId),
    /// A section of a cell.
    Key(SecKey),
    /// An offset in a section.
    Place(SecKey, u32),
    /// The cells, with a space between, or a dash where there is none.
    Cells(&'a [CellId]),
    /// The place and its address, or a dash where there is none.
    Found(Option<Found>),
    /// What a cell is: attached, or put aside by the swap of that number.
    Standing(Option<u32>),
    Task(u32),
    /// How a task stands after its turns.
    State(TaskState),
    /// How a live task stands: ready at this pc, or faulted there.
    Live(Option<Cause>, u64),
    /// What a task put out.
    Out(&'a [u8]),
    /// What keeps a cell: a task, or another cell.
    Holder(Holder),
    /// The trap that ended a task's turns.
    Cause(Cause),
    /// How a transfer routine ended that failed.
    Why(Why),
    /// A kind of relocation.
    Kind(RelKind),
    /// What there may be only so many of.
    Many(Many),
}

/// Appends the text of a piece.
pub fn put_piece(piece: Piece<'_>, into: &mut Vec<u8>) -> Result<(), AllocError>
    ensures ok { OnOk result (into.new.items ≡ into.old.items ++ text piece.entry) }
    ensures extends { Extends into.old.items into.new.items }
{
    match piece {
        Piece::Text(bytes) => into.extend_from_slice(bytes),
        Piece::Name(name) => into.extend_from_slice(name.bytes()),
        Piece::Dec(value) => put_dec(u64::from(value), into),
        Piece::Long(value) => put_dec(value, into),
        Piece::Hex(value) => put_hex(value, into),
        Piece::Cell(cell) => put_cell(cell, into),
        Piece::Key(key) => put_key(key, into),
        Piece::Place(key, offset) => put_place(key, offset, into),
        Piece::Cells(cells) => put_cells(cells, into),
        Piece::Found(found) => put_found(found, into),
        Piece::Standing(group) => put_standing(group, into),
        Piece::Task(task) => put_task(task, into),
        Piece::State(state) => put_state(state, into),
        Piece::Live(fault, pc) => put_live(fault, pc, into),
        Piece::Out(bytes) => put_out(bytes, into),
        Piece::Holder(holder) => put_holder(holder, into),
        Piece::Cause(cause) => into.extend_from_slice(cause_word(cause)),
        Piece::Why(why) => put_why(why, into),
        Piece::Kind(kind) => into.extend_from_slice(kind_word(kind)),
        Piece::Many(many) => into.extend_from_slice(many_word(many)),
    }
}

fn put_cell(cell: CellId, into: &mut Vec<u8>) -> Result<(), AllocError>
    ensures ok { OnOk result (into.new.items ≡ into.old.items ++ cell_word cell) }
    ensures extends { Extends into.old.items into.new.items }
{
    into.push(b'#')?;
    put_dec(u64::from(cell.0), into)
}

fn put_task(task: u32, into: &mut Vec<u8>) -> Result<(), AllocError>
    ensures ok { OnOk result (into.new.items ≡ into.old.items ++ task_word task) }
    ensures extends { Extends into.old.items into.new.items }
{
    into.push(b't')?;
    put_dec(u64::from(task), into)
}

fn put_key(key: SecKey, into: &mut Vec<u8>) -> Result<(), AllocError>
    ensures ok { OnOk result (into.new.items ≡ into.old.items ++ key_word key) }
    ensures extends { Extends into.old.items into.new.items }
{
    put_cell(key.cell, into)?;
    into.push(b'.')?;
    put_dec(u64::from(key.section), into)
}

fn put_place(key: SecKey, offset: u32, into: &mut Vec<u8>) -> Result<(), AllocError>
    ensures ok { OnOk result (into.new.items ≡ into.old.items ++ place_word key offset) }
    ensures extends { Extends into.old.items into.new.items }
{
    put_key(key, into)?;
    into.extend_from_slice(b"+")?;
    put_hex(u64::from(offset), into)
}

fn put_cells(cells: &[CellId], into: &mut Vec<u8>) -> Result<(), AllocError>
    ensures ok { OnOk result (into.new.items ≡ into.old.items ++ cells_word cells.now) }
    ensures extends { Extends into.old.items into.new.items }
{
    let [first, others @ ..] = cells else {
        return into.extend_from_slice(b"-");
    };
    put_cell(*first, into)?;
    put_others(others, into)
}

/// Appends cells that others stand before.
fn put_others(cells: &[CellId], into: &mut Vec<u8>) -> Result<(), AllocError>
    ensures ok { OnOk result (into.new.items ≡ into.old.items ++ flat_map (λ cell. spaced (cell_word cell)) cells.now) }
    ensures extends { Extends into.old.items into.new.items }
{
    for cell in cells {
        into.push(b' ')?;
        put_cell(*cell, into)?;
    }
    Ok(())
}

fn put_found(found: Option<Found>, into: &mut Vec<u8>) -> Result<(), AllocError>
    ensures ok { OnOk result (into.new.items ≡ into.old.items ++ found_word found) }
    ensures extends { Extends into.old.items into.new.items }
{
    let Some(found) = found else {
        return into.extend_from_slice(b"-");
    };
    put_key(found.key, into)?;
    into.extend_from_slice(b"+")?;
    put_hex(found.offset, into)?;
    into.extend_from_slice(b" ")?;
    put_hex(found.addr, into)
}

fn put_standing(group: Option<u32>, into: &mut Vec<u8>) -> Result<(), AllocError>
    ensures ok { OnOk result (into.new.items ≡ into.old.items ++ standing_word group) }
    ensures extends { Extends into.old.items into.new.items }
{
    let Some(swap) = group else {
        return into.extend_from_slice(b"attached");
    };
    into.extend_from_slice(b"detached ")?;
    put_dec(u64::from(swap), into)
}

fn put_state(state: TaskState, into: &mut Vec<u8>) -> Result<(), AllocError>
    ensures ok { OnOk result (into.new.items ≡ into.old.items ++ state_word state) }
    ensures extends { Extends into.old.items into.new.items }
{
    match state {
        TaskState::Ready => into.extend_from_slice(b"ready"),
        TaskState::Done(code) => {
            into.extend_from_slice(b"done ")?;
            put_dec(code, into)
        }
        TaskState::Fault(cause, at) => put_trap(b"fault ", cause, at, into),
    }
}

fn put_live(fault: Option<Cause>, pc: u64, into: &mut Vec<u8>) -> Result<(), AllocError>
    ensures ok { OnOk result (into.new.items ≡ into.old.items ++ live_word fault pc) }
    ensures extends { Extends into.old.items into.new.items }
{
    let Some(cause) = fault else {
        into.extend_from_slice(b"ready pc ")?;
        return put_hex(pc, into);
    };
    put_trap(b"fault ", cause, pc, into)
}

fn put_out(bytes: &[u8], into: &mut Vec<u8>) -> Result<(), AllocError>
    ensures ok { OnOk result (into.new.items ≡ into.old.items ++ flat_map escaped bytes.now) }
    ensures extends { Extends into.old.items into.new.items }
{
    for byte in bytes {
        put_escaped(*byte, into)?;
    }
    Ok(())
}

/// Appends a plain byte as it is, and any other as `\x` and two hex digits.
fn put_escaped(byte: u8, into: &mut Vec<u8>) -> Result<(), AllocError>
    ensures ok { OnOk result (into.new.items ≡ into.old.items ++ escaped byte) }
    ensures extends { Extends into.old.items into.new.items }
{
    if is_plain(byte) {
        into.extend_from_slice(&[byte])
    } else {
        into.extend_from_slice(b"\\x")?;
        put_hex_byte(byte, into)
    }
}

fn is_plain(byte: u8) -> bool
    ensures { result ≡ is_plain byte }
{
    byte >= 0x20 && byte <= 0x7e && byte != b'\\'
}

fn put_holder(holder: Holder, into: &mut Vec<u8>) -> Result<(), AllocError>
    ensures ok { OnOk result (into.new.items ≡ into.old.items ++ holder_word holder) }
    ensures extends { Extends into.old.items into.new.items }
{
    match holder {
        Holder::Task(task) => put_task(task, into),
        Holder::Cell(cell) => put_cell(cell, into),
    }
}

#[tactic(auto, unfolding(crate::specs::Lines::why_word))]
fn put_why(why: Why, into: &mut Vec<u8>) -> Result<(), AllocError>
    ensures ok { OnOk result (into.new.items ≡ into.old.items ++ why_word why) }
    ensures extends { Extends into.old.items into.new.items }
{
    match why {
        Why::Returned(code) => {
            into.extend_from_slice(b"returned ")?;
            put_dec(code, into)
        }
        Why::Trap(cause, pc) => put_trap(b"trap ", cause, pc, into),
        Why::Budget => into.extend_from_slice(b"budget"),
    }
}

/// Appends a word, and then which trap it was and where.
fn put_trap(word: &[u8], cause: Cause, at: u64, into: &mut Vec<u8>) -> Result<(), AllocError>
    ensures ok { OnOk result (into.new.items ≡ into.old.items ++ concat (word.now ∷ cause_word cause ∷ codes " at " ∷ hex at ∷ [])) }
    ensures extends { Extends into.old.items into.new.items }
{
    into.extend_from_slice(word)?;
    into.extend_from_slice(cause_word(cause))?;
    into.extend_from_slice(b" at ")?;
    put_hex(at, into)
}
