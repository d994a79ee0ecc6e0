//! The words of a swap that name its routines, and their budget.

ghost use Rattle.std.specs.Prelude.{◌≡◌, IfOk, map};
ghost use Rattle.cell_script.specs.Grammar.{after_routines, budget_of, each_said, routine_words, symbol, transfer_of};

use crate::words::{is_symbol, read_turns_of_one};
use cell_num::{Listed, Name};
use std::alloc::{AllocError, Global};

/// The budget where the line says none: how many turns all routines may have together.
const USUAL_BUDGET: u32 = 10000;

/// The routines of a swap, and how many turns all may have together.
#[derive(Drop)]
pub struct Transfer {
    pub routines: Listed<Name>,
    pub budget: u32,
}

/// `[transfer SYMBOL]... [budget N]`
pub fn read_transfer(alloc: Global, words: &[&[u8]]) -> Result<Option<Transfer>, AllocError>
    ensures { IfOk result (λ transfer. transfer ≡ transfer_of (map (λ word. word.now) words.now)) }
{
    let (symbols, behind) = take_routines(alloc, words)?;
    let Some(routines) = read_symbols(alloc, symbols.as_slice())? else {
        return Ok(None);
    };
    let Some(budget) = read_budget(symbols.len(), behind) else {
        return Ok(None);
    };
    Ok(Some(Transfer { routines, budget }))
}

/// The words behind each `transfer`, from the front on, and the words after them.
fn take_routines<'a, 'b>(
    alloc: Global,
    words: &'a [&'b [u8]],
) -> Result<(Vec<&'b [u8]>, &'a [&'b [u8]]), AllocError>
    ensures symbols { IfOk result (λ taken. map (λ symbol. symbol.now) taken.0.items ≡ routine_words (map (λ word. word.now) words.now)) }
    ensures behind { IfOk result (λ taken. map (λ word. word.now) taken.1.now ≡ after_routines (map (λ word. word.now) words.now)) }
{
    let mut symbols = Vec::new(alloc);
    let mut behind = words;
    while let [word, symbol, rest @ ..] = behind
        && *word == b"transfer".as_slice()
    {
        symbols.push(*symbol)?;
        behind = rest;
    }
    Ok((symbols, behind))
}

/// The name of each word, if each may be the name of a symbol.
fn read_symbols(alloc: Global, words: &[&[u8]]) -> Result<Option<Listed<Name>>, AllocError>
    ensures { IfOk result (λ symbols. symbols ≡ each_said symbol (map (λ word. word.now) words.now)) }
{
    let mut symbols = Vec::new(alloc);
    for word in words {
        if !is_symbol(word) {
            return Ok(None);
        }
        symbols.push(Name::of(alloc, word)?)?;
    }
    Ok(Some(Listed::from_vec(symbols)))
}

/// How many turns that many routines may have together: `budget N`, which needs one at least, or nothing.
fn read_budget(routines: usize, words: &[&[u8]]) -> Option<u32>
    ensures { result ≡ budget_of routines (map (λ word. word.now) words.now) }
{
    match words {
        [] => Some(USUAL_BUDGET),
        [word, turns] if routines > 0 && *word == b"budget".as_slice() => read_turns_of_one(turns),
        _ => None,
    }
}
