//! What a command line says.

ghost use Rattle.std.specs.Prelude.{◌≡◌, ◌≤◌, ◌%◌, map, true, option_map, IfOk, IfSome, string_bytes};
ghost use Rattle.cell_num.specs.Limits.{max_pages, min_pages};
ghost use Rattle.clap.specs.Words.{first_of, found_of, rows_of};
ghost use Rattle.cell_arguments.specs.Arguments.{is_base, base_in, pages_in, crates_in, seed_in, default_base, default_pages, value_or, arguments_of, arguments_in, generated, said, task_in, task_of, task_said, ReadsArguments, IsInRange, IsTask};

use crate::command::matches_in;
use cell_num::{MAX_BASE, MAX_PAGES, MIN_BASE, MIN_PAGES, PAGE_SIZE};
use cell_text::{read_dec, read_hex};
use clap::ArgMatches;
use std::alloc::Global;

/// What is to be run.
#[derive(Clone, Copy, Debug)]
pub enum Task<'a> {
    /// The script of that name in a folder, over the folder's object files.
    Script { dir: &'a str, script: &'a str },
    /// The run that the generator makes of so many crates, 1 to 400, and a seed.
    Generated { crates: u32, seed: u64 },
}

/// What is to be run, and the machine's memory.
#[derive(Clone, Copy, Debug)]
pub struct Arguments<'a> {
    pub task: Task<'a>,
    /// Where the memory begins: a multiple of 4096 from 0x1000 to 0x7fffffff000.
    pub base: u64,
    /// How many pages of 4096 bytes it has: 16 to 4096.
    pub pages: u32,
}

/// Why a command line says nothing.
#[derive(Clone, Copy, Debug, PartialEq, Eq)]
pub enum ArgumentsFault {
    Usage,
    OutOfMemory,
}

const DEFAULT_BASE: u64 = 0x1000_0000;

const DEFAULT_PAGES: u32 = 1024;

const MOST_CRATES: u64 = 400;

/// Reads the words after the program's name: `DIR SCRIPT [--base HEX] [--pages N]`, or
/// `--generate N --seed S [--base HEX] [--pages N]`.
pub fn read_arguments<'a>(
    alloc: Global,
    words: &'a [String],
) -> Result<Arguments<'a>, ArgumentsFault>
    ensures reads { ReadsArguments result (arguments_of (map string_bytes words.now)) }
    ensures range { IfOk result (λ a. IsInRange a.base a.pages) }
    ensures task { IfOk result (λ a. IsTask (task_said a.task)) }
{
    let matches = match matches_in(alloc, words) {
        Ok(matches) => matches,
        Err(fault) => return Err(fault),
    };
    match arguments_in(&matches) {
        Some(arguments) => Ok(arguments),
        None => Err(ArgumentsFault::Usage),
    }
}

/// The text of an option or a positional, where it is given.
fn given<'a>(matches: &ArgMatches<'a>, name: &str) -> Option<&'a str>
    ensures { option_map (λ text. text.now) result ≡ first_of name.now (rows_of (found_of matches.now)) }
{
    matches.get_str(name)
}

fn arguments_in<'a>(matches: &ArgMatches<'a>) -> Option<Arguments<'a>>
    ensures reads { option_map said result ≡ arguments_in (rows_of (found_of matches.now)) }
    ensures range { IfSome result (λ a. IsInRange a.base a.pages) }
    ensures task { IfSome result (λ a. IsTask (task_said a.task)) }
{
    let task = task_in(matches)?;
    let base = base_or_default(given(matches, "base"))?;
    let pages = pages_or_default(given(matches, "pages"))?;
    Some(Arguments { task, base, pages })
}

fn task_in<'a>(matches: &ArgMatches<'a>) -> Option<Task<'a>>
    ensures reads { option_map task_said result ≡ task_in (rows_of (found_of matches.now)) }
    ensures task { IfSome result (λ t. IsTask (task_said t)) }
{
    task_of(
        given(matches, "dir"),
        given(matches, "script"),
        given(matches, "generate"),
        given(matches, "seed"),
    )
}

/// A folder and a script alone, or a number of crates and a seed alone.
fn task_of<'a>(
    dir: Option<&'a str>,
    script: Option<&'a str>,
    crates: Option<&'a str>,
    seed: Option<&'a str>,
) -> Option<Task<'a>>
    ensures reads { option_map task_said result ≡ task_of (option_map (λ t. t.now) dir.entry) (option_map (λ t. t.now) script.entry) (option_map (λ t. t.now) crates.entry) (option_map (λ t. t.now) seed.entry) }
    ensures task { IfSome result (λ t. IsTask (task_said t)) }
{
    match (dir, script, crates, seed) {
        (Some(dir), Some(script), None, None) => Some(Task::Script { dir, script }),
        (None, None, Some(crates), Some(seed)) => generated(crates.as_bytes(), seed.as_bytes()),
        _ => None,
    }
}

fn generated<'a>(crates: &[u8], seed: &[u8]) -> Option<Task<'a>>
    ensures reads { option_map task_said result ≡ generated crates.now seed.now }
    ensures task { IfSome result (λ t. IsTask (task_said t)) }
{
    let crates = crates_in(crates)?;
    let seed = read_dec(seed, u64::MAX)?;
    Some(Task::Generated { crates, seed })
}

fn crates_in(text: &[u8]) -> Option<u32>
    ensures value { result ≡ crates_in text.now }
    ensures low { IfSome result (λ crates. 1 ≤ crates) }
    ensures high { IfSome result (λ crates. crates ≤ 400) }
{
    match read_dec(text, MOST_CRATES) {
        Some(crates) if crates >= 1 => Some(crates as u32),
        _ => None,
    }
}

fn base_or_default(text: Option<&str>) -> Option<u64>
    ensures value { result ≡ value_or default_base base_in (option_map (λ t. t.now) text.entry) }
    ensures range { IfSome result (λ base. is_base base ≡ true) }
{
    match text {
        Some(text) => base_in(text.as_bytes()),
        None => Some(DEFAULT_BASE),
    }
}

/// `0x` and the number in lower-case hex.
fn base_in(text: &[u8]) -> Option<u64>
    ensures value { result ≡ base_in text.now }
    ensures range { IfSome result (λ base. is_base base ≡ true) }
{
    let [b'0', b'x', digits @ ..] = text else {
        return None;
    };
    match read_hex(digits) {
        Some(base) if is_base(base) => Some(base),
        _ => None,
    }
}

fn is_base(base: u64) -> bool
    ensures { result ≡ is_base base }
{
    base % PAGE_SIZE == 0 && base >= MIN_BASE && base <= MAX_BASE
}

fn pages_or_default(text: Option<&str>) -> Option<u32>
    ensures value { result ≡ value_or default_pages pages_in (option_map (λ t. t.now) text.entry) }
    ensures low { IfSome result (λ pages. min_pages ≤ pages) }
    ensures high { IfSome result (λ pages. pages ≤ max_pages) }
{
    match text {
        Some(text) => pages_in(text.as_bytes()),
        None => Some(DEFAULT_PAGES),
    }
}

fn pages_in(text: &[u8]) -> Option<u32>
    ensures value { result ≡ pages_in text.now }
    ensures low { IfSome result (λ pages. min_pages ≤ pages) }
    ensures high { IfSome result (λ pages. pages ≤ max_pages) }
{
    match read_dec(text, u64::from(MAX_PAGES)) {
        Some(pages) if pages >= u64::from(MIN_PAGES) => Some(pages as u32),
        _ => None,
    }
}
