//! A script from its bytes.

ghost use Rattle.std.specs.Prelude.{◌≡◌, ◌^◌, ◌-◌, ◌+◌, ◌<◌, map, length, All, IfOk};
ghost use Rattle.cell_text.specs.Text.{Behind, IsInside, text_at};
ghost use Rattle.cell_script.specs.Script.{reading_of, script_from, script_of, Reads};

use crate::command::{Reading, read_words};
use crate::{Line, Script};
use cell_text::{Span, lines, words};
use std::alloc::{AllocError, Global};

/// Why a script has no reading.
#[derive(Clone, Copy, Debug, PartialEq, Eq)]
pub enum ScriptFail {
    /// The first line that is no command, no comment and not empty.
    Bad { line: u32 },
    OutOfMemory,
}

/// Reads the commands of a script. Lines end with a line feed, which the last may lack, and are
/// counted from 1. A line without words and one whose first word begins with `#` say nothing.
pub fn read_script(alloc: Global, text: &[u8]) -> Result<Script, ScriptFail>
    requires { length text.now < 2 ^ 32 }
    ensures { Reads result (script_of text.now) }
{
    let Ok(texts) = lines(alloc, text) else {
        return Err(ScriptFail::OutOfMemory);
    };
    read_lines(alloc, &texts)
}

/// Reads lines, of which none but an empty one is so late that its number would not fit.
fn read_lines(alloc: Global, texts: &[&[u8]]) -> Result<Script, ScriptFail>
    requires { Behind (2 ^ 32 - 1) (map (λ text. text.now) texts.now) }
    ensures { Reads result (script_from 1 (map (λ text. text.now) texts.now)) }
{
    let mut lines = Vec::new(alloc);
    let mut spans = Vec::new(alloc);
    for (i, text) in texts.iter().enumerate() {
        match read_line(alloc, text, &mut spans) {
            Ok(Reading::Nothing) => {}
            Ok(Reading::Does(command)) => {
                let number = line_number(i);
                if lines.push(Line { number, command }).is_err() {
                    return Err(ScriptFail::OutOfMemory);
                }
            }
            Ok(Reading::Bad) => {
                let line = line_number(i);
                return Err(ScriptFail::Bad { line });
            }
            Err(_) => return Err(ScriptFail::OutOfMemory),
        }
    }
    Ok(Script::from_vec(lines))
}

fn line_number(index: usize) -> u32
    requires { index < 2 ^ 32 - 1 }
    ensures { result ≡ index + 1 }
{
    index as u32 + 1
}

/// Reads one line; `spans` is room for the places of its words.
fn read_line(alloc: Global, text: &[u8], spans: &mut Vec<Span>) -> Result<Reading, AllocError>
    requires { length text.now < 2 ^ 32 }
    ensures { IfOk result (λ reading. reading ≡ reading_of text.now) }
{
    words(text, spans)?;
    let words = texts_at(alloc, text, spans)?;
    read_words(alloc, words.as_slice())
}

/// What stands at these places.
fn texts_at<'a>(alloc: Global, line: &'a [u8], spans: &[Span]) -> Result<Vec<&'a [u8]>, AllocError>
    requires { All (IsInside line.now) spans.now }
    ensures { IfOk result (λ texts. map (λ text. text.now) texts.items ≡ map (text_at line.now) spans.now) }
{
    let mut texts = Vec::with_capacity(alloc, spans.len())?;
    for span in spans {
        texts.push(&line[span.start as usize..span.end as usize])?;
    }
    Ok(texts)
}
