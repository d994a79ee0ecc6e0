//! The line of a refusal.

ghost use Rattle.std.specs.Prelude.{◌≡◌, IfOk};
ghost use Rattle.cell_assemble.specs.RefusalLine.{kind_word, refusal_line};

use crate::status::Refusal;
use cell_asm::AsmKind;
use cell_num::{MAX_NAMES, MAX_SOURCE_BYTES};
use cell_text::put_dec;
use std::alloc::{AllocError, Global};

/// The line of a refusal, where the source has that name.
pub fn refusal_line(alloc: Global, source: &str, refusal: Refusal) -> Result<Vec<u8>, AllocError>
    ensures { IfOk result (λ text. text.items ≡ refusal_line source.now refusal) }
{
    let mut text = Vec::new(alloc);
    match refusal {
        Refusal::TooManyNames => {
            text.extend_from_slice(b"too many names: limit ")?;
            put_dec(u64::from(MAX_NAMES), &mut text)?;
        }
        Refusal::NoSource => {
            text.extend_from_slice(b"no source ")?;
            text.extend_from_slice(source.as_bytes())?;
        }
        Refusal::TooLong => {
            text.extend_from_slice(b"too long: limit ")?;
            put_dec(u64::from(MAX_SOURCE_BYTES), &mut text)?;
        }
        Refusal::Fault { line, kind } => {
            text.extend_from_slice(b"line ")?;
            put_dec(u64::from(line), &mut text)?;
            text.extend_from_slice(b": ")?;
            text.extend_from_slice(kind_word(kind))?;
        }
    }
    text.extend_from_slice(b"\n")?;
    Ok(text)
}

fn kind_word(kind: AsmKind) -> &'static [u8]
    ensures { result.now ≡ kind_word kind }
{
    match kind {
        AsmKind::Word => b"Word",
        AsmKind::Operand => b"Operand",
        AsmKind::Range => b"Range",
        AsmKind::Section => b"Section",
        AsmKind::Twice => b"Twice",
        AsmKind::Label => b"Label",
        AsmKind::Long => b"Long",
    }
}
