//! The line of a run that ends before its first command.

ghost use Rattle.std.specs.Prelude.{◌≡◌, IfOk};
ghost use Rattle.cell_run.specs.StatusLine.{what_word, reason_line};

use cell_input::{Reason, What};
use cell_print::Piece::{Dec, Long, Text};
use cell_print::put_line;
use std::alloc::{AllocError, Global};

/// The line of a run of that script.
pub fn reason_line(alloc: Global, script: &str, reason: Reason) -> Result<Vec<u8>, AllocError>
    ensures { IfOk result (λ text. text.items ≡ reason_line script.now reason) }
{
    let mut text = Vec::new(alloc);
    match reason {
        Reason::NoScript => {
            put_line(&[Text(b"no script "), Text(script.as_bytes())], &mut text)?;
        }
        Reason::BadScript { line } => {
            put_line(&[Text(b"bad script line "), Dec(line)], &mut text)?;
        }
        Reason::TooLarge { what, limit } => {
            put_line(
                &[
                    Text(b"too large: "),
                    Text(what_word(what)),
                    Text(b" limit "),
                    Long(limit),
                ],
                &mut text,
            )?;
        }
    }
    Ok(text)
}

fn what_word(what: What) -> &'static [u8]
    ensures { result.now ≡ what_word what }
{
    match what {
        What::Names => b"names",
        What::Files => b"files",
        What::FileBytes => b"file-bytes",
        What::AllBytes => b"all-bytes",
        What::ScriptBytes => b"script-bytes",
    }
}
