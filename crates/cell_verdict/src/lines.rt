//! What is written.

ghost use Rattle.std.specs.Prelude.{◌≡◌, IfOk};
ghost use Rattle.cell_verdict.specs.Lines.{fault_lines, reason_line, what_word};

use crate::status::{AuditWhat, Reason};
use cell_audit::AuditFail;
use cell_print::Piece::{Dec, Long, Text};
use cell_print::put_line;
use std::alloc::{AllocError, Global};

/// The lines of a fault: its number, its name and where it is; where a line differs, both texts behind it.
pub fn fault_lines(alloc: Global, fault: &AuditFail) -> Result<Vec<u8>, AllocError>
    ensures { IfOk result (λ text. text.items ≡ fault_lines fault.now) }
{
    let mut text = Vec::new(alloc);
    match fault {
        AuditFail::Unreadable { line } => {
            put_line(&[Text(b"A1 unreadable line "), Dec(*line)], &mut text)?;
        }
        AuditFail::NoObject { line } => {
            put_line(&[Text(b"A2 no-object line "), Dec(*line)], &mut text)?;
        }
        AuditFail::Misplaced { line } => {
            put_line(&[Text(b"A3 misplaced line "), Dec(*line)], &mut text)?;
        }
        AuditFail::Unlinked { line, entry } => {
            put_line(
                &[
                    Text(b"A4 unlinked line "),
                    Dec(*line),
                    Text(b" entry "),
                    Dec(*entry),
                ],
                &mut text,
            )?;
        }
        AuditFail::Differs { line, held, fresh } => {
            put_line(&[Text(b"A5 differs line "), Dec(*line)], &mut text)?;
            put_line(&[Text(b"  held "), Text(held.bytes())], &mut text)?;
            put_line(&[Text(b"  fresh "), Text(fresh.bytes())], &mut text)?;
        }
        AuditFail::OutOfMemory => {}
    }
    Ok(text)
}

/// The line of a call that audits nothing, where the dump has that name.
pub fn reason_line(alloc: Global, dump: &str, reason: Reason) -> Result<Vec<u8>, AllocError>
    ensures { IfOk result (λ text. text.items ≡ reason_line dump.now reason) }
{
    let mut text = Vec::new(alloc);
    match reason {
        Reason::NoDump => {
            put_line(&[Text(b"no dump "), Text(dump.as_bytes())], &mut text)?;
        }
        Reason::TooLarge { what, limit } => {
            put_line(
                &[
                    Text(b"too large: "),
                    Text(what_word(what)),
                    Text(b" limit "),
                    Long(limit),
                ],
                &mut text,
            )?;
        }
    }
    Ok(text)
}

fn what_word(what: AuditWhat) -> &'static [u8]
    ensures { result.now ≡ what_word what }
{
    match what {
        AuditWhat::Names => b"names",
        AuditWhat::Files => b"files",
        AuditWhat::DumpBytes => b"dump-bytes",
        AuditWhat::FileBytes => b"file-bytes",
        AuditWhat::AllBytes => b"all-bytes",
    }
}
