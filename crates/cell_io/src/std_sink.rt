//! A stream of std as a sink.

ghost use Rattle.std.specs.Prelude.{◌≡◌, ◌≤◌, take, length, IfOk, OnOk, OnErr, MatchResult};
ghost use Rattle.std.specs.Io.KnownBytes.{Appends, Keeps};
ghost use Rattle.cell_io.specs.Written.{AppendsPartOf};

use crate::{Sink, SinkFault};
use std::io::{ErrorKind, Write};

/// A stream of std, which tells what the stream tells. Each put goes through to the system.
#[derive(Drop)]
pub struct StdSink<W> {
    stream: W,
    faults: u64,
}

impl<W> StdSink<W> {
    pub fn new(stream: W) -> Self
        ensures faults { result.faults ≡ 0 }
    {
        StdSink { stream, faults: 0 }
    }
}

impl<W: Write> Sink for StdSink<W> {
    ghost written = { λ s. W.contents s.stream };

    ghost faults = { λ s. s.faults };

    /// A write that takes nothing, and one that can't be flushed, are faults.
    fn put(&mut self, piece: &[u8]) -> Result<(), SinkFault> {
        let answer = write_through(&mut self.stream, piece);
        if answer.is_err() {
            self.faults = self.faults.saturating_add(1);
        }
        answer
    }
}

/// Writes the piece, and flushes the stream. A write that is interrupted is tried again.
fn write_through<W: Write>(stream: &mut W, piece: &[u8]) -> Result<(), SinkFault>
    ensures whole { OnOk result (Appends (W.contents stream.old) (W.contents stream.new) piece.now) }
    ensures part { OnErr result (AppendsPartOf (W.contents stream.old) (W.contents stream.new) piece.now) }
{
    let mut at = 0;
    for _ in 0..u64::MAX {
        if at == piece.len() {
            return flush(stream);
        }
        at += write_some(stream, &piece[at..])?;
    }
    Err(SinkFault)
}

/// How many bytes one write takes. One that takes none is a fault, but for one that was interrupted.
#[tactic(auto, using(crate::proofs::Streams::streams))]
fn write_some<W: Write>(stream: &mut W, rest: &[u8]) -> Result<usize, SinkFault>
    ensures within { IfOk result (λ count. count ≤ length rest.now) }
    ensures taken { MatchResult result (λ count. Appends (W.contents stream.old) (W.contents stream.new) (take count rest.now)) (λ _. Keeps (W.contents stream.old) (W.contents stream.new)) }
{
    match stream.write(rest) {
        Ok(0) => Err(SinkFault),
        Ok(count) => Ok(count),
        Err(error) => {
            if error.kind() == ErrorKind::Interrupted {
                Ok(0)
            } else {
                Err(SinkFault)
            }
        }
    }
}

fn flush<W: Write>(stream: &mut W) -> Result<(), SinkFault>
    ensures { Keeps (W.contents stream.old) (W.contents stream.new) }
{
    match stream.flush() {
        Ok(()) => Ok(()),
        Err(_) => Err(SinkFault),
    }
}
