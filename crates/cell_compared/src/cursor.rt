//! The lines of a dump that are left.

ghost use Rattle.std.specs.Prelude.{◌≡◌, ◌<◌, ◌^◌, [], IfSome, Some, length};
ghost use Rattle.std.proofs.Props.{props};
ghost use Rattle.cell_audit.specs.Within.{AreWithin};

use cell_audit::Lines;
use std::alloc::Global;

/// The lines of a dump that are left, and the text that the next one is compared with.
#[derive(Drop)]
pub struct Cursor<'a> {
    pub file: &'a [u8],
    pub rest: Option<Lines>,
    pub fresh: Vec<u8>,
    ghost within: { IfSome rest (AreWithin file.now) } by { Prim.hlevel props },
    ghost small: { length file.now < 2 ^ 32 },
}

impl<'a> Cursor<'a> {
    /// All lines are left.
    pub fn new(alloc: Global, file: &'a [u8], lines: Lines) -> Cursor<'a>
        requires within { AreWithin file.now lines }
        requires small { length file.now < 2 ^ 32 }
        ensures file { result.file.now ≡ file.now }
        ensures lines { result.rest ≡ Some lines }
    {
        Cursor {
            file,
            rest: Some(lines),
            fresh: Vec::new(alloc),
        }
    }
}
