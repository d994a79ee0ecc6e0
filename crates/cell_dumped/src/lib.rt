//! The lines of a machine's dump as text: what a line is written as, its writer, and its reader.
#![tactic(auto)]

ghost use Rattle.std.specs.Prelude.{◌≡◌, ℕ, List, Some};
ghost use Rattle.cell_world.specs.declared.line.DumpLine.{DumpLine as SomeLine};
ghost use Rattle.cell_dumped.specs.Readings.{line_said};
ghost use Rattle.cell_dumped.specs.Texts.{line_text};
ghost use Rattle.cell_dumped.specs.Writable.{IsWritable};

mod content;
mod read;
mod word;
mod write;

pub use read::read_line;
pub use word::read_number;
pub use write::put_line;

/// What a line is written as says the line.
pub fn text_says_line()
    ensures { (l : SomeLine) → IsWritable l → line_said (line_text l) ≡ Some l }
{}

/// And what says a line is what it is written as: there is one spelling of each line.
pub fn said_is_written()
    ensures { (text : List ℕ) (l : SomeLine) → line_said text ≡ Some l → line_text l ≡ text }
{}
