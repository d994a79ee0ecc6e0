//! A run where nothing outside can fail.

ghost use Rattle.std.specs.Prelude.{◌≡◌, ◌≢◌, ◌<◌, ◌+◌, [], map, length, string_bytes};
ghost use Rattle.cell_io.specs.MemoryHost.{file_of};
ghost use Rattle.cell_run.specs.Run.{run_of, IsWhole};

use crate::{Shelf, Status, cells};
use cell_io::{MemSink, SoundHost};
use std::alloc::Global;

/// As `cells`, over files in memory, which are always read. Into a sink without failing puts and with
/// more room than the run's text needs, all of the run is written, or memory runs out.
pub fn cells_in_memory(
    alloc: Global,
    words: &Vec<String>,
    host: &mut SoundHost,
    out: &mut MemSink,
) -> Status
    ensures no_read { result ≢ Status.ReadFault }
    ensures whole { out.old.failing ≡ [] →
        length out.old.bytes + length (run_of (map string_bytes words.now.items) (map file_of host.old.files.items)).text < out.old.room →
        IsWhole (run_of (map string_bytes words.now.items) (map file_of host.old.files.items)) result out.old.bytes out.new.bytes }
{
    let mut shelf = Shelf::new();
    cells(alloc, words, host, out, &mut shelf)
}
