//! The laws on dumps: that what a coherent machine shows is what its audit makes anew.
#![tactic(auto)]

ghost use Rattle.std.specs.Prelude.{◌<◌, ◌^◌, ◌≡◌, ℕ, All, List, None, Ok, Some, map};
ghost use Rattle.cell_world.specs.Coherent.{IsCoherent};
ghost use Rattle.cell_world.specs.Running.Undo.{AreBytes};
ghost use Rattle.cell_world.specs.World.{World};
ghost use Rattle.cell_world.specs.DumpLines.{dump_lines, lines_by};
ghost use Rattle.cell_audit.specs.Described.{described};
ghost use Rattle.cell_audit.specs.Audits.{audit_of};
ghost use Rattle.cell_audit.specs.Dumps.{Row, Text, dump_in, lines_of};
ghost use Rattle.cell_dumped.specs.Writable.{IsWritable};
ghost use Rattle.cell_audit.specs.Linking.{first_unlinked, fresh_lines};
ghost use Rattle.cell_audit.specs.Placing.{first_lacking, first_misplaced};
ghost use Rattle.cell_world.specs.Gather.{Source};
ghost use Rattle.cell_audit_laws.specs.Anew.{described_of, linked_anew, made_anew, shown};
ghost use Rattle.cell_origin_law.specs.Readings.{AreRead};
ghost use Rattle.cell_origin_law.specs.Spelled.{IsSpelled};
ghost use Rattle.cell_audit_laws.specs.Transcripts.{IsEarlier, transcript};

/// The lines of a coherent machine are those of it linked anew: each section that isn't writable from its own bytes, each
/// other one from what it holds, each field from the objects, and all links from the entries.
pub fn dump_is_fresh()
    ensures { (w : World) → IsCoherent w → lines_by (made_anew w) (linked_anew w) ≡ dump_lines w }
{}

/// The dump of a coherent machine describes its space, its namespaces and its cells, given the files that their objects are read from.
pub fn dump_describes()
    ensures { (sources : List Source) (w : World) → IsCoherent w → AreRead sources w → described sources (dump_lines w) ≡ described_of w }
{}

/// Rows with the lines of a coherent machine lack no object, place nothing wrongly, leave nothing unlinked, and are those of the machine that they describe, linked anew.
pub fn dump_has_no_fault()
    ensures objects { (sources : List Source) (w : World) → IsCoherent w → AreRead sources w → (rows : List Row) → lines_of rows ≡ dump_lines w →
        first_lacking sources rows ≡ None }
    ensures places { (sources : List Source) (w : World) → IsCoherent w → AreRead sources w → (rows : List Row) → lines_of rows ≡ dump_lines w →
        first_misplaced sources rows ≡ None }
    ensures links { (sources : List Source) (w : World) → IsCoherent w → AreRead sources w → (rows : List Row) → lines_of rows ≡ dump_lines w →
        first_unlinked sources (lines_of rows) (described sources (lines_of rows)) rows ≡ None }
    ensures fresh { (sources : List Source) (w : World) → IsCoherent w → AreRead sources w → (rows : List Row) → lines_of rows ≡ dump_lines w →
        fresh_lines (lines_of rows) (described sources (lines_of rows)) ≡ dump_lines w }
{}

/// The lines of a coherent machine can be written where its names are spelled as such and its memory holds bytes.
pub fn spelled_is_writable()
    ensures { (w : World) → IsCoherent w → IsSpelled w → AreBytes w.regions → All IsWritable (dump_lines w) }
{}

/// The audit of the dump of a coherent machine is clean, given the files that its objects are read from, where its names are
/// spelled as such and its memory holds bytes. So it is of its lines wherever they are found, and of a whole transcript: earlier lines that begin no dump, the
/// answer with the lines, and whatever follows.
pub fn coherent_is_clean()
    ensures lines { (sources : List Source) (w : World) → IsCoherent w → AreRead sources w → IsSpelled w → AreBytes w.regions →
        (dump : List ℕ) (texts : List Text) → dump_in dump ≡ Some texts → map (λ t. t.1) texts ≡ map shown (dump_lines w) → audit_of dump sources ≡ Ok tt }
    ensures transcripts { (sources : List Source) (w : World) → IsCoherent w → AreRead sources w → IsSpelled w → AreBytes w.regions →
        (before : List (List ℕ)) (n : ℕ) (rest : List ℕ) → All IsEarlier before → n < 2 ^ 64 → audit_of (transcript before n (dump_lines w) rest) sources ≡ Ok tt }
{}
