//! What going back by the records of all writes gives back.

ghost use Rattle.std.specs.Prelude.{ℕ, ◌≡◌, ◌<◌, IsTrue, List, ◌++◌, All, length, [], ◌∷◌};
ghost use Rattle.cell_num.specs.Lists.{each_pair, In};
ghost use Rattle.cell_world.specs.Coherent.{ends_before};
ghost use Rattle.cell_world.specs.Placed.Place.{with_region};
ghost use Rattle.cell_world.specs.Running.Turn.{without_region};
ghost use Rattle.cell_world.specs.declared.transfer.Record.{Record};
ghost use Rattle.cell_world.specs.Running.Undo.{AreBytes, ArePuts, IsPut, Write, journal_of, put_back, put_in, puts, record_of, undone};
ghost use Rattle.cell_world.specs.World.{Region};
ghost use Rattle.cell_lemmas.specs.Kept.{KeepsShapes};
ghost use Rattle.cell_lemmas.specs.Undo.{GivesBack};

/// An undo over the records of any stores and patches, from the last to the first, gives every byte back, and it changes no region's start, length or permission whatever the records are.
pub fn undo_gives_back()
    ensures one { (regions : List Region) (x : Write) → IsTrue (each_pair ends_before regions) → AreBytes regions → IsPut regions x → put_back (put_in regions x) (record_of regions x) ≡ regions }
    ensures all { (regions : List Region) (writes : List Write) → IsTrue (each_pair ends_before regions) → AreBytes regions → ArePuts regions writes → undone (puts regions writes) (journal_of regions writes) ≡ regions }
    ensures shapes { (regions : List Region) (records : List Record) → KeepsShapes regions (undone regions records) }
{}

/// What keeps an undo under way, step by step: it begins without records; each write adds its record as the last; a region that is mapped meanwhile hinders no other, and one that is unmapped is no longer given back. Where all that was mapped meanwhile is gone, the regions are those of the beginning.
pub fn undo_under_way()
    ensures begun { (regions : List Region) → GivesBack regions regions [] }
    ensures written { (saved regions : List Region) (records : List Record) (x : Write) → IsTrue (each_pair ends_before regions) → AreBytes regions → IsPut regions x → GivesBack saved regions records → GivesBack saved (put_in regions x) (records ++ record_of regions x ∷ []) }
    ensures mapped { (saved regions : List Region) (records : List Record) (new : Region) → GivesBack saved regions records → GivesBack saved (with_region new regions) records }
    ensures unmapped { (saved regions : List Region) (records : List Record) (start : ℕ) → GivesBack saved regions records → GivesBack (without_region start saved) (without_region start regions) records }
    ensures ended { (old new : List Region) → IsTrue (each_pair ends_before new) → All (λ r. 0 < length r.bytes) new → KeepsShapes old new → All (λ r. In r new) old → new ≡ old }
{}
