//! What the sections of a coherent machine hold.

ghost use Rattle.std.specs.Prelude.{◌≡◌, ◌<◌, ◌+◌, All, Some, false, length, slice_range};
ghost use Rattle.cell_num.specs.Kinds.{width_of};
ghost use Rattle.cell_world.specs.Coherent.{IsCoherent};
ghost use Rattle.cell_world.specs.Linked.Field.{fields_of, place_of};
ghost use Rattle.cell_world.specs.Linked.Fresh.{fields_in, fresh_bytes, value_bytes};
ghost use Rattle.cell_world.specs.Running.Memory.{read};
ghost use Rattle.cell_world.specs.Linked.Target.{start_of};
ghost use Rattle.cell_world.specs.World.{World};

/// Each section that isn't writable holds exactly its fresh bytes from its start on, as long as it has any.
pub fn sections_hold_fresh_bytes()
    ensures { (w : World) → IsCoherent w → All (λ c. All (λ s. s.write ≡ false → 0 < s.size → read w (start_of c.placed s.number) s.size ≡ Some (fresh_bytes w c s)) c.object.sections) w.cells }
{}

/// In each section, be it writable or not, each field holds its value.
pub fn fields_hold_values()
    ensures { (w : World) → IsCoherent w → All (λ c. All (λ f. read w (place_of c.placed f) (width_of f.kind) ≡ Some (value_bytes w c f)) (fields_of c.object)) w.cells }
{}

/// A section has as many fresh bytes as it has bytes, and in them each of its fields' values stands at the field's offset.
pub fn fresh_bytes_have_values()
    ensures sizes { (w : World) → IsCoherent w → All (λ c. All (λ s. length (fresh_bytes w c s) ≡ s.size) c.object.sections) w.cells }
    ensures values { (w : World) → IsCoherent w → All (λ c. All (λ s. All (λ f. slice_range (fresh_bytes w c s) f.offset (f.offset + width_of f.kind) ≡ value_bytes w c f) (fields_in c.object s)) c.object.sections) w.cells }
{}
