//! The laws on slots: what a coherent machine holds where the object of a file asked for the address of a slot.
#![tactic(auto)]

ghost use Rattle.std.specs.Prelude.{◌≡◌, ℕ, All, Some, slice_get};
ghost use Rattle.cell_num.specs.Bits.{bytes_of};
ghost use Rattle.cell_num.specs.declared.kinds.RelKind.TheVariants.{GotHi20};
ghost use Rattle.cell_object.specs.declared.object.Object.{Object};
ghost use Rattle.cell_object.specs.Readable.{IsFromFile};
ghost use Rattle.cell_world.specs.Coherent.{IsCoherent};
ghost use Rattle.cell_world.specs.Names.{definitions_of, needs_of, weak_definitions_of};
ghost use Rattle.cell_world.specs.Running.Memory.{read};
ghost use Rattle.cell_world.specs.Linked.Target.{address_of, numbered_target};
ghost use Rattle.cell_world.specs.World.{World};
ghost use Rattle.cell_world.specs.declared.state.Target.{Target};
ghost use Rattle.cell_got.specs.Lower.{lower, slots_of};
ghost use Rattle.cell_got_laws.specs.Sites.{HoldsRow, slot_at};

/// In each cell whose object was lowered when it was read, each site that asked for a slot holds the value of the kind's row for the slot's address.
pub fn sites_hold_row()
    ensures { (w : World) → IsCoherent w →
        All (λ c. (o : Object) → IsFromFile o → c.object ≡ lower o → All (λ e. e.kind ≡ GotHi20 → HoldsRow w c.placed o e) o.entries) w.cells }
{}

/// Each slot holds the address, or the number, that its symbol names.
pub fn slots_hold_addresses()
    ensures { (w : World) → IsCoherent w →
        All (λ c. (o : Object) → IsFromFile o → c.object ≡ lower o → (k symbol : ℕ) → slice_get (slots_of o) k ≡ Some symbol →
        (t : Target) × (numbered_target w c symbol ≡ Some t) × (read w (slot_at c.placed o k) 8 ≡ Some (bytes_of 8 (address_of t)))) w.cells }
{}

/// A cell has the same names and the same needs with the lowered object, so the rule of names and what a load brings are as with the object of the file.
pub fn lowered_keeps_names()
    ensures definitions { (object : Object) → definitions_of (lower object) ≡ definitions_of object }
    ensures weak { (object : Object) → weak_definitions_of (lower object) ≡ weak_definitions_of object }
    ensures needs { (object : Object) → needs_of (lower object) ≡ needs_of object }
{}
