//! What there is in a machine that can be linked: what entries and links name, and where cells lie.

ghost use Rattle.std.specs.Prelude.{◌+◌, ◌*◌, ◌<◌, ◌≤◌, All};
ghost use Rattle.cell_num.specs.Limits.{page_size};
ghost use Rattle.cell_num.specs.Kinds.{width_of};
ghost use Rattle.cell_world.specs.Coherent.{IsCoherent, IsReady};
ghost use Rattle.cell_world.specs.Linked.Field.{place_of};
ghost use Rattle.cell_world.specs.Linked.Target.{start_of};
ghost use Rattle.cell_world.specs.World.{World};
ghost use Rattle.cell_lemmas.specs.Linkable.{IsLinkable};
ghost use Rattle.cell_lemmas.specs.Present.{IsInside, JoinsPresent, NamesPresent};

/// A machine that is ready can be linked.
pub fn ready_is_linkable()
    ensures { (w : World) → IsReady w → IsLinkable w }
{}

/// Each entry of a present cell names a number, or a place in a section of a present cell.
pub fn entries_name_present()
    ensures { (w : World) → IsLinkable w → All (λ c. All (NamesPresent w c) c.object.entries) w.cells }
{}

/// Each link is from a section of a present cell to a section of a present cell.
pub fn links_join_present()
    ensures { (w : World) → IsCoherent w → All (JoinsPresent w) w.links }
{}

/// Each section and each field of a present cell lies in one region, and each place in the space.
pub fn cells_lie_in_regions()
    ensures sections { (w : World) → IsLinkable w → All (λ c. All (λ s. 0 < s.size → IsInside w (start_of c.placed s.number) s.size) c.object.sections) w.cells }
    ensures fields { (w : World) → IsLinkable w → All (λ c. All (λ e. IsInside w (place_of c.placed e) (width_of e.kind)) c.object.entries) w.cells }
    ensures places { (w : World) → IsLinkable w → All (λ c. All (λ p. (w.base ≤ p.start) × (p.start ≤ w.base + page_size * w.pages)) c.places) w.cells }
{}
