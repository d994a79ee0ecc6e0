//! What linking makes of a machine, and what it writes after new cells have come and others have changed. `AreSound` holds of the sources of all files within the limit (`files_are_sound`).

ghost use Rattle.std.specs.Prelude.{◌≡◌, ◌+◌, List, ◌++◌, All, map, false};
ghost use Rattle.cell_num.specs.Lists.{numbered};
ghost use Rattle.cell_world.specs.Changed.{differs, now_in};
ghost use Rattle.cell_world.specs.Coherent.{IsCoherent, IsReady};
ghost use Rattle.cell_world.specs.Linked.Relink.{relink, link_of};
ghost use Rattle.cell_world.specs.World.{Cell, World};
ghost use Rattle.cell_lemmas.specs.Grown.{HasAttached, IsRegrown, links_from, with_changes};
ghost use Rattle.cell_lemmas.specs.Firm.{ChangesSoft};
ghost use Rattle.cell_lemmas.specs.LinkSteps.{IsOneEntry, afters, befores, is_other_link, link_steps};
ghost use Rattle.cell_lemmas.specs.Targets.{FollowsTargets};

/// Linking makes a ready machine coherent.
pub fn relinked_is_coherent()
    ensures { (w : World) → IsReady w → IsCoherent (relink w) }
{}

/// Relinking twice is relinking once.
pub fn relink_twice_is_once()
    ensures { (w : World) → IsReady w → relink (relink w) ≡ relink w }
{}

/// Linking after new cells have come and others have changed their standings or aliases, or what they find, writes the new cells' fields and
/// those that change, and nothing else. An entry that doesn't differ names what it named, and has the link that it had.
pub fn relinked_writes_changes()
    ensures writes { (v : World) (w : World) (new : List Cell) → IsCoherent v → IsReady w → IsRegrown v w new →
        relink w ≡ record w { regions = map (with_changes v w new) w.regions; links = links_from w (map (now_in w) v.cells) ++ links_from w new } }
    ensures targets { (v : World) (w : World) (new : List Cell) → IsCoherent v → IsReady w → IsRegrown v w new → FollowsTargets v w }
    ensures links { (v : World) (w : World) (new : List Cell) → IsCoherent v → IsReady w → IsRegrown v w new →
        All (λ c. All (λ p. differs v w c p.1 ≡ false → link_of w (now_in w c) p ≡ link_of v c p) (numbered c.object.entries)) v.cells }
{}

/// The links of the cells that were there, before such a step and after it, stand in one order: entry by entry there is a row before and after,
/// of one user and entry, or none. So the links that move, those that come and those that go (`moves`, `binds`, `unbinds`) lead from one list to the other.
pub fn links_change_by_entries()
    ensures before { (v : World) (w : World) (new : List Cell) → IsCoherent v → IsReady w → IsRegrown v w new → v.links ≡ befores (link_steps v w) }
    ensures after { (v : World) (w : World) (new : List Cell) → IsCoherent v → IsReady w → IsRegrown v w new → links_from w (map (now_in w) v.cells) ≡ afters (link_steps v w) }
    ensures entries { (v : World) (w : World) (new : List Cell) → IsCoherent v → IsReady w → IsRegrown v w new → All IsOneEntry (link_steps v w) }
{}

/// Where the cells that were there keep their aliases, an entry names something else exactly where its link leads to another section, comes or
/// goes: within one section a name stands at one place. So what changes is seen by the links before and the targets after.
pub fn links_tell_what_differs()
    ensures { (v : World) (w : World) (new : List Cell) → IsCoherent v → IsReady w → IsRegrown v w new → All (λ c. (now_in w c).aliases ≡ c.aliases) v.cells →
        All (λ c. All (λ p. differs v w c p.1 ≡ is_other_link (link_of v c p) (link_of w (now_in w c) p)) (numbered c.object.entries)) v.cells }
{}

/// Where the cells that were there are as they were and the new ones are attached, as after a load, no entry differs that names what a strong
/// holder or its own object gives.
pub fn attaching_changes_soft_entries()
    ensures { (v : World) (w : World) (new : List Cell) → IsReady w → HasAttached v w new → ChangesSoft v w }
{}
