//! Which pages are free, and where a new cell comes to stand.

ghost use Rattle.std.specs.List.{list_all};
ghost use Rattle.std.specs.Prelude.{ℕ, ◌≡◌, ◌+◌, ◌*◌, ◌<◌, ◌≤◌, IsTrue, All, true, Some, Ok, length};
ghost use Rattle.cell_num.specs.Limits.{page_size};
ghost use Rattle.cell_num.specs.Lists.{each_pair};
ghost use Rattle.cell_object.specs.declared.object.Object.{Object};
ghost use Rattle.cell_world.specs.Coherent.{ends_before, is_in_space};
ghost use Rattle.cell_world.specs.Placed.Pages.{filled, lowest_run};
ghost use Rattle.cell_world.specs.Placed.Place.{Placing, page_table, place_class, with_region};
ghost use Rattle.cell_world.specs.World.{Region, World};
ghost use Rattle.cell_world.specs.declared.layout.Class.{Class};
ghost use Rattle.cell_lemmas.specs.Clear.{IsClear};

/// A region of n whole pages from a page on takes these pages of the table, and no others change.
pub fn region_fills_table()
    ensures { (w : World) (r : Region) (page : ℕ) (n : ℕ) → r.start ≡ w.base + page_size * page → length r.bytes ≡ page_size * n → page + n ≤ w.pages
        → page_table (record w { regions = with_region r w.regions }) ≡ filled (page_table w) page n true }
{}

/// The lowest free run of n pages lies in the space, and no region has a byte of it.
pub fn lowest_run_is_clear()
    ensures inside { (w : World) (n : ℕ) (page : ℕ) → 0 < n → lowest_run (page_table w) n ≡ Some page → page + n ≤ w.pages }
    ensures clear { (w : World) (n : ℕ) (page : ℕ) → 0 < n → lowest_run (page_table w) n ≡ Some page → IsTrue (list_all (is_in_space w) w.regions)
        → All (IsClear (w.base + page_size * page) (page_size * n)) w.regions }
{}

/// Where a class of a new cell is placed, all regions are whole pages in the space and apart from each other, as before.
pub fn placed_class_is_apart()
    ensures in_space { (w : World) (class : Class) (object : Object) (p : Placing) → IsTrue (list_all (is_in_space w) w.regions) → IsTrue (each_pair ends_before w.regions) → place_class w class object ≡ Ok p
        → IsTrue (list_all (is_in_space w) p.world.regions) }
    ensures apart { (w : World) (class : Class) (object : Object) (p : Placing) → IsTrue (list_all (is_in_space w) w.regions) → IsTrue (each_pair ends_before w.regions) → place_class w class object ≡ Ok p
        → IsTrue (each_pair ends_before p.world.regions) }
{}
