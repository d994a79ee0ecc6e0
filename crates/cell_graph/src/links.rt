//! The links by both their arenas and both their lists.

ghost use Rattle.std.specs.Prelude.{◌≡◌, ℕ, ◌+◌, ◌*◌, ◌<◌, ◌≤◌, ◌∷◌, ◌++◌, [], List, Option, None, Some, true, false, All, Contains, IsTrue, drop, length, map, slice_index_or};
ghost use Rattle.std.specs.List.{AllByRecursion};
ghost use Rattle.slab.specs.Slab.{ContainsKey, HasRoomFor, get, slab_len};
ghost use Rattle.cell_graph.specs.Chains.{AreChained, SameKeys};
ghost use Rattle.cell_graph.specs.Dropped.{AreDropped, DropsIf, HasNone, links_at};
ghost use Rattle.cell_graph.specs.Gaps.{AreAbove, IsGap, around};
ghost use Rattle.cell_graph.specs.Heads.{HasNew};
ghost use Rattle.cell_graph.specs.Removal.{is_listed, links_without, sections_without};
ghost use Rattle.cell_graph.specs.declared.rows.ChainRow.{ChainRow};
ghost use Rattle.cell_graph.specs.declared.order.SectionPlace.{SectionPlace};
ghost use Rattle.cell_graph.specs.declared.order.RowPlace.{RowPlace};
ghost use Rattle.cell_graph.specs.Listed.{IsListed, IsWhole, SectionsListed};
ghost use Rattle.cell_graph.specs.Lists.{IsSectionAt, RowsRise, has_row};
ghost use Rattle.cell_graph.specs.Moves.{moved};
ghost use Rattle.cell_graph.specs.Order.{Rises, below_link, below_section, with_link};
ghost use Rattle.cell_graph.specs.Places.{link_at};
ghost use Rattle.cell_graph.specs.Several.{AreNew, AreThere, all_linked, all_unlinked, unlinked};
ghost use Rattle.cell_graph.specs.Standing.{standing};

use crate::chains::{Sections, link, unlink};
use crate::gap::Gap;
use crate::near::Near;
use crate::order::{RowPlace, SectionPlace};
use crate::removal::is_listed;
use crate::row_list::RowList;
use crate::rows::{ChainRow, Rows};
use crate::section::Section;
use crate::section_list::SectionList;
use crate::steps::Steps;
use cell_num::{CellId, SecKey};
use cell_world::LinkRow;
use std::sync::ledger::{Blank, Ledger};

/// The place of the section at an index.
fn place_at<L: Ledger>(list: &SectionList, index: usize, key: SecKey, steps: &mut Steps<L>) -> usize
    requires { IsSectionAt list.now.items index key }
    ensures place { Contains list.now.items (record { key = key; place = result }) }
    ensures step { steps.new ≡ steps.old + 1 }
{
    list.at(index, steps).place
}

/// Adds a section that is above all others.
pub fn add_section(sections: &mut Sections, section_list: &mut SectionList, key: SecKey)
    requires above { (s : SectionPlace) → Contains section_list.old.items s → below_section s.key key ≡ true }
    requires room { HasRoomFor sections.old 1 }
    requires room_in_list { 0 < section_list.old.spare }
    ensures whole { (rows : ℕ → Option ChainRow) (row_list : List RowPlace) → IsWhole rows (get sections.old) section_list.old.items row_list → IsWhole rows (get sections.new) section_list.new.items row_list }
    ensures added { map (λ s. s.key) section_list.new.items ≡ map (λ s. s.key) section_list.old.items ++ key ∷ [] }
    ensures count { slab_len sections.new ≡ slab_len sections.old + 1 }
    ensures capacity { sections.new.capacity ≡ sections.old.capacity }
    ensures list_room { section_list.old.spare ≤ section_list.new.spare + 1 }
{
    let place = sections.insert(Section {
        key,
        first: None,
        users: 0,
    });
    section_list.push(SectionPlace { key, place });
}

/// The link that the list names at an index, read with a counter of its own.
pub fn link_named<L: Ledger>(rows: &Rows, list: &RowList, index: usize, blank: Blank) -> LinkRow
    requires name { blank.name ≡ L.name }
    requires parts { blank.parts ≡ L.parts }
    requires countable { 0 < blank.parts }
    requires inside { index < length list.now.items }
    requires listed { AllByRecursion (λ r. IsListed (get rows.now) r) list.now.items }
    ensures { (d : RowPlace) → result ≡ link_at (get rows.now) (slice_index_or list.now.items index d) }
{
    let mut steps = Steps::<L>::new(blank);
    let at = list.at(index, &mut steps);
    let chain = rows.read(at.place, &mut steps);
    LinkRow {
        user: at.user,
        entry: at.entry,
        target: chain.row.target,
    }
}

/// Gives a link its new target, and tells where to look for the next one first. Of the four steps one
/// reads the link, one looks where it stands, and two look where its two targets stand.
pub fn move_row<L: Ledger>(
    sections: &mut Sections,
    rows: &mut Rows,
    section_list: &SectionList,
    row_list: &RowList,
    to: LinkRow,
    near: Near,
    steps: &mut Steps<L>,
) -> Near
    requires whole { IsWhole (get rows.old) (get sections.old) section_list.now.items row_list.now.items }
    requires bound { IsTrue (has_row row_list.now.items to.user to.entry) }
    requires present { Contains (map (λ s. s.key) section_list.now.items) to.target }
    ensures whole { IsWhole (get rows.new) (get sections.new) section_list.now.items row_list.now.items }
    ensures moved { map (link_at (get rows.new)) row_list.now.items ≡ moved (map (link_at (get rows.old)) row_list.now.items) (to ∷ []) }
    ensures steps { steps.new ≡ steps.old + 4 }
    ensures row_count { slab_len rows.new ≡ slab_len rows.old }
    ensures section_count { slab_len sections.new ≡ slab_len sections.old }
    ensures row_capacity { rows.new.capacity ≡ rows.old.capacity }
    ensures section_capacity { sections.new.capacity ≡ sections.old.capacity }
{
    let row = row_list.index_near(near.row, to.user, to.entry);
    let place = row_list.at(row, steps).place;
    let chain = rows.read(place, steps);
    let old_index = section_list.index_near(near.old, chain.row.target);
    let old = place_at(section_list, old_index, chain.row.target, steps);
    unlink(sections, rows, old, place, chain);
    let new_index = section_list.index_near(near.new, to.target);
    let new = place_at(section_list, new_index, to.target, steps);
    link(sections, rows, new, place, to);
    Near {
        row: row + 1,
        old: old_index,
        new: new_index,
    }
}

/// Puts a link into its arena and its chain. The list doesn't name it yet. Its target is looked for at an
/// index first, and the answer is the link's place and the index where the target is named.
fn place_row(
    sections: &mut Sections,
    rows: &mut Rows,
    section_list: &SectionList,
    row: LinkRow,
    near: usize,
) -> (usize, usize)
    requires chained { AreChained (get rows.old) (get sections.old) }
    requires listed { SectionsListed (get sections.old) section_list.now.items }
    requires present { Contains (map (λ s. s.key) section_list.now.items) row.target }
    requires room { HasRoomFor rows.old 1 }
    ensures was_empty { get rows.old result.0 ≡ None }
    ensures links { HasNew (get rows.old) (get rows.new) result.0 row }
    ensures chained { AreChained (get rows.new) (get sections.new) }
    ensures keys { SameKeys (get sections.old) (get sections.new) }
    ensures row_count { slab_len rows.new ≡ slab_len rows.old + 1 }
    ensures section_count { slab_len sections.new ≡ slab_len sections.old }
    ensures row_capacity { rows.new.capacity ≡ rows.old.capacity }
    ensures section_capacity { sections.new.capacity ≡ sections.old.capacity }
{
    let target = section_list.place_near(near, row.target);
    let place = rows.insert(ChainRow {
        row,
        before: None,
        after: None,
    });
    link(sections, rows, target.0, place, row);
    (place, target.1)
}

/// Adds a link. Each link behind it in the list is one step.
pub fn bind_row<L: Ledger>(
    sections: &mut Sections,
    rows: &mut Rows,
    section_list: &SectionList,
    row_list: &mut RowList,
    row: LinkRow,
    steps: &mut Steps<L>,
)
    requires whole { IsWhole (get rows.old) (get sections.old) section_list.now.items row_list.old.items }
    requires unbound { has_row row_list.old.items row.user row.entry ≡ false }
    requires present { Contains (map (λ s. s.key) section_list.now.items) row.target }
    requires room { HasRoomFor rows.old 1 }
    requires room_in_list { 0 < row_list.old.spare }
    ensures whole { IsWhole (get rows.new) (get sections.new) section_list.now.items row_list.new.items }
    ensures added { map (link_at (get rows.new)) row_list.new.items ≡ with_link row (map (link_at (get rows.old)) row_list.old.items) }
    ensures row_count { slab_len rows.new ≡ slab_len rows.old + 1 }
    ensures section_count { slab_len sections.new ≡ slab_len sections.old }
    ensures row_capacity { rows.new.capacity ≡ rows.old.capacity }
    ensures section_capacity { sections.new.capacity ≡ sections.old.capacity }
    ensures list_room { row_list.old.spare ≤ row_list.new.spare + 1 }
{
    let at = place_row(sections, rows, section_list, row, 0);
    let index = row_list.cut(row.user, row.entry);
    row_list.insert(index, RowPlace::of(row, at.0), steps);
}

/// Adds a link that comes before those behind the gap of the list, and answers the gap behind which it is
/// then, and where to look for the next target first.
fn bind_at_gap<L: Ledger>(
    sections: &mut Sections,
    rows: &mut Rows,
    section_list: &SectionList,
    row_list: &mut RowList,
    row: LinkRow,
    gap: Gap,
    near: usize,
    steps: &mut Steps<L>,
) -> (Gap, usize)
    requires whole { IsWhole (get rows.old) (get sections.old) section_list.now.items (around gap row_list.old.items) }
    requires gap { IsGap gap row_list.old.items }
    requires left { gap.front < gap.back }
    requires before { AreAbove row.user row.entry (drop gap.back row_list.old.items) }
    requires unbound { has_row (around gap row_list.old.items) row.user row.entry ≡ false }
    requires present { Contains (map (λ s. s.key) section_list.now.items) row.target }
    requires room { HasRoomFor rows.old 1 }
    ensures whole { IsWhole (get rows.new) (get sections.new) section_list.now.items (around result.0 row_list.new.items) }
    ensures added { map (link_at (get rows.new)) (around result.0 row_list.new.items) ≡ with_link row (map (link_at (get rows.old)) (around gap row_list.old.items)) }
    ensures gap { IsGap result.0 row_list.new.items }
    ensures behind { (r : LinkRow) → below_link r row ≡ true → AreAbove r.user r.entry (drop result.0.back row_list.new.items) }
    ensures size { result.0.back + gap.front + 1 ≡ gap.back + result.0.front }
    ensures steps { steps.new + result.0.front ≡ steps.old + gap.front + 1 }
    ensures row_count { slab_len rows.new ≡ slab_len rows.old + 1 }
    ensures section_count { slab_len sections.new ≡ slab_len sections.old }
    ensures row_capacity { rows.new.capacity ≡ rows.old.capacity }
    ensures section_capacity { sections.new.capacity ≡ sections.old.capacity }
    ensures list_room { row_list.new.spare ≡ row_list.old.spare }
{
    let there = row_list.move_gap(gap, row.user, row.entry, steps);
    let at = place_row(sections, rows, section_list, row, near);
    let rest = row_list.fill_gap(there, RowPlace::of(row, at.0), steps);
    (rest, at.1)
}

/// Adds links that aren't there and rise. From the last one on, each is put behind a gap of the list, which
/// moves to the front.
pub fn bind_rows<L: Ledger>(
    sections: &mut Sections,
    rows: &mut Rows,
    section_list: &SectionList,
    row_list: &mut RowList,
    new: &[LinkRow],
    steps: &mut Steps<L>,
)
    requires whole { IsWhole (get rows.old) (get sections.old) section_list.now.items row_list.old.items }
    requires rising { Rises below_link new.now }
    requires unbound { AreNew (map (link_at (get rows.old)) row_list.old.items) new.now }
    requires present { All (λ r. Contains (map (λ s. s.key) section_list.now.items) r.target) new.now }
    requires room { HasRoomFor rows.old (length new.now) }
    requires room_in_list { length new.now ≤ row_list.old.spare }
    ensures whole { IsWhole (get rows.new) (get sections.new) section_list.now.items row_list.new.items }
    ensures added { map (link_at (get rows.new)) row_list.new.items ≡ all_linked (map (link_at (get rows.old)) row_list.old.items) new.now }
    ensures steps { steps.new ≤ steps.old + 2 * length new.now + length row_list.old.items }
    ensures row_count { slab_len rows.new ≡ slab_len rows.old + length new.now }
    ensures section_count { slab_len sections.new ≡ slab_len sections.old }
    ensures row_capacity { rows.new.capacity ≡ rows.old.capacity }
    ensures section_capacity { sections.new.capacity ≡ sections.old.capacity }
    ensures list_room { row_list.old.spare ≤ row_list.new.spare + length new.now }
{
    let mut gap = row_list.open_gap(new.len(), steps);
    let mut near = 0;
    for index in (0..new.len()).rev() {
        let row = new[index];
        (gap, near) = bind_at_gap(
            sections,
            rows,
            section_list,
            row_list,
            row,
            gap,
            near,
            steps,
        );
    }
}

/// Takes the link at a place out of its chain and its arena. The list still names it. Its target is looked
/// for at an index first, and the answer is the index where it is named.
fn drop_row<L: Ledger>(
    sections: &mut Sections,
    rows: &mut Rows,
    section_list: &SectionList,
    place: usize,
    near: usize,
    steps: &mut Steps<L>,
) -> usize
    requires chained { AreChained (get rows.old) (get sections.old) }
    requires listed { SectionsListed (get sections.old) section_list.now.items }
    requires stands { ContainsKey rows.old place }
    ensures chained { AreChained (get rows.new) (get sections.new) }
    ensures links { HasNone (links_at (get rows.old)) (links_at (get rows.new)) place }
    ensures steps { steps.new ≡ steps.old + 1 }
    ensures keys { SameKeys (get sections.old) (get sections.new) }
    ensures row_count { slab_len rows.new + 1 ≡ slab_len rows.old }
    ensures section_count { slab_len sections.new ≡ slab_len sections.old }
    ensures row_capacity { rows.new.capacity ≡ rows.old.capacity }
    ensures section_capacity { sections.new.capacity ≡ sections.old.capacity }
{
    let chain = rows.read(place, steps);
    let target = section_list.place_near(near, chain.row.target);
    unlink(sections, rows, target.0, place, chain);
    rows.remove(place);
    target.1
}

/// Takes a link that is there out of its chain and its arena, and tells where to look for the next one
/// first. The list still names it.
fn unbind_one<L: Ledger>(
    sections: &mut Sections,
    rows: &mut Rows,
    section_list: &SectionList,
    row_list: &RowList,
    row: LinkRow,
    near: Near,
    steps: &mut Steps<L>,
) -> Near
    requires rise { RowsRise row_list.now.items }
    requires whole { IsWhole (get rows.old) (get sections.old) section_list.now.items (standing (get rows.old) row_list.now.items) }
    requires there { Contains (map (link_at (get rows.old)) (standing (get rows.old) row_list.now.items)) row }
    ensures whole { IsWhole (get rows.new) (get sections.new) section_list.now.items (standing (get rows.new) row_list.now.items) }
    ensures left { map (link_at (get rows.new)) (standing (get rows.new) row_list.now.items) ≡ unlinked (map (link_at (get rows.old)) (standing (get rows.old) row_list.now.items)) row }
    ensures steps { steps.new ≡ steps.old + 2 }
    ensures row_count { slab_len rows.new + 1 ≡ slab_len rows.old }
    ensures section_count { slab_len sections.new ≡ slab_len sections.old }
    ensures row_capacity { rows.new.capacity ≡ rows.old.capacity }
    ensures section_capacity { sections.new.capacity ≡ sections.old.capacity }
{
    let index = row_list.index_near(near.row, row.user, row.entry);
    let place = row_list.at(index, steps).place;
    let old = drop_row(sections, rows, section_list, place, near.old, steps);
    Near {
        row: index + 1,
        old,
        new: near.new,
    }
}

/// Takes links that are there out of their chains and their arena. The list still names them.
fn unbind_each<L: Ledger>(
    sections: &mut Sections,
    rows: &mut Rows,
    section_list: &SectionList,
    row_list: &RowList,
    gone: &[LinkRow],
    steps: &mut Steps<L>,
)
    requires whole { IsWhole (get rows.old) (get sections.old) section_list.now.items row_list.now.items }
    requires there { AreThere (map (link_at (get rows.old)) row_list.now.items) gone.now }
    ensures whole { IsWhole (get rows.new) (get sections.new) section_list.now.items (standing (get rows.new) row_list.now.items) }
    ensures left { map (link_at (get rows.new)) (standing (get rows.new) row_list.now.items) ≡ all_unlinked (map (link_at (get rows.old)) row_list.now.items) gone.now }
    ensures steps { steps.new ≡ steps.old + 2 * length gone.now }
    ensures row_count { slab_len rows.new + length gone.now ≡ slab_len rows.old }
    ensures section_count { slab_len sections.new ≡ slab_len sections.old }
    ensures row_capacity { rows.new.capacity ≡ rows.old.capacity }
    ensures section_capacity { sections.new.capacity ≡ sections.old.capacity }
{
    let mut near = Near::start();
    for row in gone {
        near = unbind_one(sections, rows, section_list, row_list, *row, near, steps);
    }
}

/// Takes links away that are there. The list is gone over once.
pub fn unbind_rows<L: Ledger>(
    sections: &mut Sections,
    rows: &mut Rows,
    section_list: &SectionList,
    row_list: &mut RowList,
    gone: &[LinkRow],
    steps: &mut Steps<L>,
)
    requires whole { IsWhole (get rows.old) (get sections.old) section_list.now.items row_list.old.items }
    requires there { AreThere (map (link_at (get rows.old)) row_list.old.items) gone.now }
    ensures whole { IsWhole (get rows.new) (get sections.new) section_list.now.items row_list.new.items }
    ensures left { map (link_at (get rows.new)) row_list.new.items ≡ all_unlinked (map (link_at (get rows.old)) row_list.old.items) gone.now }
    ensures steps { steps.new ≡ steps.old + 2 * length gone.now + length row_list.old.items }
    ensures row_count { slab_len rows.new + length gone.now ≡ slab_len rows.old }
    ensures section_count { slab_len sections.new ≡ slab_len sections.old }
    ensures row_capacity { rows.new.capacity ≡ rows.old.capacity }
    ensures section_capacity { sections.new.capacity ≡ sections.old.capacity }
    ensures list_room { row_list.new.spare ≡ row_list.old.spare + length gone.now }
{
    unbind_each(sections, rows, section_list, row_list, gone, steps);
    row_list.keep_standing(rows, steps);
}

/// The same for a link whose user is of a listed cell.
fn drop_listed_row<L: Ledger>(
    sections: &mut Sections,
    rows: &mut Rows,
    section_list: &SectionList,
    at: &RowPlace,
    cells: &[CellId],
    steps: &mut Steps<L>,
)
    requires chained { AreChained (get rows.old) (get sections.old) }
    requires listed { SectionsListed (get sections.old) section_list.now.items }
    requires stands { is_listed cells.now at.now.user ≡ true → ContainsKey rows.old at.now.place }
    ensures chained { AreChained (get rows.new) (get sections.new) }
    ensures links { DropsIf (is_listed cells.now at.now.user) (links_at (get rows.old)) (links_at (get rows.new)) at.now.place }
    ensures steps { steps.new ≤ steps.old + 1 }
    ensures keys { SameKeys (get sections.old) (get sections.new) }
    ensures row_count { slab_len rows.new ≤ slab_len rows.old }
    ensures section_count { slab_len sections.new ≡ slab_len sections.old }
    ensures row_capacity { rows.new.capacity ≡ rows.old.capacity }
    ensures section_capacity { sections.new.capacity ≡ sections.old.capacity }
{
    if !is_listed(cells, at.user) {
        return;
    }
    let _ = drop_row(sections, rows, section_list, at.place, 0, steps);
}

/// The same for all links whose users are of listed cells.
fn drop_listed_rows<L: Ledger>(
    sections: &mut Sections,
    rows: &mut Rows,
    section_list: &SectionList,
    row_list: &RowList,
    cells: &[CellId],
    steps: &mut Steps<L>,
)
    requires { IsWhole (get rows.old) (get sections.old) section_list.now.items row_list.now.items }
    ensures chained { AreChained (get rows.new) (get sections.new) }
    ensures links { AreDropped (λ r. r.place) (λ r. is_listed cells.now r.user) (links_at (get rows.old)) (links_at (get rows.new)) row_list.now.items }
    ensures steps { steps.new ≤ steps.old + 2 * length row_list.now.items }
    ensures keys { SameKeys (get sections.old) (get sections.new) }
    ensures row_count { slab_len rows.new ≤ slab_len rows.old }
    ensures section_count { slab_len sections.new ≡ slab_len sections.old }
    ensures row_capacity { rows.new.capacity ≡ rows.old.capacity }
    ensures section_capacity { sections.new.capacity ≡ sections.old.capacity }
{
    for index in 0..row_list.len() {
        let at = row_list.at(index, steps);
        drop_listed_row(sections, rows, section_list, &at, cells, steps);
    }
}

/// Takes the links away whose users are of listed cells. The list is gone over twice.
pub fn remove_rows<L: Ledger>(
    sections: &mut Sections,
    rows: &mut Rows,
    section_list: &SectionList,
    row_list: &mut RowList,
    cells: &[CellId],
    steps: &mut Steps<L>,
)
    requires { IsWhole (get rows.old) (get sections.old) section_list.now.items row_list.old.items }
    ensures whole { IsWhole (get rows.new) (get sections.new) section_list.now.items row_list.new.items }
    ensures left { map (link_at (get rows.new)) row_list.new.items ≡ links_without cells.now (map (link_at (get rows.old)) row_list.old.items) }
    ensures steps { steps.new ≤ steps.old + 3 * length row_list.old.items }
    ensures row_count { slab_len rows.new ≤ slab_len rows.old }
    ensures section_count { slab_len sections.new ≡ slab_len sections.old }
    ensures row_capacity { rows.new.capacity ≡ rows.old.capacity }
    ensures section_capacity { sections.new.capacity ≡ sections.old.capacity }
    ensures list_room { row_list.old.spare ≤ row_list.new.spare }
{
    drop_listed_rows(sections, rows, section_list, row_list, cells, steps);
    row_list.remove_listed(cells, steps);
}

/// Takes a section of a listed cell out of its arena. The list still names it.
fn drop_listed_section(sections: &mut Sections, at: &SectionPlace, cells: &[CellId])
    requires { is_listed cells.now at.now.key ≡ true → ContainsKey sections.old at.now.place }
    ensures sections { DropsIf (is_listed cells.now at.now.key) (get sections.old) (get sections.new) at.now.place }
    ensures count { slab_len sections.new ≤ slab_len sections.old }
    ensures capacity { sections.new.capacity ≡ sections.old.capacity }
{
    if !is_listed(cells, at.key) {
        return;
    }
    sections.remove(at.place);
}

/// The same for all sections of listed cells.
fn drop_listed_sections<L: Ledger>(
    sections: &mut Sections,
    section_list: &SectionList,
    cells: &[CellId],
    steps: &mut Steps<L>,
)
    requires { SectionsListed (get sections.old) section_list.now.items }
    ensures sections { AreDropped (λ s. s.place) (λ s. is_listed cells.now s.key) (get sections.old) (get sections.new) section_list.now.items }
    ensures steps { steps.new ≡ steps.old + length section_list.now.items }
    ensures count { slab_len sections.new ≤ slab_len sections.old }
    ensures capacity { sections.new.capacity ≡ sections.old.capacity }
{
    for index in 0..section_list.len() {
        let at = section_list.at(index, steps);
        drop_listed_section(sections, &at, cells);
    }
}

/// Takes the sections of listed cells away, which have no link. The list is gone over twice.
pub fn remove_sections<L: Ledger>(
    sections: &mut Sections,
    section_list: &mut SectionList,
    cells: &[CellId],
    steps: &mut Steps<L>,
)
    requires { SectionsListed (get sections.old) section_list.old.items }
    ensures whole { (rows : ℕ → Option ChainRow) (row_list : List RowPlace) → IsWhole rows (get sections.old) section_list.old.items row_list → ((p : ℕ) (row : ChainRow) → rows p ≡ Some row → is_listed cells.now row.row.target ≡ false) → IsWhole rows (get sections.new) section_list.new.items row_list }
    ensures left { map (λ s. s.key) section_list.new.items ≡ sections_without cells.now (map (λ s. s.key) section_list.old.items) }
    ensures steps { steps.new ≡ steps.old + 2 * length section_list.old.items }
    ensures count { slab_len sections.new ≤ slab_len sections.old }
    ensures capacity { sections.new.capacity ≡ sections.old.capacity }
    ensures list_room { section_list.old.spare ≤ section_list.new.spare }
{
    drop_listed_sections(sections, section_list, cells, steps);
    section_list.remove_listed(cells, steps);
}
