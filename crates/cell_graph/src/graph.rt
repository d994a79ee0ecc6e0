//! The graph.

ghost use Rattle.std.specs.Prelude.{◌≡◌, ◌↔◌, ◌*◌, ◌<◌, ◌≤◌, ◌+◌, ◌++◌, ◌∷◌, [], ◌==◌, ◌||◌, ℕ, false, true, filter, All, Contains, IfErr, IfNone, IfSome, IsOk, IsSome, IsTrue, OnErr, OnOk, length, map};
ghost use Rattle.std.specs.List.Sorted.{IsPermutation, IsStrictlyIncreasing};
ghost use Rattle.slab.specs.Slab.{get};
ghost use Rattle.cell_world.specs.World.{key_of};
ghost use Rattle.cell_graph.specs.Links.{is_bound, links_from, links_to};
ghost use Rattle.cell_graph.specs.Lists.{IsCellRange, RowsRise};
ghost use Rattle.cell_graph.specs.Moves.{AreApart, moved};
ghost use Rattle.cell_world.specs.declared.state.LinkRow.{LinkRow as Row};
ghost use Rattle.cell_graph.specs.Removal.{is_listed, is_used_outside, links_without, sections_without, uses_from_outside, IsCellUsedBy, IsUsedBy};
ghost use Rattle.cell_graph.specs.Order.{below_link, below_section, with_link, Rises};
ghost use Rattle.cell_graph.specs.Several.{AreNew, AreThere, all_linked, all_unlinked};
ghost use Rattle.cell_graph.specs.Users.{is_marked, is_user_of, leads_to};
ghost use Rattle.cell_graph.specs.Weaks.{made_for};

use crate::chains::Sections;
use crate::links::{
    add_section, bind_row, bind_rows, link_named, move_row, remove_rows, remove_sections,
    unbind_rows,
};
use crate::marks::mark;
use crate::near::Near;
use crate::order::is_same;
use crate::removal::{StillUsed, is_listed};
use crate::row_list::RowList;
use crate::rows::Rows;
use crate::section::Section;
use crate::section_list::SectionList;
use crate::steps::Steps;
use crate::walks::{CellDeps, CellRows, Deps, Users};
use crate::weak::Weak;
use cell_num::{CellId, SecKey};
use cell_world::LinkRow;
use std::alloc::{AllocError, Global};
use std::marker::{Brand, Model};
use std::sync::ledger::{Blank, Ledger};

/// The section at a place, looked at with a counter of its own.
fn look_counted<L: Ledger>(sections: &Sections, place: usize, blank: Blank) -> Option<Section>
    requires name { blank.name ≡ L.name }
    requires parts { blank.parts ≡ L.parts }
    requires countable { 0 < blank.parts }
    ensures { result ≡ get sections.now place }
{
    let mut steps = Steps::<L>::new(blank);
    sections.look(place, &mut steps)
}

/// The links of a cell, looked for at an index first, with a counter of its own.
fn cell_rows_counted<L: Ledger>(
    list: &RowList,
    near: usize,
    cell: CellId,
    blank: Blank,
) -> (CellRows<'_>, usize)
    requires name { blank.name ≡ L.name }
    requires parts { blank.parts ≡ L.parts }
    requires countable { 0 < blank.parts }
    requires rise { RowsRise list.now.items }
    ensures { IsCellRange list.now.items cell.0 result.0 }
{
    let mut steps = Steps::<L>::new(blank);
    list.of_cell_near(near, cell, &mut steps)
}

/// The present sections and their links. Room for what is added is reserved before, so that adding
/// takes no memory.
#[derive(Drop)]
pub struct Graph {
    sections: Sections,
    rows: Rows,
    section_list: SectionList,
    row_list: RowList,
}

impl Model for Graph {
    ghost use Rattle.cell_graph.specs.Links.{Links};

    ghost Value = { Links };

    ghost use Rattle.cell_graph.specs.Inside.{IsSound, links_of};

    ghost view = { links_of };

    ghost invariant = { IsSound };
}

impl Graph {
    /// No section, no link and no room.
    pub fn new(alloc: Global) -> Graph
        ensures sections { result.sections ≡ [] }
        ensures rows { result.rows ≡ [] }
    {
        Graph {
            sections: Sections::new(alloc),
            rows: Rows::new(alloc),
            section_list: SectionList::new(alloc),
            row_list: RowList::new(alloc),
        }
    }

    /// The sections and the links stand in order, each once: the links by the user's cell, then the
    /// entry, then the user's section.
    pub fn in_order(&self)
        ensures sections { Rises below_section self.now.sections }
        ensures rows { Rises below_link self.now.rows }
    {
        let _ = &self.rows;
    }

    /// Makes room for so many more sections and links. After an error some of it may be there.
    pub fn reserve(&mut self, sections: u32, links: u32) -> Result<(), AllocError>
        ensures for_sections { OnOk result (sections ≤ self.new.spare_sections) }
        ensures for_links { OnOk result (links ≤ self.new.spare_rows) }
        ensures more_for_sections { self.old.spare_sections ≤ self.new.spare_sections }
        ensures more_for_links { self.old.spare_rows ≤ self.new.spare_rows }
        ensures same_sections { self.new.sections ≡ self.old.sections }
        ensures same_rows { self.new.rows ≡ self.old.rows }
    {
        self.sections.reserve(sections as usize)?;
        self.section_list.reserve(sections as usize)?;
        self.rows.reserve(links as usize)?;
        self.row_list.reserve(links as usize)
    }

    /// Adds one section, which is above all others.
    fn add_section(&mut self, key: SecKey)
        requires above { All (λ k. below_section k key ≡ true) self.old.sections }
        requires room { 0 < self.old.spare_sections }
        ensures added { self.new.sections ≡ self.old.sections ++ key ∷ [] }
        ensures room { self.old.spare_sections ≤ self.new.spare_sections + 1 }
        ensures same_rows { self.new.rows ≡ self.old.rows }
        ensures same_room_for_links { self.new.spare_rows ≡ self.old.spare_rows }
    {
        add_section(&mut self.sections, &mut self.section_list, key);
    }

    /// Adds the sections of a new cell, which is above all others.
    pub fn add_cell(&mut self, cell: CellId, sections: &[u16])
        requires above { All (λ k. k.cell.0 < cell.0) self.old.sections }
        requires rising { IsStrictlyIncreasing sections.now }
        requires room { length sections.now ≤ self.old.spare_sections }
        ensures added { self.new.sections ≡ self.old.sections ++ map (key_of cell.0) sections.now }
        ensures room { self.old.spare_sections ≤ self.new.spare_sections + length sections.now }
        ensures same_rows { self.new.rows ≡ self.old.rows }
        ensures same_room_for_links { self.old.spare_rows ≤ self.new.spare_rows }
    {
        for section in sections {
            let key = SecKey {
                cell,
                section: *section,
            };
            self.add_section(key);
        }
    }

    /// Adds a link, with a counter of its own.
    fn bind_counted<L: Ledger>(&mut self, row: LinkRow, blank: Blank)
        requires name { blank.name ≡ L.name }
        requires parts { blank.parts ≡ L.parts }
        requires countable { 0 < blank.parts }
        requires room { 0 < self.old.spare_rows }
        requires target { Contains self.old.sections row.target }
        requires unbound { is_bound self.old.rows row.user row.entry ≡ false }
        ensures added { self.new.rows ≡ with_link row self.old.rows }
        ensures room { self.old.spare_rows ≤ self.new.spare_rows + 1 }
        ensures same_sections { self.new.sections ≡ self.old.sections }
        ensures same_room_for_sections { self.old.spare_sections ≤ self.new.spare_sections }
    {
        let mut steps = Steps::<L>::new(blank);
        bind_row(
            &mut self.sections,
            &mut self.rows,
            &self.section_list,
            &mut self.row_list,
            row,
            &mut steps,
        );
    }

    /// Adds a link.
    pub fn bind(&mut self, row: LinkRow)
        requires room { 0 < self.old.spare_rows }
        requires user { Contains self.old.sections row.user }
        requires target { Contains self.old.sections row.target }
        requires unbound { is_bound self.old.rows row.user row.entry ≡ false }
        ensures added { self.new.rows ≡ with_link row self.old.rows }
        ensures room { self.old.spare_rows ≤ self.new.spare_rows + 1 }
        ensures same_sections { self.new.sections ≡ self.old.sections }
        ensures same_room_for_sections { self.old.spare_sections ≤ self.new.spare_sections }
    {
        self.bind_counted::<Brand>(row, Blank::new(1));
    }

    /// The links of a section that is there to others, in no stated order.
    pub fn deps_of(&self, sec: SecKey) -> Deps<'_>
        requires { Contains self.now.sections sec }
        ensures { IsPermutation (links_from sec self.now.rows) result }
    {
        Deps::of(&self.rows, self.row_list.of_cell(sec.cell), sec)
    }

    /// The links of a cell's sections to others, by the entry and then the user's section.
    pub fn deps_of_cell(&self, cell: CellId) -> CellDeps<'_>
        ensures { result ≡ filter (λ r. r.user.cell.0 == cell.0) self.now.rows }
    {
        CellDeps::of(&self.rows, self.row_list.of_cell(cell))
    }

    /// The same, with the index behind them in the list of links. They are looked for at an index first.
    pub fn deps_of_cell_near(&self, cell: CellId, near: usize) -> (CellDeps<'_>, usize)
        ensures { result.0 ≡ filter (λ r. r.user.cell.0 == cell.0) self.now.rows }
    {
        let (list, next) = cell_rows_counted::<Brand>(&self.row_list, near, cell, Blank::new(1));
        (CellDeps::of(&self.rows, list), next)
    }

    /// The link of that user and entry, which is there, with the index behind it in the list of links. It
    /// is looked for at an index first.
    pub fn link_near(&self, user: SecKey, entry: u32, near: usize) -> (LinkRow, usize)
        requires { IsTrue (is_bound self.now.rows user entry) }
        ensures there { Contains self.now.rows result.0 }
        ensures user { result.0.user ≡ user }
        ensures entry { result.0.entry ≡ entry }
    {
        let index = self.row_list.index_near(near, user, entry);
        let link = link_named::<Brand>(&self.rows, &self.row_list, index, Blank::new(1));
        (link, index + 1)
    }

    /// The links of others to a section, in no stated order; none where it isn't there.
    pub fn users_of(&self, sec: SecKey) -> Users<'_>
        ensures { IsPermutation (links_to sec self.now.rows) result }
    {
        if !self.section_list.has(sec) {
            return Users::of(&self.rows, None, 0);
        }
        let place = self.section_list.place(sec);
        match look_counted::<Brand>(&self.sections, place, Blank::new(1)) {
            Some(section) => Users::of(&self.rows, section.first, section.users),
            None => unreachable!(),
        }
    }

    /// The same of a section that is there, with the index where it is named. It is looked for at an index
    /// first.
    fn users_near(&self, sec: SecKey, near: usize) -> (Users<'_>, usize)
        requires { Contains self.now.sections sec }
        ensures users { IsPermutation (links_to sec self.now.rows) result.0 }
        ensures bounded { result.1 < usize.MAX }
    {
        let place = self.section_list.place_near(near, sec);
        match look_counted::<Brand>(&self.sections, place.0, Blank::new(1)) {
            Some(section) => (Users::of(&self.rows, section.first, section.users), place.1),
            None => unreachable!(),
        }
    }

    /// Marks the cells of the links into a section that is there, and answers the index behind it.
    fn mark_users_of_section<L: Ledger>(
        &self,
        sec: SecKey,
        near: usize,
        marks: &mut Vec<bool>,
        steps: &mut Steps<L>,
    ) -> Result<usize, AllocError>
        requires { Contains self.now.sections sec }
        ensures marks { OnOk result ((n : ℕ) → is_marked marks.new.items n ≡ (is_marked marks.old.items n || leads_to sec self.now.rows n)) }
        ensures steps { steps.new ≤ steps.old + length (links_to sec self.now.rows) }
    {
        let found = self.users_near(sec, near);
        let mut users = found.0;
        while let Some(row) = users.step(steps) {
            mark(marks, row.user.cell)?;
        }
        Ok(found.1 + 1)
    }

    /// Marks the cells of the links into a cell, with a counter of its own.
    fn mark_counted<L: Ledger>(
        &self,
        cell: CellId,
        near: usize,
        marks: &mut Vec<bool>,
        blank: Blank,
    ) -> Result<usize, AllocError>
        requires name { blank.name ≡ L.name }
        requires parts { blank.parts ≡ L.parts }
        requires countable { 0 < blank.parts }
        ensures { OnOk result ((n : ℕ) → is_marked marks.new.items n ≡ (is_marked marks.old.items n || is_user_of cell.0 self.now.rows n)) }
    {
        let mut steps = Steps::<L>::new(blank);
        let mut next = near;
        let sections = self.section_list.of_cell(cell);
        for index in 0..sections.len() {
            let at = sections.at(index, &mut steps);
            next = self.mark_users_of_section(at.key, next, marks, &mut steps)?;
        }
        Ok(next)
    }

    /// Marks the cells that have a link into this one, by their numbers, in a list that grows as far as
    /// it must. It goes over these links alone. The cell's sections are looked for at an index first, and
    /// the answer is the index behind them.
    pub fn mark_users_of(
        &self,
        cell: CellId,
        near: usize,
        marks: &mut Vec<bool>,
    ) -> Result<usize, AllocError>
        ensures { OnOk result ((n : ℕ) → is_marked marks.new.items n ≡ (is_marked marks.old.items n || is_user_of cell.0 self.now.rows n)) }
    {
        self.mark_counted::<Brand>(cell, near, marks, Blank::new(1))
    }

    /// A reference to a section that is there, which doesn't keep it there.
    pub fn weak(&self, sec: SecKey) -> Weak
        requires { Contains self.now.sections sec }
        ensures { made_for result ≡ sec }
    {
        Weak::of(sec, self.section_list.place(sec))
    }

    /// Whether the section stands at the place, looked at with a counter of its own.
    fn stands_at<L: Ledger>(&self, place: usize, key: SecKey, blank: Blank) -> bool
        requires name { blank.name ≡ L.name }
        requires parts { blank.parts ≡ L.parts }
        requires countable { 0 < blank.parts }
        ensures { IsTrue result → Contains self.now.sections key }
    {
        let mut steps = Steps::<L>::new(blank);
        match self.sections.look(place, &mut steps) {
            Some(section) => is_same(section.key, key),
            None => false,
        }
    }

    /// The section that the reference was made for, where a section of that cell and number is there.
    pub fn upgrade(&self, weak: Weak) -> Option<SecKey>
        ensures present { IsSome result ↔ Contains self.now.sections (made_for weak) }
        ensures section { IfSome result (λ sec. sec ≡ made_for weak) }
    {
        let key = weak.key();
        if self.stands_at::<Brand>(weak.place(), key, Blank::new(1)) || self.section_list.has(key) {
            Some(key)
        } else {
            None
        }
    }

    /// Gives one link its new target, and tells where to look for the next one first.
    fn move_one<L: Ledger>(&mut self, to: LinkRow, near: Near, steps: &mut Steps<L>) -> Near
        requires bound { IsTrue (is_bound self.old.rows to.user to.entry) }
        requires present { Contains self.old.sections to.target }
        ensures moved { self.new.rows ≡ moved self.old.rows (to ∷ []) }
        ensures steps { steps.new ≡ steps.old + 4 }
        ensures same_sections { self.new.sections ≡ self.old.sections }
        ensures same_room_for_links { self.new.spare_rows ≡ self.old.spare_rows }
        ensures same_room_for_sections { self.new.spare_sections ≡ self.old.spare_sections }
    {
        move_row(
            &mut self.sections,
            &mut self.rows,
            &self.section_list,
            &self.row_list,
            to,
            near,
            steps,
        )
    }

    /// Gives each named user and entry its new target. Takes no memory. For each, one link is read.
    pub fn move_users<L: Ledger>(&mut self, moves: &[LinkRow], steps: &mut Steps<L>)
        requires bound { All (λ m. IsTrue (is_bound self.old.rows m.user m.entry)) moves.now }
        requires distinct { AreApart moves.now }
        requires present { All (λ m. Contains self.old.sections m.target) moves.now }
        ensures moved { self.new.rows ≡ moved self.old.rows moves.now }
        ensures steps { steps.new ≤ steps.old + 4 * length moves.now }
        ensures same_sections { self.new.sections ≡ self.old.sections }
        ensures same_room_for_links { self.old.spare_rows ≤ self.new.spare_rows }
        ensures same_room_for_sections { self.old.spare_sections ≤ self.new.spare_sections }
    {
        let mut near = Near::start();
        for to in moves {
            near = self.move_one(*to, near, steps);
        }
    }

    /// Takes links away that are there. Their room is in reserve again. Takes no memory. The list of links is
    /// gone over once, and for each of these links one link is read.
    pub fn unbind_all<L: Ledger>(&mut self, gone: &[LinkRow], steps: &mut Steps<L>)
        requires { AreThere self.old.rows gone.now }
        ensures gone { self.new.rows ≡ all_unlinked self.old.rows gone.now }
        ensures steps { steps.new ≡ steps.old + 2 * length gone.now + length self.old.rows }
        ensures room { self.old.spare_rows + length gone.now ≤ self.new.spare_rows }
        ensures same_sections { self.new.sections ≡ self.old.sections }
        ensures same_room_for_sections { self.old.spare_sections ≤ self.new.spare_sections }
    {
        let _ = self.rows.capacity();
        unbind_rows(
            &mut self.sections,
            &mut self.rows,
            &self.section_list,
            &mut self.row_list,
            gone,
            steps,
        );
    }

    /// Adds links that aren't there, in the order of the list. Takes no memory. The list of links grows by as many
    /// places, each of which is filled then, and those behind the first of these links move once.
    pub fn bind_all<L: Ledger>(&mut self, new: &[LinkRow], steps: &mut Steps<L>)
        requires rising { Rises below_link new.now }
        requires unbound { AreNew self.old.rows new.now }
        requires target { All (λ r. Contains self.old.sections r.target) new.now }
        requires room { length new.now ≤ self.old.spare_rows }
        ensures added { self.new.rows ≡ all_linked self.old.rows new.now }
        ensures steps { steps.new ≤ steps.old + 2 * length new.now + length self.old.rows }
        ensures room { self.old.spare_rows ≤ self.new.spare_rows + length new.now }
        ensures same_sections { self.new.sections ≡ self.old.sections }
        ensures same_room_for_sections { self.old.spare_sections ≤ self.new.spare_sections }
    {
        let _ = self.rows.capacity();
        bind_rows(
            &mut self.sections,
            &mut self.rows,
            &self.section_list,
            &mut self.row_list,
            new,
            steps,
        );
    }

    /// A section of a cell that isn't listed, which has a link to the section.
    fn outside_user<L: Ledger>(
        &self,
        cells: &[CellId],
        sec: SecKey,
        steps: &mut Steps<L>,
    ) -> Option<SecKey>
        requires { Contains self.now.sections sec }
        ensures none { IfNone result ((r : Row) → Contains self.now.rows r → r.target ≡ sec → is_listed cells.now r.user ≡ true) }
        ensures some { IfSome result (λ user. IsUsedBy cells.now sec user self.now.rows) }
        ensures steps { steps.new ≤ steps.old + length (links_to sec self.now.rows) }
    {
        let mut users = self.users_of(sec);
        while let Some(row) = users.step(steps) {
            if !is_listed(cells, row.user) {
                return Some(row.user);
            }
        }
        None
    }

    /// The same for all sections of a cell.
    fn outside_user_of<L: Ledger>(
        &self,
        cells: &[CellId],
        cell: CellId,
        steps: &mut Steps<L>,
    ) -> Option<SecKey>
        ensures none { IfNone result ((r : Row) → Contains self.now.rows r → r.target.cell.0 ≡ cell.0 → is_listed cells.now r.user ≡ true) }
        ensures some { IfSome result (λ user. IsCellUsedBy cells.now cell.0 user self.now.rows) }
    {
        let sections = self.section_list.of_cell(cell);
        for index in 0..sections.len() {
            let at = sections.at(index, steps);
            if let Some(user) = self.outside_user(cells, at.key, steps) {
                return Some(user);
            }
        }
        None
    }

    /// The same for all listed cells, with a counter of its own.
    fn outside_user_of_any<L: Ledger>(&self, cells: &[CellId], blank: Blank) -> Option<SecKey>
        requires name { blank.name ≡ L.name }
        requires parts { blank.parts ≡ L.parts }
        requires countable { 0 < blank.parts }
        ensures none { IfNone result (is_used_outside cells.now self.now.rows ≡ false) }
        ensures some { IfSome result (λ user. IsTrue (uses_from_outside user cells.now self.now.rows)) }
        ensures used { IfSome result (λ user. IsTrue (is_used_outside cells.now self.now.rows)) }
    {
        let mut steps = Steps::<L>::new(blank);
        for cell in cells {
            if let Some(user) = self.outside_user_of(cells, *cell, &mut steps) {
                return Some(user);
            }
        }
        None
    }

    /// Takes away the links that the sections of the cells use, with a counter of its own.
    fn remove_links<L: Ledger>(&mut self, cells: &[CellId], blank: Blank)
        requires name { blank.name ≡ L.name }
        requires parts { blank.parts ≡ L.parts }
        requires countable { 0 < blank.parts }
        ensures left { self.new.rows ≡ links_without cells.now self.old.rows }
        ensures room { self.old.spare_rows ≤ self.new.spare_rows }
        ensures same_sections { self.new.sections ≡ self.old.sections }
        ensures same_room_for_sections { self.new.spare_sections ≡ self.old.spare_sections }
    {
        let _ = self.rows.capacity();
        let mut steps = Steps::<L>::new(blank);
        remove_rows(
            &mut self.sections,
            &mut self.rows,
            &self.section_list,
            &mut self.row_list,
            cells,
            &mut steps,
        );
    }

    /// Takes away the sections of the cells, which have no links, with a counter of its own.
    fn remove_sections<L: Ledger>(&mut self, cells: &[CellId], blank: Blank)
        requires name { blank.name ≡ L.name }
        requires parts { blank.parts ≡ L.parts }
        requires countable { 0 < blank.parts }
        requires unused { All (λ r. is_listed cells.now r.target ≡ false) self.old.rows }
        ensures left { self.new.sections ≡ sections_without cells.now self.old.sections }
        ensures room { self.old.spare_sections ≤ self.new.spare_sections }
        ensures same_rows { self.new.rows ≡ self.old.rows }
        ensures same_room_for_links { self.new.spare_rows ≡ self.old.spare_rows }
    {
        let _ = self.sections.capacity();
        let mut steps = Steps::<L>::new(blank);
        remove_sections(
            &mut self.sections,
            &mut self.section_list,
            cells,
            &mut steps,
        );
    }

    /// Takes away the sections of the cells and the links that they use, unless another cell has a link
    /// into one of them: the answer then names a section that has such a link. Takes no memory.
    pub fn remove_cells(&mut self, cells: &[CellId]) -> Result<(), StillUsed>
        ensures unused { IsOk result ↔ (is_used_outside cells.now self.old.rows ≡ false) }
        ensures user { IfErr result (λ e. IsTrue (uses_from_outside e.user cells.now self.old.rows)) }

        ensures rows { OnOk result (self.new.rows ≡ links_without cells.now self.old.rows) }
        ensures sections { OnOk result (self.new.sections ≡ sections_without cells.now self.old.sections) }
        ensures room_for_links { self.old.spare_rows ≤ self.new.spare_rows }
        ensures room_for_sections { self.old.spare_sections ≤ self.new.spare_sections }

        // Nothing changes.
        ensures same_rows { OnErr result (self.new.rows ≡ self.old.rows) }
        ensures same_sections { OnErr result (self.new.sections ≡ self.old.sections) }
    {
        if let Some(user) = self.outside_user_of_any::<Brand>(cells, Blank::new(1)) {
            return Err(StillUsed { user });
        }
        self.remove_links::<Brand>(cells, Blank::new(1));
        self.remove_sections::<Brand>(cells, Blank::new(1));
        Ok(())
    }
}
