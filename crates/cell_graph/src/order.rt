//! The two sorted lists of places.

ghost use Rattle.std.specs.Prelude.{◌≡◌, ◌≤◌, length, nat_le, nat_lt};
ghost use Rattle.cell_graph.specs.Order.{IsCut, below_row, below_section};
ghost use Rattle.cell_graph.specs.Links.{is_same};
ghost use Rattle.cell_graph.specs.Lists.{RowsRise, SectionsRise};

use cell_num::{CellId, SecKey};
use cell_world::LinkRow;

/// Where a section stands in its arena.
#[derive(Clone, Copy, Debug, PartialEq, Eq)]
pub struct SectionPlace {
    pub key: SecKey,
    pub place: usize,
}

/// Where a link stands in its arena.
#[derive(Clone, Copy, Debug, PartialEq, Eq)]
pub struct RowPlace {
    pub user: SecKey,
    pub entry: u32,
    pub place: usize,
}

impl RowPlace {
    /// Where a link stands that is at that place.
    pub fn of(row: LinkRow, place: usize) -> RowPlace
        ensures { result ≡ record { user = row.user; entry = row.entry; place = place } }
    {
        RowPlace {
            user: row.user,
            entry: row.entry,
            place,
        }
    }

    /// What stands in a place of the list that no link has yet.
    pub fn nowhere() -> RowPlace {
        RowPlace {
            user: SecKey {
                cell: CellId(0),
                section: 0,
            },
            entry: 0,
            place: 0,
        }
    }
}

/// Whether the two are one section.
pub fn is_same(a: SecKey, b: SecKey) -> bool
    ensures { result ≡ is_same a b }
{
    a == b
}

/// Whether a section comes before another.
pub fn is_below_section(a: SecKey, b: SecKey) -> bool
    ensures { result ≡ below_section a b }
{
    a.cell.0 < b.cell.0 || a.cell.0 == b.cell.0 && a.section < b.section
}

/// Whether a link comes before another: by the user's cell, then the entry, then the user's section.
pub fn is_below_row(user: SecKey, entry: u32, other: SecKey, other_entry: u32) -> bool
    ensures { result ≡ below_row user entry other other_entry }
{
    user.cell.0 < other.cell.0
        || user.cell.0 == other.cell.0
            && (entry < other_entry || entry == other_entry && user.section < other.section)
}

/// How many sections come before this one.
pub fn section_cut(list: &[SectionPlace], key: SecKey) -> usize
    requires { SectionsRise list.now }
    ensures { IsCut (λ s. below_section s.key key) list.now result }
{
    list.partition_point(|s| is_below_section(s.key, key))
}

/// How many links come before this one.
pub fn row_cut(list: &[RowPlace], user: SecKey, entry: u32) -> usize
    requires { RowsRise list.now }
    ensures { IsCut (λ r. below_row r.user r.entry user entry) list.now result }
{
    list.partition_point(|r| is_below_row(r.user, r.entry, user, entry))
}

/// How many links have users of lower cells.
pub fn row_cell_start(list: &[RowPlace], cell: CellId) -> usize
    requires { RowsRise list.now }
    ensures within { result ≤ length list.now }
    ensures cut { IsCut (λ r. nat_lt r.user.cell.0 cell.0) list.now result }
{
    list.partition_point(|r| r.user.cell.0 < cell.0)
}

/// How many links have users of this cell or lower ones.
pub fn row_cell_end(list: &[RowPlace], cell: CellId) -> usize
    requires { RowsRise list.now }
    ensures within { result ≤ length list.now }
    ensures cut { IsCut (λ r. nat_le r.user.cell.0 cell.0) list.now result }
{
    list.partition_point(|r| r.user.cell.0 <= cell.0)
}

/// How many sections are of lower cells.
pub fn section_cell_start(list: &[SectionPlace], cell: CellId) -> usize
    requires { SectionsRise list.now }
    ensures within { result ≤ length list.now }
    ensures cut { IsCut (λ s. nat_lt s.key.cell.0 cell.0) list.now result }
{
    list.partition_point(|s| s.key.cell.0 < cell.0)
}

/// How many sections are of this cell or lower ones.
pub fn section_cell_end(list: &[SectionPlace], cell: CellId) -> usize
    requires { SectionsRise list.now }
    ensures within { result ≤ length list.now }
    ensures cut { IsCut (λ s. nat_le s.key.cell.0 cell.0) list.now result }
{
    list.partition_point(|s| s.key.cell.0 <= cell.0)
}
