//! Whether a cell is seen.

ghost use Rattle.std.specs.Prelude.{◌≡◌};
ghost use Rattle.cell_audit.specs.Described.{standing_of};
ghost use Rattle.cell_num.specs.Lists.{holds};
ghost use Rattle.cell_bearers.specs.Asked.{stands_as};
ghost use Rattle.cell_bearers.specs.Seeing.{sees, stands_at};

use cell_described::DescribedCell;

/// Whether a cell was put aside by the swap that is asked for, or else is attached.
fn stands_as(asked: Option<u64>, group: Option<u64>) -> bool
    ensures { result ≡ stands_as asked (standing_of group) }
{
    match (asked, group) {
        (None, None) => true,
        (Some(asked), Some(group)) => group == asked,
        _ => false,
    }
}

/// Whether the namespace is one of these.
fn holds(spaces: &[u16], ns: u16) -> bool
    ensures { result ≡ holds spaces.now ns }
{
    spaces.iter().any(|space| *space == ns)
}

/// Whether the cell stands in the namespaces and is of that swap, or else attached.
pub fn sees(asked: Option<u64>, spaces: &[u16], cell: &DescribedCell) -> bool
    ensures { result ≡ sees asked spaces.now cell.now }
{
    stands_as(asked, cell.group) && holds(spaces, cell.ns)
}

/// Whether the cell stands in the namespace itself and is of that swap, or else attached.
pub fn stands_at(asked: Option<u64>, ns: u16, cell: &DescribedCell) -> bool
    ensures { result ≡ stands_at asked ns cell.now }
{
    stands_as(asked, cell.group) && cell.ns == ns
}
