//! A cell by its number.

ghost use Rattle.std.specs.Prelude.{IsTrue, nat_lt, ◌≡◌, ◌==◌, ◌++◌, find, option_map};
ghost use Rattle.cell_num.specs.Lists.{each_pair};
ghost use Rattle.cell_world.specs.Before.{AreBefore};
ghost use Rattle.cell_placed.specs.Keys.{number_in};

use cell_world::NewCell;

/// How many of the cells, which are in the order of their numbers, have a lower number.
fn cells_before(cells: &[NewCell], number: u32) -> usize
    requires { IsTrue (each_pair (λ a b. nat_lt a.id.0 b.id.0) cells.now) }
    ensures { AreBefore number_in number cells.now result }
{
    cells.partition_point(
        |cell: &NewCell| -> bool
            ensures { result ≡ nat_lt cell.now.id.0 number }
        { cell.id.0 < number },
    )
}

/// The cell of that number, among cells in the order of their numbers.
pub fn cell_numbered(cells: &[NewCell], number: u32) -> Option<&NewCell>
    requires { IsTrue (each_pair (λ a b. nat_lt a.id.0 b.id.0) cells.now) }
    ensures { option_map (λ c. c.now) result ≡ find (λ c. c.id.0 == number) cells.now }
{
    let cell = cells.get(cells_before(cells, number))?;
    if cell.id.0 != number {
        return None;
    }
    Some(cell)
}

/// The cell of that number among some cells and others that come behind them.
pub fn cell_among<'a>(
    present: &'a [NewCell],
    fresh: &'a [NewCell],
    number: u32,
) -> Option<&'a NewCell>
    requires { IsTrue (each_pair (λ a b. nat_lt a.id.0 b.id.0) (present.now ++ fresh.now)) }
    ensures { option_map (λ c. c.now) result ≡ find (λ c. c.id.0 == number) (present.now ++ fresh.now) }
{
    if let Some(cell) = cell_numbered(present, number) {
        return Some(cell);
    }
    cell_numbered(fresh, number)
}
