//! Cells that may stand where they are written, and cells that may not.

ghost use Rattle.std.specs.Prelude.{◌≤◌, All, length};
ghost use Rattle.cell_num.specs.Limits.{max_file_bytes};

use crate::files::{broken_depot, whole_depot};
use cell_audit::{Wide, WrittenAlias, WrittenCell, WrittenPlace};
use cell_depot::Depot;
use cell_described::{Bounds, DescribeFail, Described, describe};
use cell_num::Name;
use std::alloc::{AllocError, Global};
use std::test::*;

/// From 10000 up to 20000.
const BOUNDS: Bounds = Bounds {
    base: 0x1_0000,
    pages: 16,
};

/// Two cells of the file on lines 1 and 5. Each has two places on the lines behind it, a section and
/// its start, and then an alias on a symbol. The line that is misplaced, if one is.
struct Case(&'static str, [(u64, u64); 4], [u64; 2], Option<u32>);

const FIRST: (u64, u64) = (1, 0x1_0000);

const SECOND: (u64, u64) = (2, 0x1_1000);

const THIRD: (u64, u64) = (1, 0x1_2000);

const LAST: (u64, u64) = (2, 0x1_3000);

const CASES: [Case; 15] = [
    Case("apart", [FIRST, SECOND, THIRD, LAST], [0, 0], None),
    Case(
        "side by side",
        [FIRST, (2, 0x1_0008), (1, 0x1_0004), (2, 0x1_0010)],
        [0, 0],
        None,
    ),
    Case(
        "at the end",
        [FIRST, SECOND, THIRD, (2, 0x1_fff8)],
        [0, 0],
        None,
    ),
    Case(
        "past the end",
        [FIRST, SECOND, THIRD, (2, 0x2_0000)],
        [0, 0],
        Some(7),
    ),
    Case(
        "across the end",
        [FIRST, SECOND, (1, 0x1_fffe), LAST],
        [0, 0],
        Some(6),
    ),
    Case(
        "below the space",
        [(1, 0xfffc), SECOND, THIRD, LAST],
        [0, 0],
        Some(2),
    ),
    Case(
        "far above it",
        [FIRST, (2, 0xffff_ffff_ffff_fff8), THIRD, LAST],
        [0, 0],
        Some(3),
    ),
    Case(
        "not aligned",
        [FIRST, (2, 0x1_1004), THIRD, LAST],
        [0, 0],
        Some(3),
    ),
    Case(
        "twice one place",
        [FIRST, SECOND, FIRST, LAST],
        [0, 0],
        Some(6),
    ),
    Case(
        "in an earlier one",
        [FIRST, SECOND, (1, 0x1_1004), LAST],
        [0, 0],
        Some(6),
    ),
    Case(
        "round an earlier one",
        [(1, 0x1_3004), SECOND, THIRD, LAST],
        [0, 0],
        Some(7),
    ),
    Case(
        "out of order",
        [FIRST, SECOND, LAST, THIRD],
        [0, 0],
        Some(5),
    ),
    Case(
        "of another section",
        [FIRST, (3, 0x1_1000), THIRD, LAST],
        [0, 0],
        Some(1),
    ),
    Case(
        "on an undefined name",
        [FIRST, SECOND, THIRD, LAST],
        [1, 0],
        Some(4),
    ),
    Case(
        "on no symbol",
        [FIRST, SECOND, THIRD, LAST],
        [0, 1 << 40],
        Some(8),
    ),
];

fn place_at(line: u32, place: (u64, u64)) -> WrittenPlace {
    let (section, start) = place;
    WrittenPlace {
        line,
        section,
        start,
    }
}

/// A cell of a file on that line.
fn cell_of(
    alloc: Global,
    line: u32,
    file: &[u8],
    places: [(u64, u64); 2],
    symbol: u64,
) -> Result<WrittenCell, AllocError>
    requires { line ≤ 5 }
{
    let [first, second] = places;
    let alias = WrittenAlias {
        line: line + 3,
        symbol: Wide::of(symbol),
        name_start: 0,
        name_end: 0,
    };
    Ok(WrittenCell {
        line,
        cell: line,
        ns: 0,
        stem: Name::of(alloc, b"a")?,
        file: Name::of(alloc, file)?,
        group: None,
        places: vec![in alloc; place_at(line + 1, first), place_at(line + 2, second)]?,
        aliases: vec![in alloc; alias]?,
    })
}

/// The two cells of a case, of these files.
fn cells_of(alloc: Global, files: [&[u8]; 2], case: &Case) -> Result<Vec<WrittenCell>, AllocError> {
    let [a, b, c, d] = case.1;
    let [first, second] = case.2;
    let mut cells = Vec::new(alloc);
    cells.push(cell_of(alloc, 1, files[0], [a, b], first)?)?;
    cells.push(cell_of(alloc, 5, files[1], [c, d], second)?)?;
    Ok(cells)
}

fn described(
    alloc: Global,
    depot: &Depot,
    files: [&[u8]; 2],
    case: &Case,
) -> Result<Described, DescribeFail>
    requires { All (λ f. length f.bytes ≤ max_file_bytes) depot.now }
{
    let cells = cells_of(alloc, files, case)?;
    describe(alloc, BOUNDS, cells, depot)
}

/// The line that is misplaced, where the fault is that one.
fn misplaced_line(outcome: Result<Described, DescribeFail>) -> Result<Option<u32>, Fail> {
    match outcome {
        Ok(_) => Ok(None),
        Err(DescribeFail::Misplaced { line }) => Ok(Some(line)),
        Err(_) => Err("another fault".into()),
    }
}

#[test]
fn places(rt: HostRuntime) -> Result<(), Fail> {
    let alloc = rt.alloc();
    let depot = whole_depot(alloc)?;
    for case in &CASES {
        let outcome = described(alloc, &depot, [b"k#a.o", b"k#a.o"], case);
        let line = misplaced_line(outcome)?;
        assert!(rt; line == case.3, "{case}", case = case.0);
    }
    Ok(())
}

/// Both cells have the one object of their file.
#[test]
fn one_object(rt: HostRuntime) -> Result<(), Fail> {
    let alloc = rt.alloc();
    let depot = whole_depot(alloc)?;
    let Ok(found) = described(alloc, &depot, [b"k#a.o", b"k#a.o"], &CASES[0]) else {
        return Err("a fault".into());
    };
    assert_eq!(rt; found.objects.len(), 1);
    assert_eq!(rt; found.cells.len(), 2);
    for cell in &found.cells {
        assert_eq!(rt; cell.object, 0);
        assert_eq!(rt; cell.places.as_slice().len(), 2);
    }
    Ok(())
}

/// The line of the cell without an object, where the fault is that one.
fn lacking_line(outcome: Result<Described, DescribeFail>) -> Option<u32> {
    match outcome {
        Err(DescribeFail::NoObject { line }) => Some(line),
        _ => None,
    }
}

/// No object comes before what is misplaced.
#[test]
fn no_object(rt: HostRuntime) -> Result<(), Fail> {
    let alloc = rt.alloc();
    let whole = whole_depot(alloc)?;
    let broken = broken_depot(alloc)?;
    let case = &CASES[5];
    let later = described(alloc, &whole, [b"k#a.o", b"k#b.o"], case);
    assert_eq!(rt; lacking_line(later), Some(5));
    let first = described(alloc, &whole, [b"k#b.o", b"k#b.o"], case);
    assert_eq!(rt; lacking_line(first), Some(1));
    let unread = described(alloc, &broken, [b"k#a.o", b"k#a.o"], case);
    assert_eq!(rt; lacking_line(unread), Some(1));
    Ok(())
}
