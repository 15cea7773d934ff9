//! Which cells are beside which.
ghost use Rattle.std.specs.Prelude.{◌≡◌, ◌++◌, ◌<◌, ◌^◌, OnOk};
ghost use Rattle.bt_parts.specs.Cells.{step, steps};
ghost use Rattle.bt_parts.specs.Cells as grid;
ghost use Rattle.bt_facts.specs.Spots as spots;
ghost use Rattle.bt_facts.specs.Near.{IsNear};

use crate::fact::{Fact, Half};
use bt_parts::{Cell, Dir, Rect, inside};
use std::alloc::AllocError;

/// No side, and each of the four.
pub const WAYS: [Option<Dir>; 5] = [
    None,
    Some(Dir::North),
    Some(Dir::East),
    Some(Dir::South),
    Some(Dir::West),
];

/// The cell so many tiles to the east and to the south.
pub fn cell_at(x: u32, y: u32) -> Cell
    requires x { x < 2 ^ 31 }
    requires y { y < 2 ^ 31 }
    ensures { result ≡ grid.cell_at x y }
{
    Cell {
        x: x as i32,
        y: y as i32,
    }
}

/// Whether the cell is one of the rectangle's.
pub fn is_inside(rect: Rect, cell: Cell) -> bool
    ensures { result ≡ spots.is_inside rect cell }
{
    inside(&rect, cell)
}

/// The next cell in a direction.
pub fn ahead(dir: Dir, cell: Cell) -> Cell
    requires { IsNear cell }
    ensures { result ≡ step dir cell }
{
    cell.ahead(dir, 1)
}

/// The cell at this distance in a direction.
pub fn far(dir: Dir, cell: Cell, distance: usize) -> Cell
    requires near { IsNear cell }
    requires few { distance < 4096 }
    ensures { result ≡ steps distance dir cell }
{
    cell.ahead(dir, distance as u32)
}

/// The next cell against a direction.
pub fn behind(dir: Dir, cell: Cell) -> Cell
    requires { IsNear cell }
    ensures { result ≡ spots.behind dir cell }
{
    cell.ahead(dir.opposite(), 1)
}

/// The cell of this half of a splitter so turned, whose lesser half stands on the cell.
pub fn half_at(half: Half, dir: Dir, cell: Cell) -> Cell
    requires { IsNear cell }
    ensures { result ≡ spots.half_at half dir cell }
{
    match (half, dir) {
        (Half::Lesser, _) => cell,
        (Half::Greater, Dir::North | Dir::South) => cell.ahead(Dir::East, 1),
        (Half::Greater, Dir::East | Dir::West) => cell.ahead(Dir::South, 1),
    }
}

/// The cell of the other half of a splitter so turned of which this half stands on the cell.
pub fn mate(half: Half, dir: Dir, cell: Cell) -> Cell
    requires { IsNear cell }
    ensures { result ≡ spots.mate half dir cell }
{
    let across = match dir {
        Dir::North | Dir::South => Dir::East,
        Dir::East | Dir::West => Dir::South,
    };
    match half {
        Half::Lesser => ahead(across, cell),
        Half::Greater => behind(across, cell),
    }
}

/// The half that isn't this one.
pub fn other_half(half: Half) -> Half
    ensures { result ≡ spots.other_half half }
{
    match half {
        Half::Lesser => Half::Greater,
        Half::Greater => Half::Lesser,
    }
}

/// The two directions across this one.
pub fn sides_of(dir: Dir) -> [Dir; 2]
    ensures { result ≡ spots.sides_of dir }
{
    match dir {
        Dir::North | Dir::South => [Dir::East, Dir::West],
        Dir::East | Dir::West => [Dir::North, Dir::South],
    }
}

/// The three directions but this one.
pub fn others_than(dir: Dir) -> [Dir; 3]
    ensures { result ≡ spots.others_than dir }
{
    match dir {
        Dir::North => [Dir::East, Dir::South, Dir::West],
        Dir::East => [Dir::North, Dir::South, Dir::West],
        Dir::South => [Dir::North, Dir::East, Dir::West],
        Dir::West => [Dir::North, Dir::East, Dir::South],
    }
}

/// Adds the facts, where the cell is inside the rectangle.
pub fn push_inside(
    facts: &mut Vec<Fact>,
    rect: Rect,
    cell: Cell,
    more: &[Fact],
) -> Result<(), AllocError>
    ensures { OnOk result (facts.new.items ≡ facts.old.items ++ spots.where_inside rect cell more.now) }
{
    if is_inside(rect, cell) {
        facts.extend_from_slice(more)?;
    }
    Ok(())
}

/// Adds the facts, where the cell is outside the rectangle.
pub fn push_outside(
    facts: &mut Vec<Fact>,
    rect: Rect,
    cell: Cell,
    more: &[Fact],
) -> Result<(), AllocError>
    ensures { OnOk result (facts.new.items ≡ facts.old.items ++ spots.where_outside rect cell more.now) }
{
    if is_inside(rect, cell) {
        return Ok(());
    }
    facts.extend_from_slice(more)?;
    Ok(())
}
