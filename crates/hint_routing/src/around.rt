//! Cells near one another. Those beyond what a coordinate can say are somewhere else.
use bt_parts::{Cell, Dir};

/// This direction, and the two across it.
pub fn turns(dir: Dir) -> [Dir; 3] {
    match dir {
        Dir::North | Dir::South => [dir, Dir::East, Dir::West],
        Dir::East | Dir::West => [dir, Dir::South, Dir::North],
    }
}

/// Whether a direction is that of a column.
pub fn is_upright(dir: Dir) -> bool {
    match dir {
        Dir::North | Dir::South => true,
        Dir::East | Dir::West => false,
    }
}

/// The cell so many steps on.
pub fn ahead(cell: Cell, dir: Dir, steps: u32) -> Cell {
    let mut cell = cell;
    for _ in 0..steps {
        cell = cell.next(dir);
    }
    cell
}
