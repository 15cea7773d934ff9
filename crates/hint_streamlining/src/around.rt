//! Cells near one another. Those beyond what a coordinate can say are somewhere else.
use bt_parts::{Cell, DIRS, Dir, Rect, inside};

/// The cell of the greater half of a splitter so turned whose lesser half is on this one.
pub fn mate(cell: Cell, dir: Dir) -> Cell {
    match dir {
        Dir::North | Dir::South => cell.next(Dir::East),
        Dir::East | Dir::West => cell.next(Dir::South),
    }
}

/// Whether the next cell in some direction is outside.
pub fn is_border(rect: &Rect, cell: Cell) -> bool {
    for dir in &DIRS {
        if !inside(rect, cell.next(*dir)) {
            return true;
        }
    }
    false
}
