//! Cells by their places in a rectangle, row by row. Those that no coordinate tells are somewhere else.
use bt_parts::{Cell, Dir, Rect, inside};

/// The number of a rectangle's cells.
pub fn count(rect: Rect) -> usize {
    (rect.width as usize).saturating_mul(rect.height as usize)
}

/// The cell so far to the east and so far to the south.
pub fn cell_at(x: usize, y: usize) -> Cell {
    Cell {
        x: i32::try_from(x).unwrap_or(-1),
        y: i32::try_from(y).unwrap_or(-1),
    }
}

/// The cell of a place.
pub fn cell_of(rect: Rect, place: usize) -> Cell {
    let width = (rect.width as usize).max(1);
    cell_at(place % width, place / width)
}

/// The place of a cell, where it lies in the rectangle.
pub fn place_of(rect: Rect, cell: Cell) -> Option<usize> {
    if !inside(&rect, cell) {
        return None;
    }
    let (x, y) = (
        cell.x.unsigned_abs() as usize,
        cell.y.unsigned_abs() as usize,
    );
    Some(y.saturating_mul(rect.width as usize).saturating_add(x))
}

/// The cell of the other half of a splitter whose lesser half is on this one.
pub fn mate(cell: Cell, dir: Dir) -> Cell {
    match dir {
        Dir::North | Dir::South => cell.next(Dir::East),
        Dir::East | Dir::West => cell.next(Dir::South),
    }
}
