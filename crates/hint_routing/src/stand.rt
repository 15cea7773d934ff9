//! Splitters at their places.
use crate::around::is_upright;
use bt_model::Request;
use bt_parts::{Cell, Dir, inside};
use hint_numbering::is_blocked;

/// Where a splitter stands: the cell of its lesser half, and the direction in which it looks.
#[derive(Clone, Copy)]
pub struct Stand {
    pub cell: Cell,
    pub dir: Dir,
}

impl Stand {
    /// The cells of the two halves, that of the lesser one first.
    pub fn halves(&self) -> [Cell; 2] {
        let beside = if is_upright(self.dir) {
            Dir::East
        } else {
            Dir::South
        };
        [self.cell, self.cell.next(beside)]
    }

    /// Whether a half stands on the cell.
    pub fn covers(&self, cell: Cell) -> bool {
        let [first, second] = self.halves();
        cell == first || cell == second
    }

    /// The cell in front of a half.
    pub fn front(&self, half: Cell) -> Cell {
        half.next(self.dir)
    }
    /// Whether both halves lie in the rectangle of a request, and on no block.
    pub fn is_within(&self, request: &Request) -> bool {
        for half in &self.halves() {
            if !inside(&request.rect(), *half) || is_blocked(request, *half) {
                return false;
            }
        }
        true
    }

    /// Whether a half stands on a cell of another splitter that stands so.
    pub fn overlaps(&self, other: &Stand) -> bool {
        let [first, second] = self.halves();
        other.covers(first) || other.covers(second)
    }
}
