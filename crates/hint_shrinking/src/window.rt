//! Windows in a rectangle.
use crate::around::{cell_of, count};
use crate::board::Board;
use crate::contents::is_empty;
use crate::field::Field;
use bt_parts::{Cell, Rect};
use bt_random::Random;
use hint_solver::Literal;
use std::alloc::{AllocError, Global};

/// The least width and height of a window.
const LEAST: usize = 3;

/// How many widths and heights a window may have.
const SIZES: usize = 5;

/// What of a rectangle may be laid anew.
#[derive(Clone, Copy)]
pub struct Window {
    x: usize,
    y: usize,
    width: usize,
    height: usize,
}

/// Where a window begins by chance along so many cells, and over how many of them it goes.
fn stretch(random: &mut Random, cells: usize) -> (usize, usize) {
    let size = LEAST.saturating_add(random.below(SIZES)).min(cells);
    let free = cells.saturating_sub(size).saturating_add(1);
    (random.below(free), size)
}

impl Window {
    /// A window by chance.
    pub fn by_chance(random: &mut Random, rect: Rect) -> Window {
        let (x, width) = stretch(random, rect.width as usize);
        let (y, height) = stretch(random, rect.height as usize);
        Window {
            x,
            y,
            width,
            height,
        }
    }

    /// Whether a cell lies in the window.
    pub fn has(self, cell: Cell) -> bool {
        let (x, y) = (
            cell.x.unsigned_abs() as usize,
            cell.y.unsigned_abs() as usize,
        );
        x >= self.x
            && y >= self.y
            && x < self.x.saturating_add(self.width)
            && y < self.y.saturating_add(self.height)
    }
}

/// The literals that say that all cells outside a window hold what they do on a board.
pub fn outside(
    alloc: Global,
    field: &Field,
    board: &Board,
    window: Window,
) -> Result<Vec<Literal>, AllocError> {
    let mut literals = Vec::new(alloc);
    for place in 0..count(board.rect()) {
        let cell = cell_of(board.rect(), place);
        if !window.has(cell) {
            field.push(&mut literals, cell, board.get(cell), true)?;
        }
    }
    Ok(literals)
}

/// The cells of a window that aren't empty.
pub fn filled_cells(alloc: Global, board: &Board, window: Window) -> Result<Vec<Cell>, AllocError> {
    let mut cells = Vec::new(alloc);
    for place in 0..count(board.rect()) {
        let cell = cell_of(board.rect(), place);
        if window.has(cell) && !is_empty(board.get(cell)) {
            cells.push(cell)?;
        }
    }
    Ok(cells)
}
