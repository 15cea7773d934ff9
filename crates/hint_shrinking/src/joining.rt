//! Layouts of a network from one of the same with an edge opened: the two ends that this has more are joined at the
//! border, where cells are laid anew.
use crate::around::{cell_of, count};
use crate::board::Board;
use crate::field::Field;
use bt_parts::{Cell, Rect};
use bt_random::Random;
use hint_solver::Literal;
use std::alloc::{AllocError, Global};

/// The most conflicts for which the joint is looked for: it takes few or can't be.
const CONFLICTS: u64 = 1_000;

/// How many rows or columns before one that is added are laid anew.
const MARGIN: usize = 2;

/// Whether the cells with a coordinate, from 0 on, of which there are `many` keep what they hold, where there were
/// `before`: not the first and the last, nor those near what was added.
fn is_kept(coordinate: usize, many: u32, before: u32) -> bool {
    let (many, before) = (many as usize, before as usize);
    let is_within = coordinate > 0 && coordinate.saturating_add(1) < many;
    is_within && (before >= many || coordinate.saturating_add(MARGIN) < before)
}

/// Whether a cell of a rectangle keeps what it holds, where a layout was laid in a lesser one or in the same.
fn keeps(cell: Cell, rect: Rect, lesser: Rect) -> bool {
    let (x, y) = (
        cell.x.unsigned_abs() as usize,
        cell.y.unsigned_abs() as usize,
    );
    is_kept(x, rect.width, lesser.width) && is_kept(y, rect.height, lesser.height)
}

/// The literals that say that cells keep what they hold on a board, which was laid in a lesser rectangle or in the same.
fn kept(
    alloc: Global,
    field: &Field,
    board: &Board,
    lesser: Rect,
) -> Result<Vec<Literal>, AllocError> {
    let mut literals = Vec::new(alloc);
    let rect = board.rect();
    for place in 0..count(rect) {
        let cell = cell_of(rect, place);
        if keeps(cell, rect, lesser) {
            field.push(&mut literals, cell, board.get(cell), true)?;
        }
    }
    Ok(literals)
}

/// A layout in a field from the board of one of the network with an edge opened, which was laid in a lesser rectangle or
/// in the same: the cells far from the border and from what was added stay. None where none is found.
pub fn joined_in(
    alloc: Global,
    field: &mut Field,
    board: &Board,
    lesser: Rect,
    random: &mut Random,
) -> Result<Option<Board>, AllocError> {
    let literals = kept(alloc, field, board, lesser)?;
    if !field.grant(alloc, &literals)? || !field.has_layout(alloc, &[], CONFLICTS, random)? {
        return Ok(None);
    }
    Ok(Some(field.board(alloc)?))
}
