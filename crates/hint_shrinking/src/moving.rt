//! Laying a window anew.
use crate::board::Board;
use crate::field::Field;
use crate::window::{Window, filled_cells, outside};
use bt_facts::Content;
use bt_parts::Cell;
use bt_random::Random;
use hint_solver::Literal;
use std::alloc::{AllocError, Global};

/// How many trials are made in a window.
const TRIALS: usize = 8;

/// The most conflicts of a trial.
const CONFLICTS: u64 = 30;

/// So many cells more may be filled after a trial, now and then.
const MORE: usize = 2;

/// One in so many trials may fill more cells.
const SELDOM: usize = 4;

/// What a trial wants of a cell that isn't empty, by chance: in one of four that it is empty, in two that it holds
/// something else, and in one nothing.
fn wanted(
    alloc: Global,
    field: &Field,
    cell: Cell,
    content: Content,
    random: &mut Random,
) -> Result<Vec<Literal>, AllocError> {
    let mut literals = Vec::new(alloc);
    match random.below(4) {
        0 => field.push(&mut literals, cell, Content::Empty, true)?,
        1 | 2 => field.push(&mut literals, cell, content, false)?,
        _ => {}
    }
    Ok(literals)
}

/// Whether a layout with `after` filled cells takes the place of one with `before`: where it has no more, or now and
/// then up to `MORE` more.
fn is_taken(before: usize, after: usize, random: &mut Random) -> bool {
    after <= before || after <= before.saturating_add(MORE) && random.below(SELDOM) == 0
}

/// Looks for a layout in which one filled cell of a window, by chance, may change, with what lies outside taken for
/// granted. It takes the place of the board where it hasn't too many filled cells.
fn try_once(
    alloc: Global,
    field: &mut Field,
    board: &mut Board,
    window: Window,
    random: &mut Random,
) -> Result<(), AllocError> {
    let cells = filled_cells(alloc, board, window)?;
    let Some(cell) = cells.get(random.below(cells.len())) else {
        return Ok(());
    };
    let literals = wanted(alloc, field, *cell, board.get(*cell), random)?;
    if field.has_layout(alloc, &literals, CONFLICTS, random)? {
        let after = field.board(alloc)?;
        if is_taken(board.filled(), after.filled(), random) {
            *board = after;
        }
    }
    Ok(())
}

/// Makes trials in a window that is chosen by chance.
pub fn lay_anew(
    alloc: Global,
    field: &mut Field,
    board: &mut Board,
    random: &mut Random,
) -> Result<(), AllocError> {
    let window = Window::by_chance(random, board.rect());
    let literals = outside(alloc, field, board, window)?;
    if field.grant(alloc, &literals)? {
        for _ in 0..TRIALS {
            try_once(alloc, field, board, window, random)?;
        }
    }
    Ok(())
}
