//! Cutting out rows and columns.
use crate::around::{cell_of, count};
use crate::board::Board;
use crate::field::Field;
use crate::fields::Fields;
use crate::goal::Goal;
use crate::line::{Axis, Line, lines_of};
use bt_model::Request;
use bt_random::Random;
use hint_solver::Literal;
use std::alloc::{AllocError, Global};

/// The most conflicts of a trial.
const CONFLICTS: u64 = 500;

/// How many rows and columns are tried, but where all are.
const LINES: usize = 4;

/// Of which axes lines are cut out, how far from that line cells may be laid anew, and whether all lines are tried.
#[derive(Clone, Copy)]
pub struct Cut {
    pub goal: Goal,
    pub margin: usize,
    pub tries_all: bool,
}

/// Adds the lines of an axis with what they cost, where some are to be cut out.
fn push_priced(
    alloc: Global,
    priced: &mut Vec<(usize, Line)>,
    board: &Board,
    goal: Goal,
    axis: Axis,
) -> Result<(), AllocError> {
    if !goal.wants(board.rect(), axis) {
        return Ok(());
    }
    for line in &lines_of(alloc, board.rect(), axis)? {
        priced.push((board.cost(*line), *line))?;
    }
    Ok(())
}

/// The rows and columns with what they cost, the cheapest first.
fn priced(alloc: Global, board: &Board, goal: Goal) -> Result<Vec<(usize, Line)>, AllocError> {
    let mut priced = Vec::new(alloc);
    push_priced(alloc, &mut priced, board, goal, Axis::Level)?;
    push_priced(alloc, &mut priced, board, goal, Axis::Upright)?;
    priced.sort_by_key(|entry| entry.0)?;
    Ok(priced)
}

/// The literals that say that all cells beyond a margin beside a line that was cut out hold what they do.
fn far(
    alloc: Global,
    field: &Field,
    board: &Board,
    line: Line,
    margin: usize,
) -> Result<Vec<Literal>, AllocError> {
    let mut literals = Vec::new(alloc);
    for place in 0..count(board.rect()) {
        let cell = cell_of(board.rect(), place);
        let (x, y) = (
            cell.x.unsigned_abs() as usize,
            cell.y.unsigned_abs() as usize,
        );
        if !line.is_near(x, y, margin) {
            field.push(&mut literals, cell, board.get(cell), true)?;
        }
    }
    Ok(literals)
}

/// A layout of a field that is like a board from which a line was cut out or to which one was added, but for the lines
/// within a margin of that, which are laid anew. None where none is found.
fn mended(
    alloc: Global,
    field: &mut Field,
    rest: &Board,
    line: Line,
    margin: usize,
    random: &mut Random,
) -> Result<Option<Board>, AllocError> {
    let literals = far(alloc, field, rest, line, margin)?;
    if !field.grant(alloc, &literals)? {
        return Ok(None);
    }
    if !field.has_layout(alloc, &[], CONFLICTS, random)? {
        return Ok(None);
    }
    Ok(Some(field.board(alloc)?))
}

/// The board without a line, with the lines within a margin of it laid anew; none where that isn't found.
fn without_line(
    alloc: Global,
    request: &Request,
    fields: &mut Fields,
    board: &Board,
    line: Line,
    margin: usize,
    random: &mut Random,
) -> Result<Option<Board>, AllocError> {
    let Some(rect) = line.cut_from(board.rect()) else {
        return Ok(None);
    };
    fields.prepare(alloc, request, rect)?;
    let rest = board.without(alloc, line, rect)?;
    match fields.get(rect) {
        Some(field) => mended(alloc, field, &rest, line, margin, random),
        None => Ok(None),
    }
}

/// The board without the first of its cheapest rows and columns, or of all where all are tried, that is cut out with
/// success; none where none is.
pub fn cut_out(
    alloc: Global,
    request: &Request,
    fields: &mut Fields,
    board: &Board,
    cut: Cut,
    random: &mut Random,
) -> Result<Option<Board>, AllocError> {
    let lines = priced(alloc, board, cut.goal)?;
    let most = if cut.tries_all { lines.len() } else { LINES };
    for (_, line) in lines.iter().take(most) {
        let left = without_line(alloc, request, fields, board, *line, cut.margin, random)?;
        if left.is_some() {
            return Ok(left);
        }
    }
    Ok(None)
}
