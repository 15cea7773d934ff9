//! The plan of a layout.
use crate::around::{cell_of, count};
use crate::board::Board;
use crate::contents::piece_of;
use crate::field::Field;
use bt_model::Request;
use bt_parts::{Kind, Part, Tier};
use bt_random::Random;
use hint_placement::Sketch;
use hint_solver::Literal;
use std::alloc::{AllocError, Global};

/// The most conflicts until splitters have their numbers, which what cells hold leaves open.
const CONFLICTS: u64 = 10_000;

/// The literals that say that all cells hold what they do on a board.
fn everywhere(alloc: Global, field: &Field, board: &Board) -> Result<Vec<Literal>, AllocError> {
    let mut literals = Vec::new(alloc);
    for place in 0..count(board.rect()) {
        let cell = cell_of(board.rect(), place);
        field.push(&mut literals, cell, board.get(cell), true)?;
    }
    Ok(literals)
}

/// The splitters of the model that was found last, with their numbers.
fn splitters_of(
    alloc: Global,
    field: &Field,
    request: &Request,
) -> Result<Vec<(usize, Part)>, AllocError> {
    let mut splitters = Vec::new(alloc);
    for splitter in 0..request.net().splitters() as usize {
        if let Some((cell, dir)) = field.stand(splitter) {
            let part = Part {
                kind: Kind::Splitter,
                tier: request.tier(),
                dir,
                cell,
            };
            splitters.push((field.first_number(splitter), part))?;
        }
    }
    Ok(splitters)
}

/// The belts and underground pieces of a board.
fn others_of(alloc: Global, board: &Board, tier: Tier) -> Result<Vec<Part>, AllocError> {
    let mut others = Vec::new(alloc);
    for place in 0..count(board.rect()) {
        let cell = cell_of(board.rect(), place);
        if let Some((kind, dir)) = piece_of(board.get(cell)) {
            others.push(Part {
                kind,
                tier,
                dir,
                cell,
            })?;
        }
    }
    Ok(others)
}

/// The plan of a layout of a request, in which splitters have their numbers; none where the search doesn't find these.
pub fn plan_of(
    alloc: Global,
    field: &mut Field,
    request: &Request,
    board: &Board,
    random: &mut Random,
) -> Result<Option<Sketch>, AllocError> {
    let literals = everywhere(alloc, field, board)?;
    if !field.grant(alloc, &literals)? {
        return Ok(None);
    }
    if !field.has_layout(alloc, &[], CONFLICTS, random)? {
        return Ok(None);
    }
    Ok(Some(Sketch {
        splitters: splitters_of(alloc, field, request)?,
        others: others_of(alloc, board, request.tier())?,
    }))
}
