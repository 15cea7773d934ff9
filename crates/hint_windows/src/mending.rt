//! Mending what cutting out a seam has damaged.
use crate::laying::{Trial, put_tiles};
use crate::window::around;
use bt_random::Random;
use hint_boards::{Board, mark};
use std::alloc::{AllocError, Global};

/// The most conflicts of the search for one spot, which is the window around some damaged cells.
const CONFLICTS: u64 = 1_000;

/// The most cells of a spot.
const MOST_CELLS: usize = 140;

/// The first place that is marked; none where none is.
fn first_marked(marks: &[bool]) -> Option<usize> {
    for (place, mark) in marks.iter().enumerate() {
        if *mark {
            return Some(place);
        }
    }
    None
}

/// Marks the cells at most `radius` away, each way, from the first damaged place and from all damaged ones that hang
/// together with it by steps of at most `radius` + 1. With them, how many damaged places those are.
fn spot(
    alloc: Global,
    board: &Board,
    damaged: &[bool],
    first: usize,
    radius: usize,
) -> Result<(Vec<bool>, usize), AllocError> {
    let mut own = vec![in alloc; false; damaged.len()]?;
    mark(&mut own, Some(first));
    let mut count = 1usize;
    for _ in 0..damaged.len() {
        let near = around(alloc, board, &own, radius.saturating_add(1))?;
        let mut more = 0usize;
        for place in 0..damaged.len() {
            let is_new = damaged.get(place).copied().unwrap_or(false)
                && near.get(place).copied().unwrap_or(false)
                && !own.get(place).copied().unwrap_or(false);
            if is_new {
                mark(&mut own, Some(place));
                more = more.saturating_add(1);
            }
        }
        if more == 0 {
            break;
        }
        count = count.saturating_add(more);
    }
    Ok((around(alloc, board, &own, radius)?, count))
}

/// Lays all damaged cells anew, spot by spot, each with the cells at most `radius` from its damaged ones. Whether none
/// is damaged in the end: false where a spot is too large or no tiles are found. Each spot adds its conflicts and 20 to
/// `effort`.
pub fn mend(
    alloc: Global,
    board: &mut Board,
    radius: usize,
    random: &mut Random,
    effort: &mut u64,
) -> Result<bool, AllocError> {
    for _ in 0..board.tiles.len() {
        let damaged = board.damage(alloc)?;
        let Some(first) = first_marked(&damaged) else {
            return Ok(true);
        };
        let (marks, _) = spot(alloc, board, &damaged, first, radius)?;
        let Some(mut trial) = Trial::new(alloc, board, &marks, MOST_CELLS)? else {
            *effort = effort.saturating_add(20);
            return Ok(false);
        };
        let found = trial.tiles(alloc, board, &[], CONFLICTS, random)?;
        *effort = effort.saturating_add(trial.conflicts()).saturating_add(20);
        let Some(tiles) = found else {
            return Ok(false);
        };
        put_tiles(board, trial.cells(), &tiles);
    }
    Ok(false)
}
