//! Ways back: pairs of underground pieces that lead south beside a splitter, one below the other.

use crate::choices::{Choice, PARTS, Seat};
use crate::loops::is_back;
use bt_facts::{Class, Fact, Shape, holds};
use bt_net::Edge;
use bt_parts::{Cell, Dir, Rect};
use hint_numbering::{from, to};
use std::alloc::{AllocError, Global};
/// The fewest cells that a pair in a column takes with what lies between its pieces, which aren't next to one another.
const LEAST_LENGTH: u64 = 3;

/// Where edges lead back from a splitter: in a column, from a row on to the south.
#[derive(Clone, Copy)]
struct WayBack {
    splitter: usize,
    column: u64,
    row: u64,
}

/// The one of these cells that lies in a column and a row, if any.
fn cell_at(cells: &[Cell], column: u64, row: u64) -> Option<Cell> {
    for cell in cells {
        if u64::from(cell.x.unsigned_abs()) == column && u64::from(cell.y.unsigned_abs()) == row {
            return Some(*cell);
        }
    }
    None
}

/// How many of so many cells of a column a pair takes, at most `most`: fewer where what is left would be too short for
/// a pair.
fn next_length(cells: u64, most: u64) -> u64 {
    let rest = cells.saturating_sub(most);
    if rest > 0 && rest < LEAST_LENGTH {
        cells.saturating_sub(LEAST_LENGTH).min(most)
    } else {
        cells.min(most)
    }
}

/// The lengths of pairs that take so many cells together, the longest one first, or last; none where the cells are too
/// few for a pair.
fn lengths(
    alloc: Global,
    cells: u64,
    most: u64,
    is_longest_last: bool,
) -> Result<Vec<u64>, AllocError> {
    let mut left = cells;
    let mut lengths = Vec::new(alloc);
    for _ in 0..cells {
        if left >= LEAST_LENGTH {
            let length = next_length(left, most);
            lengths.push(length)?;
            left = left.saturating_sub(length);
        }
    }
    if is_longest_last {
        lengths.reverse();
    }
    Ok(lengths)
}

/// Adds that a pair leads south from where the way is, over so many cells with both pieces, and carries what leaves its
/// splitter. Adds nothing where a piece would lie outside.
fn add_pair(
    choices: &mut Vec<Choice>,
    cells: &[Cell],
    way: WayBack,
    length: u64,
) -> Result<(), AllocError> {
    let distance = length.saturating_sub(1);
    let last = way.row.saturating_add(distance);
    let ends = (
        cell_at(cells, way.column, way.row),
        cell_at(cells, way.column, last),
    );
    let (Some(entrance), Some(exit)) = ends else {
        return Ok(());
    };
    let class = Class::Split(way.splitter);
    let facts = [
        Fact::Pair(entrance, Dir::South, distance as usize),
        holds(entrance, Shape::Entrance, Dir::South),
        holds(exit, Shape::Exit, Dir::South),
        Fact::Carries(entrance, class),
        Fact::Carries(exit, class),
    ];
    for fact in &facts {
        choices.push(Choice {
            fact: *fact,
            holds: true,
        })?;
    }
    Ok(())
}

/// Adds pairs of these lengths, one below the other.
fn add_pairs(
    choices: &mut Vec<Choice>,
    cells: &[Cell],
    way: WayBack,
    lengths: &[u64],
) -> Result<(), AllocError> {
    let mut row = way.row;
    for length in lengths {
        add_pair(choices, cells, WayBack { row, ..way }, *length)?;
        row = row.saturating_add(*length);
    }
    Ok(())
}

/// Whether a column is one of so many, and isn't taken.
fn is_free(taken: &[u64], width: u64, column: u64) -> bool {
    for other in taken {
        if *other == column {
            return false;
        }
    }
    column < width
}

/// How far it is from the middle of a column to this place, both in `PARTS` of a column.
fn distance(column: u64, middle: u64) -> u64 {
    column
        .saturating_mul(PARTS)
        .saturating_add(PARTS / 2)
        .abs_diff(middle)
}

/// The free column next to where the splitter should stand to which a way leads back: of two the one nearer to where it
/// starts. None where both are taken or outside.
fn column_beside(taken: &[u64], width: u64, start: Seat, target: Seat) -> Option<u64> {
    let left = target.left() / PARTS;
    let east = left.saturating_add(2);
    let west = left.saturating_sub(1);
    let is_west_free = left > 0 && is_free(taken, width, west);
    let is_east_free = is_free(taken, width, east);
    if is_west_free
        && (!is_east_free || distance(west, start.middle) <= distance(east, start.middle))
    {
        return Some(west);
    }
    if is_east_free { Some(east) } else { None }
}

/// The seat of a splitter.
fn seat_of(seats: &[Seat], splitter: Option<usize>) -> Option<Seat> {
    for seat in seats {
        if Some(seat.splitter) == splitter {
            return Some(*seat);
        }
    }
    None
}

/// The seats at both ends of an edge that leads back from one splitter to another.
fn ends(seats: &[Seat], levels: &[u64], edge: &Edge) -> Option<(Seat, Seat)> {
    let Some(start) = seat_of(seats, from(edge)) else {
        return None;
    };
    let Some(target) = seat_of(seats, to(edge)) else {
        return None;
    };
    let is_other = start.splitter != target.splitter;
    if is_other && is_back(levels, start.splitter, target.splitter) {
        Some((start, target))
    } else {
        None
    }
}

/// What ways back have in common: the cells on which they may be, the longest pair, and which of its pairs comes last.
#[derive(Drop)]
pub struct Returning {
    pub window: Rect,
    pub cells: Vec<Cell>,
    pub most: u64,
    pub is_longest_last: bool,
}

impl Returning {
    /// Adds the way back from the row of one splitter to that of another, down a column.
    fn add_way(
        &self,
        alloc: Global,
        choices: &mut Vec<Choice>,
        start: Seat,
        target: Seat,
        column: u64,
    ) -> Result<(), AllocError> {
        let row = start.down(self.window) / PARTS;
        let end = (target.down(self.window) / PARTS).saturating_add(1);
        let count = end.saturating_sub(row);
        let way = WayBack {
            splitter: start.splitter,
            column,
            row,
        };
        let lengths = lengths(alloc, count, self.most, self.is_longest_last)?;
        add_pairs(choices, &self.cells, way, &lengths)
    }

    /// Adds the ways back of the edges that lead back from one splitter to another, each in a column of its own beside
    /// where it leads to.
    pub fn add_ways(
        &self,
        alloc: Global,
        choices: &mut Vec<Choice>,
        edges: &[Edge],
        levels: &[u64],
        seats: &[Seat],
    ) -> Result<(), AllocError> {
        let width = u64::from(self.window.width);
        let mut taken = Vec::new(alloc);
        for edge in edges {
            if let Some((start, target)) = ends(seats, levels, edge) {
                if let Some(column) = column_beside(&taken, width, start, target) {
                    taken.push(column)?;
                    self.add_way(alloc, choices, start, target, column)?;
                }
            }
        }
        Ok(())
    }
}
