//! Where the splitters of rows stand in a rectangle.
use crate::lines::{View, split_rows};
use crate::ordering::Rows;
use bt_model::Request;
use bt_random::Random;
use hint_routing::Stand;
use std::alloc::{AllocError, Global};

/// To be a line away from a seat counts as much as to be so many places away.
const LINE_COST: usize = 3;

/// Where a splitter should stand: the place of its first half in a line.
#[derive(Clone, Copy)]
struct Seat {
    place: usize,
    line: usize,
}

/// The stand at a place of a line.
fn stand_at(view: View, place: usize, line: usize) -> Stand {
    Stand {
        cell: view.cell(place, line),
        dir: view.dir,
    }
}

/// Whether a splitter can stand so: inside, on no block, and on no cell of another one.
fn is_free(request: &Request, stands: &[Option<Stand>], stand: Stand) -> bool {
    for other in stands {
        if let Some(other) = other {
            if stand.overlaps(other) {
                return false;
            }
        }
    }
    stand.is_within(request)
}

/// How far a place of a line is from a seat, in places: a line counts as `LINE_COST` of them.
fn distance(seat: Seat, place: usize, line: usize) -> usize {
    let lines = seat.line.abs_diff(line);
    lines
        .saturating_mul(LINE_COST)
        .saturating_add(seat.place.abs_diff(place))
}

/// The free stand that is nearest to a seat; none where no stand is free.
fn nearest(request: &Request, view: View, stands: &[Option<Stand>], seat: Seat) -> Option<Stand> {
    let mut best: Option<(usize, Stand)> = None;
    for line in 0..view.along() {
        for place in 0..view.across() {
            let distance = distance(seat, place, line);
            let is_nearer = match best {
                Some((least, _)) => distance < least,
                None => true,
            };
            let stand = stand_at(view, place, line);
            if is_nearer && is_free(request, stands, stand) {
                best = Some((distance, stand));
            }
        }
    }
    match best {
        Some((_, stand)) => Some(stand),
        None => None,
    }
}

/// The place of the first half of one of so many splitters, which are spread evenly over a line of so many cells.
fn place_of(number: usize, count: usize, across: usize) -> usize {
    let double = number.saturating_mul(2).saturating_add(1);
    let middle = across.saturating_mul(double) / count.saturating_mul(2).max(1);
    middle.saturating_sub(1)
}

/// Rows, moved by chance where that is due.
#[derive(Drop)]
struct Moves {
    random: Random,
    is_moved: bool,
}

impl Moves {
    /// The line of a row: of those between the first and the last one it may be one beside it.
    fn line(&mut self, view: View, row: usize, rows: usize) -> usize {
        let line = view.line_of(row, rows);
        if self.is_moved && row > 0 && row.saturating_add(1) < rows {
            self.random.near(line)
        } else {
            line
        }
    }

    /// The place of a splitter in its line, or one beside it.
    fn place(&mut self, view: View, number: usize, count: usize) -> usize {
        let place = place_of(number, count, view.across());
        if self.is_moved {
            self.random.near(place)
        } else {
            place
        }
    }
}

/// Makes the stand of a splitter this one.
fn set_stand(stands: &mut [Option<Stand>], splitter: usize, stand: Stand) {
    if let Some(place) = stands.get_mut(splitter) {
        *place = Some(stand);
    }
}

/// Places the splitters of a row on a line. Whether there is room for all.
fn place_row(
    request: &Request,
    view: View,
    stands: &mut [Option<Stand>],
    moves: &mut Moves,
    row: &[usize],
    line: usize,
) -> bool {
    for (number, splitter) in row.iter().enumerate() {
        let place = moves.place(view, number, row.len());
        match nearest(request, view, stands, Seat { place, line }) {
            Some(stand) => set_stand(stands, *splitter, stand),
            None => return false,
        }
    }
    true
}

/// Places the splitters of all rows. Whether there is room for all.
fn place_rows(
    request: &Request,
    view: View,
    stands: &mut [Option<Stand>],
    rows: &Rows,
    moves: &mut Moves,
) -> bool {
    let count = rows.len();
    if count > view.along() {
        return false;
    }
    for (number, row) in rows.iter().enumerate() {
        let line = moves.line(view, number, count);
        if !place_row(request, view, stands, moves, row, line) {
            return false;
        }
    }
    true
}

/// The stands of a list without the gaps.
fn all_of(alloc: Global, stands: &[Option<Stand>]) -> Result<Vec<Stand>, AllocError> {
    let mut all = Vec::new(alloc);
    for stand in stands {
        if let Some(stand) = stand {
            all.push(*stand)?;
        }
    }
    Ok(all)
}

/// The stands of so many splitters, the rows from the furthest line on; moved by chance where the seed isn't 0. None where
/// there isn't room for all.
pub fn stands_of(
    alloc: Global,
    request: &Request,
    view: View,
    rows: &Rows,
    splitters: usize,
    seed: usize,
) -> Result<Option<Vec<Stand>>, AllocError> {
    let mut moves = Moves {
        random: Random::new(seed as u64),
        is_moved: seed > 0,
    };
    // A splitter takes two cells of a line.
    let lines = split_rows(alloc, rows, (view.across() / 2).max(1))?;
    let mut stands = vec![in alloc; None; splitters]?;
    if !place_rows(request, view, &mut stands, &lines, &mut moves) {
        return Ok(None);
    }
    Ok(Some(all_of(alloc, &stands)?))
}
