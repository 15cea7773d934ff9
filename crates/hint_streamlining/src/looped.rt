//! Where the parts of a layout are likely to stand of a network with loops.

use crate::choices::{Choice, Seat, add_places, ordered, rows_by};
use crate::loops::looped_levels;
use crate::returning::Returning;
use crate::sides::middles;
use bt_facts::cells_of;
use bt_model::Request;
use bt_parts::{Cell, Rect};
use std::alloc::{AllocError, Global};
/// Seats for splitters with these levels and middles, level by level and from the west to the east.
fn seats_by(alloc: Global, levels: &[u64], middles: &[u64]) -> Result<Vec<Seat>, AllocError> {
    let mut keyed = Vec::new(alloc);
    for (splitter, level) in levels.iter().enumerate() {
        let middle = middles.get(splitter).copied().unwrap_or(0);
        keyed.push((*level, middle, splitter))?;
    }
    keyed.sort()?;
    let mut seats = Vec::new(alloc);
    for (level, middle, splitter) in &keyed {
        seats.push(Seat {
            splitter: *splitter,
            level: *level,
            middle: *middle,
        })?;
    }
    Ok(seats)
}

/// Adds the places of the splitters that stand next to the inputs and the outputs, or else of the others.
fn add_all_places(
    alloc: Global,
    choices: &mut Vec<Choice>,
    window: Rect,
    cells: &[Cell],
    seats: &[Seat],
    is_outer: bool,
) -> Result<(), AllocError> {
    for place in &ordered(alloc, seats)? {
        if let Some(seat) = seats.get(*place) {
            if seat.is_outer() == is_outer {
                add_places(alloc, choices, window, cells, seat)?;
            }
        }
    }
    Ok(())
}

/// The levels of a request's splitters.
fn levels_of(alloc: Global, request: &Request) -> Result<Vec<u64>, AllocError> {
    let net = request.net();
    looped_levels(alloc, net.edges(), net.splitters() as usize)
}

/// The choices of `rows_by` in the whole rectangle, by the levels of a network with loops: all but what leads back goes
/// from the south to the north.
pub fn looped_rows(alloc: Global, request: &Request) -> Result<Vec<Choice>, AllocError> {
    let levels = levels_of(alloc, request)?;
    rows_by(alloc, request, request.rect(), &levels)
}

/// Where the splitters of a network with loops stand, those of a level spread over so many columns in one of several
/// orders: first those at both ends of the network, then the ways back between splitters, and then the other splitters.
/// The longest pair of a way back comes last where the order's number is odd.
pub fn looped_places(
    alloc: Global,
    request: &Request,
    spread: u32,
    order: usize,
) -> Result<Vec<Choice>, AllocError> {
    let window = request.rect();
    let edges = request.net().edges();
    let levels = levels_of(alloc, request)?;
    let middles = middles(alloc, edges, &levels, spread, order)?;
    let seats = seats_by(alloc, &levels, &middles)?;
    let returning = Returning {
        window,
        cells: cells_of(alloc, window)?,
        most: u64::from(request.tier().reach()).saturating_add(2),
        is_longest_last: order % 2 == 1,
    };
    let mut choices = Vec::new(alloc);
    add_all_places(alloc, &mut choices, window, &returning.cells, &seats, true)?;
    returning.add_ways(alloc, &mut choices, edges, &levels, &seats)?;
    add_all_places(alloc, &mut choices, window, &returning.cells, &seats, false)?;
    Ok(choices)
}
