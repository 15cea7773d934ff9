//! Splitters that are moved by chance.
use bt_model::Request;
use bt_parts::DIRS;
use bt_random::Random;
use hint_routing::Stand;
use std::alloc::{AllocError, Global};

/// One of so many moves lets two splitters change places.
const EXCHANGES: usize = 4;

/// How far a splitter is moved at most.
const FURTHEST: usize = 2;

/// Whether a splitter can stand so: inside, on no block, and on no cell of another one.
fn is_free(request: &Request, stands: &[Stand], splitter: usize, stand: Stand) -> bool {
    for (number, other) in stands.iter().enumerate() {
        if number != splitter && stand.overlaps(other) {
            return false;
        }
    }
    stand.is_within(request)
}

/// A stand that is moved one or two cells by chance; it looks as before.
fn shifted(stand: Stand, random: &mut Random) -> Stand {
    let Stand { mut cell, dir } = stand;
    let turn = random.below(DIRS.len());
    let steps = random.below(FURTHEST);
    if let Some(way) = DIRS.get(turn) {
        for _ in 0..=steps {
            cell = cell.next(*way);
        }
    }
    Stand { cell, dir }
}

/// Moves a splitter by chance, where there is room.
fn shift(request: &Request, stands: &mut [Stand], splitter: usize, random: &mut Random) {
    let Some(stand) = stands.get(splitter) else {
        return;
    };
    let next = shifted(*stand, random);
    if is_free(request, stands, splitter, next) {
        if let Some(place) = stands.get_mut(splitter) {
            *place = next;
        }
    }
}

/// The stands, of which by chance two are exchanged, or one is moved where there is room.
pub fn moved(
    alloc: Global,
    request: &Request,
    stands: &[Stand],
    random: &mut Random,
) -> Result<Vec<Stand>, AllocError> {
    let mut next = Vec::from_slice(alloc, stands)?;
    let splitter = random.below(next.len());
    if random.below(EXCHANGES) == 0 {
        let other = random.below(next.len());
        if splitter < next.len() && other < next.len() {
            next.swap(splitter, other);
        }
    } else {
        shift(request, &mut next, splitter, random);
    }
    Ok(next)
}
