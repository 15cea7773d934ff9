//! Layouts that half a turn maps onto themselves: in which rectangles they are looked for, in which order and for how
//! long.
use crate::ground::{great_rect, ground_in};
use crate::room::{cells_in, names_cells, taken_in};
use bt_model::Request;
use bt_parts::Rect;
use hint_placement::Sketch;
use hint_shrinking::{Shrunk, Turning, find_turned};
use std::alloc::{AllocError, Global};

/// For about so many conflicts of a light search a layout is looked for that half a turn maps onto itself: it takes few
/// or very many.
const TURN_EFFORT: u64 = 40_000;

/// How many such searches there are in the rectangle of a request: the narrower it is the less anything else finds a
/// layout.
const NARROWEST_SEARCHES: u64 = 6;

const NARROW_SEARCHES: u64 = 2;

const OTHER_SEARCHES: u64 = 1;

/// With fewer cells for each splitter a rectangle is one of the narrowest.
const NARROWEST_ROOM: u64 = 7;

/// With fewer cells for each splitter a rectangle is narrow.
const NARROW_ROOM: u64 = 9;

/// In how many rectangles such layouts are looked for by turns.
const TURNS: u64 = 2;

/// The same where all squarish ones are found.
const NARROW_TURNS: u64 = 3;

/// Whether halves of splitters and ends take at most so many of so many parts of the cells of a rectangle.
fn take_at_most(request: &Request, rect: Rect, parts: u64, of: u64) -> bool {
    taken_in(request).saturating_mul(of) <= cells_in(rect).saturating_mul(parts)
}

/// Whether a rectangle is no wider than high and at most twice as high.
fn is_upright(rect: Rect) -> bool {
    let Rect { width, height } = rect;
    width <= height && height <= width.saturating_mul(2)
}

/// How many searches there are in a rectangle.
fn searches_in(request: &Request, rect: Rect) -> u64 {
    let splitters = u64::from(request.net().splitters());
    let cells = cells_in(rect);
    if cells < splitters.saturating_mul(NARROWEST_ROOM) {
        NARROWEST_SEARCHES
    } else if cells < splitters.saturating_mul(NARROW_ROOM) {
        NARROW_SEARCHES
    } else {
        OTHER_SEARCHES
    }
}

/// The search with a number.
fn turning_by(number: u64) -> Turning {
    Turning {
        effort: TURN_EFFORT,
        number,
    }
}

/// Looks for a layout of a request that half a turn maps onto itself, or does but for its border, where halves of
/// splitters and ends take at most two thirds of the cells. None where a request names cells, its rectangle is wider
/// than high or more than twice as high as wide, or none is found.
pub fn seek_by_turning(alloc: Global, request: &Request) -> Result<Option<Sketch>, AllocError> {
    let rect = great_rect(request);
    if names_cells(request) || !is_upright(rect) || !take_at_most(request, rect, 2, 3) {
        return Ok(None);
    }
    let Some(great) = ground_in(alloc, request, rect)? else {
        return Ok(None);
    };
    for number in 0..searches_in(request, rect) {
        if let Some(shrunk) = find_turned(alloc, great.request(), rect, turning_by(number))? {
            return Ok(Some(great.told(alloc, &shrunk.sketch)?));
        }
    }
    Ok(None)
}

/// Whether a rectangle is as wide as high, or one less.
fn is_squarish(rect: Rect) -> bool {
    let Rect { width, height } = rect;
    width == height || width.saturating_add(1) == height
}

/// Whether halves of splitters and ends take at most half of the cells of a request's rectangle, and that is squarish.
fn is_wide(request: &Request) -> bool {
    let rect = request.rect();
    is_squarish(rect) && take_at_most(request, rect, 1, 2)
}

/// Whether halves of splitters and ends take at most four sevenths of the cells of a request's rectangle.
fn is_narrow(request: &Request) -> bool {
    let rect = request.rect();
    is_upright(rect) && take_at_most(request, rect, 4, 7)
}

/// Of the first requests, by turns one of the least of those whose rectangles are squarish and wide; the last such,
/// where there are fewer.
fn least_wide(requests: &[Request], end: usize, turn: u64) -> Option<&Request> {
    let (mut last, mut left) = (None, turn);
    for request in requests.iter().take(end) {
        if is_wide(request) {
            last = Some(request);
            if left == 0 {
                break;
            }
            left = left.saturating_sub(1);
        }
    }
    last
}

/// Of the first requests, by turns one of the greatest of those whose rectangles are narrow; the first such, where
/// there are fewer.
fn greatest_narrow(requests: &[Request], end: usize, turn: u64) -> Option<&Request> {
    let (mut last, mut left) = (None, turn);
    for back in 0..end {
        let place = end.saturating_sub(back).saturating_sub(1);
        if let Some(request) = requests.get(place) {
            if is_narrow(request) {
                last = Some(request);
                if left == 0 {
                    break;
                }
                left = left.saturating_sub(1);
            }
        }
    }
    last
}

/// Looks for a layout of one of the first `end` requests that half a turn maps onto itself, or does but for its border.
/// Each number begins another search. None where no rectangle of these is squarish and wide or narrow, or none is found.
pub fn seek_turned_below(
    alloc: Global,
    requests: &[Request],
    end: usize,
    number: u64,
) -> Result<Option<Shrunk>, AllocError> {
    let (request, turn) = match least_wide(requests, end, number % TURNS) {
        Some(request) => (request, number / TURNS),
        None => match greatest_narrow(requests, end, number % NARROW_TURNS) {
            Some(request) => (request, number / NARROW_TURNS),
            None => return Ok(None),
        },
    };
    find_turned(alloc, request, request.rect(), turning_by(turn))
}
