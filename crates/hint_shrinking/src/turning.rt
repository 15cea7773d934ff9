//! Searches for layouts that half a turn maps onto themselves, or does but for a last row in which an output is led
//! back.
use crate::around::count;
use crate::board::Board;
use crate::field::{Field, Likeness};
use crate::joining::joined_in;
use crate::plan::plan_of;
use crate::shrinking::Shrunk;
use bt_model::Request;
use bt_parts::Rect;
use bt_random::Random;
use hint_numbering::{are_in_pairs, edge_to_open, open_edge};
use std::alloc::{AllocError, Global};

/// In how many rectangles an opened network is laid by turns.
const PLACES: u64 = 3;

/// How a layout is looked for that half a turn maps onto itself.
#[derive(Clone, Copy)]
pub struct Turning {
    /// As long as so many conflicts take.
    pub effort: u64,
    /// Each number begins another search.
    pub number: u64,
}

/// The field in which a layout of a request was found that half a turn maps onto itself; none where none was.
fn turned_field(
    alloc: Global,
    request: &Request,
    rect: Rect,
    turning: Turning,
) -> Result<Option<Field>, AllocError> {
    let Turning { effort, number } = turning;
    let likeness = Likeness::Turned(number);
    let mut random = Random::new(number);
    let Some(mut field) = Field::new(alloc, request, rect, likeness)? else {
        return Ok(None);
    };
    if field.find_layout(alloc, effort, &mut random)? {
        Ok(Some(field))
    } else {
        Ok(None)
    }
}

/// The plan of the layout on a board, with its rectangle and what it took; none where the splitters' numbers aren't
/// found.
fn shrunk_of(
    alloc: Global,
    field: &mut Field,
    request: &Request,
    board: &Board,
    random: &mut Random,
) -> Result<Option<Shrunk>, AllocError> {
    match plan_of(alloc, field, request, board, random)? {
        Some(sketch) => Ok(Some(Shrunk {
            rect: board.rect(),
            sketch,
            effort: field.effort(),
        })),
        None => Ok(None),
    }
}

/// A layout that half a turn maps onto itself; none where none is found.
fn find_whole(
    alloc: Global,
    request: &Request,
    rect: Rect,
    turning: Turning,
) -> Result<Option<Shrunk>, AllocError> {
    match turned_field(alloc, request, rect, turning)? {
        Some(mut field) => {
            let board = field.board(alloc)?;
            let mut random = Random::new(turning.number);
            shrunk_of(alloc, &mut field, request, &board, &mut random)
        }
        None => Ok(None),
    }
}

/// The rectangle in which the opened network is laid, where its edge is joined in one: by turns a row less, the same, and
/// a column less.
fn lesser_rect(rect: Rect, number: u64) -> Rect {
    let Rect { width, height } = rect;
    match number % PLACES {
        0 => Rect {
            width,
            height: height.saturating_sub(1).max(1),
        },
        1 => rect,
        _ => Rect {
            width: width.saturating_sub(1).max(1),
            height,
        },
    }
}

/// The board of a rectangle in whose lesser one a layout stands that half a turn maps onto itself: that of the network
/// whose edge at a place is opened, so that it leads to a new output, and another edge from a new input to where it led.
/// None where none is found.
fn opened_board(
    alloc: Global,
    request: &Request,
    place: usize,
    rect: Rect,
    lesser: Rect,
    turning: Turning,
) -> Result<Option<Board>, AllocError> {
    let Some(opened) = open_edge(alloc, request, lesser, place)? else {
        return Ok(None);
    };
    match turned_field(alloc, &opened, lesser, turning)? {
        Some(field) => Ok(Some(field.board(alloc)?.within(alloc, rect)?)),
        None => Ok(None),
    }
}

/// A layout at whose border the edge at a place is joined, and which half a turn maps onto itself but for that, with the
/// edge opened. None where none is found.
fn find_joined(
    alloc: Global,
    request: &Request,
    place: usize,
    rect: Rect,
    turning: Turning,
) -> Result<Option<Shrunk>, AllocError> {
    let number = turning.number;
    let lesser = lesser_rect(rect, number);
    let inner = Turning {
        number: number / PLACES,
        ..turning
    };
    let Some(rest) = opened_board(alloc, request, place, rect, lesser, inner)? else {
        return Ok(None);
    };
    let Some(mut field) = Field::new(alloc, request, rect, Likeness::Any)? else {
        return Ok(None);
    };
    let mut random = Random::new(number);
    match joined_in(alloc, &mut field, &rest, lesser, &mut random)? {
        Some(board) => shrunk_of(alloc, &mut field, request, &board, &mut random),
        None => Ok(None),
    }
}

/// Whether half a turn may map a layout in a rectangle onto itself: where nothing is asked of its ends and cells, and
/// there are two cells for each splitter.
fn may_turn(request: &Request, rect: Rect) -> bool {
    let is_free = request.demands().is_empty() && request.blocks().is_empty();
    is_free && (request.net().splitters() as usize).saturating_mul(2) <= count(rect)
}

/// A plan of a layout of a request in a rectangle that half a turn of it maps onto itself, where each splitter may be
/// exchanged with another one; or where that is so once an edge is opened, of one that half a turn so maps but for its
/// border, at which the edge is joined. None where the request asks for anything of ends and cells, or none is found.
pub fn find_turned(
    alloc: Global,
    request: &Request,
    rect: Rect,
    turning: Turning,
) -> Result<Option<Shrunk>, AllocError> {
    if !may_turn(request, rect) {
        return Ok(None);
    }
    if are_in_pairs(alloc, request)? {
        return find_whole(alloc, request, rect, turning);
    }
    match edge_to_open(alloc, request)? {
        Some(place) => find_joined(alloc, request, place, rect, turning),
        None => Ok(None),
    }
}
