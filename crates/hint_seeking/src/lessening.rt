//! Layouts that are made smaller until they lie in the rectangle of a request.
use crate::ground::{great_rect, ground_in};
use crate::half_turns::seek_turned_below;
use crate::room::{cells_in, names_cells};
use crate::search::Search;
use bt_model::Request;
use bt_parts::{Part, Rect};
use hint_placement::{Sketch, find_sketch};
use hint_shrinking::{Goal, Shrunk, shrink};
use std::alloc::{AllocError, Global};

/// The greatest rectangle in which layouts begin that are made smaller.
const GREATEST: Rect = Rect {
    width: 16,
    height: 16,
};

/// Layouts are made smaller only to rectangles that have so many cells for each splitter.
const LEAST_ROOM: u64 = 9;

/// Layouts begin in rectangles that are a column or a row greater only where these have so many cells for each
/// splitter: in lesser ones sketches find hardly any.
const SKETCH_ROOM: u64 = 15;

/// How often a layout is made smaller, and for about as long as how many conflicts take for each cell.
#[derive(Clone, Copy)]
struct Runs {
    count: u64,
    effort: u64,
}

/// From a rectangle that is a column or a row greater: that is found soon or hardly ever.
const NEAR: Runs = Runs {
    count: 2,
    effort: 75,
};

/// From the greatest rectangle.
const FAR: Runs = Runs {
    count: 3,
    effort: 200,
};

/// A rectangle in which a layout begins.
#[derive(Clone, Copy)]
struct Beginning {
    rect: Rect,
    runs: Runs,
}

/// The least request of a list that was laid.
#[derive(Clone, Copy)]
pub struct Least<'a> {
    /// Its place in the list.
    pub place: usize,
    /// The parts that lay it.
    pub parts: &'a [Part],
}

/// The parts of a sketch.
fn parts_of(alloc: Global, sketch: &Sketch) -> Result<Vec<Part>, AllocError> {
    let mut parts = Vec::from_slice(alloc, &sketch.others)?;
    for (_, part) in &sketch.splitters {
        parts.push(*part)?;
    }
    Ok(parts)
}

/// Whether a rectangle has so many cells for each splitter of a request.
fn has_room(request: &Request, rect: Rect, room: u64) -> bool {
    cells_in(rect) >= u64::from(request.net().splitters()).saturating_mul(room)
}

/// A plan of a layout that lies in the rectangle of a request, from the parts of one in a greater rectangle that is
/// made smaller for about as long as `effort` conflicts take. None where it doesn't get so small, or a search doesn't
/// show it. Each number begins another search.
fn lessened_into<S: Search>(
    alloc: Global,
    request: &Request,
    great: &Request,
    parts: &[Part],
    effort: u64,
    number: u64,
    search: &S,
) -> Result<Option<Sketch>, AllocError> {
    let goal = Goal::Within(great_rect(request));
    match shrink(alloc, great, great.rect(), parts, goal, effort, number)? {
        Some(shrunk) if goal.is_met(shrunk.rect) => match ground_in(alloc, request, shrunk.rect)? {
            Some(ground) => ground.show(alloc, &shrunk.sketch, search),
            None => Ok(None),
        },
        _ => Ok(None),
    }
}

/// A layout in the rectangle of a request from a sketch in a greater rectangle, which is made smaller more than once.
/// Other places begin other searches.
fn seek_from<S: Search>(
    alloc: Global,
    request: &Request,
    beginning: Beginning,
    place: usize,
    search: &S,
) -> Result<Option<Sketch>, AllocError> {
    let Beginning { rect, runs } = beginning;
    let Some(great) = ground_in(alloc, request, rect)? else {
        return Ok(None);
    };
    let Some(sketch) = find_sketch(alloc, great.request())? else {
        return Ok(None);
    };
    let parts = parts_of(alloc, &sketch)?;
    let effort = cells_in(great_rect(request)).saturating_mul(runs.effort);
    let first = (place as u64).saturating_mul(runs.count);
    for run in 0..runs.count {
        let number = first.saturating_add(run);
        let found = lessened_into(
            alloc,
            request,
            great.request(),
            &parts,
            effort,
            number,
            search,
        )?;
        if found.is_some() {
            return Ok(found);
        }
    }
    Ok(None)
}

/// A rectangle that is so much wider and so much higher, and no greater than the greatest.
fn grown(rect: Rect, columns: u32, rows: u32) -> Rect {
    Rect {
        width: rect.width.saturating_add(columns).min(GREATEST.width),
        height: rect.height.saturating_add(rows).min(GREATEST.height),
    }
}

/// Where a layout begins that is made smaller to the rectangle of a request: in those that are a column or a row
/// greater, where there is room, and in the greatest.
fn beginnings(alloc: Global, request: &Request) -> Result<Vec<Beginning>, AllocError> {
    let first = great_rect(request);
    let mut beginnings = Vec::new(alloc);
    for (columns, rows) in &[(1, 0), (0, 1)] {
        let rect = grown(first, *columns, *rows);
        if rect != first && rect != GREATEST && has_room(request, rect, SKETCH_ROOM) {
            beginnings.push(Beginning { rect, runs: NEAR })?;
        }
    }
    beginnings.push(Beginning {
        rect: GREATEST,
        runs: FAR,
    })?;
    Ok(beginnings)
}

/// Searches for a layout of a request by making one smaller that lies in a greater rectangle, more than once. Other
/// places begin other searches. None where the request names cells, its rectangle is the greatest or has too little
/// room, or none is found.
pub fn seek_by_lessening<S: Search>(
    alloc: Global,
    request: &Request,
    place: usize,
    search: &S,
) -> Result<Option<Sketch>, AllocError> {
    let rect = great_rect(request);
    if names_cells(request) || rect == GREATEST || !has_room(request, rect, LEAST_ROOM) {
        return Ok(None);
    }
    for beginning in &beginnings(alloc, request)? {
        let found = seek_from(alloc, request, *beginning, place, search)?;
        if found.is_some() {
            return Ok(found);
        }
    }
    Ok(None)
}

/// A plan of a request in the greatest rectangle, made as small as it gets for about as long as `effort` conflicts
/// take. None where no plan is found. Each number begins another search.
fn seek_from_greatest(
    alloc: Global,
    request: &Request,
    effort: u64,
    number: u64,
) -> Result<Option<Shrunk>, AllocError> {
    let Some(great) = ground_in(alloc, request, GREATEST)? else {
        return Ok(None);
    };
    let request = great.request();
    let Some(sketch) = find_sketch(alloc, request)? else {
        return Ok(None);
    };
    let (rect, parts) = (request.rect(), parts_of(alloc, &sketch)?);
    match shrink(alloc, request, rect, &parts, Goal::Least, effort, number)? {
        Some(shrunk) => Ok(Some(Shrunk {
            sketch: great.told(alloc, &shrunk.sketch)?,
            ..shrunk
        })),
        None => Ok(None),
    }
}

/// Makes the layout smaller that was found, or a plan where none was.
fn seek_shrunk(
    alloc: Global,
    requests: &[Request],
    found: Option<Least>,
    effort: u64,
    number: u64,
) -> Result<Option<Shrunk>, AllocError> {
    let place = match found {
        Some(least) => least.place,
        None => 0,
    };
    let Some(request) = requests.get(place) else {
        return Ok(None);
    };
    match found {
        Some(least) => shrink(
            alloc,
            request,
            request.rect(),
            least.parts,
            Goal::Least,
            effort,
            number,
        ),
        None => seek_from_greatest(alloc, request, effort, number),
    }
}

/// Looks for a layout that half a turn maps onto itself; or makes the layout smaller that was found, or a plan where
/// none was, for about as long as `effort` conflicts take. Each number begins another search.
pub fn seek_lesser(
    alloc: Global,
    requests: &[Request],
    found: Option<Least>,
    effort: u64,
    number: u64,
) -> Result<Option<Shrunk>, AllocError> {
    let end = match found {
        Some(least) => least.place,
        None => requests.len(),
    };
    let turned = seek_turned_below(alloc, requests, end, number)?;
    if turned.is_some() {
        return Ok(turned);
    }
    seek_shrunk(alloc, requests, found, effort, number)
}
