//! Which searches for a layout of a request are made, one after another: by a sketch, and by turns in windows, by a
//! half turn and by making a greater layout smaller.

use crate::ground::{Sought, great_rect, ground_in};
use crate::half_turns::seek_by_turning;
use crate::lessening::seek_by_lessening;
use crate::room::is_close;
use crate::search::Search;
use bt_model::Request;
use hint_placement::Sketch;
use hint_streamlining::{Attempt, attempts};
use std::alloc::{AllocError, Global};

/// Before each search of more steps than these a greater layout is made smaller.
const SHORT_STEPS: u64 = 8192;

/// In a rectangle of which little is left, at most so many steps look for a layout where one is likely: 65,536 of them
/// would take longer than it takes to refute the whole formula.
const CLOSE_STEPS: u64 = 4096;

/// A sketch of a layout of a request.
pub fn seek_by_sketch(alloc: Global, request: &Request) -> Result<Option<Sketch>, AllocError> {
    match ground_in(alloc, request, great_rect(request))? {
        Some(ground) => ground.sketch(alloc),
        None => Ok(None),
    }
}

/// Makes an attempt in the own formula of the attempt's window; nothing is found where pins or blocks don't lie in
/// that.
fn seek_in_window<S: Search>(
    alloc: Global,
    request: &Request,
    attempt: Attempt,
    search: &S,
) -> Result<Sought, AllocError> {
    match ground_in(alloc, request, attempt.window)? {
        Some(ground) => ground.seek(alloc, attempt, search),
        None => Ok(Sought::nothing()),
    }
}

/// With how many of so many steps a layout of a request is looked for where one is likely: with fewer in a rectangle of
/// which little is left.
fn steps_for(request: &Request, steps: u64) -> u64 {
    if is_close(request) {
        steps.min(CLOSE_STEPS)
    } else {
        steps
    }
}

/// The attempts at a layout of a request in its rectangle, as that is searched.
fn attempts_at(alloc: Global, request: &Request, steps: u64) -> Result<Vec<Attempt>, AllocError> {
    match ground_in(alloc, request, great_rect(request))? {
        Some(ground) => attempts(alloc, ground.request(), steps_for(request, steps)),
        None => Ok(Vec::new(alloc)),
    }
}

/// Searches for a layout that half a turn maps onto itself, unless that `is_begun`, and then for one by making a
/// greater one smaller. Other places begin other searches of the latter kind.
fn seek_without_steps<S: Search>(
    alloc: Global,
    request: &Request,
    place: usize,
    is_begun: bool,
    search: &S,
) -> Result<Option<Sketch>, AllocError> {
    if !is_begun {
        let turned = seek_by_turning(alloc, request)?;
        if turned.is_some() {
            return Ok(turned);
        }
    }
    seek_by_lessening(alloc, request, place, search)
}

/// Searches for a layout of a request where one is likely, with at most so many steps of all windows together. Where
/// none of the whole rectangle is as was looked for, none of a window is.
pub fn seek_where_likely<S: Search>(
    alloc: Global,
    request: &Request,
    steps: u64,
    search: &S,
) -> Result<Option<Sketch>, AllocError> {
    let mut is_begun = false;
    for (place, attempt) in attempts_at(alloc, request, steps)?.iter().enumerate() {
        if attempt.steps > SHORT_STEPS {
            let plan = seek_without_steps(alloc, request, place, is_begun, search)?;
            if plan.is_some() {
                return Ok(plan);
            }
            is_begun = true;
        }
        let sought = seek_in_window(alloc, request, *attempt, search)?;
        if sought.sketch.is_some() {
            return Ok(sought.sketch);
        }
        if sought.is_refuted && attempt.is_whole {
            return Ok(None);
        }
    }
    Ok(None)
}
