//! Rounds of searches, each of which goes from the back of the list to its front.
ghost use Rattle.std.specs.Prelude.{◌<◌, ◌≤◌, ℕ, List, IfOk, length};
ghost use Rattle.bt_model.specs.Requests.{LayoutRequest};
ghost use Rattle.bt_layout.specs.Early.{IsEarly};
ghost use Rattle.bt_layout.specs.inner.Progressing.{ArePassed, IsProgress, IsSweep};

use crate::progress::{Laid, Progress, first_progress};
use crate::sweep::{Sweep, after_search, after_sketch, first_sweep};
use crate::whole::after_all;
use bt_grids::Early;
use bt_model::Request;
use bt_parts::Rect;
use hint_seeking::{Least, Means, seek_lesser};
use hint_shrinking::Shrunk;
use hint_streamlining::is_likely;
use std::alloc::{AllocError, Global};

/// The most steps of a search of a request in whose rectangle a layout is likely.
const LIKELY_STEPS: u64 = 8192;

/// Each time that the searches have taken so many more steps, the least layout is made smaller once.
const RUN_STEPS: u64 = 5_000;

/// To make it smaller once takes about as long as so many conflicts of a light search.
const RUN_EFFORT: u64 = 40_000;

/// The most steps of a search in the first round. Each later round has twice as many as the one before it.
const FIRST_STEPS: u64 = 128;

/// How many rounds there are at most: in the last one a search may take more steps than a log may have.
const ROUNDS: u32 = 24;

/// Looks for a layout of one of the requests, with at most `learnt` steps of all searches together. An earlier request
/// is the better one, so once a layout is found only the requests before that one are looked at.
///
/// First come rounds in which layouts are looked for that are likely. Finding one takes few steps or very many, so a
/// request of which none is found at once is passed, and one further to the front may be laid before it. At last all
/// steps that are left serve searches of the requests' placement formulas.
pub fn lay_early(alloc: Global, requests: &[Request], learnt: u64) -> Result<Early, AllocError>
    ensures { IfOk result (IsEarly requests.now learnt) }
{
    let progress = after_rounds(alloc, requests, learnt, first_progress())?;
    let progress = after_all(alloc, requests, learnt, progress)?;
    Ok(told(progress))
}

/// The progress after rounds of searches for layouts that are likely: at first by sketches; then of those requests in
/// whose rectangles a layout is likely; and then of all, each round with twice as many steps for a search as the one
/// before it.
fn after_rounds(
    alloc: Global,
    requests: &[Request],
    learnt: u64,
    begun: Progress,
) -> Result<Progress, AllocError>
    requires { IsProgress requests.now learnt begun }
    ensures { IfOk result (IsProgress requests.now learnt) }
{
    let first = first_sweep(alloc, requests.len(), begun)?;
    let sketched = after_round(alloc, requests, learnt, first, Means::Sketch)?;
    let mut sweep = after_likely(alloc, requests, learnt, sketched)?;
    for round in 0..ROUNDS {
        let means = Means::Search(FIRST_STEPS << round);
        sweep = after_round(alloc, requests, learnt, sweep, means)?;
    }
    Ok(sweep.progress)
}

/// The index, or `most` where it is greater.
fn within(at: usize, most: usize) -> usize
    ensures less { result ≤ at }
    ensures most { result ≤ most }
{
    if at < most { at } else { most }
}

/// The sweep after a search of the request whose place is at this index, and after the least layout is made smaller as
/// often as is due.
fn after_turn(
    alloc: Global,
    requests: &[Request],
    learnt: u64,
    sweep: Sweep,
    at: usize,
    means: Means,
) -> Result<Sweep, AllocError>
    requires sweep { IsSweep requests.now learnt sweep }
    requires inside { at < length sweep.places.items }
    ensures { IfOk result (IsSweep requests.now learnt) }
{
    let searched = after_search(alloc, requests, learnt, sweep, at, means)?;
    after_runs(alloc, requests, learnt, searched)
}

/// The sweep after the least layout is made smaller as often as is due: once for each `RUN_STEPS` steps of all
/// searches.
fn after_runs(
    alloc: Global,
    requests: &[Request],
    learnt: u64,
    begun: Sweep,
) -> Result<Sweep, AllocError>
    requires { IsSweep requests.now learnt begun }
    ensures { IfOk result (IsSweep requests.now learnt) }
{
    let (first, runs) = (begun.runs, begun.progress.steps / RUN_STEPS);
    let mut sweep = begun;
    for number in first..runs {
        sweep = after_lesser(alloc, requests, learnt, sweep, number)?;
    }
    Ok(Sweep { runs, ..sweep })
}

/// The layout that was found, with its place; None where none was.
fn least_of(progress: &Progress) -> Option<Least> {
    match &progress.found {
        Some(laid) => Some(Least {
            place: laid.place,
            parts: &laid.parts,
        }),
        None => None,
    }
}

/// The sweep after the layout that was found, or a plan where none was, is made smaller once; as it was where that
/// shows no layout. Each number begins another search.
fn after_lesser(
    alloc: Global,
    requests: &[Request],
    learnt: u64,
    sweep: Sweep,
    number: u64,
) -> Result<Sweep, AllocError>
    requires { IsSweep requests.now learnt sweep }
    ensures { IfOk result (IsSweep requests.now learnt) }
{
    let least = least_of(&sweep.progress);
    match seek_lesser(alloc, requests, least, RUN_EFFORT, number)? {
        Some(shrunk) => after_shrunk(alloc, requests, learnt, sweep, &shrunk),
        None => Ok(sweep),
    }
}

/// The sweep after a smaller layout is tried for the request that has its rectangle. Where none has that may still be
/// laid, the sweep stays as it was.
fn after_shrunk(
    alloc: Global,
    requests: &[Request],
    learnt: u64,
    sweep: Sweep,
    shrunk: &Shrunk,
) -> Result<Sweep, AllocError>
    requires { IsSweep requests.now learnt sweep }
    ensures { IfOk result (IsSweep requests.now learnt) }
{
    match index_with(requests, &sweep.places, shrunk.rect) {
        Some(at) if at < sweep.places.len() => {
            after_sketch(alloc, requests, learnt, sweep, at, &shrunk.sketch)
        }
        _ => Ok(sweep),
    }
}

/// The index among the places of the first one whose request has this rectangle. None where none has.
fn index_with(requests: &[Request], places: &[usize], rect: Rect) -> Option<usize> {
    for (at, place) in places.iter().enumerate() {
        if requests.get(*place)?.rect() == rect {
            return Some(at);
        }
    }
    None
}

/// The sweep after a search of each request in whose rectangle a layout is likely, from the last one to the first, as
/// long as steps are left.
fn after_likely(
    alloc: Global,
    requests: &[Request],
    learnt: u64,
    begun: Sweep,
) -> Result<Sweep, AllocError>
    requires { IsSweep requests.now learnt begun }
    ensures { IfOk result (IsSweep requests.now learnt) }
{
    let mut sweep = begun;
    let mut at = sweep.places.len();
    while at > 0 && sweep.progress.steps < learnt {
        at -= 1;
        sweep = looked_where_likely(alloc, requests, learnt, sweep, at)?;
        at = within(at, sweep.places.len());
    }
    Ok(sweep)
}

/// The sweep after a search of the request whose place is at this index, where a layout is likely in its rectangle;
/// else the sweep as it was.
fn looked_where_likely(
    alloc: Global,
    requests: &[Request],
    learnt: u64,
    sweep: Sweep,
    at: usize,
) -> Result<Sweep, AllocError>
    requires sweep { IsSweep requests.now learnt sweep }
    requires inside { at < length sweep.places.items }
    ensures sweep { IfOk result (IsSweep requests.now learnt) }
{
    let place = sweep.places[at];
    if is_likely(alloc, &requests[place])? {
        let means = Means::Search(LIKELY_STEPS);
        after_turn(alloc, requests, learnt, sweep, at, means)
    } else {
        Ok(sweep)
    }
}

/// The sweep after one round, in which layouts of the requests are looked for by these means, from the last one to the
/// first, until no steps are left, or as many were passed since a layout was found as these means allow.
fn after_round(
    alloc: Global,
    requests: &[Request],
    learnt: u64,
    begun: Sweep,
    means: Means,
) -> Result<Sweep, AllocError>
    requires { IsSweep requests.now learnt begun }
    ensures { IfOk result (IsSweep requests.now learnt) }
{
    let mut sweep = Sweep {
        skipped: 0,
        passed: 0,
        ..begun
    };
    let mut at = sweep.places.len();
    while at > 0 && sweep.progress.steps < learnt && sweep.passed < means.most_passed() {
        at -= 1;
        sweep = after_turn(alloc, requests, learnt, sweep, at, means)?;
        at = within(at, sweep.places.len()).saturating_sub(sweep.skipped);
    }
    Ok(sweep)
}

/// What was found, or in how many steps nothing was.
fn told(progress: Progress) -> Early
    ensures { (requests : List LayoutRequest) (learnt : ℕ) → IsProgress requests learnt progress
        → ArePassed requests learnt 0 progress → IsEarly requests learnt result }
{
    let Progress { found, steps } = progress;
    match found {
        Some(Laid { place, parts }) => Early::Laid { place, parts },
        None => Early::Spent(steps),
    }
}
