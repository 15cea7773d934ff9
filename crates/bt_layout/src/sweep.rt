//! Sweeps over requests: searches for layouts that are likely, one after another. A request is lesser than those behind
//! it in the list, and is passed where its search takes all steps that it may and finds nothing.
ghost use Rattle.std.specs.Prelude.{◌≡◌, ◌≤◌, ◌<◌, ℕ, List, All, AllPairs, IfOk, IfSome, length};
ghost use Rattle.bt_model.specs.Requests.{LayoutRequest};
ghost use Rattle.bt_layout.specs.Early.{IsLaid};
ghost use Rattle.bt_layout.specs.inner.Likely.{IsTried};
ghost use Rattle.bt_layout.specs.inner.Progressing.{ArePaid, IsProgress, IsSearched, IsSweep, at_index};

use crate::likely::{Trial, Tried, look_where_likely};
use crate::progress::{Laid, Progress, lesser, with_layout, with_steps};
use crate::sketched::{look_at_sketch, look_by_sketch};
use bt_model::Request;
use bt_parts::Part;
use hint_placement::Sketch;
use hint_seeking::Means;
use std::alloc::{AllocError, Global};

/// The requests that searches for likely layouts may still lay, and what was found so far.
#[derive(Drop)]
pub struct Sweep {
    pub progress: Progress,
    /// The places of the requests, in their order: each stands before the one that was laid.
    pub places: Vec<usize>,
    /// How many places are left out before the next search: none at first, and each time that a layout is found
    /// twice as many and one; none again where a search finds nothing.
    pub skipped: usize,
    /// How many requests were passed since the round began or a layout was found.
    pub passed: usize,
    /// How often a layout was made smaller, or would have been.
    pub runs: u64,
}

/// The sweep at the beginning: of `count` requests each that is lesser than the one that was laid may be laid.
pub fn first_sweep(alloc: Global, count: usize, progress: Progress) -> Result<Sweep, AllocError>
    ensures { (requests : List LayoutRequest) (learnt : ℕ) → count ≡ length requests
        → IsProgress requests learnt progress → IfOk result (IsSweep requests learnt) }
{
    let places = places_below(alloc, lesser(&progress, count))?;
    Ok(Sweep {
        progress,
        places,
        skipped: 0,
        passed: 0,
        runs: 0,
    })
}

/// Looks for a layout of a request by some means, with at most so many steps. What is found is a layout; where none is
/// found, nothing is said.
fn look_by(alloc: Global, request: &Request, means: Means, left: u64) -> Result<Tried, AllocError>
    ensures { IfOk result (IsTried request.now left) }
{
    match means {
        Means::Sketch => look_by_sketch(alloc, request, left),
        Means::Search(steps) => look_where_likely(alloc, request, steps.min(left)),
    }
}

/// Looks by some means for a layout of the request whose place is at this index, with at most the steps that are left
/// of `learnt`, and gives the sweep after that.
pub fn after_search(
    alloc: Global,
    requests: &[Request],
    learnt: u64,
    sweep: Sweep,
    at: usize,
    means: Means,
) -> Result<Sweep, AllocError>
    requires sweep { IsSweep requests.now learnt sweep }
    requires inside { at < length sweep.places.items }
    ensures sweep { IfOk result (IsSweep requests.now learnt) }
    ensures places { IfOk result (λ after. at ≤ length after.places.items) }
{
    let place = sweep.places[at];
    let left = learnt.saturating_sub(sweep.progress.steps);
    let tried = look_by(alloc, &requests[place], means, left)?;
    Ok(after_trial(sweep, at, tried))
}

/// Tries a sketch of the request whose place is at this index, with at most the steps that are left of `learnt`, and
/// gives the sweep after that.
pub fn after_sketch(
    alloc: Global,
    requests: &[Request],
    learnt: u64,
    sweep: Sweep,
    at: usize,
    sketch: &Sketch,
) -> Result<Sweep, AllocError>
    requires sweep { IsSweep requests.now learnt sweep }
    requires inside { at < length sweep.places.items }
    ensures sweep { IfOk result (IsSweep requests.now learnt) }
    ensures places { IfOk result (λ after. at ≤ length after.places.items) }
{
    let place = sweep.places[at];
    let left = learnt.saturating_sub(sweep.progress.steps);
    let tried = look_at_sketch(alloc, &requests[place], sketch, left)?;
    Ok(after_trial(sweep, at, tried))
}

/// The sweep after the search of the request whose place is at this index came to `tried`.
fn after_trial(sweep: Sweep, at: usize, tried: Tried) -> Sweep
    requires inside { at < length sweep.places.items }
    requires lesser { IfSome sweep.progress.found (λ laid. at_index sweep at < laid.place) }
    ensures sweep { (requests : List LayoutRequest) (learnt : ℕ)
        → IsSweep requests learnt sweep → IsSearched requests learnt sweep at tried
        → IsSweep requests learnt result }
    ensures places { at ≤ length result.places.items }
{
    let Tried { trial, steps } = tried;
    match trial {
        Trial::Found(parts) => after_layout(sweep, at, steps, parts),
        Trial::Refuted => after_refutation(sweep, at, steps),
        Trial::Spent => after_giving_up(sweep, steps),
    }
}

/// The sweep after so many steps found a layout of the request whose place is at this index: only the places before it
/// are left.
fn after_layout(sweep: Sweep, at: usize, steps: u64, parts: Vec<Part>) -> Sweep
    requires inside { at < length sweep.places.items }
    requires lesser { IfSome sweep.progress.found (λ laid. at_index sweep at < laid.place) }
    ensures sweep { (requests : List LayoutRequest) (learnt : ℕ) → IsSweep requests learnt sweep
        → ArePaid learnt sweep.progress.steps steps → IsLaid requests (at_index sweep at) parts
        → IsSweep requests learnt result }
    ensures places { at ≤ length result.places.items }
{
    let Sweep {
        progress,
        mut places,
        skipped,
        runs,
        ..
    } = sweep;
    let place = places[at];
    places.truncate(at);
    Sweep {
        progress: with_layout(progress, Laid { place, parts }, steps),
        places,
        skipped: skipped.saturating_mul(2).saturating_add(1),
        passed: 0,
        runs,
    }
}

/// The sweep after so many steps showed that there is no such layout as was looked for of the request whose place is at
/// this index: that place is left out.
fn after_refutation(sweep: Sweep, at: usize, steps: u64) -> Sweep
    requires { at < length sweep.places.items }
    ensures sweep { (requests : List LayoutRequest) (learnt : ℕ) → IsSweep requests learnt sweep
        → ArePaid learnt sweep.progress.steps steps → IsSweep requests learnt result }
    ensures places { at ≤ length result.places.items }
{
    let Sweep {
        progress,
        mut places,
        passed,
        runs,
        ..
    } = sweep;
    let _ = places.remove(at);
    Sweep {
        progress: with_steps(progress, steps),
        places,
        skipped: 0,
        passed,
        runs,
    }
}

/// The sweep after so many steps found nothing for a request, which is passed and keeps its place.
fn after_giving_up(sweep: Sweep, steps: u64) -> Sweep
    ensures sweep { (requests : List LayoutRequest) (learnt : ℕ) → IsSweep requests learnt sweep
        → ArePaid learnt sweep.progress.steps steps → IsSweep requests learnt result }
    ensures places { result.places ≡ sweep.places }
{
    Sweep {
        progress: with_steps(sweep.progress, steps),
        skipped: 0,
        passed: sweep.passed.saturating_add(1),
        ..sweep
    }
}

/// All places below a number, in ascending order.
fn places_below(alloc: Global, end: usize) -> Result<Vec<usize>, AllocError>
    ensures below { IfOk result (λ places. All (λ place. place < end) places.items) }
    ensures in_order { IfOk result (λ places. AllPairs (λ one other. one < other) places.items) }
{
    let mut places = Vec::new(alloc);
    for place in 0..end {
        places.push(place)?;
    }
    Ok(places)
}
