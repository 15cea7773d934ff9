//! Searches of whole placement formulas, by all steps that are left.
ghost use Rattle.std.specs.Prelude.{◌+◌, ◌≤◌, ◌<◌, ℕ, List, IfOk, IfSome, length};
ghost use Rattle.bt_model.specs.Requests.{LayoutRequest};
ghost use Rattle.bt_layout.specs.inner.Progressing.{ArePassed, IsEnded, IsProgress, lesser_of};

use crate::progress::{Laid, Progress, lesser, with_layout, with_steps};
use crate::searching::{Searched, look_alone};
use bt_grids::Layout;
use bt_model::Request;
use std::alloc::{AllocError, Global};

/// Searches for a layout of each request that is lesser than the one that was laid, from the greatest one downwards, by
/// all steps that are left of `learnt`, and gives the progress after that. It ends where no steps or no requests are
/// left.
pub fn after_all(
    alloc: Global,
    requests: &[Request],
    learnt: u64,
    begun: Progress,
) -> Result<Progress, AllocError>
    requires { IsProgress requests.now learnt begun }
    ensures progress { IfOk result (IsProgress requests.now learnt) }
    ensures passed { IfOk result (ArePassed requests.now learnt 0) }
{
    let mut progress = begun;
    let mut place = lesser(&progress, requests.len());
    while place > 0 && progress.steps < learnt {
        place -= 1;
        progress = after_whole(alloc, requests, learnt, progress, place)?;
    }
    Ok(progress)
}

/// Searches for a layout of the request at this place, by all steps that are left of `learnt`, and gives the progress
/// after that.
fn after_whole(
    alloc: Global,
    requests: &[Request],
    learnt: u64,
    progress: Progress,
    place: usize,
) -> Result<Progress, AllocError>
    requires progress { IsProgress requests.now learnt progress }
    requires lesser { place < lesser_of (length requests.now) progress.found }
    ensures progress { IfOk result (IsProgress requests.now learnt) }
    ensures lesser { IfOk result (λ after. place ≤ lesser_of (length requests.now) after.found) }
    ensures passed { ArePassed requests.now learnt (place + 1) progress
        → IfOk result (ArePassed requests.now learnt place) }
{
    let left = learnt.saturating_sub(progress.steps);
    let searched = look_alone(alloc, &requests[place], left)?;
    Ok(after_searched(progress, place, searched))
}

/// The progress after the search for a layout of the request at this place came to `searched`.
fn after_searched(progress: Progress, place: usize, searched: Searched) -> Progress
    requires { IfSome progress.found (λ laid. place < laid.place) }
    ensures progress { (requests : List LayoutRequest) (learnt : ℕ)
        → IsProgress requests learnt progress → IsEnded requests learnt progress place searched
        → IsProgress requests learnt result }
    ensures lesser { (count : ℕ) → place < lesser_of count progress.found
        → place ≤ lesser_of count result.found }
    ensures passed { (requests : List LayoutRequest) (learnt : ℕ)
        → place < lesser_of (length requests) progress.found → IsEnded requests learnt progress place searched
        → ArePassed requests learnt (place + 1) progress → ArePassed requests learnt place result }
{
    let Searched { layout, steps } = searched;
    match layout {
        Layout::Found(parts) => with_layout(progress, Laid { place, parts }, steps),
        Layout::Nowhere(_) => with_steps(progress, steps),
        Layout::Spent(_) => with_steps(progress, steps),
    }
}
