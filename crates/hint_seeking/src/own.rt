//! A design's own parts, made smaller by windows and seams, or its network laid anew stage by stage. Nothing is claimed of
//! what is found.
use bt_model::Request;
use bt_parts::{Part, Rect};
use hint_boards::{Own, Plan, own_of};
use hint_placement::Sketch;
use hint_stages::{LeastPlan, find_least};
use hint_windows::{Narrowed, narrow};
use std::alloc::{AllocError, Global};

/// A layout of more cells than these isn't made smaller.
const MOST_CELLS: u64 = 25_600;

/// A layout that was made smaller.
#[derive(Drop)]
pub struct OwnLayout {
    /// Its rectangle.
    pub grid: Rect,
    /// Its parts, with the numbers of splitters.
    pub sketch: Sketch,
}

/// How many cells a rectangle has.
fn cells_in(rect: Rect) -> u64 {
    u64::from(rect.width).saturating_mul(u64::from(rect.height))
}

/// The network of a request, laid stage by stage in the least rectangle; none where it isn't one that has stages.
fn laid_anew(alloc: Global, request: &Request) -> Result<Option<Own>, AllocError> {
    let tier = request.tier();
    match find_least(alloc, request)? {
        Some(LeastPlan { rect, sketch }) => {
            let Sketch { splitters, others } = sketch;
            let plan = Plan { splitters, others };
            Ok(Some(Own { rect, tier, plan }))
        }
        None => Ok(None),
    }
}

/// Whether a rectangle that lies in the greatest one is to be taken in place of another, which has more cells or doesn't
/// lie there.
fn is_better(rect: Rect, other: Rect, most: Rect) -> bool {
    other.width > most.width || other.height > most.height || cells_in(rect) < cells_in(other)
}

/// The own layout, or the one that is laid anew where there is no other, made as small as it gets; none where there is
/// neither. Where the latter is the better one, each of the two gets half of the effort.
fn narrowed(
    alloc: Global,
    most: Rect,
    own: Option<&Own>,
    anew: Option<&Own>,
    effort: u64,
) -> Result<Option<Narrowed>, AllocError> {
    match (own, anew) {
        (Some(own), Some(anew)) if is_better(anew.rect, own.rect, most) => {
            narrowed_both(alloc, most, own, anew, effort / 2)
        }
        _ => match own.or(anew) {
            Some(layout) => Ok(Some(narrow(alloc, layout, most, effort, 0)?)),
            None => Ok(None),
        },
    }
}

/// The better one of two layouts as small as they get.
fn narrowed_both(
    alloc: Global,
    most: Rect,
    own: &Own,
    anew: &Own,
    effort: u64,
) -> Result<Option<Narrowed>, AllocError> {
    let first = narrow(alloc, own, most, effort, 0)?;
    let second = narrow(alloc, anew, most, effort, 0)?;
    if is_better(second.rect, first.rect, most) {
        Ok(Some(second))
    } else {
        Ok(Some(first))
    }
}

/// A design's own parts, which show the network of the request with its numbers, made smaller for about as long as so
/// many conflicts take; or the network laid anew, where it has stages and that takes fewer cells. There may be no parts.
pub fn narrow_own(
    alloc: Global,
    request: &Request,
    parts: &[Part],
    effort: u64,
) -> Result<Option<OwnLayout>, AllocError> {
    let own = own_of(alloc, parts, request.tier(), MOST_CELLS)?;
    let anew = laid_anew(alloc, request)?;
    let most = request.rect();
    match narrowed(alloc, most, own.as_ref(), anew.as_ref(), effort)? {
        Some(Narrowed { rect, plan }) => {
            let Plan { splitters, others } = plan;
            Ok(Some(OwnLayout {
                grid: rect,
                sketch: Sketch { splitters, others },
            }))
        }
        None => Ok(None),
    }
}
