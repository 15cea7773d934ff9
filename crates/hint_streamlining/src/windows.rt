//! Windows: rectangles in the north-west corner of that of a request, in which a layout is likely.

use crate::levels::levels;
use crate::loops::{has_loop, looped_levels};
use bt_model::Request;
use bt_parts::Rect;
use hint_numbering::goes_north;
use std::alloc::{AllocError, Global};
/// A search for a layout in a window, by at most so many steps.
#[derive(Clone, Copy)]
pub struct Attempt {
    pub window: Rect,
    /// Whether the window is the whole rectangle.
    pub is_whole: bool,
    /// Over how many columns the splitters of a level are spread.
    pub spread: u32,
    pub steps: u64,
    pub course: Course,
}

/// How a layout is looked for.
#[derive(Clone, Copy)]
pub enum Course {
    /// All goes from the inputs to the outputs.
    Straight,
    /// Some of it leads back.
    Looped,
}

/// The most steps of a search for a layout with ways back.
const LOOPED_STEPS: u64 = 32768;

/// The most steps of the first search in each window.
const FIRST_STEPS: u64 = 1024;

/// The most steps of the second search in each window.
const SECOND_STEPS: u64 = 8192;

/// How many levels splitters have, and how many of them have one level at most.
#[derive(Clone, Copy)]
struct Stages {
    count: u32,
    widest: u32,
}

/// The stages of levels in ascending order.
fn stages_of(sorted: &[u64]) -> Stages {
    let (mut count, mut widest, mut run) = (0u32, 0u32, 0u32);
    let mut last = None;
    for level in sorted {
        if last != Some(*level) {
            last = Some(*level);
            count = count.saturating_add(1);
            run = 0;
        }
        run = run.saturating_add(1);
        widest = widest.max(run);
    }
    Stages { count, widest }
}

/// A window in which a layout of a request is likely that names neither pins nor blocks: the splitters of each level
/// stand side by side with one column to spare, and between two levels there is a row for each splitter of the widest one.
fn likely_window(alloc: Global, request: &Request) -> Result<Rect, AllocError> {
    let net = request.net();
    let mut sorted = levels(alloc, net.edges(), net.splitters() as usize)?;
    sorted.sort()?;
    let Stages { count, widest } = stages_of(&sorted);
    let across = widest.saturating_mul(2).saturating_add(1);
    let between = count.saturating_sub(1).saturating_mul(widest);
    Ok(Rect {
        width: across.max(net.inputs()).max(net.outputs()),
        height: count.saturating_add(between).saturating_add(3),
    })
}

/// Adds a window, where it has a row at least and isn't larger than a rectangle.
fn push_within(windows: &mut Vec<Rect>, rect: Rect, window: Rect) -> Result<(), AllocError> {
    if window.width <= rect.width && window.height >= 1 && window.height <= rect.height {
        windows.push(window)?;
    }
    Ok(())
}

/// Whether a request has splitters and names no cells and no other sides than those where windows have inputs and outputs.
fn is_free(request: &Request) -> bool {
    goes_north(request) && request.blocks().is_empty() && request.net().splitters() > 0
}

/// The windows of a request in which a layout is likely, the most likely one first. None where there is no splitter, or
/// where the request names cells or other sides than windows have.
fn windows(alloc: Global, request: &Request) -> Result<Vec<Rect>, AllocError> {
    let mut windows = Vec::new(alloc);
    if !is_free(request) {
        return Ok(windows);
    }
    let Rect { width, height } = likely_window(alloc, request)?;
    let heights = [
        height,
        height.saturating_sub(1),
        height.saturating_add(1),
        height.saturating_sub(2),
        height.saturating_sub(3),
    ];
    for height in &heights {
        let window = Rect {
            width,
            height: *height,
        };
        push_within(&mut windows, request.rect(), window)?;
    }
    Ok(windows)
}

/// Whether two rectangles have the same width and height.
fn is_same(one: Rect, other: Rect) -> bool {
    one.width == other.width && one.height == other.height
}

/// Whether the rectangle of a request is one in which a layout is likely.
pub fn is_likely(alloc: Global, request: &Request) -> Result<bool, AllocError> {
    for window in &windows(alloc, request)? {
        if is_same(*window, request.rect()) {
            return Ok(true);
        }
    }
    Ok(false)
}

/// A search in the whole rectangle. Where the request names no cells, splitters are spread over no more columns than they
/// need.
pub fn whole(alloc: Global, request: &Request, steps: u64) -> Result<Attempt, AllocError> {
    let window = request.rect();
    let spread = if is_free(request) {
        likely_window(alloc, request)?.width.min(window.width)
    } else {
        window.width
    };
    Ok(Attempt {
        window,
        is_whole: true,
        spread,
        steps,
        course: Course::Straight,
    })
}

/// A search in the whole rectangle for a layout with ways back, for which a column is left beside each splitter where there
/// is room.
fn looped(alloc: Global, request: &Request, steps: u64) -> Result<Attempt, AllocError> {
    let net = request.net();
    let window = request.rect();
    let mut sorted = looped_levels(alloc, net.edges(), net.splitters() as usize)?;
    sorted.sort()?;
    Ok(Attempt {
        window,
        is_whole: true,
        spread: stages_of(&sorted)
            .widest
            .saturating_mul(3)
            .min(window.width),
        steps,
        course: Course::Looped,
    })
}

/// Whether a request names no cells and its network has loops.
fn may_be_looped(alloc: Global, request: &Request) -> Result<bool, AllocError> {
    let net = request.net();
    Ok(is_free(request) && has_loop(alloc, net.edges(), net.splitters() as usize)?)
}

/// The searches for a layout of a request, with at most `learnt` steps together: a short one in each window, then a
/// longer one in each, and then one in the whole rectangle with the steps that are left. Where the network has loops,
/// one for a layout with ways back comes first.
pub fn attempts(alloc: Global, request: &Request, learnt: u64) -> Result<Vec<Attempt>, AllocError> {
    let windows = windows(alloc, request)?;
    let mut attempts = Vec::new(alloc);
    let mut left = learnt;
    if may_be_looped(alloc, request)? {
        let attempt = looped(alloc, request, left.min(LOOPED_STEPS))?;
        left = left.saturating_sub(attempt.steps);
        attempts.push(attempt)?;
    }
    for most in &[FIRST_STEPS, SECOND_STEPS] {
        for window in &windows {
            let steps = left.min(*most);
            if steps > 0 {
                attempts.push(Attempt {
                    window: *window,
                    is_whole: is_same(*window, request.rect()),
                    spread: window.width,
                    steps,
                    course: Course::Straight,
                })?;
                left = left.saturating_sub(steps);
            }
        }
    }
    attempts.push(whole(alloc, request, left)?)?;
    Ok(attempts)
}
