//! Networks with loops: which edges lead back, and the levels of splitters.
use crate::levels::LAST_LEVEL;
use bt_net::Edge;
use hint_numbering::{from, to, to_outputs};
use std::alloc::{AllocError, Global};

/// The number at a splitter, or 0 where it has none.
fn at(numbers: &[u32], splitter: usize) -> u32 {
    numbers.get(splitter).copied().unwrap_or(0)
}

/// The greatest of these, or 0.
fn greatest(numbers: &[u32]) -> u32 {
    let mut most = 0u32;
    for number in numbers {
        most = most.max(*number);
    }
    most
}

/// Makes the length at a splitter one more than this one, where that is more.
fn lengthen(lengths: &mut [u32], splitter: usize, before: u32) {
    if let Some(length) = lengths.get_mut(splitter) {
        *length = (*length).max(before.saturating_add(1));
    }
}

/// Makes the length at the end of each edge between splitters more than that at its start, in turn.
fn lengthen_along(lengths: &mut [u32], edges: &[Edge]) {
    for edge in edges {
        if let (Some(start), Some(target)) = (from(edge), to(edge)) {
            let before = at(lengths, start);
            lengthen(lengths, target, before);
        }
    }
}

/// Whether some way through splitters comes back to where it was: else none passes as many edges as there are splitters.
pub fn has_loop(alloc: Global, edges: &[Edge], splitters: usize) -> Result<bool, AllocError> {
    let mut lengths = vec![in alloc; 0u32; splitters]?;
    for _ in 0..splitters {
        lengthen_along(&mut lengths, edges);
    }
    Ok(greatest(&lengths) as usize >= splitters.max(1))
}

/// The stage of each splitter: how much nearer to the outputs it is than the one that is furthest from them; 0 too
/// where no way leads from it to an output.
fn stages(alloc: Global, edges: &[Edge], splitters: usize) -> Result<Vec<u32>, AllocError> {
    let distances = to_outputs(alloc, edges, splitters)?;
    let mut most = 0u32;
    for distance in &distances {
        if *distance as usize <= splitters {
            most = most.max(*distance);
        }
    }
    let mut stages = Vec::new(alloc);
    for distance in &distances {
        stages.push(most.saturating_sub(*distance))?;
    }
    Ok(stages)
}

/// The stage of a splitter. Where every edge to it comes from a splitter of its own stage or a later one, its stage is
/// instead the one after the last of theirs.
fn lifted(edges: &[Edge], stages: &[u32], splitter: usize) -> u32 {
    let own = at(stages, splitter);
    let mut after = own;
    for edge in edges {
        if to(edge) == Some(splitter) {
            match from(edge) {
                Some(other) if at(stages, other) >= own => {
                    after = after.max(at(stages, other).saturating_add(1));
                }
                _ => return own,
            }
        }
    }
    after
}

/// The stages of splitters, where one to which only feedback edges lead comes behind those from which these come.
fn lifted_stages(alloc: Global, edges: &[Edge], splitters: usize) -> Result<Vec<u32>, AllocError> {
    let stages = stages(alloc, edges, splitters)?;
    let last = greatest(&stages);
    let mut found = Vec::new(alloc);
    for splitter in 0..splitters {
        found.push(lifted(edges, &stages, splitter).min(last))?;
    }
    Ok(found)
}

/// How many different numbers are below this one, of numbers in ascending order.
fn different_below(sorted: &[u32], number: u32) -> u64 {
    let mut count = 0u64;
    let mut last = None;
    for other in sorted {
        if *other < number && last != Some(*other) {
            count = count.saturating_add(1);
            last = Some(*other);
        }
    }
    count
}

/// The level of each splitter of a network with loops: the stages that occur lie evenly from 0 to `LAST_LEVEL`, and a
/// stage alone lies in the middle.
pub fn looped_levels(
    alloc: Global,
    edges: &[Edge],
    splitters: usize,
) -> Result<Vec<u64>, AllocError> {
    let stages = lifted_stages(alloc, edges, splitters)?;
    let mut sorted: Vec<u32> = stages.iter().copied().collect(alloc)?;
    sorted.sort()?;
    let last = different_below(&sorted, greatest(&sorted));
    let mut levels = Vec::new(alloc);
    for stage in &stages {
        let before = different_below(&sorted, *stage);
        levels.push(if last == 0 {
            LAST_LEVEL / 2
        } else {
            LAST_LEVEL.saturating_mul(before) / last
        })?;
    }
    Ok(levels)
}

/// Whether an edge from the one splitter to the other leads to a level that isn't greater.
pub fn is_back(levels: &[u64], start: usize, target: usize) -> bool {
    match (levels.get(start), levels.get(target)) {
        (Some(start), Some(target)) => target <= start,
        _ => false,
    }
}
