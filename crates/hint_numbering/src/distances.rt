//! How far splitters are from the ends of a network: as many rounds over all edges as there are splitters, since plans have
//! some hundred at most.
use crate::network::{from, to};
use bt_net::Edge;
use std::alloc::{AllocError, Global};

/// More than any distance: what stands for that of a splitter which no way joins to the ends.
const NEVER: u32 = 1 << 20;

/// The distance at a splitter, `NEVER` where the list has none; 0 where none is named, which stands for the ends of the
/// network.
pub fn distance_at(distances: &[u32], splitter: Option<usize>) -> u32 {
    match splitter {
        Some(splitter) => distances.get(splitter).copied().unwrap_or(NEVER),
        None => 0,
    }
}

/// Lowers the distance at a splitter to one more than `before`, where that is less. Does nothing for the ends of the
/// network.
fn relax(distances: &mut [u32], splitter: Option<usize>, before: u32) {
    let Some(splitter) = splitter else {
        return;
    };
    if let Some(distance) = distances.get_mut(splitter) {
        *distance = (*distance).min(before.saturating_add(1));
    }
}

/// For each splitter, how many splitters the shortest way from an input passes up to it, itself included; `NEVER` where
/// none leads to it.
pub fn from_inputs(
    alloc: Global,
    edges: &[Edge],
    splitters: usize,
) -> Result<Vec<u32>, AllocError> {
    let mut distances = vec![in alloc; NEVER; splitters]?;
    for _ in 0..splitters {
        for edge in edges {
            let before = distance_at(&distances, from(edge));
            relax(&mut distances, to(edge), before);
        }
    }
    Ok(distances)
}

/// For each splitter, how many splitters the shortest way to an output passes from it on, itself included; `NEVER`
/// where none leads there.
pub fn to_outputs(alloc: Global, edges: &[Edge], splitters: usize) -> Result<Vec<u32>, AllocError> {
    let mut distances = vec![in alloc; NEVER; splitters]?;
    for _ in 0..splitters {
        for edge in edges {
            let before = distance_at(&distances, to(edge));
            relax(&mut distances, from(edge), before);
        }
    }
    Ok(distances)
}
