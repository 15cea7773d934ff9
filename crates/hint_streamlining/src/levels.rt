//! How far splitters are from the inputs and the outputs of a network.
use bt_net::Edge;
use hint_numbering::{distance_at, from_inputs, to_outputs};
use std::alloc::{AllocError, Global};

/// The level of a splitter that is as near to the outputs as can be, where 0 is that of one near to the inputs.
pub const LAST_LEVEL: u64 = 5040;

/// The level of a splitter up to which the shortest way from an input passes so many splitters, and the shortest way
/// from it to an output so many, itself included: the part of the whole way that lies before it. In the middle where it
/// is alone.
fn level(up_to: u32, from_it: u32) -> u64 {
    let before = u64::from(up_to).saturating_sub(1);
    let all = before + u64::from(from_it).saturating_sub(1);
    if all == 0 {
        return LAST_LEVEL / 2;
    }
    before * LAST_LEVEL / all
}

/// The level of each splitter, from 0 next to the inputs to `LAST_LEVEL` next to the outputs.
pub fn levels(alloc: Global, edges: &[Edge], splitters: usize) -> Result<Vec<u64>, AllocError> {
    let first = from_inputs(alloc, edges, splitters)?;
    let last = to_outputs(alloc, edges, splitters)?;
    let mut levels = Vec::new(alloc);
    for splitter in 0..splitters {
        let up_to = distance_at(&first, Some(splitter));
        let from_it = distance_at(&last, Some(splitter));
        levels.push(level(up_to, from_it))?;
    }
    Ok(levels)
}
