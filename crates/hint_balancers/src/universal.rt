//! Universal networks: butterflies of twice as many lines of which half the ends are led back, and whose splitters are to
//! prefer the ends that are left, so that what is short goes round.

use crate::block::Block;
use crate::combining::source_of;
use crate::stages::butterfly;
use bt_net::{Start, Target};
use std::alloc::{AllocError, Global};

/// The universal network of this many lines, which are a power of two, 64 at most: of each two ends of a splitter the
/// second output is led back to the second input.
pub fn universal(alloc: Global, lines: u32) -> Result<Block, AllocError> {
    let whole = butterfly(alloc, lines.saturating_mul(2))?;
    let mut block = Block::new(alloc, lines, lines);
    block.splitters = whole.splitters;
    for edge in &whole.edges {
        if let Some(target) = target_left(edge.target) {
            block.lead(start_left(&whole, edge.start), target)?;
        }
    }
    Ok(block)
}

/// Where an edge of the butterfly ends in the universal network; none where it is led back, as at each odd output.
fn target_left(target: Target) -> Option<Target> {
    match target {
        Target::Split(_) => Some(target),
        Target::Output(output) if output & 1 == 0 => Some(Target::Output(output >> 1)),
        Target::Output(_) => None,
    }
}

/// Where an edge of the butterfly starts in the universal network: at an odd input there, what leads to the output of
/// that number.
fn start_left(whole: &Block, start: Start) -> Start {
    match start {
        Start::Split(_) => start,
        Start::Input(input) if input & 1 == 0 => Start::Input(input >> 1),
        Start::Input(input) => source_of(whole, input),
    }
}
