//! Networks in stages: butterflies, and those in which a butterfly goes on backward (Benes networks).

use crate::block::{Block, inputs_of, put};
use bt_net::Start;
use std::alloc::{AllocError, Global};

/// How far the lines of a splitter lie apart, stage by stage.
const APART: [usize; 7] = [1, 2, 4, 8, 16, 32, 64];

/// How far the lines of a splitter lie apart in a butterfly that goes on backward.
const BACKWARD: [usize; 6] = [32, 16, 8, 4, 2, 1];

/// The butterfly of this many lines, which are a power of two, 128 at most.
pub fn butterfly(alloc: Global, lines: u32) -> Result<Block, AllocError> {
    let mut block = Block::new(alloc, lines, 0);
    let mut ends = inputs_of(alloc, lines)?;
    push_stages(&mut block, &mut ends)?;
    let paired = in_pairs(alloc, &ends)?;
    block.end(&paired)?;
    Ok(block)
}

/// The Benes network of this many lines, which are a power of two, 128 at most: a butterfly that goes on backward, with
/// one stage in the middle.
pub fn benes(alloc: Global, lines: u32) -> Result<Block, AllocError> {
    let mut block = Block::new(alloc, lines, 0);
    let mut ends = inputs_of(alloc, lines)?;
    push_stages(&mut block, &mut ends)?;
    for apart in BACKWARD {
        if apart.saturating_mul(2) < ends.len() {
            push_stage(&mut block, &mut ends, apart)?;
        }
    }
    block.end(&ends)?;
    Ok(block)
}

/// Adds the stages of a butterfly.
fn push_stages(block: &mut Block, ends: &mut [Start]) -> Result<(), AllocError> {
    for apart in APART {
        if apart < ends.len() {
            push_stage(block, ends, apart)?;
        }
    }
    Ok(())
}

/// Adds a stage, in which each line is joined with the one that lies `apart` places behind it.
fn push_stage(block: &mut Block, ends: &mut [Start], apart: usize) -> Result<(), AllocError> {
    for lesser in 0..ends.len() {
        if lesser & apart == 0 {
            push_pair(block, ends, lesser, lesser | apart)?;
        }
    }
    Ok(())
}

/// Joins the lines at two places in a splitter, whose line stands in both then.
fn push_pair(
    block: &mut Block,
    ends: &mut [Start],
    lesser: usize,
    greater: usize,
) -> Result<(), AllocError> {
    if let (Some(first), Some(second)) = (ends.get(lesser), ends.get(greater)) {
        let line = block.join(*first, *second)?;
        put(ends, lesser, line);
        put(ends, greater, line);
    }
    Ok(())
}

/// The lines in the order in which the splitters of the last stage have them, two each; a single line stays as it is.
fn in_pairs(alloc: Global, ends: &[Start]) -> Result<Vec<Start>, AllocError> {
    let mut paired = Vec::new(alloc);
    let half = ends.len() / 2;
    for (first, second) in ends.iter().zip(ends.iter().skip(half)) {
        paired.push(*first)?;
        paired.push(*second)?;
    }
    if ends.len() == 1 {
        paired.clear();
        paired.push(Start::Input(0))?;
    }
    Ok(paired)
}
