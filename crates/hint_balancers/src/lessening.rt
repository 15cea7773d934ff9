//! Merging and dividing lines until there are as many as are wanted.

use crate::block::{Block, inputs_of};
use bt_net::Start;
use std::alloc::{AllocError, Global};

/// A block from `inputs` to `outputs` lines: the first two are merged while there are too many, the first is divided
/// while there are too few. Where all inputs are full and all outputs open, the outputs carry what they can.
pub fn brought_to(alloc: Global, inputs: u32, outputs: u32) -> Result<Block, AllocError> {
    let mut block = Block::new(alloc, inputs, 0);
    let mut lines = inputs_of(alloc, inputs)?;
    merge(&mut block, &mut lines, inputs.saturating_sub(outputs))?;
    divide(&mut block, &mut lines, outputs.saturating_sub(inputs))?;
    block.end(&lines)?;
    Ok(block)
}

/// Merges the first two lines into one, which is put behind the others, `count` times.
fn merge(block: &mut Block, lines: &mut Vec<Start>, count: u32) -> Result<(), AllocError> {
    for _ in 0..count {
        if lines.len() >= 2 {
            let first = lines.remove(0);
            let second = lines.remove(0);
            lines.push(block.join(first, second)?)?;
        }
    }
    Ok(())
}

/// Divides the first line into two, which are put behind the others, `count` times.
fn divide(block: &mut Block, lines: &mut Vec<Start>, count: u32) -> Result<(), AllocError> {
    for _ in 0..count {
        if !lines.is_empty() {
            let line = block.part(lines.remove(0))?;
            lines.push(line)?;
            lines.push(line)?;
        }
    }
    Ok(())
}
