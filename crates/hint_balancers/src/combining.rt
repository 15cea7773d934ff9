//! Blocks made of others.

use crate::block::{Block, inputs_of};
use bt_net::{Edge, Start, Target};
use std::alloc::{AllocError, Global};

/// The block whose last `count` outputs are led back to its last inputs. Of an unlimited block it is unlimited, too,
/// and what is equal at the ends of such a one stays so.
pub fn led_back(alloc: Global, block: &Block, count: u32) -> Result<Block, AllocError> {
    let inputs = block.inputs.saturating_sub(count);
    let outputs = block.outputs.saturating_sub(count);
    let mut led = Block::new(alloc, inputs, outputs);
    led.splitters = block.splitters;
    for edge in &block.edges {
        if has_target(edge, outputs) {
            led.lead(
                start_led_back(block, edge.start, inputs, outputs),
                edge.target,
            )?;
        }
    }
    Ok(led)
}

/// Whether an edge ends at a splitter or at one of the first outputs, so many.
fn has_target(edge: &Edge, outputs: u32) -> bool {
    match edge.target {
        Target::Split(_) => true,
        Target::Output(output) => output < outputs,
    }
}

/// Where an edge of a block starts whose last outputs are led back to its last inputs, and `inputs` and `outputs` are
/// left.
fn start_led_back(block: &Block, start: Start, inputs: u32, outputs: u32) -> Start {
    match start {
        Start::Input(input) if input >= inputs => {
            source_of(block, outputs.saturating_add(input - inputs))
        }
        _ => start,
    }
}

/// Where the edge of an output starts; at input 0 where there is no such edge.
pub fn source_of(block: &Block, output: u32) -> Start {
    for edge in &block.edges {
        if edge.target == Target::Output(output) {
            return edge.start;
        }
    }
    Start::Input(0)
}

/// The block with its first inputs alone, so many. What is equal at the outputs stays so, and of an unlimited block it
/// is unlimited.
pub fn with_inputs(alloc: Global, block: &Block, inputs: u32) -> Result<Block, AllocError> {
    let mut left = Block::new(alloc, inputs, block.outputs);
    left.splitters = block.splitters;
    for edge in &block.edges {
        if has_start(edge, inputs) {
            left.edges.push(*edge)?;
        }
    }
    Ok(left)
}

/// Whether an edge starts at a splitter or at one of the first inputs, so many.
fn has_start(edge: &Edge, inputs: u32) -> bool {
    match edge.start {
        Start::Split(_) => true,
        Start::Input(input) => input < inputs,
    }
}

/// The block with all edges turned round, in which inputs are outputs.
pub fn mirrored(alloc: Global, block: &Block) -> Result<Block, AllocError> {
    let mut turned = Block::new(alloc, block.outputs, block.inputs);
    turned.splitters = block.splitters;
    for edge in &block.edges {
        turned.lead(start_of(edge.target), target_of(edge.start))?;
    }
    Ok(turned)
}

/// Where an edge starts that ended here.
fn start_of(target: Target) -> Start {
    match target {
        Target::Split(splitter) => Start::Split(splitter),
        Target::Output(output) => Start::Input(output),
    }
}

/// Where an edge ends that started here.
fn target_of(start: Start) -> Target {
    match start {
        Start::Split(splitter) => Target::Split(splitter),
        Start::Input(input) => Target::Output(input),
    }
}

/// Two blocks in a row: the outputs of the first lead to the inputs of the second.
pub fn in_row(alloc: Global, first: &Block, second: &Block) -> Result<Block, AllocError> {
    let mut row = Block::new(alloc, first.inputs, 0);
    let inputs = inputs_of(alloc, first.inputs)?;
    let between = row.append(alloc, first, &inputs)?;
    let ends = row.append(alloc, second, &between)?;
    row.end(&ends)?;
    Ok(row)
}

/// The product of two blocks: as many of the first side by side as the second has inputs, and behind them as many of
/// the second as the first has outputs, each of which has a line of each of the first.
pub fn product(alloc: Global, first: &Block, second: &Block) -> Result<Block, AllocError> {
    let inputs = first.inputs.saturating_mul(second.inputs);
    let mut block = Block::new(alloc, inputs, 0);
    let between = side_by_side(&mut block, alloc, first, second.inputs)?;
    for place in 0..first.outputs {
        let lines = every_other(alloc, &between, place as usize, first.outputs as usize)?;
        let ends = block.append(alloc, second, &lines)?;
        block.end(&ends)?;
    }
    Ok(block)
}

/// Adds so many blocks side by side, and gives the lines of all their outputs.
fn side_by_side(
    block: &mut Block,
    alloc: Global,
    other: &Block,
    count: u32,
) -> Result<Vec<Start>, AllocError> {
    let mut ends = Vec::new(alloc);
    for copy in 0..count {
        let lines = inputs_from(alloc, copy.saturating_mul(other.inputs), other.inputs)?;
        let own = block.append(alloc, other, &lines)?;
        ends.extend_from_slice(&own)?;
    }
    Ok(ends)
}

/// The lines of so many inputs, from the one with this number on.
fn inputs_from(alloc: Global, first: u32, count: u32) -> Result<Vec<Start>, AllocError> {
    let mut lines = Vec::new(alloc);
    for place in 0..count {
        lines.push(Start::Input(first.saturating_add(place)))?;
    }
    Ok(lines)
}

/// The lines from a place on, each so far behind the one before it.
fn every_other(
    alloc: Global,
    lines: &[Start],
    place: usize,
    apart: usize,
) -> Result<Vec<Start>, AllocError> {
    let mut chosen = Vec::new(alloc);
    let mut next = place;
    for (at, line) in lines.iter().enumerate() {
        if at == next {
            chosen.push(*line)?;
            next = next.saturating_add(apart);
        }
    }
    Ok(chosen)
}
