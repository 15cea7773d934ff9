//! Networks of blocks. A block's text is read as any other text is, so that one that is wired wrongly is none.

use crate::block::Block;
use bt_net::{Admitted, Net, NetFault, Start, Target, read};
use itoa::Buffer;
use std::alloc::{AllocError, Global};

/// The network at the front of a text, where there is one.
pub fn read_net(alloc: Global, text: &[u8]) -> Result<Option<Net>, AllocError> {
    match read(alloc, Admitted::Priorities, text) {
        Ok(read) => Ok(Some(read.net)),
        Err(NetFault::Memory) => Err(AllocError),
        Err(_) => Ok(None),
    }
}

/// The network of a block, where it is one.
pub fn net_of(alloc: Global, block: &Block) -> Result<Option<Net>, AllocError> {
    let text = text_of(alloc, block)?;
    read_net(alloc, &text)
}

/// The network of a block in which each splitter prefers the edge of an input or of an output that it has.
pub fn net_preferring_ends(alloc: Global, block: &Block) -> Result<Option<Net>, AllocError> {
    let mut text = edges_text(alloc, block)?;
    for (number, edge) in block.edges.iter().enumerate() {
        match (edge.start, edge.target) {
            (Start::Input(_), Target::Split(splitter)) => {
                push_preference(&mut text, b"take s", splitter, number)?
            }
            (Start::Split(splitter), Target::Output(_)) => {
                push_preference(&mut text, b"give s", splitter, number)?
            }
            _ => {}
        }
    }
    text.extend_from_slice(b"end\n")?;
    read_net(alloc, &text)
}

/// Adds the line that begins with a word and says which edge a splitter prefers.
fn push_preference(
    text: &mut Vec<u8>,
    word: &[u8],
    splitter: u32,
    edge: usize,
) -> Result<(), AllocError> {
    let mut buffer = Buffer::new();
    text.extend_from_slice(word)?;
    push_number(text, splitter)?;
    text.push(b' ')?;
    text.extend_from_slice(buffer.format(edge).as_bytes())?;
    text.push(b'\n')?;
    Ok(())
}

/// The block of a network, without the edges that it prefers.
pub fn block_of(alloc: Global, net: &Net) -> Result<Block, AllocError> {
    let mut block = Block::new(alloc, net.inputs(), net.outputs());
    block.splitters = net.splitters();
    for edge in net.edges() {
        block.edges.push(*edge)?;
    }
    Ok(block)
}

/// The text of a block.
fn text_of(alloc: Global, block: &Block) -> Result<Vec<u8>, AllocError> {
    let mut text = edges_text(alloc, block)?;
    text.extend_from_slice(b"end\n")?;
    Ok(text)
}

/// The text of a block up to its edges.
fn edges_text(alloc: Global, block: &Block) -> Result<Vec<u8>, AllocError> {
    let mut text = Vec::new(alloc);
    text.extend_from_slice(b"net")?;
    push_ends(&mut text, block.inputs, block.outputs)?;
    push_number(&mut text, block.splitters)?;
    text.push(b'\n')?;
    for edge in &block.edges {
        push_edge(&mut text, edge.start, edge.target)?;
    }
    Ok(text)
}

/// Adds the numbers of inputs and outputs, with a blank in front of each and one behind them.
pub fn push_ends(text: &mut Vec<u8>, inputs: u32, outputs: u32) -> Result<(), AllocError> {
    text.push(b' ')?;
    push_number(text, inputs)?;
    text.push(b' ')?;
    push_number(text, outputs)?;
    text.push(b' ')?;
    Ok(())
}

/// Adds the line of an edge.
fn push_edge(text: &mut Vec<u8>, start: Start, target: Target) -> Result<(), AllocError> {
    text.extend_from_slice(b"edge ")?;
    match start {
        Start::Input(input) => push_end(text, b'i', input)?,
        Start::Split(splitter) => push_end(text, b's', splitter)?,
    }
    text.push(b' ')?;
    match target {
        Target::Split(splitter) => push_end(text, b's', splitter)?,
        Target::Output(output) => push_end(text, b'o', output)?,
    }
    text.push(b'\n')?;
    Ok(())
}

/// Adds a letter and a number.
fn push_end(text: &mut Vec<u8>, letter: u8, number: u32) -> Result<(), AllocError> {
    text.push(letter)?;
    push_number(text, number)
}

/// Adds a number.
pub fn push_number(text: &mut Vec<u8>, number: u32) -> Result<(), AllocError> {
    let mut buffer = Buffer::new();
    text.extend_from_slice(buffer.format(number).as_bytes())
}
