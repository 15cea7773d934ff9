//! Networks of the table.

use crate::block::Block;
use crate::known::KNOWN;
use crate::notation::noted_net;
use crate::reading::{block_of, push_ends};
use bt_flow::Property;
use bt_gen::Wish;
use bt_net::Net;
use bt_text::{after_word, cut, first_line, line_feeds};
use std::alloc::{AllocError, Global};

/// The most inputs and outputs of a network of the table.
pub const MOST_TABLED: u32 = 8;

/// All properties.
const PROPERTIES: [Property; 6] = [
    Property::Balanced,
    Property::DrawnEvenly,
    Property::Unlimited,
    Property::Full,
    Property::Fair,
    Property::DrawnFairly,
];

/// Adds the networks of the table that have so many inputs and outputs and each wished property.
pub fn push_tabled(
    nets: &mut Vec<Net>,
    alloc: Global,
    wish: Wish,
    inputs: u32,
    outputs: u32,
) -> Result<(), AllocError> {
    let mut front = Vec::new(alloc);
    push_ends(&mut front, inputs, outputs)?;
    let mut rest = KNOWN.as_bytes();
    for _ in 0..line_feeds(rest) {
        let (line, behind) = first_line(rest);
        let (names, note) = cut(line, b' ');
        if is_wanted(wish, names, &front, note) {
            push_noted(nets, alloc, note)?;
        }
        rest = behind;
    }
    Ok(())
}

/// Whether the names are those of each wished property at least, and the note of a network begins with `front`.
fn is_wanted(wish: Wish, names: &[u8], front: &[u8], note: &[u8]) -> bool {
    match Wish::named(names) {
        Some(held) => covers(held, wish) && after_word(note, front).is_some(),
        None => false,
    }
}

/// Whether each wished property is one that is held.
fn covers(held: Wish, wish: Wish) -> bool {
    for property in PROPERTIES {
        if wish.includes(property) && !held.includes(property) {
            return false;
        }
    }
    true
}

/// Adds the network of a note, where it is one.
fn push_noted(nets: &mut Vec<Net>, alloc: Global, note: &[u8]) -> Result<(), AllocError> {
    match noted_net(alloc, note)? {
        Some(net) => {
            nets.push(net)?;
            Ok(())
        }
        None => Ok(()),
    }
}

/// The first block of the table that has so many inputs and outputs and each wished property, and whose splitters prefer
/// no edge.
pub fn tabled(
    alloc: Global,
    wish: Wish,
    inputs: u32,
    outputs: u32,
) -> Result<Option<Block>, AllocError> {
    let mut nets = Vec::new(alloc);
    push_tabled(&mut nets, alloc, wish, inputs, outputs)?;
    for net in &nets {
        if !prefers(net) {
            return Ok(Some(block_of(alloc, net)?));
        }
    }
    Ok(None)
}

/// Whether a splitter of a network prefers an edge.
pub fn prefers(net: &Net) -> bool {
    for splitter in 0..net.splitters() {
        if net.take(splitter as usize).is_some() || net.give(splitter as usize).is_some() {
            return true;
        }
    }
    false
}
