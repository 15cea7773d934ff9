//! Two belts in place of a splitter of two edges each way.

use crate::block::Block;
use crate::pruning::number_anew;
use crate::reading::{block_of, net_of};
use crate::tabled::prefers;
use bt_net::{Edge, Net, Start, Target};
use std::alloc::{AllocError, Global};

/// Which edges the two belts join that stand in place of a splitter.
#[derive(Clone, Copy, PartialEq, Eq)]
pub enum Belts {
    /// The first that comes and the first that leaves, and the second ones.
    Straight,
    /// The first that comes and the second that leaves, and the other two.
    Crossed,
}

/// The network with two belts in place of a splitter. None where the splitter doesn't have two edges each way, where
/// one of them leads back to it, or where a splitter of the network prefers an edge.
pub fn dropped(
    alloc: Global,
    net: &Net,
    splitter: u32,
    belts: Belts,
) -> Result<Option<Net>, AllocError> {
    if prefers(net) {
        return Ok(None);
    }
    let mut block = block_of(alloc, net)?;
    let Some(targets) = targets_of(&block.edges, splitter) else {
        return Ok(None);
    };
    let targets = match belts {
        Belts::Straight => targets,
        Belts::Crossed => (targets.1, targets.0),
    };
    block.edges = joined(alloc, &block.edges, splitter, targets)?;
    number_anew(alloc, &mut block)?;
    net_of(alloc, &block)
}

/// Where the two edges lead that leave a splitter. None where two don't come and two don't leave, or one leads back.
fn targets_of(edges: &[Edge], splitter: u32) -> Option<(Target, Target)> {
    let (own, mut coming, mut leaving) = (Target::Split(splitter), 0usize, 0usize);
    let mut targets = (own, own);
    for edge in edges {
        if edge.target == own {
            coming = coming.saturating_add(1);
        }
        if edge.start == Start::Split(splitter) {
            leaving = leaving.saturating_add(1);
            targets = (targets.1, edge.target);
        }
    }
    let is_whole = coming == 2 && leaving == 2 && targets.0 != own && targets.1 != own;
    is_whole.then_some(targets)
}

/// The edges without those that leave a splitter, where the first that came to it leads to the first target, and the
/// next to the other.
fn joined(
    alloc: Global,
    edges: &[Edge],
    splitter: u32,
    targets: (Target, Target),
) -> Result<Vec<Edge>, AllocError> {
    let mut left = Vec::new(alloc);
    let (mut target, mut other) = targets;
    for edge in edges {
        if edge.target == Target::Split(splitter) {
            left.push(Edge { target, ..*edge })?;
            (target, other) = (other, target);
        } else if edge.start != Start::Split(splitter) {
            left.push(*edge)?;
        }
    }
    Ok(left)
}
