//! Leaving out splitters that do nothing: those that nothing comes to or nothing leaves, those of one edge each way, and
//! maybe those whose out edges both lead to one splitter, which takes the in edges as well itself.

use crate::block::Block;
use bt_net::{Edge, Start, Target};
use std::alloc::{AllocError, Global};

/// What becomes of a splitter whose out edges both lead to another one. A network in stages is decided faster with it,
/// as far as it was tried.
#[derive(Clone, Copy, PartialEq, Eq)]
pub enum Doubled {
    Stays,
    Goes,
}

/// What becomes of a splitter.
#[derive(Clone, Copy)]
enum Fate {
    Stays,
    /// Its edges go too.
    Goes,
    /// What comes to it comes here.
    IsPassed(Target),
}

/// What is seen of a splitter's edges.
#[derive(Clone, Copy)]
struct Sight {
    enter: usize,
    leave: usize,
    /// The target of the last out edge.
    target: Option<Target>,
    /// Whether each out edge has it.
    has_one_target: bool,
}

/// Leaves out the splitters that do nothing, and numbers the others anew.
pub fn prune(alloc: Global, block: &mut Block, doubled: Doubled) -> Result<(), AllocError> {
    for _ in 0..block.splitters {
        if !prune_once(alloc, block, doubled)? {
            break;
        }
    }
    number_anew(alloc, block)
}

/// Looks at each splitter once, and tells whether one was left out.
fn prune_once(alloc: Global, block: &mut Block, doubled: Doubled) -> Result<bool, AllocError> {
    let mut changed = false;
    for splitter in 0..block.splitters {
        match fate_of(splitter, sight_of(&block.edges, splitter), doubled) {
            Fate::Stays => {}
            Fate::Goes => {
                block.edges = without(alloc, &block.edges, splitter)?;
                changed = true;
            }
            Fate::IsPassed(target) => {
                block.edges = passed(alloc, &block.edges, splitter, target)?;
                changed = true;
            }
        }
    }
    Ok(changed)
}

/// How many edges come to a splitter and leave it, and whether all that leave have one target.
fn sight_of(edges: &[Edge], splitter: u32) -> Sight {
    let mut sight = Sight {
        enter: 0,
        leave: 0,
        target: None,
        has_one_target: true,
    };
    for edge in edges {
        if edge.target == Target::Split(splitter) {
            sight.enter = sight.enter.saturating_add(1);
        }
        if edge.start == Start::Split(splitter) {
            sight = with_target(sight, edge.target);
        }
    }
    sight
}

/// What is seen with one out edge more.
fn with_target(sight: Sight, target: Target) -> Sight {
    let is_other = match sight.target {
        Some(known) => known != target,
        None => false,
    };
    Sight {
        enter: sight.enter,
        leave: sight.leave.saturating_add(1),
        target: Some(target),
        has_one_target: sight.has_one_target && !is_other,
    }
}

/// What becomes of a splitter of which this is seen: it goes where edges only come or only leave, and is passed over
/// where it has one each way, or is doubled and such ones go. One without edges, or that leads to itself, stays.
fn fate_of(splitter: u32, sight: Sight, doubled: Doubled) -> Fate {
    match sight.target {
        None if sight.enter == 0 => Fate::Stays,
        None => Fate::Goes,
        Some(_) if sight.enter == 0 => Fate::Goes,
        Some(target) => {
            let is_bare = sight.enter == 1 && sight.leave == 1;
            let is_doubled = doubled == Doubled::Goes && sight.leave == 2 && sight.has_one_target;
            if (is_bare || is_doubled) && target != Target::Split(splitter) {
                Fate::IsPassed(target)
            } else {
                Fate::Stays
            }
        }
    }
}

/// The edges that neither start nor end at a splitter.
fn without(alloc: Global, edges: &[Edge], splitter: u32) -> Result<Vec<Edge>, AllocError> {
    let mut left = Vec::new(alloc);
    for edge in edges {
        if edge.start != Start::Split(splitter) && edge.target != Target::Split(splitter) {
            left.push(*edge)?;
        }
    }
    Ok(left)
}

/// The edges without those that leave a splitter, where those that came to it lead to `target`.
fn passed(
    alloc: Global,
    edges: &[Edge],
    splitter: u32,
    target: Target,
) -> Result<Vec<Edge>, AllocError> {
    let mut left = Vec::new(alloc);
    for edge in edges {
        if edge.target == Target::Split(splitter) {
            left.push(Edge { target, ..*edge })?;
        } else if edge.start != Start::Split(splitter) {
            left.push(*edge)?;
        }
    }
    Ok(left)
}

/// Numbers the splitters that have edges, in their order.
pub fn number_anew(alloc: Global, block: &mut Block) -> Result<(), AllocError> {
    let numbers = new_numbers(alloc, block)?;
    let mut count = 0;
    for number in &numbers {
        if number.is_some() {
            count = u32::saturating_add(count, 1);
        }
    }
    block.splitters = count;
    for edge in &mut block.edges {
        *edge = numbered(*edge, &numbers);
    }
    Ok(())
}

/// For each splitter its new number, where it has edges.
fn new_numbers(alloc: Global, block: &Block) -> Result<Vec<Option<u32>>, AllocError> {
    let mut numbers = Vec::new(alloc);
    let mut next: u32 = 0;
    for splitter in 0..block.splitters {
        let sight = sight_of(&block.edges, splitter);
        if sight.enter == 0 && sight.leave == 0 {
            numbers.push(None)?;
        } else {
            numbers.push(Some(next))?;
            next = next.saturating_add(1);
        }
    }
    Ok(numbers)
}

/// An edge by the new numbers.
fn numbered(edge: Edge, numbers: &[Option<u32>]) -> Edge {
    let start = match edge.start {
        Start::Split(splitter) => Start::Split(number_of(splitter, numbers)),
        Start::Input(_) => edge.start,
    };
    let target = match edge.target {
        Target::Split(splitter) => Target::Split(number_of(splitter, numbers)),
        Target::Output(_) => edge.target,
    };
    Edge {
        start,
        target,
        cap: edge.cap,
    }
}

/// The new number of a splitter; its old one where it has none.
fn number_of(splitter: u32, numbers: &[Option<u32>]) -> u32 {
    match numbers.get(splitter as usize) {
        Some(Some(number)) => *number,
        _ => splitter,
    }
}
