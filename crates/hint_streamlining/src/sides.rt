//! In which order the splitters of a level stand side by side, so that their edges don't lead far across.
use crate::levels::LAST_LEVEL;
use bt_net::Edge;
use hint_numbering::{from, to};
use std::alloc::{AllocError, Global};

/// What an edge costs that leads back from one column to the next.
const BACK_COST: u64 = 8;

/// What it costs where two edges cross. Any other edge costs 1 from one column to the next.
const CROSSING_COST: u64 = 4;

/// How often splitters are tried to change places, at most.
const ROUNDS: u32 = 16;

/// How many of the first so many splitters have this level.
fn count_before(levels: &[u64], before: usize, level: u64) -> u64 {
    let mut count = 0u64;
    for (splitter, other) in levels.iter().enumerate() {
        if splitter < before && *other == level {
            count = count.saturating_add(1);
        }
    }
    count
}

/// Where the middles of splitters are from the west, in parts of which `LAST_LEVEL` make a column, where those of a
/// level are spread over so many columns in the order of their numbers.
fn spread_out(alloc: Global, levels: &[u64], width: u32) -> Result<Vec<u64>, AllocError> {
    let mut middles = Vec::new(alloc);
    for (splitter, level) in levels.iter().enumerate() {
        let before = count_before(levels, splitter, *level);
        let all = count_before(levels, levels.len(), *level).max(1);
        let double = before.saturating_mul(2).saturating_add(1);
        let across = u64::from(width).saturating_mul(LAST_LEVEL);
        middles.push(across.saturating_mul(double) / all / 2)?;
    }
    Ok(middles)
}

/// Lets two splitters change places where they have one level. Whether they have.
fn exchange(middles: &mut [u64], levels: &[u64], one: usize, other: usize) -> bool {
    let is_one_level = match (levels.get(one), levels.get(other)) {
        (Some(one), Some(other)) => one == other,
        _ => false,
    };
    if !is_one_level || one >= middles.len() || other >= middles.len() {
        return false;
    }
    middles.swap(one, other);
    true
}

/// The next number of a sequence that looks like chance.
fn next_number(number: usize) -> usize {
    number
        .wrapping_mul(6_364_136_223_846_793_005)
        .wrapping_add(1_442_695_040_888_963_407)
}

/// Lets splitters of one level change places by the numbers that follow this one.
fn shuffle(middles: &mut [u64], levels: &[u64], seed: usize) {
    let mut number = seed;
    for _ in 0..ROUNDS {
        for one in 0..levels.len() {
            number = next_number(number);
            let other = (number >> 33) % levels.len().max(1);
            let _ = exchange(middles, levels, one, other);
        }
    }
}

/// An edge from one splitter to another: their levels, and where their middles are.
#[derive(Clone, Copy)]
struct Link {
    start_level: u64,
    target_level: u64,
    start: u64,
    target: u64,
}

impl Link {
    /// What its way across costs.
    fn cost(&self) -> u64 {
        let across = self.start.abs_diff(self.target);
        if self.target_level > self.start_level {
            across
        } else {
            across.saturating_mul(BACK_COST)
        }
    }

    /// Whether it crosses another one between the same two levels.
    fn crosses(&self, other: &Link) -> bool {
        self.start_level == other.start_level
            && self.target_level == other.target_level
            && (self.start < other.start && self.target > other.target
                || self.start > other.start && self.target < other.target)
    }
}

/// The link of an edge, where that goes from one splitter to another.
fn link_of(levels: &[u64], middles: &[u64], edge: &Edge) -> Option<Link> {
    let (Some(from), Some(to)) = (from(edge), to(edge)) else {
        return None;
    };
    Some(Link {
        start_level: levels.get(from).copied().unwrap_or(0),
        target_level: levels.get(to).copied().unwrap_or(0),
        start: middles.get(from).copied().unwrap_or(0),
        target: middles.get(to).copied().unwrap_or(0),
    })
}

/// What it costs where an edge crosses others.
fn crossing_cost(links: &[Link], one: &Link) -> u64 {
    let mut sum = 0u64;
    for other in links {
        if one.crosses(other) {
            sum = sum.saturating_add(CROSSING_COST * LAST_LEVEL);
        }
    }
    sum
}

/// What the places of splitters cost by the edges between them.
fn cost(alloc: Global, edges: &[Edge], levels: &[u64], middles: &[u64]) -> Result<u64, AllocError> {
    let mut links = Vec::new(alloc);
    let mut sum = 0u64;
    for edge in edges {
        if let Some(link) = link_of(levels, middles, edge) {
            let part = link.cost().saturating_add(crossing_cost(&links, &link));
            sum = sum.saturating_add(part);
            links.push(link)?;
        }
    }
    Ok(sum)
}

/// Lets two splitters of one level change places, where all then costs less than `least`. Gives what the places cost
/// then.
fn try_exchange(
    alloc: Global,
    edges: &[Edge],
    levels: &[u64],
    middles: &mut [u64],
    least: u64,
    pair: (usize, usize),
) -> Result<u64, AllocError> {
    let (one, other) = pair;
    if !exchange(middles, levels, one, other) {
        return Ok(least);
    }
    let cost = cost(alloc, edges, levels, middles)?;
    if cost < least {
        return Ok(cost);
    }
    let _ = exchange(middles, levels, one, other);
    Ok(least)
}

/// Lets splitters of one level change places as long as that costs less.
fn improve(
    alloc: Global,
    edges: &[Edge],
    levels: &[u64],
    middles: &mut [u64],
) -> Result<(), AllocError> {
    let mut least = cost(alloc, edges, levels, middles)?;
    for _ in 0..ROUNDS {
        let before = least;
        for one in 0..levels.len() {
            for other in 0..one {
                least = try_exchange(alloc, edges, levels, middles, least, (one, other))?;
            }
        }
        if least == before {
            return Ok(());
        }
    }
    Ok(())
}

/// Where the middles of splitters should be from the west, in parts of which `LAST_LEVEL` make a column, those of a
/// level spread over so many columns: in the order that exchanges come to from that of their numbers, where `order` is
/// 0, or else from one by chance.
pub fn middles(
    alloc: Global,
    edges: &[Edge],
    levels: &[u64],
    width: u32,
    order: usize,
) -> Result<Vec<u64>, AllocError> {
    let mut middles = spread_out(alloc, levels, width)?;
    if order > 0 {
        shuffle(&mut middles, levels, order);
    }
    improve(alloc, edges, levels, &mut middles)?;
    Ok(middles)
}
