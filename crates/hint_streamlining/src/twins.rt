//! Splitters that may change places in any layout.
use crate::network::joining;
use bt_net::Edge;
use std::alloc::{AllocError, Global};

/// Whether edges join two splitters, or one of them to itself.
fn are_joined(edges: &[Edge], one: usize, other: usize) -> bool {
    let (one, other) = (Some(one), Some(other));
    joining(edges, one, one) > 0
        || joining(edges, one, other) > 0
        || joining(edges, other, one) > 0
        || joining(edges, other, other) > 0
}

/// Whether as many edges lead from a third splitter to the one as to the other, and as many from the one as from the
/// other to the third; where no third is named, from and to the ends of the network.
fn is_alike(edges: &[Edge], one: usize, other: usize, third: Option<usize>) -> bool {
    let (one, other) = (Some(one), Some(other));
    joining(edges, third, one) == joining(edges, third, other)
        && joining(edges, one, third) == joining(edges, other, third)
}

/// Whether two splitters that aren't joined have the same neighbours.
fn are_twins(edges: &[Edge], splitters: usize, one: usize, other: usize) -> bool {
    if are_joined(edges, one, other) || !is_alike(edges, one, other, None) {
        return false;
    }
    for third in 0..splitters {
        if !is_alike(edges, one, other, Some(third)) {
            return false;
        }
    }
    true
}

/// The first twin of a splitter among those with greater numbers; none where there is none.
fn twin_of(edges: &[Edge], splitters: usize, one: usize) -> Option<usize> {
    for other in one..splitters {
        if other > one && are_twins(edges, splitters, one, other) {
            return Some(other);
        }
    }
    None
}

/// Each splitter that has a twin after it, with the first such one.
pub fn twins(
    alloc: Global,
    edges: &[Edge],
    splitters: usize,
) -> Result<Vec<(usize, usize)>, AllocError> {
    let mut found = Vec::new(alloc);
    for one in 0..splitters {
        if let Some(other) = twin_of(edges, splitters, one) {
            found.push((one, other))?;
        }
    }
    Ok(found)
}
