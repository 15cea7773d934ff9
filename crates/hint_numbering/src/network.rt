//! The ends of the edges of a network.
use bt_net::{Edge, Start, Target};

/// The splitter that an edge leaves; none where it comes from an input.
pub fn from(edge: &Edge) -> Option<usize> {
    match edge.start {
        Start::Split(splitter) => Some(splitter as usize),
        Start::Input(_) => None,
    }
}

/// The splitter into which an edge goes; none where it goes to an output.
pub fn to(edge: &Edge) -> Option<usize> {
    match edge.target {
        Target::Split(splitter) => Some(splitter as usize),
        Target::Output(_) => None,
    }
}

/// The two splitters that an edge joins, where it joins two.
pub fn joined(edge: &Edge) -> Option<(usize, usize)> {
    match (from(edge), to(edge)) {
        (Some(from), Some(to)) => Some((from, to)),
        _ => None,
    }
}

/// How many edges leave a splitter.
pub fn leaving(edges: &[Edge], splitter: usize) -> usize {
    let mut count = 0usize;
    for edge in edges {
        if from(edge) == Some(splitter) {
            count = count.saturating_add(1);
        }
    }
    count
}
