//! How the splitters of a network are joined.
use bt_net::Edge;
use hint_numbering::{from, leaving, to};

/// How many edges go from one splitter to another, where none stands for inputs and for outputs.
pub fn joining(edges: &[Edge], start: Option<usize>, target: Option<usize>) -> usize {
    let mut count = 0usize;
    for edge in edges {
        if from(edge) == start && to(edge) == target {
            count = count.wrapping_add(1);
        }
    }
    count
}

/// Whether two edges leave each splitter.
pub fn is_full(edges: &[Edge], splitters: usize) -> bool {
    for splitter in 0..splitters {
        if leaving(edges, splitter) != 2 {
            return false;
        }
    }
    true
}
