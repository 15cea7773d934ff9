//! The splitter graph of a network: orders and distances of its splitters, which of two networks are likely to do the same,
//! and how flows run where loops are cut. Nothing is claimed of it but that it is safe, and that lists have no other numbers
//! than were put there.
#![tactic(auto)]

mod beside;
mod colours;
mod cutting;
mod distances;
mod flow;
mod graph;
mod lists;
mod order;
mod weighing;

pub use beside::{edges_beside, splitters_beside};
pub use distances::{places_of, ranked_splitters};
pub use flow::Flow;
pub use graph::{Graph, edges_at, ends_of, has_no_preference};
pub use lists::{add, empty_lists, is_set, list_at, mark};
pub use order::{loopless, ordered};
pub use std::alloc::AllocError as Memory;
pub use weighing::UNIT;
