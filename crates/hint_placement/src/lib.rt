//! Plans of layouts: where splitters could stand, by their distances to the outputs, and the chains of a router between
//! them.
//!
//! Nothing is claimed of a plan. What it depends on is the structure of a network, never the numbers of its splitters and
//! edges.
#![tactic(auto)]

mod climbing;
mod leading;
mod lines;
mod ordering;
mod seating;
mod seats;
mod sketching;
mod spans;

pub use leading::{BLOCK_SEATS, BlockSeat, lead_round};
pub use sketching::{Sketch, find_sketch};
pub use spans::wants_rows;
pub use std::alloc::AllocError as Memory;
