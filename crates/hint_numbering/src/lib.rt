//! Requests with numbers by the structure of their networks, how far splitters are from the ends, where a request wants
//! these, and which splitters half a turn of a layout could exchange.
//!
//! Nothing is claimed of any. What they depend on is the structure of a network, never the numbers of its splitters and
//! edges; but for which of several exchanges comes first.
#![tactic(auto)]

mod distances;
mod exchanging;
mod naming;
mod network;
mod numbering;
mod wanted;

pub use distances::{distance_at, from_inputs, to_outputs};
pub use exchanging::{Exchange, exchange_by};
pub use naming::{Named, name_by_structure, open_edge};
pub use network::{from, joined, leaving, to};
pub use numbering::{Numbered, are_in_pairs, edge_to_open, number_by_structure};
pub use std::alloc::AllocError as Memory;
pub use wanted::{Wanted, goes_north, is_blocked, place_wanted};
