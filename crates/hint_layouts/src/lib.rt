//! Proposals of layouts: parts with names that may lay a request, and names for the parts of a layout.
//!
//! Nothing is claimed of a proposal: whoever takes one tests it (`bt_layout_check`). Strategies for more requests are asked in
//! `propose`, one after another.
#![tactic(auto)]

mod ends;
mod framed;
mod graph;
mod matching;
mod naming;
mod part_names;
mod placed;
mod proposing;

pub use naming::{Proposal, name_sketch};
pub use part_names::name_parts;
pub use proposing::{propose, propose_stages};
pub use std::alloc::AllocError as Memory;
