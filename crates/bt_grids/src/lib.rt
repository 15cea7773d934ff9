//! Grids of at most so many cells each way, in their order; how many cells the least has that holds parts; the same
//! request asked of another grid; and what searches for layouts come to, with the text of what those over grids come
//! to.
#![tactic(auto)]

mod again;
mod order;
mod outcome;
mod printing;
mod span;

pub use again::request_on;
pub use order::{area, grids, grids_from, is_within};
pub use outcome::{Early, Layout, RuledOut, Small, Smallest};
pub use printing::{blueprint_of, blueprint_of_small, print_none, print_small, print_smallest};
pub use span::spanned;
pub use std::alloc::AllocError as Memory;
