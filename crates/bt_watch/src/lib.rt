//! Clauses that watch two literals each: what follows from what is true, and the levels of what is true.
#![tactic(auto)]

mod agenda;
mod assignment;
mod clause_pool;
mod levels;
mod loading;
mod opposites;
mod search;
mod watched;
mod watchers;

pub use agenda::Agenda;
pub use assignment::{Assignment, assign};
pub use clause_pool::PackedId;
pub use levels::{backjump, begin_level, level_of, start};
pub use loading::load_search;
pub use opposites::negation;
pub use search::{Search, keep, number_of, propagate};
pub use std::alloc::AllocError as Memory;
