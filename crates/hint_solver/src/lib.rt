//! A light search for models of a formula: it logs nothing, takes literals for granted while it looks, and drops most of
//! what it learns.
//!
//! Nothing is claimed of what it answers. Who asks it gives what it finds to a search that shows it.
#![tactic(auto)]

mod dropping;
mod loading;
mod minimizing;
mod order;
mod phases;
mod rounds;
mod solver;
mod tracing;

pub use hint_clauses::Literal;
pub use loading::load;
pub use solver::{Answer, Solver};
pub use std::alloc::AllocError as Memory;
