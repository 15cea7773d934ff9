//! A search for models of formulas that learns clauses.
#![tactic(auto)]

mod analysis;
mod answer;
mod assuming;
mod cdcl;
mod choosing;
mod deciding;
mod kernel;
mod law;
mod learning;
mod lemmas;
mod loading;
mod logged_formula;
mod minimizing;
mod progress;
mod serving;
mod solver;
mod turns;

pub use answer::{Added, Answer, Assumed};
pub use law::{fresh_steps_are_few, limits_are, only_empty_after_conflict, propagated_is_open};
pub use serving::EPOCH_STEPS;
pub use solver::Solver;
pub use std::alloc::AllocError as Memory;
