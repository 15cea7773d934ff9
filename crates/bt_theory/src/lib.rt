//! Formulas whose variables may stand for rows of linear constraints, decided by a search for models and by
//! pivots of a tableau: an assignment with values that meets the formula, or a log that refutes it.
#![tactic(auto)]

mod base;
mod binding;
mod choosing;
mod close;
mod goal;
mod guessing;
mod lemma;
mod outcome;
mod round;
mod scope;
mod solving;

pub use bt_cnf::Limits;
pub use bt_extend::Goal;
pub use guessing::first_solution;
pub use outcome::{GaveUp, Outcome, Solution};
pub use solving::solve;
pub use std::alloc::AllocError as Memory;
