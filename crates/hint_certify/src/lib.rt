//! Proofs of other solvers (DRAT) made into logs: what they refute a formula by, trimmed backwards from the empty clause,
//! with the hints that each step needs.
//!
//! Nothing is claimed of what comes out: who gets it has a checker judge it.
#![tactic(auto)]

mod checker;
mod clauses;
mod hints;
mod index;
mod numbers;
mod proof;
mod texts;
mod trail;
mod watches;

pub use proof::{Refusal, Steps, refutation};
pub use std::alloc::AllocError as Memory;
pub use texts::print;
