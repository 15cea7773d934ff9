//! Decisions: whether every steady state of a network has a property, and whether two networks behave the same, with
//! the evidence; and networks for wishes, each of which is decided.
#![tactic(auto)]

mod arguing;
mod building;
mod deciding;
mod granting;
mod guessing;
mod law;
mod same;
mod verdict;

pub use bt_cnf::Limits;
pub use bt_theory::GaveUp;
pub use building::build;
pub use deciding::decide;
pub use law::{same_is_certificate, yes_is_certificate};
pub use same::decide_same;
pub use std::alloc::AllocError as Memory;
pub use verdict::{SameVerdict, Verdict};
