//! Numbers that look random and are the same in each run.
#![tactic(auto)]

mod random;

pub use random::Random;
