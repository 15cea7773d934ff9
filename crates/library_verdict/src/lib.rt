//! The library in use: a design is read, a property of its network is decided, and the certificate or the state is kept.
//! What may be said then is this crate's own contract, which rests on those of the calls that it makes.
#![tactic(auto)]

mod judging;

pub use judging::{Judged, judge};
pub use std::alloc::AllocError as Memory;

#[cfg(test)]
mod tests;
