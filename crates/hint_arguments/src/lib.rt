//! Lines of argument: in which order a search over flow formulas asks, and what it tries first. They are made from networks
//! and properties, and nothing rests on them.
#![tactic(auto)]

mod argument;
mod balancing;
mod equalling;
mod lacking;
mod pairing;

pub use argument::{Argument, argument_of, argument_of_both};
pub use std::alloc::AllocError as Memory;
