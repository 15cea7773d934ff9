//! The line of argument for `unlimited`, by the means of the ends that flows reach. Nothing is claimed of it but that it is
//! safe.
#![tactic(auto)]

mod delivering;
mod part;
mod paths;
mod row;
mod side;
mod unlimited;

pub use std::alloc::AllocError as Memory;
pub use unlimited::add_unlimited;
