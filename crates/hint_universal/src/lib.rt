//! Lines of argument for universal balancers, by the means of what is dealt evenly to a last stage. Nothing is claimed of
//! them but that they are safe.
#![tactic(auto)]

mod dealing;
mod halves;
mod sharing;
mod universal;

pub use std::alloc::AllocError as Memory;
pub use universal::{add_even, add_fair, add_through};
