//! Smaller layouts from a layout of any size: seams that are cut out, whose surroundings are mended, and windows that are
//! laid anew, each by a formula of its own cells alone, so that what a window costs doesn't grow with the grid.
//!
//! Nothing is claimed of what is found: whoever takes it tests it.
#![tactic(auto)]

mod laying;
mod mending;
mod rules;
mod shrinking;
mod window;

pub use shrinking::{Narrowed, narrow};
pub use std::alloc::AllocError as Memory;
