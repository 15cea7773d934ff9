//! Smaller layouts from a layout that is there: windows in which it is laid anew, and rows and columns that are cut out
//! (local search in the placement formula, by a light search with what lies outside taken for granted).
//!
//! Nothing is claimed of what is found: it is a plan, which a search of the placement formula shows.
#![tactic(auto)]

mod around;
mod board;
mod contents;
mod cutting;
mod field;
mod fields;
mod goal;
mod joining;
mod line;
mod moving;
mod pairing;
mod plan;
mod shrinking;
mod turned;
mod turning;
mod variables;
mod window;

pub use goal::Goal;
pub use shrinking::{Shrunk, shrink};
pub use std::alloc::AllocError as Memory;
pub use turning::{Turning, find_turned};
