//! What helps a search to find a layout of a request: more rules, and what to choose first.
//!
//! A layout of few underground pieces and belts keeps the rules and stands in the places that are chosen first,
//! but not every layout does. Nothing is claimed of either, and no certificate rests on them.
#![tactic(auto)]

mod around;
mod choices;
mod levels;
mod looped;
mod loops;
mod narrowing;
mod network;
mod returning;
mod sides;
mod twins;
mod windows;

pub use choices::{Choice, first_rows, no_tunnels, places};
pub use looped::{looped_places, looped_rows};
pub use narrowing::narrowings;
pub use std::alloc::AllocError as Memory;
pub use windows::{Attempt, Course, attempts, is_likely, whole};
