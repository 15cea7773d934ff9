//! Plans of butterflies and of Benes networks, stage by stage: like halves stand side by side, and between two ranks there is
//! a channel, whose belts are laid once for each rank and copied.
//!
//! Nothing is claimed of a plan. How splitters and edges are numbered decides nothing.
#![tactic(auto)]

mod arranging;
mod channel;
mod drawn;
mod eight;
mod sense;
mod stack;
mod stacking;
mod turned;
mod wiring;

pub use stacking::{LeastPlan, find_stages};
pub use std::alloc::AllocError as Memory;
pub use turned::find_least;
