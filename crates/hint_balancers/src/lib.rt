//! Networks that are likely to be as a wish wants them: a table of the least that are known, and rules. Nothing is claimed
//! of them but that they are networks.
#![tactic(auto)]

mod block;
mod combining;
mod dropping;
mod known;
mod lessening;
mod notation;
mod pruning;
mod reading;
mod rules;
mod stages;
mod tabled;
mod universal;

pub use dropping::{Belts, dropped};
pub use rules::candidates;
pub use std::alloc::AllocError as Memory;
pub use tabled::MOST_TABLED;
