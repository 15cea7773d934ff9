//! The classes of a request's edges, and the rules of what it asks of its ends, cells and halves.
#![tactic(auto)]

mod classes;
mod counting;
mod ends;
mod pinning;
mod plan;
mod rowing;
mod siding;
mod starts;

pub use classes::{class_of, enters, goes_to, leaves, same_class};
pub use counting::{add_counts, has_room};
pub use ends::add_ends;
pub use plan::{Gate, Plan, Way};
pub use rowing::lining;
pub use siding::stopping;
