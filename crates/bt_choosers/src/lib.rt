//! What a search decides next: choosers, the order that one of them gives, and plans that come before them.
#![tactic(auto)]

mod active;
mod asking;
mod choosers;
mod focus;
mod law;
mod order;
mod pace;
mod plan;
mod score;
mod waiting;

pub use active::{Active, FIRST_BUMP, MOST_BUMP, MOST_SCORE};
pub use asking::ask;
pub use choosers::{Highest, Lowest, Recent};
pub use law::limits_are;
pub use order::Order;
pub use plan::{Part, Plan, Turn};
pub use std::alloc::AllocError as Memory;
