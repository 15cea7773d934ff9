//! Belts between splitters that stand somewhere, by a router whose chains negotiate for cells.
//!
//! Nothing is claimed of its chains.
#![tactic(auto)]

mod around;
mod ends;
mod finding;
mod ledger;
mod negotiating;
mod poses;
mod spans;
mod stand;

pub use around::{ahead, is_upright};
pub use ends::Places;
pub use finding::{Chain, Step};
pub use negotiating::{Effort, Negotiated, negotiate};
pub use spans::{Span, Spans};
pub use stand::Stand;
pub use std::alloc::AllocError as Memory;
