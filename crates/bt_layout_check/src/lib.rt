//! The test whether parts lay a request by given names: which part bears the number of each splitter, input and output.
//!
//! It needs no formula, so a layout of any size can be tested, wherever it comes from.
#![tactic(auto)]

mod demands;
mod finding;
mod fitting;
mod handing;
mod joins;
mod law;
mod names;
mod preferring;
mod rows;
mod showing;
mod testing;

pub use finding::any_names;
pub use handing::priorities_by;
pub use law::{laid_by_names, laid_preferring_by_names};
pub use names::Names;
pub use preferring::lays_preferring;
pub use std::alloc::AllocError as Memory;
pub use testing::lays;
