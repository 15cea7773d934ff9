//! Lines of argument by how much edges carry more or less than in the state in which splitters divide evenly. Nothing is
//! claimed of them but that they are safe.
//!
//! The linear equations by which that state is found are solved sparsely in fractions of 128 bits. Nothing is claimed of
//! what comes out but that there is a number for each column: who uses the numbers judges them.
#![tactic(auto)]

mod dividing;
mod equations;
mod looping;
mod part;
mod sums;

pub use bt_linear_forms::Term;
pub use equations::Equations;
pub use looping::add_looping;
pub use std::alloc::AllocError as Memory;
