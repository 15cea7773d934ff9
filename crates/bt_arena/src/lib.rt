//! Typed ids, and an arena and a pool whose items they name. An id is a place with the kind of what it
//! names, so no place of one list is taken for a place of another.
#![tactic(auto)]

mod arena;
mod id;
mod pool;

pub use arena::Arena;
pub use id::Id;
pub use pool::Pool;
pub use std::alloc::AllocError as Memory;
