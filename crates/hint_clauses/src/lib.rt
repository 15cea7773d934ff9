//! Clauses, what is true of their literals, and what follows of that: what light searches and checks of proofs have in
//! common.
//!
//! Nothing is claimed of what they say. Who asks them gives what he finds to a search or a check that shows it.
#![tactic(auto)]

mod clauses;
mod literal;
mod search;
mod trail;
mod values;
mod watches;

pub use clauses::{Clauses, Span, Visit};
pub use literal::Literal;
pub use search::{Conflict, Search};
pub use std::alloc::AllocError as Memory;
pub use trail::{Reason, Trail};
pub use values::Values;
pub use watches::{Watch, Watches};
