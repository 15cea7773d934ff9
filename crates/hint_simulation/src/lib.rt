//! Simulations of networks in whole numbers, and the exact states that they show. Of these one that breaks a property is
//! given, which is tested; nothing else rests on what simulations show.
#![tactic(auto)]

mod belt;
mod case;
mod comparing;
mod exact;
mod finding;
mod law;
mod preference;
mod rank;
mod simulation;
mod splitter;
mod tries;

pub use belt::UNIT;
pub use case::Case;
pub use comparing::{MOST_FOUND, differing};
pub use finding::simplest;
pub use law::limits_are;
pub use simulation::{Found, Simulated, simulate};
pub use std::alloc::AllocError as Memory;
