//! Layouts in the plane, and the network of splitters that one shows, or why there is none.
//!
//! A layout is refused where it isn't clean, since only in a clean one is each chain of belts one edge of a
//! network in the sense of Couëtoux, Gastaldi and Naves.
#![tactic(auto)]

mod clean;
mod edges;
mod ends;
mod fault;
mod following;
mod grid;
mod law;
mod marks;
mod pairing;
mod partners;
mod preferring;
mod recovery;
mod refusals;
mod sides;
mod sight;
mod speeds;

pub use fault::RecoverFault;
pub use grid::{Grid, GridFault};
pub use law::{one_preferring, plain_recovery};
pub use pairing::{PairFault, pairs};
pub use partners::Pairs;
pub use recovery::{Traced, recover, recover_with};
pub use sides::{NO_LINE, end_sides};
pub use std::alloc::AllocError as Memory;
