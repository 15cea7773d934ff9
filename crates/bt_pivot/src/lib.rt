//! Rows over columns with a basis and its solved form: its pivots, the sums of its lines that are kept from pivot to
//! pivot, and where its positions stand to their bounds.
#![tactic(auto)]

mod basis;
mod causes;
mod pivoting;
mod rests;
mod short_points;
mod starting;
mod sum_cache;
mod table;
mod whole;
mod workspace;

pub use basis::{Basis, Pivot, Place};
pub use causes::{Cause, WidePlace};
pub use pivoting::pivot;
pub use short_points::short_point;
pub use starting::are_over;
pub use sum_cache::SumCache;
pub use table::Table;
pub use whole::{fails_whole, whole_order};
pub use workspace::{Rooms, Workspace};
