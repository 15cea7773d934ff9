//! Rows of linear constraints at values, and weighted sums of rows that no values meet.
#![tactic(auto)]

mod columns;
mod combining;
mod gathering;
mod law;
mod places;
mod running;
mod runs;
mod signs;
mod values;
mod weigher;
mod weighing;
mod wide;

pub use law::false_sums_fail;
pub use places::{Place, part};
pub use signs::may_weigh;
pub use values::eval;
pub use weigher::Weigher;
pub use weighing::farkas;
pub use wide::{SumFault, WideAt};
