//! Lines: sums of numbers times what stands at positions, as small whole numbers over one denominator or as
//! fractions; their sums, and what a position stands for put in place of it.
#![tactic(auto)]

mod line;
mod merging;
mod quotients;
mod short;
mod term;
mod unfit;

pub use line::{Line, combined, lone_line};
pub use merging::is_zero;
pub use quotients::zero_line;
pub use short::{Change, Entry, Room, Scales, Short, number};
pub use term::Term;
pub use unfit::{Operation, Unfit};
