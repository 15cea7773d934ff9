//! Linear constraints solved by pivots of a basis: values that meet the rows that are bound, or rows and
//! weights that show that no values do.
#![tactic(auto)]

mod answers;
mod bland;
mod concluding;
mod law;
mod lemmas;
mod points;
mod running;
mod settling;
mod sums;
mod tableau;
mod traces;

pub use answers::{Check, PivotTrace, Wide};
pub use bt_linear_forms::Operation;
pub use bt_pivot::{Pivot, WidePlace, are_over};
pub use law::{ascending_lists_are_few, no_basis_comes_back, one_solved_form};
pub use std::alloc::AllocError as Memory;
pub use tableau::Tableau;
