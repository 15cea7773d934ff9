//! What lines of argument over flow formulas are made of: scopes, by the rows of a formula, its atoms, means of ends and
//! how they are compared, and aims. Nothing is claimed but that it is safe, and that the scopes of a formula name rows that there are.
#![tactic(auto)]

mod atoms;
mod columns;
mod comparing;
mod defining;
mod line;
mod literals;
mod means;
mod scopes;

pub use atoms::{Atoms, mark_of};
pub use columns::{edges_of_columns, equal_rows, is_at_end, is_of_ends, rows_alone};
pub use comparing::{Compared, add_rows, compare};
pub use defining::{Chosen, Comparison, Counted, Next, apart, in_order, sum_of};
pub use line::{
    Aim, Line, add_aim, add_both, add_opposites, add_scope, conclude, named, named_as, opposite_of,
};
pub use literals::FormulaLits;
pub use means::{Term, merged, shared, single};
pub use scopes::{Couple, scopes_of, scopes_of_both, scopes_of_couples};
pub use std::alloc::AllocError as Memory;
