//! Formulas: clauses over variables, some of which stand for rows of linear constraints.
#![tactic(auto)]

mod assignment;
mod chooser;
mod formula;
mod limits;
mod literal;
mod packed;
mod row_place;
mod truth;
mod unset;

pub use assignment::is_true;
pub use chooser::{Chooser, Pick};
pub use formula::Formula;
pub use limits::Limits;
pub use literal::{Clause, ClauseId, Lit, Var, Variable};
pub use packed::{Packed, pack_all};
pub use std::alloc::AllocError as Memory;
pub use truth::{Lbool, Truth, Values, is_lit_false, is_lit_true};
pub use unset::{lacks_value, list_unset};
