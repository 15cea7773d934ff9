//! The flow formula: the states of a network that break a property, as a formula over the marks of edges
//! and rows over flows, loads and rooms.
#![tactic(auto)]

mod clause_family;
mod encoding;
mod families;
mod law;
mod level;
mod numbering;
mod properties;
mod rows;
mod solution;
mod splitters;
mod state_literal;
mod variables;

pub use encoding::{encode, encode_steady};
pub use law::{
    breaking_is_met, breaking_meets, flow_formula_is_even, flow_formulas_are_small, meeting_breaks,
    meeting_is_steady, refuted_holds, steady_formulas_are_small, steady_meets, true_claims_meet,
    unmet_holds,
};
pub use rows::above;
pub use solution::state_of;
pub use std::alloc::AllocError as Memory;
