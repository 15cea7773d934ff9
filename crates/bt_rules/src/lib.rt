//! The rules that a layout of a request keeps, over facts of what each cell holds and from where it is fed.
#![tactic(auto)]

mod carrying;
mod contents;
mod drawing;
mod going;
mod law;
mod ports;
mod standing;
mod underground;

pub use drawing::{add_cell, add_splitter, rules_of};
pub use law::{keeping_lays, laying_keeps, rules_are_within};
