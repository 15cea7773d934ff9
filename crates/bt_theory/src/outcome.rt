//! What deciding a formula comes to.
use bt_frac::Frac;
use bt_log::Log;
use bt_simplex::{PivotTrace, Wide};

/// What deciding a formula comes to.
#[derive(Drop)]
pub enum Outcome {
    /// The assignment, of a truth value for each variable, and the values, one for each column, meet the
    /// formula.
    Sat {
        values: Vec<Frac>,
        assignment: Vec<bool>,
    },
    /// The log refutes the formula, and each of its steps but the last is a hint of a later one.
    Refuted(Log),
    /// Neither is found within the limits and 128 bits.
    GaveUp(GaveUp),
}

/// An assignment, of a truth value for each variable, and values, one for each column, that meet a formula.
#[derive(Drop)]
pub struct Solution {
    pub values: Vec<Frac>,
    pub assignment: Vec<bool>,
}

/// Why deciding a formula was given up.
#[derive(Drop)]
pub enum GaveUp {
    /// The log has as many steps as it may, and one more is needed.
    Spent(Log),
    /// The pivots for one assignment were as many as they may be, and the basis isn't final.
    Pivots(PivotTrace),
    /// A number that the pivots ask for leaves 128 bits.
    Wide(Wide),
}
