//! Operations of lines whose results leave 128 bits.
use bt_frac::Frac;

/// An operation on two numbers.
#[derive(Clone, Copy, PartialEq, Eq)]
pub enum Operation {
    Add,
    Mul,
    Div,
}

/// An operation on two numbers whose result leaves 128 bits, where lines are formed.
#[derive(Clone, Copy)]
pub struct Unfit {
    /// The position whose number was to be formed.
    pub column: usize,
    pub operation: Operation,
    pub left: Frac,
    pub right: Frac,
}
