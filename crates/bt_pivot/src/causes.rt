//! Operations whose results leave 128 bits.
use bt_frac::Frac;
use bt_linear_forms::Operation;

/// An operation on two numbers whose result leaves 128 bits, and what it was for.
#[derive(Clone, Copy)]
pub struct Cause {
    pub place: WidePlace,
    /// The position of the basis whose number was to be formed; at `Lemma` the row's place in the sum.
    pub row: usize,
    /// The position outside the basis, or the leaving one; at `Settle` 0, and at `Lemma` the column.
    pub column: usize,
    pub operation: Operation,
    pub left: Frac,
    pub right: Frac,
}

/// What a check forms numbers for.
#[derive(Clone, Copy, PartialEq, Eq)]
pub enum WidePlace {
    /// The lines of the basis after a pivot.
    Entry,
    /// Where the positions of the basis stand.
    Value,
    /// The number that takes the place of the infinitesimal, and the values of the columns by it.
    Settle,
    /// The sum of the rows that no values meet.
    Lemma,
}
