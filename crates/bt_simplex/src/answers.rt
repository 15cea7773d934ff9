//! What a check of a tableau answers.
use bt_frac::Frac;
use bt_linear_forms::Operation;
use bt_pivot::{Pivot, WidePlace};

/// What a check found.
#[derive(Drop)]
pub enum Check {
    /// These values of the columns meet every bound row.
    Sat(Vec<Frac>),
    /// These bound rows, each times its weight, add up to a row that no values meet. They ascend.
    Unsat(Vec<(usize, Frac)>),
    /// The pivots were as many as they may be, and the basis that they lead to isn't final.
    Pivots(PivotTrace),
    /// A number that the answer asks for leaves 128 bits.
    Wide(Wide),
}

/// The pivots of a check.
#[derive(Drop)]
pub struct PivotTrace {
    /// The positions of the basis at entry, in ascending order.
    pub start: Vec<usize>,
    /// The bound rows, in ascending order.
    pub bound: Vec<usize>,
    /// The pivots from the basis at entry on, in their order.
    pub steps: Vec<Pivot>,
}

/// Where a check met an operation whose result leaves 128 bits.
#[derive(Drop)]
pub struct Wide {
    /// The pivots before it.
    pub trace: PivotTrace,
    /// What the operation was for.
    pub place: WidePlace,
    /// The positions of the basis that the pivots lead to, in ascending order.
    pub basis: Vec<usize>,
    /// The position of the basis whose number it is, and at `Lemma` the place of the row in the sum.
    pub row: usize,
    /// The position outside the basis, or the leaving one. At `Settle` 0, and at `Lemma` the column.
    pub column: usize,
    /// The operation.
    pub operation: Operation,
    /// Its first number.
    pub left: Frac,
    /// Its second number.
    pub right: Frac,
}
