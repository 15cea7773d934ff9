//! How the sum of a row stands to its bound.

/// How the sum of a row stands to its bound.
#[derive(Clone, Copy, PartialEq, Eq)]
pub enum Relation {
    /// The sum is at least the bound.
    AtLeast,
    /// The sum is greater than the bound.
    Above,
    /// The sum equals the bound.
    Equal,
}
