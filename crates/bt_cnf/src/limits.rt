//! How much deciding a formula may take.

/// How much deciding a formula may take.
#[derive(Clone, Copy, PartialEq, Eq)]
pub struct Limits {
    /// The most steps of the log.
    pub learnt: u64,
    /// The most turns of a basis for each assignment that is tried.
    pub pivots: u64,
}
