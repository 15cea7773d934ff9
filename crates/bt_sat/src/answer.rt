//! What a search tells.

/// What a search for the next model comes to.
#[derive(Drop)]
pub enum Answer {
    /// The values of the variables in a model, which meets every clause of the formula and of the log.
    Model(Vec<bool>),
    /// The log refutes the formula.
    Refuted,
    /// The log has as many steps as it may, and one more is needed.
    Spent,
}

/// What comes of making literals false in turn.
#[derive(Drop)]
pub enum Assumed {
    /// All of them are false, and no clause is: for each variable, whether it is true then.
    Open(Vec<bool>),
    /// One of them is true where those before it are false.
    Follows,
    /// The log refutes the formula.
    Refuted,
    /// The log has as many steps as it may, and one more is needed.
    Spent,
}

/// What became of a lemma.
#[derive(Clone, Copy, PartialEq, Eq)]
pub enum Added {
    /// It is a step of the log now.
    Kept,
    /// The log has as many steps as it may already. Nothing has changed.
    Spent,
}
