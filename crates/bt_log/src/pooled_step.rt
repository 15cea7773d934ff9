//! Where the lists of a step lie.
use bt_arena::Id;

/// The kind of the lists of literals.
pub struct Literals;

/// The kind of the lists of weights.
pub struct Weights;

/// The kind of the lists of hints.
pub struct Hints;

/// A step as a log keeps it.
#[derive(Clone, Copy)]
pub enum PooledStep {
    /// A lemma's literals and weights.
    Lemma {
        lits: Id<Literals>,
        weights: Id<Weights>,
    },
    /// A learnt clause's literals and hints.
    Learnt {
        lits: Id<Literals>,
        hints: Id<Hints>,
    },
}
