//! Literals, and the ids of variables and clauses.
use bt_arena::Id;

/// The kind of a formula's variables.
pub struct Variable;

/// The kind of a formula's clauses.
pub struct Clause;

/// A variable of a formula.
pub type Var = Id<Variable>;

/// A clause of a formula.
pub type ClauseId = Id<Clause>;

/// A variable, or where it isn't positive, its negation.
#[derive(Clone, Copy, PartialEq, Eq)]
pub struct Lit {
    /// The variable.
    pub var: Var,
    /// Whether the literal is true where the variable is.
    pub positive: bool,
}
