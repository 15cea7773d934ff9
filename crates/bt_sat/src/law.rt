//! Laws of propagation and of logs, as the contracts of functions that do nothing.
ghost use Rattle.std.specs.Prelude.{◌≡◌};
ghost use Rattle.bt_sat.specs.Laws.{FreshStepsAreFew, OnlyEmptyAfterConflict, PropagatedIsOpen};

use crate::serving::EPOCH_STEPS;

/// A clause is fresh where propagation has come to its end without a false clause, all its literals but
/// one are false, and that one isn't true. So is the clause that a search learns, once it has gone back to
/// the level where all but one of its literals are false.
pub fn propagated_is_open()
    ensures { PropagatedIsOpen }
{}

/// A log over v variables has fewer than 3 ^ v steps, where each is valid and fresh, and none is empty: as a
/// set of literals, its clause is none of the earlier ones. So a search with a limit of 3 ^ v or more is
/// never spent.
pub fn fresh_steps_are_few()
    ensures { FreshStepsAreFew }
{}

/// Where propagation over clauses meets a false one before anything is chosen, only the empty step is fresh
/// after them. So a formula that propagation alone refutes is spent only where no step may be logged.
pub fn only_empty_after_conflict()
    ensures { OnlyEmptyAfterConflict }
{}

/// The steps of an epoch, as a number.
pub fn limits_are()
    ensures { EPOCH_STEPS ≡ 128 }
{}
