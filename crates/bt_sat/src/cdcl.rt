//! The search: decisions down to a conflict, and on with the clause that is learnt from it.
ghost use Rattle.std.specs.Prelude.{◌≡◌, map, IfOk, None, Some};
ghost use Rattle.bt_sat.specs.inner.Searching.{SearchesTo, LearnsAndTells, Restarts};
ghost use Rattle.bt_sat.specs.inner.Progressing.{IsRunning, KeepsFormula};

use crate::deciding::decide_until_conflict;
use crate::learning::tell_released;
use crate::progress::{Learning, Progress, learn};
use crate::serving::{begins_epoch, tell};
use bt_cnf::Chooser;
use bt_watch::backjump;
use std::alloc::AllocError;

/// What the search comes to.
#[derive(Clone, Copy)]
pub enum Found {
    /// All variables have a value, and each clause a true literal.
    Model,
    /// The empty clause was learnt.
    Refuted,
    /// The log has no room for one more step.
    Spent,
}

/// Backjumps to before the first decision, where one was made. There no clause is known to be false.
pub fn restart(progress: &mut Progress)
    requires { IsRunning progress.old }
    ensures { Restarts progress.old progress.new }
{
    if progress.search.starts.len() > 0 {
        tell_released(&mut progress.plan, &progress.search, 0);
        backjump(&mut progress.search, 0);
        progress.propagated = progress.search.assignment.trail.len();
        progress.conflict = None;
    }
}

/// Learns from a conflict, tells the chooser, and restarts where that is due. Tells how the search ends where it does.
pub fn learn_and_tell<C: Chooser>(
    progress: &mut Progress,
    choosers: &mut [C],
    conflict: usize,
) -> Result<Option<Found>, AllocError>
    requires running { IsRunning progress.old }
    requires conflict { progress.old.conflict ≡ Some conflict }
    ensures kept { KeepsFormula progress.old progress.new }
    ensures learns { IfOk result (LearnsAndTells progress.old (map C.told_clauses choosers.old)
        progress.new (map C.told_clauses choosers.new)) }
{
    let before = progress.known.log.len() as u64;
    match learn(progress, conflict)? {
        Learning::GoesOn => {
            tell(choosers, before, &progress.learnt_clause.lits)?;
            let steps = progress.known.log.len() as u64;
            if progress.plan.is_restart_due(steps) || begins_epoch(choosers.len(), steps) {
                restart(progress);
            }
            Ok(None)
        }
        Learning::Refutes => {
            tell(choosers, before, &progress.learnt_clause.lits)?;
            Ok(Some(Found::Refuted))
        }
        Learning::Spent => Ok(Some(Found::Spent)),
    }
}

/// Searches until there is a model, or the log refutes the formula, or has no room for one more step.
pub fn find_model<C: Chooser>(
    progress: &mut Progress,
    choosers: &mut [C],
) -> Result<Found, AllocError>
    requires { IsRunning progress.old }
    ensures kept { KeepsFormula progress.old progress.new }
    ensures searches { IfOk result (SearchesTo progress.old (map C.told_clauses choosers.old)
        progress.new (map C.told_clauses choosers.new)) }
{
    while let Some(conflict) = decide_until_conflict(progress, choosers)? {
        if let Some(found) = learn_and_tell(progress, choosers, conflict)? {
            return Ok(found);
        }
    }
    Ok(Found::Model)
}
