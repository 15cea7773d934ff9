//! A search in progress: propagation, learning, and the log.
ghost use Rattle.std.specs.Prelude.{◌≡◌, OnOk, IfOk, None, Some};
ghost use Rattle.bt_sat.specs.inner.Progressing.{PropagatesAll, IsRunning, KeepsFormula, Learns};

use crate::learning::{LearntClause, adopt, prepare};
use crate::logged_formula::LoggedFormula;
use bt_choosers::{Order, Plan};
use bt_watch::{Search, number_of, propagate};
use std::alloc::AllocError;

/// What is known, what is true, and how far the search has come.
#[derive(Drop)]
pub struct Progress {
    pub known: LoggedFormula,
    pub search: Search,
    pub learnt_clause: LearntClause,
    /// In which order variables are decided.
    pub order: Order,
    /// What is decided first.
    pub plan: Plan,
    /// The most steps that the log may have.
    pub limit: u64,
    /// How many literals of the trail were propagated.
    pub propagated: usize,
    /// The number of a clause whose literals are all false, where one is known.
    pub conflict: Option<usize>,
}

/// What comes of a conflict.
#[derive(Clone, Copy)]
pub enum Learning {
    /// A clause was learnt, and the search goes on.
    GoesOn,
    /// The empty clause was learnt.
    Refutes,
    /// The log has no room for the clause that would be learnt.
    Spent,
}

/// Propagates what is true, where no conflict is known, and notes the number of a clause that becomes false.
pub fn propagate_all(progress: &mut Progress) -> Result<(), AllocError>
    requires running { IsRunning progress.old }
    requires ready { progress.old.conflict ≡ None }
    ensures propagates { OnOk result (PropagatesAll progress.old progress.new) }
    ensures kept { KeepsFormula progress.old progress.new }
{
    match propagate(&mut progress.search, progress.propagated)? {
        Some(id) => progress.conflict = number_of(&progress.search.numbers, id),
        None => progress.propagated = progress.search.assignment.trail.len(),
    }
    Ok(())
}

/// Learns from a conflict: backjumps, logs the learnt clause and asserts its first literal. A full log stays as it is.
pub fn learn(progress: &mut Progress, conflict: usize) -> Result<Learning, AllocError>
    requires running { IsRunning progress.old }
    requires conflict { progress.old.conflict ≡ Some conflict }
    ensures learns { IfOk result (Learns progress.old progress.new) }
    ensures kept { KeepsFormula progress.old progress.new }
{
    prepare(
        &mut progress.learnt_clause,
        &progress.known,
        &mut progress.search,
        &mut progress.plan,
        conflict,
    )?;
    if progress.known.log.len() as u64 == progress.limit {
        return Ok(Learning::Spent);
    }
    let hints = &progress.learnt_clause.analysis.hints;
    if progress.learnt_clause.lits.is_empty() {
        progress.known.log.add_learnt(&[], hints)?;
        return Ok(Learning::Refutes);
    }
    progress.propagated = progress.search.assignment.trail.len();
    adopt(
        &mut progress.search,
        &progress.known,
        &progress.learnt_clause.lits,
    )?;
    progress
        .known
        .log
        .add_learnt(&progress.learnt_clause.lits, hints)?;
    progress.conflict = None;
    Ok(Learning::GoesOn)
}
