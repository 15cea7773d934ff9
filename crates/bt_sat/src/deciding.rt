//! Decisions and what they propagate, until there is a conflict or a model.
ghost use Rattle.std.specs.Prelude.{◌≡◌, map, IfOk, OnOk, None};
ghost use Rattle.bt_sat.specs.inner.Choices.{DecidesUntilConflict, HasPropagated, ListsUnset};
ghost use Rattle.bt_sat.specs.inner.Progressing.{IsRunning, KeepsFormula};

use crate::choosing::decide;
use crate::progress::{Progress, propagate_all};
use bt_cnf::Chooser;
use std::alloc::AllocError;

/// Lets the plan begin anew, propagates what is true, and lets the order begin anew where there is no conflict.
pub fn propagate_first(progress: &mut Progress) -> Result<(), AllocError>
    requires { IsRunning progress.old }
    ensures propagates { OnOk result (HasPropagated progress.old progress.new) }
    ensures kept { KeepsFormula progress.old progress.new }
{
    progress.plan.begin();
    if progress.conflict.is_none() {
        propagate_all(progress)?;
    }
    if progress.conflict.is_none() {
        progress.order.begin(&progress.search.assignment.values)?;
    }
    Ok(())
}

/// Propagates a decision, where no conflict is known.
pub fn propagate_decision(progress: &mut Progress) -> Result<(), AllocError>
    requires running { IsRunning progress.old }
    requires ready { progress.old.conflict ≡ None }
    requires listed { ListsUnset progress.old }
    ensures propagates { OnOk result (HasPropagated progress.old progress.new) }
    ensures kept { KeepsFormula progress.old progress.new }
{
    propagate_all(progress)?;
    Ok(())
}

/// Decides and propagates until all literals of a clause are false, which is a conflict, or all variables have a value.
/// Gives the number of such a clause.
pub fn decide_until_conflict<C: Chooser>(
    progress: &mut Progress,
    choosers: &mut [C],
) -> Result<Option<usize>, AllocError>
    requires { IsRunning progress.old }
    ensures decides { IfOk result (DecidesUntilConflict progress.old progress.new) }
    ensures kept { KeepsFormula progress.old progress.new }
    ensures same { map C.told_clauses choosers.new ≡ map C.told_clauses choosers.old }
{
    propagate_first(progress)?;
    while progress.conflict.is_none() {
        if !decide(progress, choosers)? {
            return Ok(None);
        }
        propagate_decision(progress)?;
    }
    Ok(progress.conflict)
}
