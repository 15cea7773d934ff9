//! Literals that are made false in turn, before the search goes on from there.
ghost use Rattle.std.specs.Prelude.{◌≡◌, map, IfOk, OnOk, None};
ghost use Rattle.bt_sat.specs.inner.Choices.{HasPropagated, IsAtChoice};
ghost use Rattle.bt_sat.specs.inner.Progressing.{IsRunning, KeepsFormula};
ghost use Rattle.bt_sat.specs.inner.Searching.{AssumesTo};

use crate::cdcl::{Found, learn_and_tell, restart};
use crate::choosing::begin_with;
use crate::deciding::{propagate_decision, propagate_first};
use crate::progress::Progress;
use bt_cnf::{Chooser, Lit, Values, is_lit_true, lacks_value};
use bt_watch::negation;
use std::alloc::AllocError;

/// Makes a literal false where its variable has no value, and propagates.
fn make_false(progress: &mut Progress, lit: &Lit) -> Result<(), AllocError>
    requires running { IsRunning progress.old }
    requires none { progress.old.conflict ≡ None }
    requires choice { IsAtChoice progress.old }
    ensures propagates { OnOk result (HasPropagated progress.old progress.new) }
    ensures kept { KeepsFormula progress.old progress.new }
{
    if lacks_value(&progress.search.assignment.values, lit.var) {
        begin_with(progress, &negation(lit))?;
        propagate_decision(progress)?;
    }
    Ok(())
}

/// Makes literals false in turn, up to one that is true, or to a clause whose literals are all false, whose number it
/// tells.
fn make_all_false(progress: &mut Progress, lits: &[Lit]) -> Result<Option<usize>, AllocError>
    requires { IsRunning progress.old }
    ensures propagates { OnOk result (HasPropagated progress.old progress.new) }
    ensures conflict { IfOk result (λ conflict. conflict ≡ progress.new.conflict) }
    ensures kept { KeepsFormula progress.old progress.new }
{
    propagate_first(progress)?;
    for lit in lits {
        if progress.conflict.is_some() || holds(&progress.search.assignment.values, lit) {
            return Ok(progress.conflict);
        }
        make_false(progress, lit)?;
    }
    Ok(progress.conflict)
}

/// Whether a literal is true. One of a variable that the formula lacks isn't.
fn holds(values: &Values, lit: &Lit) -> bool {
    lit.var.place() < values.len() && is_lit_true(values, lit)
}

/// Whether one of the literals is true.
pub fn has_true(values: &Values, lits: &[Lit]) -> bool {
    for lit in lits {
        if holds(values, lit) {
            return true;
        }
    }
    false
}

/// Makes literals false in turn, from what is true before the first decision on, and learns from each conflict, until
/// there is none: then all of them are false, or one is true. Tells how the search ends where it does so before.
pub fn assume<C: Chooser>(
    progress: &mut Progress,
    choosers: &mut [C],
    lits: &[Lit],
) -> Result<Option<Found>, AllocError>
    requires { IsRunning progress.old }
    ensures kept { KeepsFormula progress.old progress.new }
    ensures assumes { IfOk result (AssumesTo progress.old (map C.told_clauses choosers.old)
        progress.new (map C.told_clauses choosers.new)) }
{
    restart(progress);
    while let Some(conflict) = make_all_false(progress, lits)? {
        if let Some(found) = learn_and_tell(progress, choosers, conflict)? {
            return Ok(Some(found));
        }
        restart(progress);
    }
    Ok(None)
}
