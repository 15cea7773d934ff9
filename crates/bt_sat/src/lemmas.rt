//! Adding a lemma where all variables have a value.
ghost use Rattle.std.specs.Prelude.{◌<◌, length, IfOk, OnOk};
ghost use Rattle.std.specs.List.{All};
ghost use Rattle.bt_log.specs.Logs.{Lemma};
ghost use Rattle.bt_sat.specs.inner.Choices.{IsComplete};
ghost use Rattle.bt_sat.specs.inner.LoggedFormula.{clauses_in};
ghost use Rattle.bt_sat.specs.inner.Lemmas.{Admits, ArePicked, CanAdmit, IsTraceable, BackjumpsFor, TakesLemma};
ghost use Rattle.bt_sat.specs.inner.Progressing.{IsNextStep, KeepsFormula};
ghost use Rattle.bt_cnf.specs.Truths.{IsFalseIn};

use crate::analysis::{Analysis, mark_seen};
use crate::learning::{LearntClause, adopt, assertion_level, name_lits, tell_released};
use crate::logged_formula::{KnownLits, LoggedFormula};
use crate::progress::Progress;
use bt_choosers::Plan;
use bt_cnf::{Lit, is_lit_false};
use bt_frac::Frac;
use bt_watch::{Search, backjump, keep};
use std::alloc::AllocError;

/// Finds the places at which the literals of a clause became false, the greatest first.
fn pick(analysis: &mut Analysis, search: &Search, lits: &[Lit]) -> Result<(), AllocError>
    requires traceable { IsTraceable search.now }
    requires falses { All (IsFalseIn search.now.assignment.values) lits.now }
    ensures { OnOk result (ArePicked search.now.assignment.trail.items lits.now analysis.new.picked.items) }
{
    analysis.agenda.clear();
    analysis.picked.clear();
    let mut bound = search.assignment.trail.len();
    let known = KnownLits::Given(lits);
    mark_seen(
        &mut analysis.agenda,
        &search.assignment.places,
        known,
        bound,
    )?;
    while let Some(place) = analysis.agenda.take_greatest() {
        analysis.picked.push(place)?;
        bound = place;
    }
    Ok(())
}

/// Backjumps to where a clause whose literals are all false asserts the one that became false last, or to
/// the end of the level at which two of them became false last. Names its literals, those first.
fn backjump_for(
    learnt_clause: &mut LearntClause,
    search: &mut Search,
    plan: &mut Plan,
    lits: &[Lit],
) -> Result<(), AllocError>
    requires traceable { IsTraceable search.old }
    requires falses { All (IsFalseIn search.old.assignment.values) lits.now }
    ensures { OnOk result (BackjumpsFor search.old lits.now search.new learnt_clause.new.lits.items) }
{
    pick(&mut learnt_clause.analysis, search, lits)?;
    let picked = &learnt_clause.analysis.picked;
    name_lits(&mut learnt_clause.lits, picked, &search.assignment.trail)?;
    let level = assertion_level(&search.starts, picked);
    tell_released(plan, search, level);
    backjump(search, level);
    Ok(())
}

/// Keeps a clause that comes next, and asserts its first literal, or tells its number where all its literals
/// are false.
fn admit(
    search: &mut Search,
    known: &LoggedFormula,
    lits: &[Lit],
) -> Result<Option<usize>, AllocError>
    requires { CanAdmit (clauses_in known.now) search.old lits.now }
    ensures { IfOk result (Admits (clauses_in known.now) lits.now search.old search.new) }
{
    if !is_lit_false(&search.assignment.values, &lits[0]) {
        adopt(search, known, lits)?;
        return Ok(None);
    }
    let number = known.next()?;
    if lits.len() > 1 {
        keep(search, lits, number)?;
    }
    Ok(Some(number))
}

/// Logs a lemma whose literals are all false, and lets the search go on with it.
pub fn take_lemma(progress: &mut Progress, lits: &[Lit], weights: &[Frac]) -> Result<(), AllocError>
    requires complete { IsComplete progress.old }
    requires falses { All (IsFalseIn progress.old.search.assignment.values) lits.now }
    requires next { IsNextStep progress.old.known (Lemma lits.now weights.now) }
    requires room { length progress.old.known.log.steps < progress.old.limit }
    ensures kept { KeepsFormula progress.old progress.new }
    ensures takes { OnOk result (TakesLemma progress.old lits.now weights.now progress.new) }
{
    backjump_for(
        &mut progress.learnt_clause,
        &mut progress.search,
        &mut progress.plan,
        lits,
    )?;
    progress.propagated = progress.search.assignment.trail.len();
    progress.conflict = admit(
        &mut progress.search,
        &progress.known,
        &progress.learnt_clause.lits,
    )?;
    progress.known.log.add_lemma(lits, weights)?;
    Ok(())
}
