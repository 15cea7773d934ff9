//! Learning a clause from a conflict.
ghost use Rattle.std.specs.Prelude.{◌≡◌, ◌<◌, ◌++◌, ◌∷◌, [], length, OnOk};
ghost use Rattle.std.specs.List.{All};
ghost use Rattle.std.specs.List.Sorted.{IsNonDecreasing};
ghost use Rattle.bt_sat.specs.inner.Analysing.{falses_at};
ghost use Rattle.bt_sat.specs.inner.Asserting.{IsAsserting, IsPrepared, IsAssertionLevel};
ghost use Rattle.bt_sat.specs.inner.LoggedFormula.{clauses_in};
ghost use Rattle.bt_watch.specs.Levels.{IsInConflict, IsReady};

use crate::analysis::{Analysis, analyse};
use crate::logged_formula::LoggedFormula;
use bt_choosers::Plan;
use bt_cnf::Lit;
use bt_watch::{Search, assign, backjump, keep, level_of, negation, start};
use std::alloc::AllocError;

/// A clause that is learnt, and how.
#[derive(Drop)]
pub struct LearntClause {
    pub analysis: Analysis,
    /// Its literals.
    pub lits: Vec<Lit>,
}

/// Lists the negations of the literals at places of the trail, which are false, in place of what `lits` held.
pub fn name_lits(lits: &mut Vec<Lit>, picked: &[usize], trail: &[Lit]) -> Result<(), AllocError>
    requires { All (λ k. k < length trail.now) picked.now }
    ensures { OnOk result (lits.new.items ≡ falses_at trail.now picked.now) }
{
    lits.clear();
    for place in picked {
        lits.push(negation(&trail[*place]))?;
    }
    Ok(())
}

/// How many levels there are up to where all literals of a clause but the first are false; 0 for a single literal.
pub fn assertion_level(starts: &[usize], picked: &[usize]) -> usize
    requires { IsNonDecreasing starts.now }
    ensures { IsAssertionLevel starts.now picked.now result }
{
    if picked.len() > 1 {
        level_of(starts, picked[1])
    } else {
        0
    }
}

/// At how many levels the literals at these places became true, the greatest of which come first.
fn count_levels(starts: &[usize], picked: &[usize]) -> u32 {
    let mut count = 0u32;
    let mut last = None;
    for place in picked {
        let level = Some(starts.partition_point(|start| *start <= *place));
        if level != last {
            count = count.saturating_add(1);
            last = level;
        }
    }
    count
}

/// Tells a plan what is going to be unset by a backjump to before a level.
pub fn tell_released(plan: &mut Plan, search: &Search, level: usize) {
    plan.release(&search.assignment.trail, start(search, level));
}

/// Tells a plan which variables a conflict met, and at how many levels the literals of the learnt clause became false.
fn tell_learnt(plan: &mut Plan, search: &Search, analysis: &Analysis) {
    let levels = count_levels(&search.starts, &analysis.picked);
    plan.learn(&analysis.met, levels);
}

/// Finds the clause that is learnt from a conflict, tells the plan, and backjumps to where the clause is a unit.
pub fn prepare(
    learnt_clause: &mut LearntClause,
    known: &LoggedFormula,
    search: &mut Search,
    plan: &mut Plan,
    conflict: usize,
) -> Result<(), AllocError>
    requires { IsInConflict (clauses_in known.now) conflict search.old }
    ensures { OnOk result (IsPrepared (clauses_in known.now) (length search.old.assignment.values) search.new
        learnt_clause.new.lits.items learnt_clause.new.analysis.hints.items) }
{
    analyse(&mut learnt_clause.analysis, known, search, conflict)?;
    let picked = &learnt_clause.analysis.picked;
    name_lits(&mut learnt_clause.lits, picked, &search.assignment.trail)?;
    let level = assertion_level(&search.starts, picked);
    tell_learnt(plan, search, &learnt_clause.analysis);
    tell_released(plan, search, level);
    backjump(search, level);
    Ok(())
}

/// Keeps a clause that comes next, unless it has one literal alone, and asserts its first literal, which becomes true.
pub fn adopt(search: &mut Search, known: &LoggedFormula, lits: &[Lit]) -> Result<(), AllocError>
    requires { IsAsserting (clauses_in known.now) search.old lits.now }
    ensures ready { OnOk result (IsReady (clauses_in known.now ++ lits.now ∷ [])
        (length search.old.assignment.trail.items) search.new) }
    ensures same { OnOk result (length search.new.assignment.values
        ≡ length search.old.assignment.values) }
{
    let number = known.next()?;
    if lits.len() == 1 {
        assign(&mut search.assignment, &lits[0], Some(number))?;
        return Ok(());
    }
    keep(search, lits, number)?;
    assign(&mut search.assignment, &lits[0], Some(number))?;
    Ok(())
}
