//! Deciding a formula: rounds of a search, one after another.
ghost use Rattle.std.specs.Prelude.{◌≡◌, ◌≤◌, IfOk, OnOk, Some, length, map};
ghost use Rattle.std.specs.List.{All};
ghost use Rattle.bt_extend.specs.Extending.{AreTaken};
ghost use Rattle.bt_theory.specs.Outcomes.{IsOutcome, IsOutcomeOver};
ghost use Rattle.bt_theory.specs.inner.Bases.{IsBase, base_in};
ghost use Rattle.bt_theory.specs.inner.Scopes.{IsScopeOf, parts_of};
ghost use Rattle.bt_theory.specs.inner.Rounds.{AreTablesOf, IsReady, IsRound, IsTrimmedTo, Tells};

use crate::base::{Base, atoms_of, base_of};
use crate::binding::tableau_of;
use crate::goal::try_goals;
use crate::outcome::{GaveUp, Outcome, Solution};
use crate::round::{End, round};
use crate::scope::{Scope, scopes_of};
use bt_cnf::{Chooser, Formula, Limits};
use bt_extend::{Definition, Goal, extend_all};
use bt_log::{Log, trimmed};
use bt_sat::Solver;
use bt_simplex::Tableau;
use std::alloc::{AllocError, Global};

/// Decides a formula within limits, with the help of definitions.
///
/// The search is for a model of the formula that the definitions extend, each over the formula with those before it; from
/// the first that may not extend it so on they are dropped. By definitions a formula can be met exactly where it can be
/// without them. So `Refuted` and `Spent` tell of a log over the extended formula, and `Sat`, `Pivots` and `Wide` of the
/// formula itself: its rows and columns alone are checked together. Of the log of `Refuted` the steps that the last one
/// doesn't need are left out.
///
/// Each goal is a clause that is likely to follow. It is tried before the search: its literals are made false, and where its
/// scopes refute that, a lemma is added, until the clause follows. What this leads to are steps of the search, so nothing
/// rests on a goal.
///
/// The choosers steer the search, which is right whatever they answer; without one the lowest unset variable
/// is set to false. Each scope is a list of rows, by their places among the rows of the extended formula; a place of no row
/// is passed over. Of a model the rows of each scope are checked in turn, before all rows are: the first that no values
/// meet give the lemma. Where the pivots don't suffice or a number is too wide, the scope counts as passed, so `Sat`,
/// `Pivots` and `Wide` come of the check of all rows.
pub fn solve<C: Chooser>(
    alloc: Global,
    formula: Formula,
    definitions: &mut Vec<Definition>,
    scopes: &[Vec<usize>],
    goals: &[Goal],
    choosers: Vec<C>,
    limits: Limits,
) -> Result<Outcome, AllocError>
    ensures taken { OnOk result (AreTaken formula definitions.old.items definitions.new.items) }
    ensures outcome { IfOk result (IsOutcome formula definitions.new.items limits) }
{
    let base = base_of(alloc, &formula)?;
    let formula = extend_all(alloc, formula, definitions)?;
    search(alloc, formula, &base, scopes, goals, choosers, limits)
}

/// What the rows are checked by. One tableau of all rows before the definitions is carried from model to model, so that the
/// basis is near to the next one's.
#[derive(Drop)]
struct Tables {
    scopes: Vec<Scope>,
    tableau: Tableau,
}

/// The tables of a formula with these scopes.
fn tables_of(
    alloc: Global,
    formula: &Formula,
    base: &Base,
    scopes: &[Vec<usize>],
) -> Result<Tables, AllocError>
    requires { IsBase base.now formula.now }
    ensures { IfOk result (AreTablesOf base.now formula.now) }
{
    let tableau = tableau_of(alloc, formula, base)?;
    let atoms = atoms_of(alloc, formula)?;
    Ok(Tables {
        scopes: scopes_of(alloc, formula, &atoms, scopes)?,
        tableau,
    })
}

/// Searches, with these scopes, for what comes of a formula within limits.
fn search<C: Chooser>(
    alloc: Global,
    formula: Formula,
    base: &Base,
    scopes: &[Vec<usize>],
    goals: &[Goal],
    choosers: Vec<C>,
    limits: Limits,
) -> Result<Outcome, AllocError>
    requires { IsBase base.now formula }
    ensures { IfOk result (IsOutcomeOver (base_in base.now formula) formula limits) }
{
    let mut tables = tables_of(alloc, &formula, base, scopes)?;
    search_by(alloc, formula, base, &mut tables, goals, choosers, limits)
}

/// Searches by these tables, first by goals, for what comes of a formula within limits.
fn search_by<C: Chooser>(
    alloc: Global,
    formula: Formula,
    base: &Base,
    tables: &mut Tables,
    goals: &[Goal],
    choosers: Vec<C>,
    limits: Limits,
) -> Result<Outcome, AllocError>
    requires base { IsBase base.now formula }
    requires tables { AreTablesOf base.now formula tables.old }
    ensures { IfOk result (IsOutcomeOver (base_in base.now formula) formula limits) }
{
    let mut solver = Solver::new(alloc, formula, choosers, limits.learnt)?;
    let end = by_goals(alloc, &mut solver, tables, goals, base, limits.pivots)?;
    outcome(alloc, end, solver.into_log())
}

/// Tries the goals, and makes rounds where the search isn't at its end then.
fn by_goals<C: Chooser>(
    alloc: Global,
    solver: &mut Solver<C>,
    tables: &mut Tables,
    goals: &[Goal],
    base: &Base,
    pivots: u64,
) -> Result<End, AllocError>
    requires within { length solver.old.kernel.steps ≤ solver.old.kernel.limit }
    requires base { IsBase base.now solver.old.kernel.formula }
    requires ready { IsReady base.now solver.old.kernel tables.old.tableau }
    requires scopes { All (IsScopeOf solver.old.kernel.formula) (map parts_of tables.old.scopes.items) }
    ensures { IfOk result (λ end.
        IsRound pivots base.now solver.old.kernel solver.new.kernel tables.new.tableau (Some end)) }
{
    match try_goals(alloc, solver, &mut tables.scopes, goals, pivots)? {
        Some(end) => Ok(end),
        None => rounds(alloc, solver, tables, base, pivots),
    }
}

/// Rounds, up to one that ends the search.
fn rounds<C: Chooser>(
    alloc: Global,
    solver: &mut Solver<C>,
    tables: &mut Tables,
    base: &Base,
    pivots: u64,
) -> Result<End, AllocError>
    requires base { IsBase base.now solver.old.kernel.formula }
    requires ready { IsReady base.now solver.old.kernel tables.old.tableau }
    requires scopes { All (IsScopeOf solver.old.kernel.formula) (map parts_of tables.old.scopes.items) }
    ensures { IfOk result (λ end.
        IsRound pivots base.now solver.old.kernel solver.new.kernel tables.new.tableau (Some end)) }
{
    loop {
        let said = round(
            alloc,
            solver,
            &mut tables.scopes,
            &mut tables.tableau,
            base,
            pivots,
        )?;
        if let Some(end) = said {
            return Ok(end);
        }
    }
}

/// The outcome of a solution.
fn sat(solution: Solution) -> Outcome
    ensures { result ≡ Outcome.Sat solution.values solution.assignment }
{
    Outcome::Sat {
        values: solution.values,
        assignment: solution.assignment,
    }
}

/// The outcome of a search whose log refutes the formula. The steps that the last one doesn't need are left out.
fn refuted(alloc: Global, log: &Log) -> Result<Outcome, AllocError>
    ensures { IfOk result (λ o. IsTrimmedTo log.now o) }
{
    Ok(Outcome::Refuted(trimmed(alloc, log)?))
}

/// The outcome of a search that ends so, with this log.
fn outcome(alloc: Global, end: End, log: Log) -> Result<Outcome, AllocError>
    ensures { IfOk result (Tells end log) }
{
    match end {
        End::Sat(solution) => Ok(sat(solution)),
        End::Refuted => refuted(alloc, &log),
        End::Spent => Ok(Outcome::GaveUp(GaveUp::Spent(log))),
        End::Pivots(trace) => Ok(Outcome::GaveUp(GaveUp::Pivots(trace))),
        End::Wide(wide) => Ok(Outcome::GaveUp(GaveUp::Wide(wide))),
    }
}
