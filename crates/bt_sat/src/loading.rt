//! Loading a formula: the search that begins.
ghost use Rattle.std.specs.Prelude.{◌≡◌, ℕ, [], length, IfOk};
ghost use Rattle.bt_sat.specs.inner.Loading.{IsLoaded};
ghost use Rattle.bt_sat.specs.inner.Progressing.{IsLogged};
ghost use Rattle.bt_watch.specs.Levels.{Stands};

use crate::analysis::Analysis;
use crate::learning::LearntClause;
use crate::logged_formula::LoggedFormula;
use crate::minimizing::{Minimizer, Reach};
use crate::progress::Progress;
use bt_choosers::{Order, Plan};
use bt_cnf::Formula;
use bt_log::Log;
use bt_watch::{Agenda, Search, load_search};
use std::alloc::{AllocError, Global};

/// Where conflicts decide, so many reasons after another are followed back at most, so that one literal costs no long walk.
const MOST_REASONS: usize = 500;

/// How far literals are followed back in a search by a plan.
fn reach_of(plan: &Plan) -> Reach {
    if plan.is_by_conflicts() {
        Reach::Far(MOST_REASONS)
    } else {
        Reach::Near
    }
}

/// The space for a clause over so many variables, which is still to be learnt.
fn no_lesson(alloc: Global, reach: Reach, vars: usize) -> Result<LearntClause, AllocError> {
    Ok(LearntClause {
        analysis: Analysis {
            agenda: Agenda::new(alloc, vars)?,
            picked: Vec::new(alloc),
            hints: Vec::new(alloc),
            met: Vec::new(alloc),
            minimizer: Minimizer::new(alloc, reach, vars)?,
        },
        lits: Vec::new(alloc),
    })
}

/// A formula with an empty log.
fn logged(alloc: Global, formula: Formula) -> Result<LoggedFormula, AllocError>
    ensures formula { IfOk result (λ known. known.formula ≡ formula) }
    ensures steps { IfOk result (λ known. known.log.steps ≡ []) }
    ensures logged { IfOk result (λ known. (most : ℕ) → IsLogged known most) }
{
    let log = Log::new(alloc, formula.clauses())?;
    Ok(LoggedFormula { formula, log })
}

/// What a search works with after its clauses are loaded, up to one that is empty or whose only literal is false, and
/// the number of that clause.
fn loaded_work(
    alloc: Global,
    formula: &Formula,
    reach: Reach,
) -> Result<(Search, LearntClause, Option<usize>), AllocError>
    ensures stands { IfOk result (λ work. Stands formula.now.clauses 0 work.0 work.2) }
    ensures same { IfOk result (λ work. length work.0.assignment.values ≡ formula.now.vars) }
{
    let learnt_clause = no_lesson(alloc, reach, formula.vars())?;
    let (search, conflict) = load_search(alloc, formula)?;
    Ok((search, learnt_clause, conflict))
}

/// The search by a plan that begins, whose log may have at most `limit` steps.
fn started(
    alloc: Global,
    known: LoggedFormula,
    limit: u64,
    plan: Plan,
) -> Result<Progress, AllocError>
    requires steps { known.log.steps ≡ [] }
    requires logged { IsLogged known limit }
    ensures { IfOk result (IsLoaded known.formula limit) }
{
    let (search, learnt_clause, conflict) = loaded_work(alloc, &known.formula, reach_of(&plan))?;
    Ok(Progress {
        known,
        search,
        learnt_clause,
        order: Order::new(alloc),
        plan,
        limit,
        propagated: 0,
        conflict,
    })
}

/// The search of a formula by a plan that begins, with an empty log that may have at most `limit` steps.
pub fn load(alloc: Global, formula: Formula, limit: u64, plan: Plan) -> Result<Progress, AllocError>
    ensures { IfOk result (IsLoaded formula limit) }
{
    let known = logged(alloc, formula)?;
    started(alloc, known, limit, plan)
}
