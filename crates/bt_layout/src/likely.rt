//! A search for a layout where one is likely: of the placement formula with more clauses, by a plan.
ghost use Rattle.std.specs.Prelude.{◌≡◌, ℕ, IfOk};
ghost use Rattle.bt_place.specs.Narrowed.{IsNarrowed};
ghost use Rattle.bt_place.specs.PlaceFormula.{place_formula};
ghost use Rattle.bt_sat.specs.Solving.{begun};
ghost use Rattle.bt_layout.specs.inner.Likely.{IsNarrowedSearch, IsTrial, IsTried, Solves};

use bt_choosers::{Active, Plan};
use bt_cnf::Formula;
use bt_model::Request;
use bt_parts::Part;
use bt_place::{Numbers, decode, encode_place, narrow};
use bt_sat::{Answer, Solver};
use hint_seeking::plan_of_attempt;
use hint_streamlining::{Attempt, narrowings, whole};
use std::alloc::{AllocError, Global};

/// What a search for a layout where one is likely comes to.
#[derive(Drop)]
pub enum Trial {
    /// The parts lay the request. They come in ascending order of y and then x of their cells.
    Found(Vec<Part>),
    /// There is no such layout as was looked for. Of others nothing is said.
    Refuted,
    /// As many steps were taken as may be.
    Spent,
}

/// A search for a layout where one is likely, and the steps that it took.
#[derive(Drop)]
pub struct Tried {
    pub trial: Trial,
    pub steps: u64,
}

/// The placement formula with more clauses, which not every layout meets.
fn narrowed(alloc: Global, request: &Request, numbers: &Numbers) -> Result<Formula, AllocError>
    ensures { IfOk result (IsNarrowed (place_formula request.now)) }
{
    let mut formula = encode_place(alloc, request)?;
    let rules = narrowings(alloc, request)?;
    narrow(alloc, &mut formula, numbers, &rules)?;
    Ok(formula)
}

/// What a search with this answer comes to: a model of the formula is decoded to parts.
fn trial_of(alloc: Global, request: &Request, answer: Answer) -> Result<Trial, AllocError>
    requires { Solves request.now answer }
    ensures { IfOk result (IsTrial request.now) }
{
    match answer {
        Answer::Model(model) => Ok(Trial::Found(decode(alloc, request, &model)?)),
        Answer::Refuted => Ok(Trial::Refuted),
        Answer::Spent => Ok(Trial::Spent),
    }
}

/// A search of a formula by a plan, with at most so many steps.
pub fn planned(
    alloc: Global,
    formula: Formula,
    plan: Plan,
    steps: u64,
) -> Result<Solver<Active>, AllocError>
    ensures { IfOk result (λ solver. solver.kernel ≡ begun formula steps) }
{
    let choosers = vec![in alloc; Active::new(alloc)?]?;
    Solver::by_plan(alloc, formula, choosers, steps, plan)
}

/// The search of an attempt: of the placement formula with more clauses, by the attempt's plan and with at most its
/// steps.
pub fn solver_of(
    alloc: Global,
    request: &Request,
    attempt: Attempt,
) -> Result<Solver<Active>, AllocError>
    ensures { IfOk result (λ solver. IsNarrowedSearch request.now attempt.steps solver.kernel) }
{
    let numbers = Numbers::new(alloc, request)?;
    let formula = narrowed(alloc, request, &numbers)?;
    let plan = plan_of_attempt(alloc, &formula, &numbers, request, attempt)?;
    planned(alloc, formula, plan, attempt.steps)
}

/// Runs a search to its end, and gives what it comes to and how many steps its log has.
pub fn trial_by(
    alloc: Global,
    request: &Request,
    solver: &mut Solver<Active>,
) -> Result<Tried, AllocError>
    requires { (most : ℕ) × IsNarrowedSearch request.now most solver.old.kernel }
    ensures { (most : ℕ) → IsNarrowedSearch request.now most solver.old.kernel
        → IfOk result (IsTried request.now most) }
{
    let answer = solver.next_model()?;
    let steps = solver.log().len() as u64;
    let trial = trial_of(alloc, request, answer)?;
    Ok(Tried { trial, steps })
}

/// Looks for a layout of a request where one is likely in its rectangle, with at most so many steps. What is found is a
/// layout; where none is found, nothing is said.
pub fn look_where_likely(alloc: Global, request: &Request, steps: u64) -> Result<Tried, AllocError>
    ensures { IfOk result (IsTried request.now steps) }
{
    let attempt = Attempt {
        steps,
        ..whole(alloc, request, steps)?
    };
    let mut solver = solver_of(alloc, request, attempt)?;
    trial_by(alloc, request, &mut solver)
}
