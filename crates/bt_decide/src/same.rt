//! Deciding whether two networks behave the same, by the formula of both.
ghost use Rattle.std.specs.Prelude.{◌≡◌, IfOk, IfSome};
ghost use Rattle.bt_same.specs.Sameness.{HaveEqualEnds};
ghost use Rattle.bt_decide.specs.Verdicts.{IsDifference, IsSameVerdict};
ghost use Rattle.bt_decide.specs.inner.Outcomes.{IsSameFormula, IsSameVerdictOf};

use crate::arguing::argument_for_both;
use crate::guessing::guesses_of_both;
use crate::verdict::SameVerdict;
use bt_cnf::{Chooser, Formula, Limits};
use bt_extend::Definition;
use bt_net::Net;
use bt_same::{Pair, encode_same, pair_of};
use bt_theory::{Outcome, first_solution, solve};
use std::alloc::{AllocError, Global};

/// Decides within limits whether two networks behave the same. Simulations of both in which they seem not to are tried
/// before the search. The choosers steer the search, which is right whatever they answer.
pub fn decide_same<C: Chooser>(
    alloc: Global,
    first: &Net,
    second: &Net,
    limits: Limits,
    choosers: Vec<C>,
) -> Result<SameVerdict, AllocError>
    requires { HaveEqualEnds first.now second.now }
    ensures { IfOk result (IsSameVerdict first.now second.now limits) }
{
    let formula = encode_same(alloc, first, second)?;
    match shown(alloc, first, second, &formula, limits.pivots)? {
        Some(pair) => Ok(SameVerdict::No(pair)),
        None => search(alloc, first, second, formula, limits, choosers),
    }
}

/// A pair of states that shows a difference, found by at most `pivots` turns from each simulation of both networks.
/// None where none leads to one.
fn shown(
    alloc: Global,
    first: &Net,
    second: &Net,
    formula: &Formula,
    pivots: u64,
) -> Result<Option<Pair>, AllocError>
    requires ends { HaveEqualEnds first.now second.now }
    requires formula { IsSameFormula first.now second.now formula.now }
    ensures { IfOk result (λ found. IfSome found (IsDifference first.now second.now)) }
{
    let guesses = guesses_of_both(alloc, first, second, formula)?;
    match first_solution(alloc, formula, &guesses, pivots)? {
        Some(solution) => {
            let pair = pair_of(alloc, first, second, &solution.values, &solution.assignment)?;
            Ok(Some(pair))
        }
        None => Ok(None),
    }
}

/// Decides by a search within limits whether two networks behave the same.
fn search<C: Chooser>(
    alloc: Global,
    first: &Net,
    second: &Net,
    formula: Formula,
    limits: Limits,
    choosers: Vec<C>,
) -> Result<SameVerdict, AllocError>
    requires ends { HaveEqualEnds first.now second.now }
    requires formula { IsSameFormula first.now second.now formula }
    ensures { IfOk result (IsSameVerdict first.now second.now limits) }
{
    let mut argument = argument_for_both(alloc, first, second, &formula)?;
    let outcome = solve(
        alloc,
        formula,
        &mut argument.definitions,
        &argument.scopes,
        &argument.goals,
        choosers,
        limits,
    )?;
    let verdict = verdict_of_both(alloc, first, second, argument.definitions, outcome)?;
    Ok(verdict)
}

/// The verdict on two networks, by what deciding the formula of both came to.
fn verdict_of_both(
    alloc: Global,
    first: &Net,
    second: &Net,
    definitions: Vec<Definition>,
    outcome: Outcome,
) -> Result<SameVerdict, AllocError>
    requires { HaveEqualEnds first.now second.now }
    ensures { IfOk result (IsSameVerdictOf first.now second.now definitions.items outcome) }
{
    match outcome {
        Outcome::Sat { values, assignment } => {
            let pair = pair_of(alloc, first, second, &values, &assignment)?;
            Ok(SameVerdict::No(pair))
        }
        Outcome::Refuted(log) => Ok(SameVerdict::Yes { definitions, log }),
        Outcome::GaveUp(cause) => Ok(SameVerdict::GaveUp { definitions, cause }),
    }
}
