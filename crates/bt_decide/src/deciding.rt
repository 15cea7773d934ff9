//! Deciding a property of a network by its flow formula.
ghost use Rattle.std.specs.Prelude.{◌≡◌, IfOk, IfSome};
ghost use Rattle.bt_decide.specs.Verdicts.{IsVerdict};
ghost use Rattle.bt_decide.specs.inner.Outcomes.{IsVerdictOf};
ghost use Rattle.bt_flow.specs.Properties.{IsBreaking};

use crate::arguing::argument_for;
use crate::verdict::Verdict;
use bt_cnf::{Chooser, Limits};
use bt_extend::Definition;
use bt_flow::{Property, State};
use bt_flow_formula::{encode, state_of};
use bt_net::Net;
use bt_theory::{Outcome, solve};
use hint_simulation::simplest;
use std::alloc::{AllocError, Global};

/// Decides within limits whether every steady state of a network has a property. A state that simulations show is
/// looked for before the search, but where no turns are allowed. The choosers steer the search, which is right whatever
/// they answer.
pub fn decide<C: Chooser>(
    alloc: Global,
    net: &Net,
    property: Property,
    limits: Limits,
    choosers: Vec<C>,
) -> Result<Verdict, AllocError>
    ensures { IfOk result (IsVerdict net.now property limits) }
{
    match shown(alloc, net, property, limits)? {
        Some(state) => Ok(Verdict::No(state)),
        None => search(alloc, net, property, limits, choosers),
    }
}

/// A state that simulations show and that breaks the property. None where they show none, or where no turns are
/// allowed: simulations aren't asked then.
fn shown(
    alloc: Global,
    net: &Net,
    property: Property,
    limits: Limits,
) -> Result<Option<State>, AllocError>
    ensures { IfOk result (λ found. IfSome found (IsBreaking net.now property)) }
{
    if limits.pivots == 0 {
        return Ok(None);
    }
    simplest(alloc, net, property)
}

/// Decides by a search within limits whether every steady state of a network has a property.
fn search<C: Chooser>(
    alloc: Global,
    net: &Net,
    property: Property,
    limits: Limits,
    choosers: Vec<C>,
) -> Result<Verdict, AllocError>
    ensures { IfOk result (IsVerdict net.now property limits) }
{
    let formula = encode(alloc, net, property)?;
    let mut argument = argument_for(alloc, net, property, &formula)?;
    let outcome = solve(
        alloc,
        formula,
        &mut argument.definitions,
        &argument.scopes,
        &argument.goals,
        choosers,
        limits,
    )?;
    let verdict = verdict_of(alloc, net, argument.definitions, outcome)?;
    Ok(verdict)
}

/// The verdict on a property of the network, by what deciding its flow formula came to.
fn verdict_of(
    alloc: Global,
    net: &Net,
    definitions: Vec<Definition>,
    outcome: Outcome,
) -> Result<Verdict, AllocError>
    ensures { IfOk result (IsVerdictOf net.now definitions.items outcome) }
{
    match outcome {
        Outcome::Sat { values, assignment } => {
            let state = state_of(alloc, net, &values, &assignment)?;
            Ok(Verdict::No(state))
        }
        Outcome::Refuted(log) => Ok(Verdict::Yes { definitions, log }),
        Outcome::GaveUp(cause) => Ok(Verdict::GaveUp { definitions, cause }),
    }
}
