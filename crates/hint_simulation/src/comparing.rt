//! Looking for simulations in which two networks behave otherwise.
use crate::case::{Case, Choice};
use crate::rank::LEAST_FAILURE;
use crate::simulation::{Found, Simulated, simulate};
use crate::tries::{MOST_TRIES, Tries};
use bt_flow::{Property, Role};
use bt_net::Net;
use bt_random::Random;
use std::alloc::{AllocError, Global};

/// The most simulations that are given.
pub const MOST_FOUND: usize = 3;

/// Simulations of two networks under equal loads and rooms in which nothing moves any more and the flow of some output
/// differs. Each has the flows and marks of the first network, and behind them those of the second. They are at most
/// `MOST_FOUND`, those first that are found first.
pub fn differing(alloc: Global, first: &Net, second: &Net) -> Result<Vec<Found>, AllocError> {
    let full = lesser(Case::full(alloc, first)?, &Case::full(alloc, second)?);
    let mut random = Random::new(1);
    let mut tries = Tries::new(&full, Property::Unlimited);
    let mut found = Vec::new(alloc);
    for _ in 0..MOST_TRIES {
        let Some(choice) = tries.choice() else {
            break;
        };
        let shown = tried(alloc, first, second, &full, choice, &mut random)?;
        tries.count(shown.simulated.steps);
        if shown.simulated.is_still && differs(alloc, first, second, &shown.simulated.flows)? {
            found.push(shown)?;
            tries.leave_parts();
        }
        if found.len() >= MOST_FOUND {
            break;
        }
    }
    Ok(found)
}

/// The loads and rooms that two cases both have.
fn lesser(case: Case, other: &Case) -> Case {
    let mut case = case;
    lower_to(&mut case.loads, &other.loads);
    lower_to(&mut case.rooms, &other.rooms);
    case
}

/// Lowers each number to the one at its place among others, where that is lower.
fn lower_to(numbers: &mut [u32], others: &[u32]) {
    for (number, other) in numbers.iter_mut().zip(others) {
        *number = (*number).min(*other);
    }
}

/// The simulations of both networks under the loads and rooms of a choice.
fn tried(
    alloc: Global,
    first: &Net,
    second: &Net,
    full: &Case,
    choice: Choice,
    random: &mut Random,
) -> Result<Found, AllocError> {
    let case = full.chosen(alloc, Property::Unlimited, choice, random)?;
    let one = simulate(alloc, first, &case.loads, &case.rooms)?;
    let other = simulate(alloc, second, &case.loads, &case.rooms)?;
    let simulated = joined(one, &other)?;
    Ok(Found { case, simulated })
}

/// One simulation behind another: it is still where both are, and its steps are those of both.
fn joined(one: Simulated, other: &Simulated) -> Result<Simulated, AllocError> {
    let mut both = one;
    both.flows.extend_from_slice(&other.flows)?;
    both.backed.extend_from_slice(&other.backed)?;
    both.steps = both.steps.saturating_add(other.steps);
    both.is_still = both.is_still && other.is_still;
    Ok(both)
}

/// Whether the flow of some output differs by more than `LEAST_FAILURE`, where these are the flows of the first network
/// and behind them those of the second.
fn differs(alloc: Global, first: &Net, second: &Net, flows: &[u32]) -> Result<bool, AllocError> {
    let edges = first.edges().len().min(flows.len());
    let ones = output_flows(alloc, first, &flows[..edges])?;
    let others = output_flows(alloc, second, &flows[edges..])?;
    for (one, other) in ones.iter().zip(&others) {
        if u64::from(one.abs_diff(*other)) > LEAST_FAILURE {
            return Ok(true);
        }
    }
    Ok(false)
}

/// For each output of a network its flow.
fn output_flows(alloc: Global, net: &Net, flows: &[u32]) -> Result<Vec<u32>, AllocError> {
    let mut outputs = vec![in alloc; 0u32; net.outputs() as usize]?;
    for (edge, flow) in net.edges().iter().zip(flows) {
        if let Some(output) = Role::ToOutput.number_in(edge) {
            if let Some(found) = outputs.get_mut(output as usize) {
                *found = *flow;
            }
        }
    }
    Ok(outputs)
}
