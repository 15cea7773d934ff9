//! Plans of searches of placement formulas: what is chosen first, and in which turns.

use crate::room::{cells_in, is_tight};
use bt_choosers::{Part, Plan, Turn};
use bt_cnf::{Formula, Lit};
use bt_model::Request;
use bt_place::{Numbers, literal_of};
use hint_streamlining::{
    Attempt, Choice, Course, first_rows, looped_places, looped_rows, no_tunnels, places,
};
use std::alloc::{AllocError, Global};

/// The search restarts after as many steps as the numbers of Luby's sequence times this one say.
const RESTART_STEPS: u64 = 100;

/// For so many steps it is chosen that nothing is under the ground, and for so many it isn't.
const TURN_STEPS: u64 = 1024;

/// For so many steps splitters of a network with loops stand in one of several orders.
const ORDER_STEPS: u64 = 2048;

/// How many orders serve by turns.
const ORDERS: u64 = 8;

/// From so many on, the cells of the rectangle times the splitters are many.
const LARGE: u64 = 216;

/// And so they are from so many on, where the rectangle is nearly full.
const LARGE_IF_TIGHT: u64 = 120;

/// The literals of choices; those of which the formula has no variable are left out.
fn literals_of(
    alloc: Global,
    formula: &Formula,
    numbers: &Numbers,
    choices: &[Choice],
) -> Result<Vec<Lit>, AllocError> {
    let mut lits = Vec::new(alloc);
    for choice in choices {
        if let Some(lit) = literal_of(formula, numbers, choice.fact, choice.holds) {
            lits.push(lit)?;
        }
    }
    Ok(lits)
}

/// Adds choices to a plan, which serve in this turn. Brittle ones are given up for good once one of them turns out
/// false.
pub fn push_choices(
    alloc: Global,
    plan: &mut Plan,
    formula: &Formula,
    numbers: &Numbers,
    choices: &[Choice],
    turn: Turn,
    is_brittle: bool,
) -> Result<(), AllocError> {
    let lits = literals_of(alloc, formula, numbers, choices)?;
    plan.push(Part::new(lits, turn, is_brittle))?;
    Ok(())
}

/// The plan that the splitters are placed first, from both ends of the network to its middle; where the rectangle is
/// nearly full, nothing is chosen first.
fn placing(alloc: Global, formula: &Formula, request: &Request) -> Result<Plan, AllocError> {
    let mut plan = Plan::new(alloc, RESTART_STEPS);
    if is_tight(request) {
        return Ok(plan);
    }
    let numbers = Numbers::new(alloc, request)?;
    let rect = request.rect();
    let chosen = places(alloc, request, rect, rect.width)?;
    let lits = literals_of(alloc, formula, &numbers, &chosen)?;
    plan.push(Part::new(lits, Turn::always(), false))?;
    Ok(plan)
}

/// The plan that all goes from the south to the north, as long as that can be; that the splitters are placed then; and,
/// by turns, that nothing is under the ground.
fn straight(
    alloc: Global,
    formula: &Formula,
    numbers: &Numbers,
    request: &Request,
    attempt: Attempt,
) -> Result<Plan, AllocError> {
    let Attempt { window, spread, .. } = attempt;
    let mut plan = Plan::new(alloc, RESTART_STEPS);
    let rows = first_rows(alloc, request, window)?;
    let always = Turn::always();
    push_choices(alloc, &mut plan, formula, numbers, &rows, always, true)?;
    let chosen = places(alloc, request, window, spread)?;
    push_choices(alloc, &mut plan, formula, numbers, &chosen, always, false)?;
    let flat = no_tunnels(alloc, request)?;
    let turn = Turn {
        steps: TURN_STEPS,
        of: 2,
        number: 0,
    };
    push_choices(alloc, &mut plan, formula, numbers, &flat, turn, false)?;
    Ok(plan)
}

/// The plan that all but what leads back goes from the south to the north, as long as that can be, and that the
/// splitters are placed then and the ways back: by turns in several orders.
fn looped(
    alloc: Global,
    formula: &Formula,
    numbers: &Numbers,
    request: &Request,
    attempt: Attempt,
) -> Result<Plan, AllocError> {
    let mut plan = Plan::new(alloc, RESTART_STEPS);
    let rows = looped_rows(alloc, request)?;
    for number in 0..ORDERS {
        let turn = Turn {
            steps: ORDER_STEPS,
            of: ORDERS,
            number,
        };
        let chosen = looped_places(alloc, request, attempt.spread, number as usize)?;
        push_choices(alloc, &mut plan, formula, numbers, &rows, turn, true)?;
        push_choices(alloc, &mut plan, formula, numbers, &chosen, turn, false)?;
    }
    Ok(plan)
}

/// The plan of an attempt.
pub fn plan_of_attempt(
    alloc: Global,
    formula: &Formula,
    numbers: &Numbers,
    request: &Request,
    attempt: Attempt,
) -> Result<Plan, AllocError> {
    match attempt.course {
        Course::Straight => straight(alloc, formula, numbers, request, attempt),
        Course::Looped => looped(alloc, formula, numbers, request, attempt),
    }
}

/// The plan of a search of a whole placement formula: of a large one its conflicts decide, by which eight to eight in
/// 7x7 is refuted in less than half the steps; of a small one the splitters are placed first, by which four to four in
/// 5x5 takes a quarter of them.
pub fn plan_of_whole(
    alloc: Global,
    formula: &Formula,
    request: &Request,
) -> Result<Plan, AllocError> {
    if is_large(request) {
        Plan::by_conflicts(alloc, formula.vars())
    } else {
        placing(alloc, formula, request)
    }
}

/// Whether the cells of the rectangle times the splitters are so many that conflicts decide best: six to six through six
/// splitters in 5x6 takes a sixth of the seconds by them, four to four through six there a tenth more.
fn is_large(request: &Request) -> bool {
    let splitters = u64::from(request.net().splitters());
    let size = cells_in(request.rect()).saturating_mul(splitters);
    size >= LARGE || (size >= LARGE_IF_TIGHT && is_tight(request))
}
