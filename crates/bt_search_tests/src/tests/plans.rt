//! What a search decides by a plan.
use super::{add_clauses, fields, is_modelled, literals_of, number_of};
use bt_choosers::{Highest, Part, Plan, Turn};
use bt_cnf::Formula;
use bt_sat::Solver;
use std::alloc::{AllocError, Global};
use std::test::Fail;

/// Clauses of three variables, the literals of two parts of a plan, the first brittle where it is marked by an
/// exclamation mark, the stretch in which the second serves of two stretches of nine steps, and the first model. Where
/// the plan makes no choice, the highest variable is set to true.
const MODELS: &[&str] = &[
    "|||0|ttt",
    "|-3 -2||0|tff",
    "|-3|-2|0|tff",
    "|-3|-2|1|ttf",
    "3|-3 -2||0|tft",
    "3|-3 -2!||0|ttt",
    "3|-2 -3!||0|tft",
    "3|-3!|-2|0|tft",
    "-1 2 3|-3 -2||0|fff",
];

/// Adds a part with the literals of a text, as far as they are of variables.
fn add_part(
    alloc: Global,
    plan: &mut Plan,
    formula: &Formula,
    text: &str,
    turn: Turn,
) -> Result<(), AllocError> {
    let is_brittle = text.ends_with('!');
    let lits = literals_of(alloc, formula, text.trim_end_matches('!'))?;
    plan.push(Part::new(lits, turn, is_brittle))
}

/// Adds the clauses and the parts of a row.
fn add_row(
    alloc: Global,
    formula: &mut Formula,
    plan: &mut Plan,
    row: &str,
) -> Result<(), AllocError> {
    let [clauses, first, second, stretch, ..] = fields(row, '|');
    let later = Turn {
        steps: 9,
        of: 2,
        number: number_of(stretch) as u64,
    };
    add_clauses(alloc, formula, clauses)?;
    add_part(alloc, plan, formula, first, Turn::always())?;
    add_part(alloc, plan, formula, second, later)
}

/// A search by a row's plan that restarts after so many steps.
fn solver_of(alloc: Global, row: &str, unit: u64) -> Result<Solver<Highest>, AllocError> {
    let choosers = vec![in alloc; Highest::new()]?;
    let mut formula = Formula::new(alloc, 3)?;
    let mut plan = Plan::new(alloc, unit);
    add_row(alloc, &mut formula, &mut plan, row)?;
    Solver::by_plan(alloc, formula, choosers, 9, plan)
}

/// Whether the first model is what a row says.
fn is_decided(alloc: Global, row: &str, unit: u64) -> Result<bool, AllocError> {
    let [_, _, _, _, values] = fields(row, '|');
    is_modelled(&mut solver_of(alloc, row, unit)?, values)
}

#[test]
fn plans_decide_the_first_model(rt: HostRuntime) -> Result<(), Fail> {
    for row in MODELS {
        assert!(rt; is_decided(rt.alloc(), row, 0)?, "{row}");
        assert!(rt; is_decided(rt.alloc(), row, 1)?, "{row}");
    }
    Ok(())
}
