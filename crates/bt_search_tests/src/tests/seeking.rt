//! What a light search finds.
use super::{fields, formula_of, number_of};
use bt_random::Random;
use hint_solver::{Answer, Literal, Solver, load};
use std::alloc::{AllocError, Global};
use std::test::Fail;

/// Clauses of six variables, what is taken for granted, what is wished in a trial with so many conflicts at most, and what
/// that comes to. Three of three or two of two find places among two, where no two share one.
const TRIALS: &[&str] = &[
    "|||9|found",
    "1 2,-1 2|||9|found",
    "1 2,-1 2||-2|9|nothing",
    "1 2,-1 2|-2||9|nothing",
    "1 2 3,-1 2 3,1 -2 3|-3|-1|9|nothing",
    "1 2 3,-1 2 3,1 -2 3|-3|1 2|9|found",
    "1 2,3 4,-1 -3,-2 -4|1|-3|9|found",
    "1 2,3 4,-1 -3,-2 -4|1|3|9|nothing",
    "1 2,3 4,5 6,-1 -3,-1 -5,-3 -5,-2 -4,-2 -6,-4 -6|||9|nothing",
    "1 2,3 4,5 6,-1 -3,-1 -5,-3 -5,-2 -4,-2 -6,-4 -6|||0|spent",
];

/// Clauses of six variables, with how many conflicts at most they are searched, and what that comes to.
const SEARCHES: &[&str] = &[
    "|9|found",
    "1 2,-1 2|9|found",
    "1 2,3 4,-1 -3,-2 -4|9|found",
    "1 2 3,-1 -2 -3,1 -2 4,-4 5 6,-5 -6|9|found",
    "1 2,-1 2,1 -2,-1 -2|9|nothing",
    "1 2,3 4,5 6,-1 -3,-1 -5,-3 -5,-2 -4,-2 -6,-4 -6|9|nothing",
    "1 2,3 4,5 6,-1 -3,-1 -5,-3 -5,-2 -4,-2 -6,-4 -6|0|spent",
];

/// The literals of a text.
fn literals_of(alloc: Global, text: &str) -> Result<Vec<Literal>, AllocError> {
    let mut literals = Vec::new(alloc);
    for word in text.split(' ') {
        let number = word.parse::<i64>().unwrap_or(0);
        let variable = (number.unsigned_abs() as usize).wrapping_sub(1);
        if let Some(literal) = Literal::new(variable, number > 0) {
            literals.push(literal)?;
        }
    }
    Ok(literals)
}

/// Whether the literals are true now.
fn are_true(solver: &Solver, literals: &[Literal]) -> bool {
    literals.iter().all(|literal| solver.is_true(*literal))
}

/// The name of what a search comes to, empty where what it finds isn't as it should be.
fn name_of(answer: Answer, is_right: bool) -> &'static str {
    match answer {
        Answer::Found => { if is_right { "found" } else { "" } }
        Answer::Nothing => "nothing",
        Answer::Spent => "spent",
    }
}

/// The name of what a trial comes to, empty where what it finds lacks a literal that is wished.
fn outcome(
    alloc: Global,
    solver: &mut Solver,
    wished: &[Literal],
    conflicts: usize,
) -> Result<&'static str, AllocError> {
    let mut random = Random::new(1);
    let answer = solver.attempt(alloc, wished, conflicts as u64, 2, &mut random)?;
    Ok(name_of(answer, are_true(solver, wished)))
}

/// Whether the trial of a row comes to what it says.
fn is_tried(alloc: Global, row: &str) -> Result<bool, AllocError> {
    let [clauses, granted, wished, conflicts, name] = fields(row, '|');
    let formula = formula_of(alloc, 6, &[], clauses)?;
    let mut solver = load(alloc, &formula)?;
    let granted = literals_of(alloc, granted)?;
    let wished = literals_of(alloc, wished)?;
    let is_granted = solver.grant(alloc, &granted)?;
    if !is_granted {
        return Ok(name == "nothing");
    }
    Ok(outcome(alloc, &mut solver, &wished, number_of(conflicts))? == name)
}

#[test]
fn trials_come_to_what_is_there(rt: HostRuntime) -> Result<(), Fail> {
    for row in TRIALS {
        assert!(rt; is_tried(rt.alloc(), row)?, "{row}");
    }
    Ok(())
}

/// Whether each clause of a text has a literal that is true now.
fn are_met(alloc: Global, solver: &Solver, clauses: &str) -> Result<bool, AllocError> {
    if clauses.is_empty() {
        return Ok(true);
    }
    for clause in clauses.split(',') {
        let literals = literals_of(alloc, clause)?;
        if literals.iter().all(|literal| !solver.is_true(*literal)) {
            return Ok(false);
        }
    }
    Ok(true)
}

/// Whether the search of a row comes to what it says, and gives each clause a true literal where it finds a model.
fn is_searched(alloc: Global, row: &str) -> Result<bool, AllocError> {
    let [clauses, conflicts, name, _, _] = fields(row, '|');
    let formula = formula_of(alloc, 6, &[], clauses)?;
    let mut solver = load(alloc, &formula)?;
    let answer = solver.search(alloc, number_of(conflicts) as u64, &mut Random::new(1))?;
    Ok(name_of(answer, are_met(alloc, &solver, clauses)?) == name)
}

#[test]
fn searches_come_to_what_is_there(rt: HostRuntime) -> Result<(), Fail> {
    for row in SEARCHES {
        assert!(rt; is_searched(rt.alloc(), row)?, "{row}");
    }
    Ok(())
}
