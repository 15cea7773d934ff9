//! More clauses: an underground pair passes a cell that isn't empty. Belts do for any other.
use crate::around::{cell_of, count};
use crate::variables::Variables;
use bt_facts::{Content, Fact};
use bt_model::Request;
use bt_parts::{Cell, DIRS, Dir};
use hint_solver::{Literal, Solver};
use std::alloc::AllocError;

/// Adds that a fact doesn't hold, as one of the cases of a clause. Whether it has a variable.
fn push_not(
    clause: &mut Vec<Literal>,
    variables: &Variables,
    fact: Fact,
) -> Result<bool, AllocError> {
    let Some(variable) = variables.find(fact) else {
        return Ok(false);
    };
    let Some(literal) = Literal::new(variable, false) else {
        return Ok(false);
    };
    clause.push(literal)?;
    Ok(true)
}

/// Makes a clause the one by which a pair so far apart passes a cell that isn't empty. Whether all of its facts have
/// variables.
fn set_clause(
    clause: &mut Vec<Literal>,
    variables: &Variables,
    cell: Cell,
    dir: Dir,
    distance: usize,
) -> Result<bool, AllocError> {
    clause.clear();
    if !push_not(clause, variables, Fact::Pair(cell, dir, distance))? {
        return Ok(false);
    }
    let mut between = cell;
    for _ in 1..distance {
        between = between.next(dir);
        if !push_not(clause, variables, Fact::Kind(between, Content::Empty))? {
            return Ok(false);
        }
    }
    Ok(true)
}

/// Adds the clauses of the pairs from a cell.
fn add_from(
    clause: &mut Vec<Literal>,
    solver: &mut Solver,
    variables: &Variables,
    cell: Cell,
    most: usize,
) -> Result<(), AllocError> {
    for dir in &DIRS {
        for distance in 2..=most {
            if set_clause(clause, variables, cell, *dir, distance)? {
                solver.add(clause)?;
            }
        }
    }
    Ok(())
}

/// Adds the clauses of all pairs.
pub fn add_pairs(
    clause: &mut Vec<Literal>,
    solver: &mut Solver,
    variables: &Variables,
    request: &Request,
) -> Result<(), AllocError> {
    let rect = request.rect();
    let most = (request.tier().reach() as usize).saturating_add(1);
    for place in 0..count(rect) {
        add_from(clause, solver, variables, cell_of(rect, place), most)?;
    }
    Ok(())
}
