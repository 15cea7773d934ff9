//! The clauses of a formula.
use crate::solver::Solver;
use bt_cnf::{Formula, Lit};
use hint_clauses::Literal;
use std::alloc::{AllocError, Global};

/// Puts literals into a list. Those whose variables have too great numbers are left out, of which there are none.
fn set_literals(list: &mut Vec<Literal>, lits: &[Lit]) -> Result<(), AllocError> {
    list.clear();
    for lit in lits {
        if let Some(literal) = Literal::new(lit.var.place(), lit.positive) {
            list.push(literal)?;
        }
    }
    Ok(())
}

/// A solver of a formula's clauses.
pub fn load(alloc: Global, formula: &Formula) -> Result<Solver, AllocError> {
    let mut solver = Solver::new(alloc, formula.vars())?;
    let mut list = Vec::new(alloc);
    for place in 0..formula.clauses() {
        if let Some(id) = formula.clause_at(place) {
            set_literals(&mut list, formula.clause(id))?;
            solver.add(&list)?;
        }
    }
    Ok(solver)
}
