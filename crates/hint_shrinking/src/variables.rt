//! The variables of facts, and the search of a formula over them.
use bt_cnf::{Formula, Lit};
use bt_facts::Fact;
use bt_model::Request;
use bt_place::Numbers;
use hint_solver::{Literal, Solver};
use std::alloc::{AllocError, Global};
use std::collections::BTreeMap;

/// An odd number with bits by chance.
const MIX: u64 = 0x9E37_79B9_7F4A_7C15;

/// The variables of facts, of which some share one.
#[derive(Drop)]
pub struct Variables {
    numbers: Numbers,
    /// For each variable the one that stands for it; itself, where there is none.
    standing: Vec<usize>,
}

/// A number that tells a clause from others, whatever the order of its literals: of a few hundred thousand clauses hardly
/// two share one, and a clause that so gets lost costs no more than the time of a search.
fn mark_of(literals: &[Literal]) -> u64 {
    let mut mark = literals.len() as u64;
    for literal in literals {
        let mixed = (literal.place() as u64).wrapping_add(1).wrapping_mul(MIX);
        let folded = (mixed ^ (mixed >> 29)).wrapping_mul(MIX);
        mark = mark.wrapping_add(folded ^ (folded >> 32));
    }
    mark
}

/// Adds a literal to a clause unless this has it. False where the clause has its negation, and so is always true.
fn push_new(clause: &mut Vec<Literal>, literal: Literal) -> Result<bool, AllocError> {
    for other in clause.iter() {
        if *other == literal {
            return Ok(true);
        }
        if *other == literal.negated() {
            return Ok(false);
        }
    }
    clause.push(literal)?;
    Ok(true)
}

impl Variables {
    /// The variables of a request's facts, of which none share one yet.
    pub fn new(alloc: Global, request: &Request) -> Result<Variables, AllocError> {
        Ok(Variables {
            numbers: Numbers::new(alloc, request)?,
            standing: Vec::new(alloc),
        })
    }

    /// The variable that stands for one.
    fn standing(&self, variable: usize) -> usize {
        match self.standing.get(variable) {
            Some(other) => *other,
            None => variable,
        }
    }

    /// The variable of a fact, where it has one.
    pub fn find(&self, fact: Fact) -> Option<usize> {
        let variable = self.numbers.find(fact)?;
        Some(self.standing(variable))
    }

    /// Lets facts share variables, of which there are so many.
    pub fn begin_sharing(&mut self, variables: usize) -> Result<(), AllocError> {
        for variable in self.standing.len()..variables {
            self.standing.push(variable)?;
        }
        Ok(())
    }

    /// Lets two facts share a variable, both or neither of which hold.
    pub fn share(&mut self, one: Fact, other: Fact) {
        if let (Some(one), Some(other)) = (self.find(one), self.find(other)) {
            if let Some(standing) = self.standing.get_mut(one.max(other)) {
                *standing = one.min(other);
            }
        }
    }

    /// Makes a clause of literals. Whether it isn't always true.
    fn set_clause(&self, clause: &mut Vec<Literal>, lits: &[Lit]) -> Result<bool, AllocError> {
        clause.clear();
        for lit in lits {
            let variable = self.standing(lit.var.place());
            if let Some(literal) = Literal::new(variable, lit.positive) {
                if !push_new(clause, literal)? {
                    return Ok(false);
                }
            }
        }
        Ok(true)
    }

    /// A search of a formula in which variables are shared, with each clause once.
    pub fn solver(&self, alloc: Global, formula: &Formula) -> Result<Solver, AllocError> {
        let mut solver = Solver::new(alloc, formula.vars())?;
        let mut clause = Vec::new(alloc);
        let mut marks = BTreeMap::new(alloc);
        for place in 0..formula.clauses() {
            if let Some(id) = formula.clause_at(place) {
                if self.set_clause(&mut clause, formula.clause(id))? {
                    if marks.insert(mark_of(&clause), place)?.is_none() {
                        solver.add(&clause)?;
                    }
                }
            }
        }
        Ok(solver)
    }
}
