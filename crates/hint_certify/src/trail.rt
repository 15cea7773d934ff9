//! What is true, and why.
use bt_cnf::Lbool;
use hint_clauses::{Literal, Values};
use std::alloc::{AllocError, Global};

/// The number of a clause among those of the formula and of the proof.
pub type Number = u32;

/// What is true, in the order in which it became so.
#[derive(Drop)]
pub struct Trail {
    values: Values,
    /// For each variable the clause of which its literal followed.
    reasons: Vec<Option<Number>>,
    literals: Vec<Literal>,
}

impl Trail {
    /// The trail of so many variables, on which nothing is true.
    pub fn new(alloc: Global, variables: usize) -> Result<Trail, AllocError> {
        Ok(Trail {
            values: Values::new(alloc, variables)?,
            reasons: vec![in alloc; None; variables]?,
            literals: Vec::new(alloc),
        })
    }

    /// The values of literals.
    pub fn values(&self) -> &Values {
        &self.values
    }

    /// The value of a literal.
    pub fn value(&self, literal: Literal) -> Lbool {
        self.values.get(literal)
    }

    /// The literals that are true.
    pub fn literals(&self) -> &[Literal] {
        &self.literals
    }

    /// How many literals are true.
    pub fn len(&self) -> usize {
        self.literals.len()
    }

    /// The literal at a place, from 0 on, in the order in which they became true; none where there aren't so many.
    pub fn at(&self, place: usize) -> Option<Literal> {
        self.literals.get(place).copied()
    }

    /// The clause of which a literal's variable got its value; none where it has none, or for a trial.
    pub fn reason(&self, literal: Literal) -> Option<Number> {
        match self.reasons.get(literal.variable()) {
            Some(reason) => *reason,
            None => None,
        }
    }

    /// Makes a literal true, of a clause or for a trial.
    pub fn push(&mut self, literal: Literal, reason: Option<Number>) -> Result<(), AllocError> {
        self.literals.push(literal)?;
        self.values.set(literal);
        if let Some(old) = self.reasons.get_mut(literal.variable()) {
            *old = reason;
        }
        Ok(())
    }

    /// Takes back all but so many literals.
    pub fn cut(&mut self, count: usize) {
        for _ in count..self.literals.len() {
            if let Some(literal) = self.literals.pop() {
                self.values.clear(literal);
                if let Some(old) = self.reasons.get_mut(literal.variable()) {
                    *old = None;
                }
            }
        }
    }
}
