//! The clauses of which a conflict comes.
use crate::checker::Checker;
use crate::trail::Number;
use hint_clauses::Literal;
use std::alloc::{AllocError, Global};

/// Traces conflicts back to the clauses of which they come.
#[derive(Drop)]
pub struct Tracer {
    /// For each variable, whether its value is to be traced back, and whether it is assumed.
    open: Vec<bool>,
    assumed: Vec<bool>,
    /// How many values are to be traced back.
    count: usize,
}

/// Whether the mark at a literal's variable is set.
fn is_set(marks: &[bool], literal: Literal) -> bool {
    marks.get(literal.variable()) == Some(&true)
}

/// Sets the mark at a literal's variable, and tells what it was.
fn set(marks: &mut [bool], literal: Literal, mark: bool) -> bool {
    match marks.get_mut(literal.variable()) {
        Some(old) => {
            let before = *old;
            *old = mark;
            before
        }
        None => mark,
    }
}

impl Tracer {
    /// A tracer over so many variables.
    pub fn new(alloc: Global, variables: usize) -> Result<Tracer, AllocError> {
        Ok(Tracer {
            open: vec![in alloc; false; variables]?,
            assumed: vec![in alloc; false; variables]?,
            count: 0,
        })
    }

    /// Says of the variables of these literals whether they are assumed.
    pub fn assume(&mut self, literals: &[Literal], is_assumed: bool) {
        for literal in literals {
            let _ = set(&mut self.assumed, *literal, is_assumed);
        }
    }

    /// Opens the values that make a clause's literals false, but for those that are assumed.
    fn open_all(&mut self, literals: &[Literal]) {
        for literal in literals {
            if !is_set(&self.assumed, *literal) && !set(&mut self.open, *literal, true) {
                self.count = self.count.saturating_add(1);
            }
        }
    }

    /// Puts the clauses of which a conflict comes behind a list, in the order in which they make literals true, the
    /// conflict's own last, and says that they are needed.
    pub fn trace(
        &mut self,
        alloc: Global,
        checker: &mut Checker,
        conflict: Number,
        hints: &mut Vec<Number>,
    ) -> Result<(), AllocError> {
        let mut clauses = Vec::new(alloc);
        clauses.push(conflict)?;
        checker.need(conflict)?;
        self.open_all(checker.database.get(conflict));
        for back in 1..=checker.trail.len() {
            if self.count == 0 {
                break;
            }
            let place = checker.trail.len().saturating_sub(back);
            let Some(literal) = checker.trail.at(place) else {
                break;
            };
            if set(&mut self.open, literal, false) {
                self.count = self.count.saturating_sub(1);
                if let Some(reason) = checker.trail.reason(literal) {
                    self.open_others(checker.database.get(reason), literal);
                    checker.need(reason)?;
                    clauses.push(reason)?;
                }
            }
        }
        for clause in clauses.iter().rev() {
            hints.push(*clause)?;
        }
        Ok(())
    }

    /// Opens the values of all literals of a clause but one.
    fn open_others(&mut self, literals: &[Literal], literal: Literal) {
        for other in literals {
            if *other != literal {
                self.open_all(&[*other]);
            }
        }
    }
}
