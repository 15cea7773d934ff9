//! What is true, in the order in which it became so.
use crate::clauses::Span;
use crate::literal::Literal;
use crate::values::Values;
use bt_cnf::Lbool;
use std::alloc::{AllocError, Global};

/// Why a literal is true.
#[derive(Clone, Copy, PartialEq, Eq)]
pub enum Reason {
    /// It was taken for granted or chosen.
    Choice,
    /// This literal is false, and one of the two is true.
    Either(Literal),
    /// All other literals of this clause are false.
    Clause(Span),
}

/// When and why a variable got its value.
#[derive(Clone, Copy)]
struct Record {
    level: usize,
    reason: Reason,
}

/// What is true, by levels: each begins with what is taken for granted or with a choice.
#[derive(Drop)]
pub struct Trail {
    values: Values,
    records: Vec<Record>,
    literals: Vec<Literal>,
    starts: Vec<usize>,
    /// What follows of so many literals is true too.
    propagated: usize,
}

impl Trail {
    /// The trail of so many variables, on which nothing is true.
    pub fn new(alloc: Global, variables: usize) -> Result<Trail, AllocError> {
        let record = Record {
            level: 0,
            reason: Reason::Choice,
        };
        Ok(Trail {
            values: Values::new(alloc, variables)?,
            records: vec![in alloc; record; variables]?,
            literals: Vec::new(alloc),
            starts: Vec::new(alloc),
            propagated: 0,
        })
    }

    /// The values of literals.
    pub fn values(&self) -> &Values {
        &self.values
    }

    /// The number of variables.
    pub fn variables(&self) -> usize {
        self.records.len()
    }

    /// The literals that are true.
    pub fn literals(&self) -> &[Literal] {
        &self.literals
    }

    /// The present level, which is the last that began; 0 where none did.
    pub fn level(&self) -> usize {
        self.starts.len()
    }

    /// The level at which a literal's variable got its value.
    pub fn level_of(&self, literal: Literal) -> usize {
        match self.records.get(literal.variable()) {
            Some(record) => record.level,
            None => 0,
        }
    }

    /// Why a literal's variable got its value.
    pub fn reason_of(&self, literal: Literal) -> Reason {
        match self.records.get(literal.variable()) {
            Some(record) => record.reason,
            None => Reason::Choice,
        }
    }

    /// Begins a level.
    pub fn begin(&mut self) -> Result<(), AllocError> {
        self.starts.push(self.literals.len())?;
        Ok(())
    }

    /// Makes a literal true, for a reason.
    pub fn push(&mut self, literal: Literal, reason: Reason) -> Result<(), AllocError> {
        let level = self.level();
        self.values.set(literal);
        if let Some(record) = self.records.get_mut(literal.variable()) {
            *record = Record { level, reason };
        }
        self.literals.push(literal)?;
        Ok(())
    }

    /// Makes a literal true without a reason, where it has no value. Whether it is true then.
    pub fn choose(&mut self, literal: Literal) -> Result<bool, AllocError> {
        match self.values.get(literal) {
            Lbool::Unset => {
                self.push(literal, Reason::Choice)?;
                Ok(true)
            }
            Lbool::True => Ok(true),
            Lbool::False => Ok(false),
        }
    }

    /// The next literal of which it is to be looked what follows. None where all were looked at.
    pub fn next(&mut self) -> Option<Literal> {
        let literal = *self.literals.get(self.propagated)?;
        self.propagated = self.propagated.saturating_add(1);
        Some(literal)
    }

    /// Takes back the last literal, where there are more than `least`. None else.
    pub fn pop(&mut self, least: usize) -> Option<Literal> {
        if self.literals.len() <= least {
            return None;
        }
        let literal = self.literals.pop()?;
        self.values.clear(literal);
        Some(literal)
    }

    /// How many literals come before a level ends. The last level ends with the trail.
    pub fn end_of(&self, level: usize) -> usize {
        match self.starts.get(level) {
            Some(start) => *start,
            None => self.literals.len(),
        }
    }

    /// Ends the levels behind this one, whose literals were taken back.
    pub fn end(&mut self, level: usize) {
        self.starts.truncate(level);
        self.propagated = self.propagated.min(self.literals.len());
    }

    /// Forgets why literals are true, while all that are true are so for good.
    pub fn forget_reasons(&mut self) {
        for record in self.records.iter_mut() {
            record.reason = Reason::Choice;
        }
    }
}
