//! The clauses of a formula and of a proof, and which of them are there at the moment.
use crate::trail::Number;
use hint_clauses::{Clauses, Literal, Span, Values};
use std::alloc::{AllocError, Global};

/// A clause: where its literals stand, whether it is there, and whether the empty clause needs it.
#[derive(Clone, Copy)]
pub struct Entry {
    pub span: Span,
    pub is_there: bool,
    pub is_core: bool,
}

/// Clauses with numbers.
#[derive(Drop)]
pub struct Database {
    pub literals: Clauses,
    entries: Vec<Entry>,
}

impl Database {
    /// No clauses.
    pub fn new(alloc: Global) -> Database {
        Database {
            literals: Clauses::new(alloc),
            entries: Vec::new(alloc),
        }
    }

    /// How many clauses were added, whether they are there or not.
    pub fn len(&self) -> usize {
        self.entries.len()
    }

    /// Adds a clause, and gives its number. One that doesn't fit 32 bits is want of memory.
    pub fn add(&mut self, literals: &[Literal]) -> Result<Number, AllocError> {
        let Ok(number) = u32::try_from(self.entries.len()) else {
            return Err(AllocError);
        };
        let span = self.literals.add(literals)?;
        self.entries.push(Entry {
            span,
            is_there: true,
            is_core: false,
        })?;
        Ok(number)
    }

    /// What is known of a clause.
    pub fn entry(&self, number: Number) -> Option<Entry> {
        self.entries.get(number as usize).copied()
    }

    /// The literals of a clause; none where no clause has the number.
    pub fn get(&self, number: Number) -> &[Literal] {
        match self.entries.get(number as usize) {
            Some(entry) => self.literals.literals(entry.span),
            None => &[],
        }
    }

    /// Whether the empty clause needs a clause, as far as is known.
    pub fn is_core(&self, number: Number) -> bool {
        match self.entries.get(number as usize) {
            Some(entry) => entry.is_core,
            None => false,
        }
    }

    /// Says whether a clause is there.
    pub fn set_there(&mut self, number: Number, is_there: bool) {
        if let Some(entry) = self.entries.get_mut(number as usize) {
            entry.is_there = is_there;
        }
    }

    /// Says that the empty clause needs a clause; whether that is new.
    pub fn set_core(&mut self, number: Number) -> bool {
        match self.entries.get_mut(number as usize) {
            Some(entry) if !entry.is_core => {
                entry.is_core = true;
                true
            }
            _ => false,
        }
    }

    /// Puts two literals of a clause to its front that aren't false, where it has them.
    pub fn arrange(&mut self, number: Number, values: &Values) {
        if let Some(entry) = self.entries.get(number as usize) {
            self.literals.arrange(entry.span, values);
        }
    }
}
