//! For each literal, the clauses that are to be visited when it becomes false.
use crate::trail::Number;
use hint_clauses::Literal;
use std::alloc::{AllocError, Global};
use std::mem::replace;

/// A clause that watches a literal, and another of its literals: where that one is true, the clause needs no visit.
#[derive(Clone, Copy)]
pub struct Watch {
    pub clause: Number,
    pub blocker: Literal,
}

/// The watches of each literal.
#[derive(Drop)]
pub struct Watches {
    lists: Vec<Vec<Watch>>,
}

impl Watches {
    /// No watches of the literals of so many variables.
    pub fn new(alloc: Global, variables: usize) -> Result<Watches, AllocError> {
        let mut lists = Vec::new(alloc);
        for _ in 0..variables.saturating_mul(2) {
            lists.push(Vec::new(alloc))?;
        }
        Ok(Watches { lists })
    }

    /// Lets a clause watch a literal.
    pub fn watch(&mut self, literal: Literal, watch: Watch) -> Result<(), AllocError> {
        if let Some(list) = self.lists.get_mut(literal.place()) {
            list.push(watch)?;
        }
        Ok(())
    }

    /// Puts a list in the place of a literal's, and gives that one; where there is no such literal, the list itself.
    pub fn exchange(&mut self, literal: Literal, list: Vec<Watch>) -> Vec<Watch> {
        match self.lists.get_mut(literal.place()) {
            Some(old) => replace(old, list),
            None => list,
        }
    }
}
