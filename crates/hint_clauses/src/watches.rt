//! For each literal, the clauses that are to be visited when it becomes false, and what follows when it is true.
use crate::clauses::Span;
use crate::literal::Literal;
use std::alloc::{AllocError, Global};
use std::mem::replace;

/// A clause that watches a literal, and another of its literals: where that one is true, the clause needs no visit.
#[derive(Clone, Copy)]
pub struct Watch {
    pub span: Span,
    pub blocker: Literal,
}

/// The watches of each literal, and the literals that follow of each by clauses of two.
#[derive(Drop)]
pub struct Watches {
    lists: Vec<Vec<Watch>>,
    followers: Vec<Vec<Literal>>,
}

/// Drops the watches of clauses that stand behind the first `length` literals of all clauses.
fn prune(list: &mut Vec<Watch>, length: usize) {
    let mut place = 0usize;
    for _ in 0..list.len() {
        if place < list.len() && list[place].span.is_behind(length) {
            let _ = list.swap_remove(place);
        } else {
            place = place.saturating_add(1);
        }
    }
}

impl Watches {
    /// No watches of the literals of so many variables.
    pub fn new(alloc: Global, variables: usize) -> Result<Watches, AllocError> {
        let mut lists = Vec::new(alloc);
        let mut followers = Vec::new(alloc);
        for _ in 0..variables.saturating_mul(2) {
            lists.push(Vec::new(alloc))?;
            followers.push(Vec::new(alloc))?;
        }
        Ok(Watches { lists, followers })
    }

    /// Lets a clause watch a literal.
    pub fn watch(&mut self, literal: Literal, watch: Watch) -> Result<(), AllocError> {
        if let Some(list) = self.lists.get_mut(literal.place()) {
            list.push(watch)?;
        }
        Ok(())
    }

    /// Notes that a literal follows of another one.
    fn follow(&mut self, from: Literal, literal: Literal) -> Result<(), AllocError> {
        if let Some(list) = self.followers.get_mut(from.place()) {
            list.push(literal)?;
        }
        Ok(())
    }

    /// Adds a clause of two literals: each follows of the negation of the other.
    pub fn join(&mut self, one: Literal, other: Literal) -> Result<(), AllocError> {
        self.follow(one.negated(), other)?;
        self.follow(other.negated(), one)
    }

    /// What follows of a literal by clauses of two.
    pub fn followers(&self, literal: Literal) -> &[Literal] {
        match self.followers.get(literal.place()) {
            Some(list) => list,
            None => &[],
        }
    }

    /// Puts a list in the place of a literal's list of watches, and gives the one that was there.
    pub fn exchange(&mut self, literal: Literal, list: Vec<Watch>) -> Vec<Watch> {
        match self.lists.get_mut(literal.place()) {
            Some(old) => replace(old, list),
            None => list,
        }
    }

    /// Drops the watches of all clauses that stand behind the first `length` literals, as where the clauses are cut
    /// there.
    pub fn truncate(&mut self, length: usize) {
        for list in self.lists.iter_mut() {
            prune(list, length);
        }
    }
}
