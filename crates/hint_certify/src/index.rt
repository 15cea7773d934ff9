//! Clauses found again by their literals, in whatever order these stand.
use crate::clauses::Database;
use crate::trail::Number;
use hint_clauses::Literal;
use std::alloc::{AllocError, Global};

/// So many lists of clauses.
const LISTS: usize = 1 << 20;

/// By what literals are mixed: its bits look like chance.
const MIXER: u64 = 0x9e37_79b9_7f4a_7c15;

/// The numbers of clauses, in lists by what their literals are mixed to.
#[derive(Drop)]
pub struct Index {
    lists: Vec<Vec<Number>>,
    /// For each literal, whether the clause that is looked for has it.
    wanted: Vec<bool>,
}

/// The number of the list for clauses with these literals, whatever their order.
fn list_of(literals: &[Literal]) -> usize {
    let mut mixed = literals.len() as u64;
    for literal in literals {
        let spread = (literal.place() as u64).wrapping_add(1).wrapping_mul(MIXER);
        mixed = mixed.wrapping_add(spread ^ (spread >> 29));
    }
    (mixed >> 32) as usize % LISTS
}

impl Index {
    /// No clause, over so many variables.
    pub fn new(alloc: Global, variables: usize) -> Result<Index, AllocError> {
        let mut lists = Vec::new(alloc);
        for _ in 0..LISTS {
            lists.push(Vec::new(alloc))?;
        }
        Ok(Index {
            lists,
            wanted: vec![in alloc; false; variables.saturating_mul(2)]?,
        })
    }

    /// Adds a clause.
    pub fn add(&mut self, literals: &[Literal], number: Number) -> Result<(), AllocError> {
        if let Some(list) = self.lists.get_mut(list_of(literals)) {
            list.push(number)?;
        }
        Ok(())
    }

    /// Says of each of these literals whether it is looked for.
    fn want(&mut self, literals: &[Literal], is_wanted: bool) {
        for literal in literals {
            if let Some(mark) = self.wanted.get_mut(literal.place()) {
                *mark = is_wanted;
            }
        }
    }

    /// Whether a clause has as many literals as are looked for, and these alone.
    fn is_wanted(&self, literals: &[Literal], count: usize) -> bool {
        literals.len() == count
            && literals
                .iter()
                .all(|literal| self.wanted.get(literal.place()) == Some(&true))
    }

    /// Takes a clause with these literals out of the lists; none where none has them.
    pub fn take(&mut self, database: &Database, literals: &[Literal]) -> Option<Number> {
        let list = list_of(literals);
        self.want(literals, true);
        let found = self.place_in(database, list, literals.len());
        self.want(literals, false);
        let place = found?;
        let list = self.lists.get_mut(list)?;
        if place < list.len() {
            Some(list.swap_remove(place))
        } else {
            None
        }
    }

    /// The place in a list of a clause with what is looked for.
    fn place_in(&self, database: &Database, list: usize, count: usize) -> Option<usize> {
        for (place, number) in self.lists.get(list)?.iter().enumerate() {
            if self.is_wanted(database.get(*number), count) {
                return Some(place);
            }
        }
        None
    }
}
