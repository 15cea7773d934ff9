//! How variables are set where nothing speaks against it: as wished at first, then as they were last. A thorough search
//! sets them as they were where the most were set without a conflict, and changes that by turns (Biere's CaDiCaL).
use bt_random::Random;
use hint_clauses::{Literal, Trail};
use std::alloc::{AllocError, Global};

/// What variables are set to when that is changed.
#[derive(Clone, Copy)]
enum Change {
    /// What is not wished.
    Inverted,
    /// As they were where the most were set without a conflict since this change was made last.
    Best,
    /// Not as they were last.
    Flipped,
    ByChance,
    Wished,
}

/// The changes, by turns.
const CHANGES: [Change; 8] = [
    Change::Inverted,
    Change::Best,
    Change::Flipped,
    Change::Best,
    Change::ByChance,
    Change::Best,
    Change::Wished,
    Change::Best,
];

/// So many conflicts come before the first change, and as many more before each further one.
const PERIOD: u64 = 1_000;

/// How variables were set where the most were without a conflict.
#[derive(Drop)]
struct Furthest {
    /// How many were set.
    count: usize,
    /// How each was set then or before; empty where there is no such place.
    values: Vec<bool>,
}

impl Furthest {
    /// No such place.
    fn new(alloc: Global) -> Furthest {
        Furthest {
            count: 0,
            values: Vec::new(alloc),
        }
    }

    /// Notes how variables are set, where so many are set without a conflict and fewer were before.
    fn note(&mut self, count: usize, values: &[bool]) -> Result<(), AllocError> {
        if count > self.count {
            self.count = count;
            self.values.clear();
            self.values.extend_from_slice(values)?;
        }
        Ok(())
    }

    /// Forgets the place.
    fn forget(&mut self) {
        self.count = 0;
        self.values.clear();
    }
}

/// How variables are set where nothing speaks against it.
#[derive(Drop)]
pub struct Phases {
    /// For each variable, how it is wished to be set; and how it was set last.
    wishes: Vec<bool>,
    last: Vec<bool>,
    /// In a thorough search, the furthest place since the last change, and since the best one was come back to.
    target: Furthest,
    best: Furthest,
    /// How many changes there were, and at how many conflicts the next one is.
    changes: usize,
    next: u64,
}

impl Phases {
    /// All of so many variables are set to false.
    pub fn new(alloc: Global, variables: usize) -> Result<Phases, AllocError> {
        Ok(Phases {
            wishes: vec![in alloc; false; variables]?,
            last: vec![in alloc; false; variables]?,
            target: Furthest::new(alloc),
            best: Furthest::new(alloc),
            changes: 0,
            next: 0,
        })
    }

    /// The number of variables.
    pub fn len(&self) -> usize {
        self.wishes.len()
    }

    /// Wishes a variable to be true.
    pub fn wish(&mut self, variable: usize) {
        if let Some(wish) = self.wishes.get_mut(variable) {
            *wish = true;
        }
    }

    /// How a variable is set.
    pub fn get(&self, variable: usize) -> bool {
        match self.target.values.get(variable) {
            Some(value) => *value,
            None => self.last.get(variable).copied().unwrap_or(false),
        }
    }

    /// Notes that a literal was true.
    pub fn set(&mut self, literal: Literal) {
        if let Some(last) = self.last.get_mut(literal.variable()) {
            *last = literal.is_positive();
        }
    }

    /// Sets variables as wished.
    pub fn reset(&mut self, variables: &[usize]) {
        self.target.forget();
        for variable in variables {
            if let (Some(last), Some(wish)) = (
                self.last.get_mut(*variable),
                self.wishes.get(*variable),
            ) {
                *last = *wish;
            }
        }
    }

    /// Begins a thorough search after so many conflicts.
    pub fn begin(&mut self, conflicts: u64) {
        self.set_by_wishes(false);
        self.target.forget();
        self.best.forget();
        self.changes = 0;
        self.next = conflicts.saturating_add(PERIOD);
    }

    /// Notes how variables are set where there is a conflict at the last level, behind as many as before it.
    pub fn note(&mut self, trail: &Trail) -> Result<(), AllocError> {
        let count = trail.end_of(trail.level().saturating_sub(1));
        if count > self.target.count || count > self.best.count {
            for literal in trail.literals() {
                self.set(*literal);
            }
            self.target.note(count, &self.last)?;
            self.best.note(count, &self.last)?;
        }
        Ok(())
    }

    /// Sets each variable as it is wished, or each as it isn't.
    fn set_by_wishes(&mut self, is_inverted: bool) {
        for variable in 0..self.wishes.len() {
            if let (Some(last), Some(wish)) = (
                self.last.get_mut(variable),
                self.wishes.get(variable),
            ) {
                *last = *wish != is_inverted;
            }
        }
    }

    /// Sets each variable as it wasn't.
    fn flip(&mut self) {
        for last in self.last.iter_mut() {
            *last = !*last;
        }
    }

    /// Sets each variable by chance.
    fn set_by_chance(&mut self, random: &mut Random) {
        for last in self.last.iter_mut() {
            *last = random.below(2) == 0;
        }
    }

    /// Sets each variable as at the best place, which is sought anew.
    fn set_best(&mut self) {
        for variable in 0..self.best.values.len() {
            if let (Some(last), Some(best)) = (
                self.last.get_mut(variable),
                self.best.values.get(variable),
            ) {
                *last = *best;
            }
        }
        self.best.count = 0;
    }

    /// Makes a change.
    fn make(&mut self, change: Change, random: &mut Random) {
        match change {
            Change::Inverted => self.set_by_wishes(true),
            Change::Best => self.set_best(),
            Change::Flipped => self.flip(),
            Change::ByChance => self.set_by_chance(random),
            Change::Wished => self.set_by_wishes(false),
        }
    }

    /// Makes the next change, where there were as many conflicts as it comes after.
    pub fn change(&mut self, conflicts: u64, random: &mut Random) {
        if conflicts < self.next {
            return;
        }
        if let Some(change) = CHANGES.get(self.changes % CHANGES.len()) {
            self.make(*change, random);
        }
        self.target.forget();
        self.changes = self.changes.saturating_add(1);
        let further = (self.changes as u64).saturating_add(1);
        self.next = conflicts.saturating_add(PERIOD.saturating_mul(further));
    }
}
