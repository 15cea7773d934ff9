//! Tracing a conflict back to the clause that is learnt from it (the first unique implication point).
use crate::minimizing::Minimizer;
use crate::order::Order;
use hint_clauses::{Clauses, Conflict, Literal, Reason, Search, Span, Trail};
use std::alloc::{AllocError, Global};

/// What is learnt from a conflict, but for the literals.
#[derive(Clone, Copy)]
pub struct Lesson {
    /// The greatest level at which all literals but the first are false.
    pub back: usize,
    /// At how many levels its literals became false.
    pub levels: usize,
}

/// The clause that is being learnt.
#[derive(Drop)]
pub struct Tracer {
    /// Its literals, and at the end the one first that is to become true.
    literals: Vec<Literal>,
    /// The literals that were seen, and for each variable whether its was.
    seen: Vec<Literal>,
    marks: Vec<bool>,
    /// How many of them of the present level are still to be traced.
    open: usize,
    /// For each level, the last lesson in which it was counted.
    stamps: Vec<u64>,
    lessons: u64,
    /// Whether reasons of reasons are looked at, and clauses noted that are.
    is_thorough: bool,
    minimizer: Minimizer,
    /// The clauses that were looked at since a thorough search dropped some last.
    used: Vec<Span>,
}

impl Tracer {
    /// A tracer for clauses over so many variables.
    pub fn new(alloc: Global, variables: usize) -> Result<Tracer, AllocError> {
        Ok(Tracer {
            literals: Vec::new(alloc),
            seen: Vec::new(alloc),
            marks: vec![in alloc; false; variables]?,
            open: 0,
            stamps: vec![in alloc; 0; variables.saturating_add(3)]?,
            lessons: 0,
            is_thorough: false,
            minimizer: Minimizer::new(alloc, variables)?,
            used: Vec::new(alloc),
        })
    }

    /// The literals of the clause that was learnt last.
    pub fn literals(&self) -> &[Literal] {
        &self.literals
    }

    /// Begins or ends a thorough search.
    pub fn be_thorough(&mut self, is_thorough: bool) {
        self.is_thorough = is_thorough;
        self.used.clear();
    }

    /// The clauses that were looked at in a thorough search, as often as they were; none from now on.
    pub fn take_used(&mut self, alloc: Global) -> Vec<Span> {
        std::mem::replace(&mut self.used, Vec::new(alloc))
    }

    /// Notes that a clause was looked at.
    fn note(&mut self, span: Span) -> Result<(), AllocError> {
        if self.is_thorough {
            self.used.push(span)?;
        }
        Ok(())
    }

    /// Whether a literal was seen.
    fn is_marked(&self, literal: Literal) -> bool {
        match self.marks.get(literal.variable()) {
            Some(mark) => *mark,
            None => false,
        }
    }

    /// Marks a literal as seen or not.
    fn mark(&mut self, literal: Literal, is_seen: bool) {
        if let Some(mark) = self.marks.get_mut(literal.variable()) {
            *mark = is_seen;
        }
    }

    /// Sees a literal that is false, which is traced where it is of the present level, or else learnt. One that was
    /// seen or is false for good is passed over.
    fn see(
        &mut self,
        trail: &Trail,
        order: &mut Order,
        literal: Literal,
    ) -> Result<(), AllocError> {
        let level = trail.level_of(literal);
        if level == 0 || self.is_marked(literal) {
            return Ok(());
        }
        self.mark(literal, true);
        self.seen.push(literal)?;
        order.raise(literal.variable());
        if level == trail.level() {
            self.open = self.open.saturating_add(1);
        } else {
            self.literals.push(literal)?;
        }
        Ok(())
    }

    /// Sees each of these literals, which are false.
    fn see_all(
        &mut self,
        trail: &Trail,
        order: &mut Order,
        literals: &[Literal],
    ) -> Result<(), AllocError> {
        for literal in literals {
            self.see(trail, order, *literal)?;
        }
        Ok(())
    }

    /// Sees the literals of a conflict.
    fn see_conflict(
        &mut self,
        search: &Search,
        order: &mut Order,
        conflict: Conflict,
    ) -> Result<(), AllocError> {
        match conflict {
            Conflict::Either(one, other) => self.see_all(&search.trail, order, &[one, other]),
            Conflict::Clause(span) => {
                self.note(span)?;
                self.see_all(&search.trail, order, search.clauses.literals(span))
            }
        }
    }

    /// Sees the other literals of the clause that made a literal true, where it wasn't chosen.
    fn see_reason(
        &mut self,
        search: &Search,
        order: &mut Order,
        literal: Literal,
    ) -> Result<(), AllocError> {
        match search.trail.reason_of(literal) {
            Reason::Choice => Ok(()),
            Reason::Either(other) => self.see(&search.trail, order, other),
            Reason::Clause(span) => {
                self.note(span)?;
                self.see_all(&search.trail, order, search.clauses.literals(span))
            }
        }
    }

    /// Traces literals of the present level back until one is left, whose negation is learnt last.
    fn trace_back(&mut self, search: &Search, order: &mut Order) -> Result<(), AllocError> {
        for literal in search.trail.literals().iter().rev() {
            if !self.is_marked(*literal) {
                continue;
            }
            self.open = self.open.saturating_sub(1);
            if self.open == 0 {
                self.literals.push(literal.negated())?;
                break;
            }
            self.see_reason(search, order, *literal)?;
        }
        Ok(())
    }

    /// Whether a literal is false for good, was seen, or is of this variable.
    fn is_covered(&self, trail: &Trail, literal: Literal, variable: usize) -> bool {
        literal.variable() == variable || self.is_marked(literal) || trail.level_of(literal) == 0
    }

    /// Whether literals are each false for good, seen, or of this variable.
    fn are_covered(&self, trail: &Trail, literals: &[Literal], variable: usize) -> bool {
        for literal in literals {
            if !self.is_covered(trail, *literal, variable) {
                return false;
            }
        }
        true
    }

    /// Whether a literal is false since others that were seen are, by its reason alone.
    fn is_redundant(&self, trail: &Trail, clauses: &Clauses, literal: Literal) -> bool {
        let variable = literal.variable();
        match trail.reason_of(literal) {
            Reason::Choice => false,
            Reason::Either(other) => self.is_covered(trail, other, variable),
            Reason::Clause(span) => self.are_covered(trail, clauses.literals(span), variable),
        }
    }

    /// Whether a clause that is learnt can do without a literal.
    fn can_go(&mut self, search: &Search, literal: Literal) -> Result<bool, AllocError> {
        if self.is_thorough {
            self.minimizer.is_implied(search, literal)
        } else {
            Ok(self.is_redundant(&search.trail, &search.clauses, literal))
        }
    }

    /// Drops the literals that are redundant; the last one, which comes first then, stays.
    fn shorten(&mut self, alloc: Global, search: &Search) -> Result<(), AllocError> {
        let literals = std::mem::replace(&mut self.literals, Vec::new(alloc));
        if let Some(last) = literals.last() {
            self.literals.push(*last)?;
        }
        let others = literals.len().saturating_sub(1);
        for literal in literals.iter().take(others) {
            if !self.can_go(search, *literal)? {
                self.literals.push(*literal)?;
            }
        }
        Ok(())
    }

    /// Drops the literals that are redundant, by what is known of those that were seen.
    fn minimize(&mut self, alloc: Global, search: &Search) -> Result<(), AllocError> {
        if self.is_thorough {
            self.minimizer.begin(&self.seen)?;
        }
        self.shorten(alloc, search)?;
        self.minimizer.clear();
        Ok(())
    }

    /// Puts the literal of the greatest level among all but the first in the second place. Gives that level, or 0 where
    /// there is one literal alone.
    fn arrange(&mut self, trail: &Trail) -> usize {
        let (mut best, mut back) = (1usize, 0usize);
        for place in 1..self.literals.len() {
            let level = trail.level_of(self.literals[place]);
            if level > back {
                best = place;
                back = level;
            }
        }
        if best > 1 && best < self.literals.len() {
            self.literals.swap(1, best);
        }
        back
    }

    /// Whether a level wasn't counted in this lesson yet. From now on it is counted.
    fn is_new(&mut self, level: usize) -> bool {
        let lessons = self.lessons;
        match self.stamps.get_mut(level) {
            Some(stamp) if *stamp != lessons => {
                *stamp = lessons;
                true
            }
            _ => false,
        }
    }

    /// At how many levels the literals became false.
    fn count_levels(&mut self, trail: &Trail) -> usize {
        self.lessons = self.lessons.saturating_add(1);
        let mut levels = 0usize;
        for place in 0..self.literals.len() {
            let level = match self.literals.get(place) {
                Some(literal) => trail.level_of(*literal),
                None => 0,
            };
            if self.is_new(level) {
                levels = levels.saturating_add(1);
            }
        }
        levels
    }

    /// Forgets what was seen.
    fn clear(&mut self) {
        for _ in 0..self.seen.len() {
            if let Some(literal) = self.seen.pop() {
                self.mark(literal, false);
            }
        }
    }

    /// Learns a clause from a conflict, whose level comes behind what was taken for granted.
    pub fn learn(
        &mut self,
        alloc: Global,
        search: &Search,
        order: &mut Order,
        conflict: Conflict,
    ) -> Result<Lesson, AllocError> {
        self.literals.clear();
        self.open = 0;
        self.see_conflict(search, order, conflict)?;
        self.trace_back(search, order)?;
        self.minimize(alloc, search)?;
        self.clear();
        let back = self.arrange(&search.trail);
        let levels = self.count_levels(&search.trail);
        Ok(Lesson { back, levels })
    }
}
