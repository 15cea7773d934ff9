//! Clauses of three and more literals.
use crate::literal::Literal;
use crate::values::Values;
use std::alloc::{AllocError, Global};

/// Where the literals of a clause stand.
#[derive(Clone, Copy, PartialEq, Eq)]
pub struct Span {
    start: u32,
    end: u32,
}

impl Span {
    /// Where its first literal stands.
    pub fn start(self) -> usize {
        self.start as usize
    }

    /// Whether the clause stands behind the first `length` literals of all clauses.
    pub fn is_behind(self, length: usize) -> bool {
        self.start as usize >= length
    }
}

/// What becomes of a clause one of whose two watched literals is false.
#[derive(Clone, Copy)]
pub enum Visit {
    /// It has this literal, which is true.
    Satisfied(Literal),
    /// The first of these is watched now in place of the false one; the other one is watched too.
    NewWatch(Literal, Literal),
    /// All its literals but this one are false.
    Unit(Literal),
    /// All its literals are false.
    Conflict,
}

/// The literals of clauses, one clause behind the other.
#[derive(Drop)]
pub struct Clauses {
    literals: Vec<Literal>,
}

/// A place in four bytes. Memory counts as run out where it is 2^32 or more.
fn packed(place: usize) -> Result<u32, AllocError> {
    match u32::try_from(place) {
        Ok(place) => Ok(place),
        Err(_) => Err(AllocError),
    }
}

/// Visits a clause whose first two literals are watched, one of which is false: it is moved to the second place. A
/// clause of fewer literals counts as a conflict.
fn visited(clause: &mut [Literal], false_literal: Literal, values: &Values) -> Visit {
    if clause.len() < 2 {
        return Visit::Conflict;
    }
    if clause[0] == false_literal {
        clause.swap(0, 1);
    }
    let first = clause[0];
    if values.is_true(first) {
        return Visit::Satisfied(first);
    }
    for place in 2..clause.len() {
        let literal = clause[place];
        if !values.is_false(literal) {
            clause.swap(1, place);
            return Visit::NewWatch(literal, first);
        }
    }
    if values.is_false(first) {
        Visit::Conflict
    } else {
        Visit::Unit(first)
    }
}

/// Puts two literals to the front that aren't false, where there are two.
fn arrange(clause: &mut [Literal], values: &Values) {
    let mut front = 0usize;
    for place in 0..clause.len() {
        if front < 2 && front < clause.len() && !values.is_false(clause[place]) {
            clause.swap(front, place);
            front = front.saturating_add(1);
        }
    }
}

impl Clauses {
    /// No clauses.
    pub fn new(alloc: Global) -> Clauses {
        Clauses {
            literals: Vec::new(alloc),
        }
    }

    /// How many literals all clauses have together.
    pub fn len(&self) -> usize {
        self.literals.len()
    }

    /// Adds a clause.
    pub fn add(&mut self, literals: &[Literal]) -> Result<Span, AllocError> {
        let start = packed(self.literals.len())?;
        self.literals.extend_from_slice(literals)?;
        let end = packed(self.literals.len())?;
        Ok(Span { start, end })
    }

    /// The literals of a clause; none where its span leads beyond all literals.
    pub fn literals(&self, span: Span) -> &[Literal] {
        let (start, end) = (span.start as usize, span.end as usize);
        if start <= end && end <= self.literals.len() {
            &self.literals[start..end]
        } else {
            &[]
        }
    }

    /// Puts two literals of a clause to its front that aren't false, where it has them.
    pub fn arrange(&mut self, span: Span, values: &Values) {
        let (start, end) = (span.start as usize, span.end as usize);
        if start <= end && end <= self.literals.len() {
            arrange(self.literals.slice_mut(start..end), values);
        }
    }

    /// Visits a clause one of whose watched literals is false. A span that leads beyond all literals counts as a
    /// conflict.
    pub fn visit(&mut self, span: Span, false_literal: Literal, values: &Values) -> Visit {
        let (start, end) = (span.start as usize, span.end as usize);
        if start <= end && end <= self.literals.len() {
            visited(self.literals.slice_mut(start..end), false_literal, values)
        } else {
            Visit::Conflict
        }
    }

    /// Drops all clauses behind the first `length` literals.
    pub fn truncate(&mut self, length: usize) {
        self.literals.truncate(length);
    }
}
