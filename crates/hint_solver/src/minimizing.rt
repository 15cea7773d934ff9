//! Which literals a clause can do without that is learnt, since they are false where its others are: by the reasons of
//! reasons (Sörensson and Biere).
use hint_clauses::{Literal, Reason, Search, Trail};
use std::alloc::{AllocError, Global};

/// What is known of a variable's literal that is false.
#[derive(Clone, Copy, PartialEq, Eq)]
enum Mark {
    Unknown,
    /// It is of the clause, or false where that is.
    Covered,
    /// It isn't known to be.
    Needed,
}

/// A literal whose reason is walked through.
#[derive(Clone, Copy)]
struct Frame {
    literal: Literal,
    /// Where the walk goes on.
    next: usize,
}

/// A literal of a reason that isn't known to be covered.
#[derive(Clone, Copy)]
struct Open {
    literal: Literal,
    /// Where it stands in the reason.
    at: usize,
}

/// What one more look at a reason comes to.
#[derive(Clone, Copy)]
enum Look {
    GoesOn,
    Ends(bool),
}

/// What is known of the literals that one conflict leads back to.
#[derive(Drop)]
pub struct Minimizer {
    marks: Vec<Mark>,
    marked: Vec<Literal>,
    frames: Vec<Frame>,
}

/// Whether a literal was chosen, or taken for granted.
fn is_chosen(trail: &Trail, literal: Literal) -> bool {
    trail.reason_of(literal) == Reason::Choice
}

impl Minimizer {
    /// For clauses over so many variables.
    pub fn new(alloc: Global, variables: usize) -> Result<Minimizer, AllocError> {
        Ok(Minimizer {
            marks: vec![in alloc; Mark::Unknown; variables]?,
            marked: Vec::new(alloc),
            frames: Vec::new(alloc),
        })
    }

    /// What is known of a literal.
    fn mark_of(&self, literal: Literal) -> Mark {
        match self.marks.get(literal.variable()) {
            Some(mark) => *mark,
            None => Mark::Unknown,
        }
    }

    /// Marks a literal.
    fn put(&mut self, literal: Literal, new: Mark) {
        if let Some(mark) = self.marks.get_mut(literal.variable()) {
            *mark = new;
        }
    }

    /// Marks a literal of which nothing is known.
    fn mark(&mut self, literal: Literal, new: Mark) -> Result<(), AllocError> {
        if self.mark_of(literal) == Mark::Unknown {
            self.put(literal, new);
            self.marked.push(literal)?;
        }
        Ok(())
    }

    /// Begins with the literals that were seen.
    pub fn begin(&mut self, seen: &[Literal]) -> Result<(), AllocError> {
        for literal in seen {
            self.mark(*literal, Mark::Covered)?;
        }
        Ok(())
    }

    /// Forgets all.
    pub fn clear(&mut self) {
        for _ in 0..self.marked.len() {
            if let Some(literal) = self.marked.pop() {
                self.put(literal, Mark::Unknown);
            }
        }
    }

    /// The first literal of a reason, from where the walk goes on, that isn't known to be covered.
    fn open_in(&self, trail: &Trail, reason: &[Literal], frame: Frame) -> Option<Open> {
        for at in frame.next..reason.len() {
            let literal = reason[at];
            let is_covered = literal.variable() == frame.literal.variable()
                || self.mark_of(literal) == Mark::Covered
                || trail.level_of(literal) == 0;
            if !is_covered {
                return Some(Open { literal, at });
            }
        }
        None
    }

    /// The same for the reason of a literal.
    fn next_open(&self, search: &Search, frame: Frame) -> Option<Open> {
        match search.trail.reason_of(frame.literal) {
            Reason::Choice => None,
            Reason::Either(other) => self.open_in(&search.trail, &[other], frame),
            Reason::Clause(span) => {
                self.open_in(&search.trail, search.clauses.literals(span), frame)
            }
        }
    }

    /// Ends with the literals that are walked through, which aren't known to be covered.
    fn give_up(&mut self) -> Result<Look, AllocError> {
        for _ in 0..self.frames.len() {
            if let Some(frame) = self.frames.pop() {
                self.mark(frame.literal, Mark::Needed)?;
            }
        }
        Ok(Look::Ends(false))
    }

    /// Goes on to a literal of a reason.
    fn enter(&mut self, trail: &Trail, frame: Frame, open: Open) -> Result<Look, AllocError> {
        if self.mark_of(open.literal) == Mark::Needed || is_chosen(trail, open.literal) {
            return self.give_up();
        }
        let _ = self.frames.pop();
        self.frames.push(Frame {
            next: open.at.saturating_add(1),
            ..frame
        })?;
        self.frames.push(Frame {
            literal: open.literal,
            next: 0,
        })?;
        Ok(Look::GoesOn)
    }

    /// Ends with the literal of the last reason, which is covered.
    fn leave(&mut self, frame: Frame) -> Result<Look, AllocError> {
        let _ = self.frames.pop();
        self.mark(frame.literal, Mark::Covered)?;
        if self.frames.is_empty() {
            Ok(Look::Ends(true))
        } else {
            Ok(Look::GoesOn)
        }
    }

    /// Looks at the last reason.
    fn look(&mut self, search: &Search) -> Result<Look, AllocError> {
        let Some(frame) = self.frames.last().copied() else {
            return Ok(Look::Ends(false));
        };
        match self.next_open(search, frame) {
            Some(open) => self.enter(&search.trail, frame, open),
            None => self.leave(frame),
        }
    }

    /// Whether a literal of the clause is known to be false where the others are.
    pub fn is_implied(&mut self, search: &Search, literal: Literal) -> Result<bool, AllocError> {
        if is_chosen(&search.trail, literal) {
            return Ok(false);
        }
        self.frames.clear();
        self.frames.push(Frame { literal, next: 0 })?;
        for _ in 0..search.trail.literals().len().saturating_mul(2) {
            if let Look::Ends(is_implied) = self.look(search)? {
                return Ok(is_implied);
            }
        }
        Ok(false)
    }
}
