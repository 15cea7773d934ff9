//! Which literals a learnt clause can do without, since they are false where its others are. Nothing is claimed of it: any
//! literal below the level of the conflict may be traced back.

use crate::logged_formula::{KnownLits, LoggedFormula};
use bt_watch::{Agenda, Search};
use std::alloc::{AllocError, Global};

/// How far literals are followed back.
#[derive(Clone, Copy, PartialEq, Eq)]
pub enum Reach {
    /// To the reason of each, by which it may be left out; but the second literal stays, which tells how far the search jumps
    /// back: where a chooser decides, searches without it took more steps.
    Near,
    /// To the reasons of reasons, of so many after another (Sörensson and Biere); taken where conflicts decide.
    Far(usize),
}

impl Reach {
    /// Whether a literal may be left out where so many of the clause are picked.
    fn may_leave_out(self, picked: usize) -> bool {
        self != Reach::Near || picked >= 2
    }

    /// Whether so many reasons after another may be followed by one more.
    fn goes_on(self, depth: usize) -> bool {
        match self {
            Reach::Near => false,
            Reach::Far(most) => depth < most,
        }
    }
}

/// What is known of the literal at a place of the trail.
#[derive(Clone, Copy, PartialEq, Eq)]
enum Mark {
    Unknown,
    /// It follows of literals of the clause.
    Implied,
    /// It doesn't.
    Needed,
}

/// A literal whose reason is walked through.
#[derive(Clone, Copy)]
struct Frame {
    place: usize,
    /// Where the walk goes on.
    next: usize,
}

/// A literal of a reason of which nothing is known yet.
#[derive(Clone, Copy)]
struct Open {
    place: usize,
    /// Where it stands in the reason.
    at: usize,
}

/// What one more look at a reason comes to.
#[derive(Clone, Copy)]
enum Look {
    GoesOn,
    Ends(bool),
}

/// The clauses and the search in which literals are followed back.
#[derive(Clone, Copy)]
pub struct Scene<'a> {
    pub known: &'a LoggedFormula,
    pub search: &'a Search,
    /// The literals before this place are true for good.
    pub root: usize,
}

impl<'a> Scene<'a> {
    /// The clause that made the literal at a place true, where there is one.
    fn reason(&self, place: usize) -> Option<KnownLits<'a>> {
        match self.search.assignment.reasons.get(place) {
            Some(Some(number)) => self.known.find(*number),
            _ => None,
        }
    }
}

/// What is known of the literals that one conflict leads back to.
#[derive(Drop)]
pub struct Minimizer {
    reach: Reach,
    marks: Vec<Mark>,
    marked: Vec<usize>,
    frames: Vec<Frame>,
}

impl Minimizer {
    /// A minimizer that knows of no literal, for a trail of at most so many.
    pub fn new(alloc: Global, reach: Reach, size: usize) -> Result<Minimizer, AllocError> {
        Ok(Minimizer {
            reach,
            marks: vec![in alloc; Mark::Unknown; size]?,
            marked: Vec::new(alloc),
            frames: Vec::new(alloc),
        })
    }

    /// Forgets all for the next conflict.
    pub fn clear(&mut self) {
        for place in &self.marked {
            if let Some(mark) = self.marks.get_mut(*place) {
                *mark = Mark::Unknown;
            }
        }
        self.marked.clear();
    }

    /// What is known of the literal at a place.
    fn mark_at(&self, place: usize) -> Mark {
        self.marks.get(place).copied().unwrap_or(Mark::Unknown)
    }

    /// Whether it is known that the literal at a place follows.
    pub fn is_marked_implied(&self, place: usize) -> bool {
        self.mark_at(place) == Mark::Implied
    }

    /// Marks the literal at a place.
    fn mark(&mut self, place: usize, new: Mark) -> Result<(), AllocError> {
        if let Some(mark) = self.marks.get_mut(place) {
            *mark = new;
        }
        self.marked.push(place)?;
        Ok(())
    }

    /// The first literal of a reason, from where its walk goes on, of which it isn't known that it follows, if any.
    fn next_open(
        &self,
        scene: Scene<'_>,
        agenda: &Agenda,
        reason: KnownLits<'_>,
        frame: Frame,
    ) -> Option<Open> {
        for at in frame.next..reason.len() {
            if let Some(place) = scene
                .search
                .assignment
                .places
                .get(reason.variable(at))
                .copied()
            {
                let is_covered = place == frame.place
                    || place < scene.root
                    || agenda.has(place)
                    || self.is_marked_implied(place);
                if !is_covered {
                    return Some(Open { place, at });
                }
            }
        }
        None
    }

    /// Ends the walk: the literals whose reasons are walked through don't follow, as far as is known.
    fn give_up(&mut self) -> Result<Look, AllocError> {
        for _ in 0..self.frames.len() {
            if let Some(frame) = self.frames.pop() {
                self.mark(frame.place, Mark::Needed)?;
            }
        }
        Ok(Look::Ends(false))
    }

    /// Goes on to a literal of a reason, or gives up where it is known to be needed, is too far or has no reason.
    fn enter(&mut self, scene: Scene<'_>, frame: Frame, open: Open) -> Result<Look, AllocError> {
        if self.mark_at(open.place) == Mark::Needed
            || !self.reach.goes_on(self.frames.len())
            || scene.reason(open.place).is_none()
        {
            return self.give_up();
        }
        let _ = self.frames.pop();
        self.frames.push(Frame {
            next: open.at.saturating_add(1),
            ..frame
        })?;
        self.frames.push(Frame {
            place: open.place,
            next: 0,
        })?;
        Ok(Look::GoesOn)
    }

    /// Ends the walk through the last reason, whose literal follows; with the first reason, the whole walk ends.
    fn leave(&mut self, frame: Frame) -> Result<Look, AllocError> {
        let _ = self.frames.pop();
        self.mark(frame.place, Mark::Implied)?;
        if self.frames.is_empty() {
            Ok(Look::Ends(true))
        } else {
            Ok(Look::GoesOn)
        }
    }

    /// Takes one step of the walk, at the last reason: on to its next literal of which nothing is known, or out of it.
    fn look(&mut self, scene: Scene<'_>, agenda: &Agenda) -> Result<Look, AllocError> {
        let Some(frame) = self.frames.last().copied() else {
            return Ok(Look::Ends(false));
        };
        let Some(reason) = scene.reason(frame.place) else {
            return self.give_up();
        };
        match self.next_open(scene, agenda, reason, frame) {
            Some(open) => self.enter(scene, frame, open),
            None => self.leave(frame),
        }
    }

    /// Whether the literal at a place is known to be false where those are whose places are on the agenda, and can be left
    /// out of a clause of which so many literals are picked.
    pub fn is_implied(
        &mut self,
        scene: Scene<'_>,
        agenda: &Agenda,
        picked: usize,
        place: usize,
    ) -> Result<bool, AllocError> {
        if !self.reach.may_leave_out(picked) {
            return Ok(false);
        }
        if self.mark_at(place) != Mark::Unknown {
            return Ok(self.is_marked_implied(place));
        }
        self.frames.clear();
        self.frames.push(Frame { place, next: 0 })?;
        for _ in 0..scene.search.assignment.trail.len().saturating_mul(2) {
            if let Look::Ends(is_implied) = self.look(scene, agenda)? {
                return Ok(is_implied);
            }
        }
        Ok(false)
    }
}
