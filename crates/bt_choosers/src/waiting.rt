//! The variables that wait to be decided, the one of the greatest score first.

use crate::score::Score;
use std::alloc::{AllocError, Global};

/// A heap of variables: each comes before those at twice its place and one or two more.
#[derive(Drop)]
pub struct Waiting {
    scores: Vec<Score>,
    /// The variables that wait stand in its first places.
    heap: Vec<usize>,
    count: usize,
    /// For each variable, its place in the heap where it waits.
    places: Vec<Option<usize>>,
}

impl Waiting {
    /// So many variables of score zero, all of which wait.
    pub fn new(alloc: Global, variables: usize) -> Result<Waiting, AllocError> {
        let mut waiting = Waiting {
            scores: vec![in alloc; Score::zero(); variables]?,
            heap: vec![in alloc; 0; variables]?,
            count: 0,
            places: vec![in alloc; None; variables]?,
        };
        for variable in 0..variables {
            waiting.push(variable);
        }
        Ok(waiting)
    }

    /// How many variables wait.
    pub fn len(&self) -> usize {
        self.count
    }

    /// Puts a variable at a place of the heap.
    fn put(&mut self, place: usize, variable: usize) {
        if let Some(at) = self.heap.get_mut(place) {
            *at = variable;
        }
        if let Some(at) = self.places.get_mut(variable) {
            *at = Some(place);
        }
    }

    /// The variable at a place of the heap, where one waits there.
    fn at(&self, place: usize) -> Option<usize> {
        if place < self.count {
            self.heap.get(place).copied()
        } else {
            None
        }
    }

    /// The score of a variable.
    fn score(&self, variable: usize) -> Score {
        match self.scores.get(variable) {
            Some(score) => *score,
            None => Score::zero(),
        }
    }

    /// Whether a variable comes before another one: it has the greater score, or is the lower one where none has.
    fn precedes(&self, variable: usize, other: usize) -> bool {
        let score = self.score(variable);
        let other_score = self.score(other);
        score.exceeds(other_score) || (variable < other && !other_score.exceeds(score))
    }

    /// Moves a variable from a place towards the front, past those that it comes before.
    fn rise(&mut self, from: usize, variable: usize) {
        let mut place = from;
        for _ in 0..usize::BITS {
            let above = place.saturating_sub(1) / 2;
            match self.at(above) {
                Some(other) if place > 0 && self.precedes(variable, other) => {
                    self.put(place, other);
                    place = above;
                }
                _ => break,
            }
        }
        self.put(place, variable);
    }

    /// The place and the variable of the first of the at most two below a place of the heap. None where there is none.
    fn first_below(&self, place: usize) -> Option<(usize, usize)> {
        let left = place.saturating_mul(2).saturating_add(1);
        let right = left.saturating_add(1);
        match (self.at(left), self.at(right)) {
            (Some(variable), Some(other)) if self.precedes(other, variable) => Some((right, other)),
            (Some(variable), _) => Some((left, variable)),
            _ => None,
        }
    }

    /// Moves a variable from the front backwards, past those that come before it.
    fn sink(&mut self, variable: usize) {
        let mut place = 0usize;
        for _ in 0..usize::BITS {
            match self.first_below(place) {
                Some((below, other)) if self.precedes(other, variable) => {
                    self.put(place, other);
                    place = below;
                }
                _ => break,
            }
        }
        self.put(place, variable);
    }

    /// Lets a variable wait. Nothing changes where it waits already, or there is no such variable.
    pub fn push(&mut self, variable: usize) {
        if let Some(None) = self.places.get(variable) {
            let place = self.count;
            self.count = place.saturating_add(1);
            self.rise(place, variable);
        }
    }

    /// The first variable, which waits no longer. None where none waits.
    pub fn pop(&mut self) -> Option<usize> {
        let first = self.at(0)?;
        self.count = self.count.saturating_sub(1);
        if let Some(place) = self.places.get_mut(first) {
            *place = None;
        }
        if let Some(last) = self.heap.get(self.count).copied() {
            if self.count > 0 {
                self.sink(last);
            }
        }
        Some(first)
    }

    /// Adds a bump to the score of a variable, and moves the variable towards the front where it waits.
    pub fn raise(&mut self, variable: usize, bump: Score) {
        if let Some(score) = self.scores.get_mut(variable) {
            *score = score.plus(bump);
        }
        if let Some(Some(place)) = self.places.get(variable).copied() {
            self.rise(place, variable);
        }
    }
}
