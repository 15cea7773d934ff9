//! Which variable is chosen next: the one that the most of the latest conflicts had.
use bt_random::Random;
use std::alloc::{AllocError, Global};
use std::collections::BinaryHeap;

/// What a conflict adds to the scores of its variables at first.
const FIRST_BUMP: u64 = 1 << 10;

/// What chance adds is at most one of so many parts of what a conflict does.
const STIRRED: u64 = 16;

/// Where more than this is added when a round begins, all scores are scaled down.
const GREAT_BUMP: u64 = 1 << 32;

/// Within a thorough search they are scaled down where more than this is added: else those that conflicts had would soon
/// all have the greatest number there is.
const GREATEST_BUMP: u64 = 1 << 57;

/// By how many bits they are scaled down.
const SCALE: u32 = 22;

/// The scores of variables, and those that may be chosen, the greatest score first.
#[derive(Drop)]
pub struct Order {
    scores: Vec<u64>,
    bump: u64,
    /// Some have more than one score here, of which the greatest is theirs, and some have a value.
    heap: BinaryHeap<(u64, usize)>,
}

impl Order {
    /// The order of so many variables with score 0, none of which may be chosen yet.
    pub fn new(alloc: Global, variables: usize) -> Result<Order, AllocError> {
        Ok(Order {
            scores: vec![in alloc; 0; variables]?,
            bump: FIRST_BUMP,
            heap: BinaryHeap::new(alloc),
        })
    }

    /// Adds to the score of a variable.
    fn add(&mut self, variable: usize, more: u64) {
        if let Some(score) = self.scores.get_mut(variable) {
            *score = score.saturating_add(more);
        }
    }

    /// Gives a variable a little score, so that it comes before those that no conflict had.
    pub fn prefer(&mut self, variable: usize) {
        self.add(variable, 1);
    }

    /// Gives a variable a part of what a conflict adds, by chance.
    pub fn stir(&mut self, variable: usize, random: &mut Random) {
        let most = usize::try_from(self.bump / STIRRED).unwrap_or(0);
        let more = random.below(most.saturating_add(1)) as u64;
        self.add(variable, more);
    }

    /// Adds to the score of a variable as a conflict does now.
    pub fn raise(&mut self, variable: usize) {
        self.add(variable, self.bump);
    }

    /// Lets the next conflict add a twentieth more.
    pub fn grow(&mut self) {
        self.bump = self.bump.saturating_add(self.bump / 20);
    }

    /// Whether so much is added that scores are to be scaled down within a search.
    pub fn is_full(&self) -> bool {
        self.bump > GREATEST_BUMP
    }

    /// Lets a variable be chosen, by its present score.
    pub fn push(&mut self, variable: usize) -> Result<(), AllocError> {
        if let Some(score) = self.scores.get(variable) {
            self.heap.push((*score, variable))?;
        }
        Ok(())
    }

    /// How many variables may be chosen, as often as they are listed.
    pub fn len(&self) -> usize {
        self.heap.len()
    }

    /// The variable that is chosen next, which may have a value. None where none may be chosen.
    pub fn pop(&mut self) -> Option<usize> {
        let (_, variable) = self.heap.pop()?;
        Some(variable)
    }

    /// Scales the scores and the bump down where the bump is great.
    fn scale(&mut self) {
        if self.bump > GREAT_BUMP {
            self.bump >>= SCALE;
            for score in self.scores.iter_mut() {
                *score >>= SCALE;
            }
        }
    }

    /// Lets these variables be chosen and no others. Scores are scaled down before where they are great.
    pub fn refill(&mut self, alloc: Global, variables: &[usize]) -> Result<(), AllocError> {
        self.scale();
        self.heap = BinaryHeap::new(alloc);
        for variable in variables {
            self.push(*variable)?;
        }
        Ok(())
    }
}
