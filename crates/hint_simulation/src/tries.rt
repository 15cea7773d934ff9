//! The loads and rooms that are tried, in a fixed order: those of nothing and of whole belts first.
ghost use Rattle.std.specs.Prelude.{◌<◌};

use crate::case::{Case, Choice};
use bt_flow::Property;

/// The most choices that are tried.
pub const MOST_TRIES: usize = 1024;

/// The most loads and rooms of which every choice of whole belts is tried.
const FEW_ENDS: usize = 8;

/// How many choices of whole belts are tried where there are more loads and rooms.
const WHOLE_TRIES: usize = 192;

/// How many choices of parts of belts are tried.
const PART_TRIES: usize = 256;

/// After so many steps in all no further choice of whole belts is tried.
const ENOUGH_WHOLE_STEPS: u32 = 12_288;

/// After so many steps in all nothing is tried.
const ENOUGH_STEPS: u32 = 16_384;

/// By how much the number of a few grows from one such choice to the next, counted round.
const SPREAD: usize = 7;

/// The choices of a property, and which comes next.
#[derive(Drop)]
pub struct Tries {
    /// How many loads may be below their caps.
    loads: usize,
    /// How many loads and rooms may be.
    ends: usize,
    /// The most loads and rooms of which a few are drawn.
    few: usize,
    /// How many numbers stand for choices of whole belts.
    wholes: usize,
    /// How many numbers stand for choices.
    all: usize,
    /// The number of the next choice.
    next: usize,
    /// How many steps were taken.
    steps: u32,
}

impl Tries {
    /// The choices of a property where these are the full loads and rooms.
    pub fn new(full: &Case, property: Property) -> Tries {
        let loads = lowered(&full.loads, property.asks_loads());
        let ends = loads.saturating_add(lowered(&full.rooms, property.asks_rooms()));
        let wholes = if ends <= FEW_ENDS {
            choices(ends).saturating_mul(2)
        } else {
            WHOLE_TRIES
        };
        let parts = if ends == 0 { 0 } else { PART_TRIES };
        Tries {
            loads,
            ends,
            few: full.loads.len().min(full.rooms.len()),
            wholes,
            all: wholes.saturating_add(parts),
            next: 0,
            steps: 0,
        }
    }

    /// The next choice, or none where enough is tried.
    pub fn choice(&mut self) -> Option<Choice> {
        let number = self.number()?;
        self.next = number.saturating_add(1);
        Some(self.choice_of(number))
    }

    /// Counts the steps of a simulation.
    pub fn count(&mut self, steps: u32) {
        self.steps = self.steps.saturating_add(steps);
    }

    /// Leaves choices of parts out, where none is tried yet.
    pub fn leave_parts(&mut self) {
        if self.next <= self.wholes {
            self.all = self.wholes;
        }
    }

    /// The number of the next choice, none where enough is tried.
    fn number(&self) -> Option<usize> {
        if self.steps >= ENOUGH_STEPS {
            return None;
        }
        for number in self.first_number()..self.all {
            if self.suits(number) {
                return Some(number);
            }
        }
        None
    }

    /// The least number that the next choice may have.
    fn first_number(&self) -> usize {
        if self.steps < ENOUGH_WHOLE_STEPS {
            self.next
        } else {
            self.next.max(self.wholes)
        }
    }

    /// Whether a number stands for a choice. Each choice of whole belts of few ends has two numbers, of which it takes the
    /// lower one where as many loads as rooms stay.
    fn suits(&self, number: usize) -> bool {
        if number >= self.wholes || self.ends > FEW_ENDS {
            return true;
        }
        let all = choices(self.ends);
        self.is_even(number % all) == (number < all)
    }

    /// Whether as many loads as rooms stay in a choice of whole belts, or it is of loads alone or of rooms alone.
    fn is_even(&self, bits: usize) -> bool {
        let loads = choices(self.loads);
        loads == 1
            || loads == choices(self.ends)
            || (bits % loads).count_ones() == (bits / loads).count_ones()
    }

    /// The choice that a number stands for: of more than few ends a few or, every fourth time, one end in turn.
    fn choice_of(&self, number: usize) -> Choice {
        if number >= self.wholes {
            Choice::Parts
        } else if self.ends <= FEW_ENDS {
            Choice::These(number % choices(self.ends))
        } else if number % 4 == 3 {
            Choice::Only(number / 4)
        } else {
            Choice::Few(few_of(number, self.few))
        }
    }
}

/// How many of these may be below their caps: none where the property asks that they are at them.
fn lowered(numbers: &[u32], asked: bool) -> usize {
    if asked { 0 } else { numbers.len() }
}

/// How many choices of whole belts so many ends have: two for each end. More ends than `FEW_ENDS` count as that many.
fn choices(ends: usize) -> usize
    ensures { 0 < result }
{
    (1usize << ends.min(FEW_ENDS)).max(1)
}

/// How many loads, and how many rooms, are kept by the choice of a few that has this number: from 1 to `most`.
fn few_of(number: usize, most: usize) -> usize {
    let step = number.saturating_sub(number / 4).wrapping_mul(SPREAD);
    1 + step % most.max(1)
}
