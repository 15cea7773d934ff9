//! A law of the words' numbers, as the contract of a function that does nothing.
ghost use Rattle.std.specs.Prelude.{◌≡◌};

use crate::argument::{MOST_LEARNT, MOST_ORDER, MOST_PIVOTS};
use crate::command::{MOST_LINES, USUAL_ACROSS, USUAL_LEARNT, USUAL_PIVOTS};

/// The greatest numbers that words may give, and those where they give none, as numbers.
pub fn limits_are()
    ensures order { MOST_ORDER ≡ 999999999 }
    ensures learnt { MOST_LEARNT ≡ 1000000000 }
    ensures pivots { MOST_PIVOTS ≡ 1000000000 }
    ensures lines { MOST_LINES ≡ 64 }
    ensures usual_learnt { USUAL_LEARNT ≡ 100000 }
    ensures usual_pivots { USUAL_PIVOTS ≡ 100000 }
    ensures usual_across { USUAL_ACROSS ≡ 16 }
{}
