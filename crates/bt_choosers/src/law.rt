//! What the scores of variables go by, as the contract of a function that does nothing.
ghost use Rattle.std.specs.Prelude.{◌≡◌, ◌+◌, ◌^◌};

use crate::active::{FIRST_BUMP, MOST_BUMP, MOST_SCORE};

/// What the scores of variables go by, as numbers.
pub fn limits_are()
    ensures first_bump { FIRST_BUMP ≡ 1024 }
    ensures bump { MOST_BUMP ≡ 2 ^ 24 }
    ensures score { MOST_SCORE + 1 ≡ 2 ^ 32 }
{}
