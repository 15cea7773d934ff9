//! A law of networks that are made, as the contract of a function that does nothing.
ghost use Rattle.std.specs.Prelude.{◌≡◌};

use crate::butterflies::MOST_STAGES;
use crate::chains::MOST_IN_CHAIN;

/// The most stages of a butterfly and the most splitters of a chain, as numbers.
pub fn limits_are()
    ensures butterfly { MOST_STAGES ≡ 7 }
    ensures chain { MOST_IN_CHAIN ≡ 64 }
{}
