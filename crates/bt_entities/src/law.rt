//! A law of blueprints, as the contract of a function that does nothing.
ghost use Rattle.std.specs.Prelude.{◌≡◌};

use crate::blueprint::MOST_ENTITIES;

/// The most entities of a blueprint, as a number.
pub fn limits_are()
    ensures { MOST_ENTITIES ≡ 16384 }
{}
