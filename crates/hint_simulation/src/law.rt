//! A law of simulations, as the contract of a function that does nothing.
ghost use Rattle.std.specs.Prelude.{◌≡◌, ◌^◌};

use crate::belt::UNIT;
use crate::comparing::MOST_FOUND;

/// The parts in which flows are told, and the most simulations that are given, as numbers.
pub fn limits_are()
    ensures unit { UNIT ≡ 2 ^ 20 }
    ensures found { MOST_FOUND ≡ 3 }
{}
