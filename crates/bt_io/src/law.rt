//! A law of reading, as the contract of a function that does nothing.
ghost use Rattle.std.specs.Prelude.{◌≡◌};

use crate::read::BLOCK;

/// The most bytes that one call asks of its source, as a number.
pub fn limits_are()
    ensures { BLOCK ≡ 65536 }
{}
