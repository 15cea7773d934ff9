//! A law of cells, as the contract of a function that does nothing.
ghost use Rattle.std.specs.Prelude.{◌≡◌};

use crate::part::MOST_COORDINATE;

/// The greatest magnitude of a coordinate, as a number: 2 ^ 20.
pub fn limits_are()
    ensures { MOST_COORDINATE ≡ 1048576 }
{}
