//! Laws of reading, as contracts of a function that does nothing.
ghost use Rattle.std.specs.Prelude.{◌≡◌, ◌^◌};
ghost use Rattle.bt_json.specs.Longer.{ValueStays, FaultStays};

use crate::limits::{MOST_EXPONENT, MOST_HALVES, MOST_LEVELS};

/// The value that is read of a text is read of each longer text that begins with it, where it is no number; and so is a
/// fault, where it isn't that the text ends.
pub fn longer_is_read()
    ensures value { ValueStays }
    ensures fault { FaultStays }
{}

/// The limits of what is read and told, as numbers.
pub fn limits_are()
    ensures levels { MOST_LEVELS ≡ 64 }
    ensures exponent { MOST_EXPONENT ≡ 2 ^ 62 }
    ensures halves { MOST_HALVES ≡ 1048576 }
{}
