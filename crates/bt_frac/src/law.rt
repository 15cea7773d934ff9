//! Laws of fractions and their texts, as the contracts of functions that do nothing.
ghost use Rattle.std.specs.Prelude.{◌≡◌, ◌+◌, ◌^◌};
ghost use Rattle.bt_frac.specs.Laws.{TextsTell};

use crate::frac::PART_MAX;
use crate::spelling::TEXT_MAX;

/// No two fractions have one text: what is printed tells the fraction.
pub fn texts_tell()
    ensures { TextsTell }
{}

/// The greatest magnitude of a part, and the most bytes of a text, as numbers.
pub fn limits_are()
    ensures part { PART_MAX + 1 ≡ 2 ^ 127 }
    ensures text { TEXT_MAX ≡ 80 }
{}
