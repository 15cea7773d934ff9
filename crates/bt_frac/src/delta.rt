//! Fractions with a multiple of an infinitesimal, which a strict bound asks for.
ghost use Rattle.std.specs.Prelude.{IfSome, IfNone};
ghost use Rattle.bt_frac.specs.Deltas.{HasLowestParts, AreSums, CanAddParts, AreWide, AreProducts, HaveNoProducts, negated_parts, IsOrderOfDeltas};

use crate::frac::Frac;
use std::cmp::Ordering;

/// A fraction, and how often an infinitesimal is added to it: a number above 0 that is less than
/// each positive fraction.
#[derive(Clone, Copy, PartialEq, Eq, PartialOrd, Ord)]
pub struct Delta {
    pub value: Frac,
    pub tiny: Frac,
}

impl Delta {
    /// The exact sum. None exactly where the sum of the values, or that of the infinitesimals' multiples, is None.
    pub fn add(&self, other: &Delta) -> Option<Delta>
        ensures lowest { IfSome result HasLowestParts }
        ensures sum { IfSome result (AreSums self.now other.now) }
        ensures fits { IfSome result (λ _. CanAddParts self.now other.now) }
        ensures none { IfNone result (AreWide self.now other.now) }
    {
        let Some(value) = self.value.add(&other.value) else {
            return None;
        };
        let Some(tiny) = self.tiny.add(&other.tiny) else {
            return None;
        };
        Some(Delta { value, tiny })
    }

    /// The exact difference: the sum of the first and the negated second. None exactly where that sum is None.
    pub fn sub(&self, other: &Delta) -> Option<Delta>
        ensures lowest { IfSome result HasLowestParts }
        ensures sum { IfSome result (AreSums self.now (negated_parts other.now)) }
        ensures fits { IfSome result (λ _. CanAddParts self.now (negated_parts other.now)) }
        ensures none { IfNone result (AreWide self.now (negated_parts other.now)) }
    {
        self.add(&Delta {
            value: other.value.negate(),
            tiny: other.tiny.negate(),
        })
    }

    /// The exact product with a fraction. None exactly where the value's product, or that of the infinitesimal's
    /// multiple, is None.
    pub fn scale(&self, by: &Frac) -> Option<Delta>
        ensures lowest { IfSome result HasLowestParts }
        ensures product { IfSome result (AreProducts self.now by.now) }
        ensures none { IfNone result (HaveNoProducts self.now by.now) }
    {
        let Some(value) = self.value.mul(by) else {
            return None;
        };
        let Some(tiny) = self.tiny.mul(by) else {
            return None;
        };
        Some(Delta { value, tiny })
    }

    /// The order of the two numbers: by value, and where these are the same, by the infinitesimal.
    pub fn compare(&self, other: &Delta) -> Ordering
        ensures order { IsOrderOfDeltas result self.now other.now }
        ensures known { HasLowestParts self.now × HasLowestParts other.now }
    {
        let tiny = self.tiny.compare(&other.tiny);
        self.value.compare(&other.value).then(tiny)
    }
}
