//! The product of fractions, and their quotient: each numerator loses what it shares with the other denominator, so
//! that what is multiplied is in lowest terms and no product is larger than it must be.
ghost use Rattle.std.specs.Prelude.{◌≡◌, ◌≢◌, ◌*◌, IsTrue, ℕ, pos, ◌<◌, ◌^◌, IfSome, IfNone};
ghost use Rattle.std.specs.Int.{IsGcd};
ghost use Rattle.bt_frac.specs.Ratio.{Ratio, IsLowest, IsShort};
ghost use Rattle.bt_frac.specs.Products.{IsProduct, IsDivision};
ghost use Rattle.bt_frac.specs.inner.Inverses.{IsInverse};
ghost use Rattle.bt_frac.specs.inner.Wholes.{IsShortWhole};
ghost use Rattle.bt_frac.specs.inner.ProductParts.{IsProductSign, AreProductParts};

use crate::frac::Frac;
use crate::gcd::{gcd, quotient, short_gcd, short_quotient};
use crate::parts::{is_negative, long_times, magnitude, signed, times_unsigned, whole_times};

impl Frac {
    /// The exact product. None exactly where the magnitude of its numerator or its denominator is
    /// above 2^127 - 1 in lowest terms.
    pub fn mul(&self, other: &Frac) -> Option<Frac>
        ensures known { IsLowest self.now × IsLowest other.now }
        ensures some { IfSome result (IsProduct self.now other.now) }
        ensures lowest { IfSome result IsLowest }
        ensures none { IfNone result ((f : Ratio) → IsLowest f → IsProduct self.now other.now f → ⊥) }
    {
        if self.are_short_wholes(other) {
            Some(self.mul_whole(other))
        } else if self.are_short(other) {
            Some(self.mul_short(other))
        } else {
            self.mul_wide(other)
        }
    }

    /// The product of whole numbers below 2^63.
    fn mul_whole(&self, other: &Frac) -> Frac
        requires self_whole { IsShortWhole self.now }
        requires other_whole { IsShortWhole other.now }
        ensures product { IsProduct self.now other.now result }
        ensures lowest { IsLowest result }
    {
        Frac {
            over: whole_times(self.over, other.over),
            under: 1,
        }
    }

    /// The product of fractions whose parts are below 2^63.
    fn mul_short(&self, other: &Frac) -> Frac
        requires self_short { IsShort self.now }
        requires other_short { IsShort other.now }
        ensures product { IsProduct self.now other.now result }
        ensures lowest { IsLowest result }
    {
        let size = magnitude(self.over);
        let other_size = magnitude(other.over);
        let negative = is_product_negative(self.over, other.over);
        let (size, under) = short_product_parts(size, self.under, other_size, other.under);
        Frac {
            over: signed(size, negative),
            under,
        }
    }

    /// The product, with each part tried.
    fn mul_wide(&self, other: &Frac) -> Option<Frac>
        ensures some { IfSome result (IsProduct self.now other.now) }
        ensures lowest { IfSome result IsLowest }
        ensures none { IfNone result ((f : Ratio) → IsLowest f → IsProduct self.now other.now f → ⊥) }
    {
        let size = magnitude(self.over);
        let other_size = magnitude(other.over);
        let negative = is_product_negative(self.over, other.over);
        let Some((size, under)) = product_parts(size, self.under, other_size, other.under) else {
            return None;
        };
        Some(Frac {
            over: signed(size, negative),
            under,
        })
    }

    /// The exact quotient, where the other isn't 0. None exactly where the magnitude of its numerator
    /// or its denominator is above 2^127 - 1 in lowest terms.
    pub fn div(&self, other: &Frac) -> Option<Frac>
        requires { other.now.over ≢ pos 0 }
        ensures known { IsLowest self.now × IsLowest other.now }
        ensures some { IfSome result (IsDivision self.now other.now) }
        ensures lowest { IfSome result IsLowest }
        ensures none { IfNone result ((f : Ratio) → IsLowest f → IsDivision self.now other.now f → ⊥) }
    {
        self.mul(&other.inverse())
    }

    /// 1 over the fraction, where it isn't 0.
    fn inverse(&self) -> Frac
        requires { self.now.over ≢ pos 0 }
        ensures inverse { IsInverse self.now result }
        ensures lowest { IsLowest result }
        ensures known { IsLowest self.now }
    {
        Frac {
            over: signed(self.under, is_negative(self.over)),
            under: magnitude(self.over),
        }
    }
}

/// Whether the product of two numbers has a minus, which a product of 0 may have.
fn is_product_negative(left: i128, right: i128) -> bool
    ensures { IsProductSign left right result }
{
    is_negative(left) != is_negative(right)
}

/// The magnitude of the numerator, and the denominator, of a product in lowest terms.
fn product_parts(
    left: u128,
    left_under: u128,
    right: u128,
    right_under: u128,
) -> Option<(u128, u128)>
    requires left_lowest { IsGcd left left_under 1 }
    requires left_some { 0 < left_under }
    requires right_lowest { IsGcd right right_under 1 }
    requires right_some { 0 < right_under }
    ensures some { IfSome result (λ p. AreProductParts left left_under right right_under p.0 p.1) }
    ensures none { IfNone result
        ((m n : ℕ) → AreProductParts left left_under right right_under m n → ⊥) }
{
    let left_common = gcd(left, right_under);
    let right_common = gcd(right, left_under);
    let left = quotient(left, left_common);
    let right = quotient(right, right_common);
    let Some(size) = times_unsigned(left, right) else {
        return None;
    };
    let left_under = quotient(left_under, right_common);
    let right_under = quotient(right_under, left_common);
    let Some(under) = times_unsigned(left_under, right_under) else {
        return None;
    };
    Some((size, under))
}

/// Whether one of two factors is 0.
fn is_either_zero(left: u128, right: u128) -> bool
    ensures { IsTrue result → left * right ≡ 0 }
{
    left == 0 || right == 0
}

/// The magnitude of the numerator, and the denominator, of a product in lowest terms, of parts below 2^63.
fn short_product_parts(left: u128, left_under: u128, right: u128, right_under: u128) -> (u128, u128)
    requires left_lowest { IsGcd left left_under 1 }
    requires left_some { 0 < left_under }
    requires right_lowest { IsGcd right right_under 1 }
    requires right_some { 0 < right_under }
    requires left_short { left < 2 ^ 63 }
    requires left_under_short { left_under < 2 ^ 63 }
    requires right_short { right < 2 ^ 63 }
    requires right_under_short { right_under < 2 ^ 63 }
    ensures { AreProductParts left left_under right right_under result.0 result.1 }
{
    if is_either_zero(left, right) {
        return (0, 1);
    }
    let (left, left_under) = (left as u64, left_under as u64);
    let (right, right_under) = (right as u64, right_under as u64);
    let left_common = short_gcd(left, right_under);
    let right_common = short_gcd(right, left_under);
    let size = long_times(
        short_quotient(left, left_common),
        short_quotient(right, right_common),
    );
    let under = long_times(
        short_quotient(left_under, right_common),
        short_quotient(right_under, left_common),
    );
    (size, under)
}
