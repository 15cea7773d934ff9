//! Numbers as they are written, exactly: no digit is lost, so what is told of the value is no
//! rounding. Told are the value where it is whole, and twice the value, since a layout has halves.
ghost use Rattle.std.specs.Prelude.{◌≡◌, ◌≢◌, ◌<◌, ◌≤◌, ◌+◌, ◌*◌, ◌^◌, ℕ, ℤ, pos, All, length, take, drop, IsTrue, ◌↔◌, IfSome, IfNone, MatchOption, Some, None, ◌<ℤ◌, ◌≤ℤ◌, neg_ℤ, Bool, if◌then◌else◌};
ghost use Rattle.std.specs.Int.Digits.{number_from_digits};
ghost use Rattle.std.specs.Int.RustNames.{unsigned_abs};
ghost use Rattle.bt_json.specs.Value.{IsTimes, HasNoHalves, HasNoWhole, signed};
ghost use Rattle.bt_json.specs.inner.Halves.{IsIfFits, twice_digits, twice, IsMagnitude, IsHalfOf, IsNoHalfOf, HasNoSmallShare, HasNoSmallValue};

use crate::limits::MOST_HALVES;
use smallvec::SmallVec;

/// A number of a JSON text as it is written: its value is the digits, as one whole number, times ten
/// to the power of the exponent.
#[derive(Drop)]
pub struct Decimal {
    /// Whether a minus sign stands in front.
    pub negative: bool,
    /// The digits of the whole part and then those of the fraction.
    pub digits: SmallVec<u8, 16>,
    /// The written exponent, kept within 2^62 in magnitude, less the number of digits of the fraction.
    pub exponent: i64,
    ghost below_ten: { All (λ d. d < 10) digits.items },
}

/// The whole number that the digits write. None where it is above 2^64 - 1.
fn number_of_digits(digits: &[u8]) -> Option<u64>
    ensures { IsIfFits result (number_from_digits 10 digits.now) }
{
    let mut number: u64 = 0;
    for digit in digits {
        let Some(tens) = number.checked_mul(10) else {
            return None;
        };
        let Some(next) = tens.checked_add(u64::from(*digit)) else {
            return None;
        };
        number = next;
    }
    Some(number)
}

/// The number with that many zeros behind it. None where that is above 2^64 - 1.
fn with_zeros(number: u64, zeros: u64) -> Option<u64>
    ensures { IsIfFits result (number * 10 ^ zeros) }
{
    if number == 0 {
        return Some(0);
    }
    let mut scaled = number;
    for _ in 0..zeros {
        let Some(next) = scaled.checked_mul(10) else {
            return None;
        };
        scaled = next;
    }
    Some(scaled)
}

/// Whether all of the digits are 0, as they are where there are none.
fn are_zeros(digits: &[u8]) -> bool
    ensures { IsTrue result ↔ (number_from_digits 10 digits.now ≡ 0) }
{
    for digit in digits {
        if *digit != 0 {
            return false;
        }
    }
    true
}

/// Whether these digits, behind a decimal point, write one half.
fn is_half(fraction: &[u8]) -> bool
    requires { All (λ d. d < 10) fraction.now }
    ensures { IsTrue result ↔ (2 * number_from_digits 10 fraction.now ≡ 10 ^ length fraction.now) }
{
    if fraction.is_empty() {
        return false;
    }
    if fraction[0] != 5 {
        return false;
    }
    are_zeros(&fraction[1..])
}

/// Whether the digits behind a decimal point write one half, and not 0; None where they write neither. Where `full`
/// doesn't hold, zeros stand between the point and these digits, which then write no half.
fn half_of(fraction: &[u8], full: bool) -> Option<bool>
    requires { All (λ d. d < 10) fraction.now }
    ensures { MatchOption result
        (IsNoHalfOf full (number_from_digits 10 fraction.now) (10 ^ length fraction.now))
        (λ half. IsHalfOf half full (number_from_digits 10 fraction.now) (10 ^ length fraction.now)) }
{
    if are_zeros(fraction) {
        Some(false)
    } else if full && is_half(fraction) {
        Some(true)
    } else {
        None
    }
}

/// The whole part of the number that the digits write with `places` of them behind a decimal point, and whether a half
/// follows it. None where twice the number isn't whole, or the whole part is above 2^64 - 1.
fn whole_and_half(digits: &[u8], places: u64) -> Option<(u64, bool)>
    requires { All (λ d. d < 10) digits.now }
    ensures some { IfSome result (λ r. twice r * 10 ^ places ≡ 2 * number_from_digits 10 digits.now) }
    ensures none { IfNone result (HasNoSmallShare (2 * number_from_digits 10 digits.now) places) }
{
    let places = places as usize;
    let full = places <= digits.len();
    let (whole, fraction) = digits.split_at(digits.len().saturating_sub(places));
    let Some(half) = half_of(fraction, full) else {
        return None;
    };
    let Some(number) = number_of_digits(whole) else {
        return None;
    };
    Some((number, half))
}

/// The number of this magnitude, with a minus where `negative` holds.
fn with_sign(negative: bool, magnitude: u64) -> i32
    requires { magnitude ≤ MOST_HALVES }
    ensures { result ≡ signed negative magnitude }
{
    let value = magnitude as i32;
    if negative { -value } else { value }
}

impl Decimal {
    ghost use Rattle.bt_json.specs.Stands.{number_of};

    /// The whole part of the value's magnitude, and whether a half follows it. None where twice the magnitude isn't
    /// whole, or the whole part is above 2^64 - 1.
    fn magnitude(&self) -> Option<(u64, bool)>
        ensures some { IfSome result (IsMagnitude (twice_digits (number_of self.now)) self.now.exponent) }
        ensures none { IfNone result (HasNoSmallValue (twice_digits (number_of self.now)) self.now.exponent) }
    {
        let places = self.exponent.unsigned_abs();
        if self.exponent < 0 {
            return whole_and_half(&self.digits, places);
        }
        let Some(number) = number_of_digits(&self.digits) else {
            return None;
        };
        let Some(scaled) = with_zeros(number, places) else {
            return None;
        };
        Some((scaled, false))
    }

    /// Twice the value. `None` exactly where that is no whole number of magnitude at most
    /// `MOST_HALVES`.
    pub fn halves(&self) -> Option<i32>
        ensures found { IfSome result (λ z. IsTimes 2 (number_of self.now) z) }
        ensures bounds { IfSome result (λ z. unsigned_abs z ≤ MOST_HALVES) }
        ensures none { IfNone result (HasNoHalves (number_of self.now)) }
    {
        let Some((whole, half)) = self.magnitude() else {
            return None;
        };
        if whole > MOST_HALVES {
            return None;
        }
        let twice = 2 * whole + u64::from(half);
        if twice > MOST_HALVES {
            return None;
        }
        Some(with_sign(self.negative, twice))
    }

    /// The value. `None` exactly where it is no whole number from 0 to 2^64 - 1.
    pub fn whole(&self) -> Option<u64>
        ensures found { IfSome result (λ n. IsTimes 1 (number_of self.now) (pos n)) }
        ensures none { IfNone result (HasNoWhole (number_of self.now)) }
    {
        let Some((whole, half)) = self.magnitude() else {
            return None;
        };
        if half {
            return None;
        }
        if self.negative && whole != 0 {
            return None;
        }
        Some(whole)
    }
}
