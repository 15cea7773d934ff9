//! Comparisons of fractions, said of the whole numbers that they are over any denominator.
ghost use Rattle.std.specs.Prelude.{◌≡◌, pos, ◌*◌, ◌≤ℤ◌, ◌<ℤ◌, ◌↔◌, ℤ, ℕ, ◌<◌, IsTrue};
ghost use Rattle.bt_flow.specs.Properties.{IsLesser};
ghost use Rattle.bt_flow.specs.inner.Compared.{TellsOfOne, TellsOfTwo, TellsOfThree};

use bt_frac::Frac;
use std::cmp::Ordering;

/// Whether the left number is at most the right one.
pub fn is_at_most(left: &Frac, right: &Frac) -> bool
    ensures { TellsOfTwo left.now right.now (λ x y. x ≤ℤ y) result }
{
    match left.compare(right) {
        Ordering::Less | Ordering::Equal => true,
        Ordering::Greater => false,
    }
}

/// Whether two numbers are equal.
pub fn is_same(left: &Frac, right: &Frac) -> bool
    ensures { TellsOfTwo left.now right.now (λ x y. x ≡ y) result }
{
    match left.compare(right) {
        Ordering::Equal => true,
        Ordering::Less | Ordering::Greater => false,
    }
}

/// A cap as a fraction.
fn cap_of(cap: u32) -> Frac
    ensures { result ≡ record { over = pos cap; under = 1 } }
{
    Frac::whole(i64::from(cap))
}

/// Whether a number is from 0 to a cap.
pub fn is_within(number: &Frac, cap: u32) -> bool
    ensures { TellsOfOne number.now (λ x d. (pos 0 ≤ℤ x) × (x ≤ℤ pos (cap * d))) result }
{
    is_at_most(&cap_of(0), number) && is_at_most(number, &cap_of(cap))
}

/// Whether a number equals a cap.
pub fn is_full(number: &Frac, cap: u32) -> bool
    ensures { TellsOfOne number.now (λ x d. x ≡ pos (cap * d)) result }
{
    is_same(number, &cap_of(cap))
}

/// Whether a number is 0.
pub fn is_nothing(number: &Frac) -> bool
    ensures { TellsOfOne number.now (λ x d. x ≡ pos 0) result }
{
    is_same(number, &cap_of(0))
}

/// Whether a number is at least the first of two, or else at least the second.
pub fn reaches_one(number: &Frac, first: &Frac, second: &Frac) -> bool
    ensures { TellsOfThree number.now first.now second.now (λ x y z. x <ℤ y → z ≤ℤ x) result }
{
    is_at_most(first, number) || is_at_most(second, number)
}

/// Whether a number is the lesser of two.
pub fn is_lesser(number: &Frac, left: &Frac, right: &Frac) -> bool
    ensures { TellsOfThree number.now left.now right.now IsLesser result }
{
    if is_at_most(left, right) {
        is_same(number, left)
    } else {
        is_same(number, right)
    }
}
