//! The order of products of 254 bits, which the order of fractions asks for.
ghost use Rattle.std.specs.Prelude.{◌≡◌, ℕ, ℤ, pos, ◌<◌, ◌<ℤ◌, ◌≤◌, ◌+◌, ◌*◌, ◌*ℤ◌, ◌^◌};
ghost use Rattle.std.specs.Ordering.{MatchOrdering};
ghost use Rattle.bt_frac.specs.Ratio.{FitsPart};
ghost use Rattle.bt_frac.specs.Orders.{IsOrderOf, IsOrderOfNumbers};

use crate::parts::{is_negative, magnitude};
use std::cmp::Ordering;

/// One more than the greatest number of 64 bits.
const HALF: u128 = 0x1_0000_0000_0000_0000;

/// A number of 256 bits, as `high * 2^128 + low`.
#[derive(Clone, Copy)]
struct Wide {
    high: u128,
    low: u128,
}

/// The exact product of two numbers below 2^127.
fn product(first: u128, second: u128) -> Wide
    requires first_fits { first < 2 ^ 127 }
    requires second_fits { second < 2 ^ 127 }
    ensures { result.high * 2 ^ 128 + result.low ≡ first * second }
{
    let first_high = first / HALF;
    let first_low = first % HALF;
    let second_high = second / HALF;
    let second_low = second % HALF;
    let low = first_low * second_low;
    let middle = first_high * second_low + first_low * second_high + low / HALF;
    Wide {
        high: first_high * second_high + middle / HALF,
        low: middle % HALF * HALF + low % HALF,
    }
}

/// The order of two numbers of 256 bits.
fn compare_wide(left: Wide, right: Wide) -> Ordering
    ensures { IsOrderOfNumbers result (left.high * 2 ^ 128 + left.low) (right.high * 2 ^ 128 + right.low) }
{
    left.high.cmp(&right.high).then(left.low.cmp(&right.low))
}

/// The order of `left * left_by` and `right * right_by`.
pub fn compare_products(left: i128, left_by: u128, right: i128, right_by: u128) -> Ordering
    requires left_fits { FitsPart left }
    requires left_by_fits { left_by < 2 ^ 127 }
    requires left_by_some { 0 < left_by }
    requires right_fits { FitsPart right }
    requires right_by_fits { right_by < 2 ^ 127 }
    requires right_by_some { 0 < right_by }
    ensures { IsOrderOf result (left *ℤ pos left_by) (right *ℤ pos right_by) }
{
    let left_size = product(magnitude(left), left_by);
    let right_size = product(magnitude(right), right_by);
    match (is_negative(left), is_negative(right)) {
        (false, false) => compare_wide(left_size, right_size),
        (true, true) => compare_wide(right_size, left_size),
        (true, false) => Ordering::Less,
        (false, true) => Ordering::Greater,
    }
}
