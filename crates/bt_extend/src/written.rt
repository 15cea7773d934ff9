//! Numbers and literals as they are written.
ghost use Rattle.std.specs.Prelude.{◌≡◌, ◌-◌};

/// The greatest number of a variable or a clause that a step may write: it has 18 digits.
pub const MOST_NUMBER: u64 = 999_999_999_999_999_999;

/// A literal as it is written: the number of a variable, from 1 to `MOST_NUMBER`, and whether no minus
/// stands before it.
#[derive(Clone, Copy, PartialEq, Eq)]
pub struct WrittenLit {
    pub number: u64,
    pub positive: bool,
}

/// The place that a number of a text names: numbers count from 1 there, and places from 0.
pub fn place_of(number: u64) -> usize
    ensures { result ≡ number - 1 }
{
    number.saturating_sub(1) as usize
}
