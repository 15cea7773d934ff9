//! Numbers of a blueprint's text.
ghost use Rattle.std.specs.Prelude.{◌≡◌, ◌≤◌, ◌++◌, pos, ◌+ℤ◌, ◌*ℤ◌, OnOk, decimal};
ghost use Rattle.bt_entities.specs.Written.{half_text, halves_text};

use itoa::Buffer;
use std::alloc::AllocError;

/// Adds a number in decimal digits.
pub fn push_number(text: &mut Vec<u8>, number: u64) -> Result<(), AllocError>
    ensures { OnOk result (text.new.items ≡ text.old.items ++ decimal number) }
{
    let mut buffer = Buffer::new();
    let digits = buffer.format(number).as_bytes();
    text.extend_from_slice(digits)
}

/// Adds a coordinate in tiles, which is given in halves of a tile: `.5` stands behind it where it is not whole.
pub fn push_halves(text: &mut Vec<u8>, halves: i64) -> Result<(), AllocError>
    ensures { OnOk result (text.new.items ≡ text.old.items ++ halves_text halves) }
{
    if halves < 0 {
        text.extend_from_slice(b"-")?;
        push_half(text, halves.unsigned_abs())
    } else {
        push_half(text, halves.unsigned_abs())
    }
}

/// Adds the half of a number, with `.5` behind it where the number is odd.
fn push_half(text: &mut Vec<u8>, number: u64) -> Result<(), AllocError>
    ensures { OnOk result (text.new.items ≡ text.old.items ++ half_text number) }
{
    if number % 2 == 0 {
        push_number(text, number / 2)
    } else {
        push_number(text, number / 2)?;
        text.extend_from_slice(b".5")
    }
}

/// Twice the middle of so many tiles, of which the first begins at this coordinate.
pub fn middle(first: i32, size: u32) -> i64
    requires { size ≤ 2 }
    ensures { result ≡ ((pos 2 *ℤ first) +ℤ pos size) }
{
    2 * i64::from(first) + i64::from(size)
}
