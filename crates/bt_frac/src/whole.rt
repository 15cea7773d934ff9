//! Whole numbers as texts spell them, each in one way.
ghost use Rattle.std.specs.Prelude.{◌+◌, ◌*◌, ◌<◌, IfSome, IfNone};
ghost use Rattle.std.specs.Str.Parse.{AllDigits};
ghost use Rattle.bt_frac.specs.Numbers.{IsLimited, IsReadAs, SpellsNone};
ghost use Rattle.bt_frac.specs.inner.Words.{AreDigitsOf};

/// The whole number that the word spells, which is decimal digits without a leading zero, but for `0` itself. Numbers
/// past `u128::MAX` are read as that. None where the word spells none.
pub fn read_whole(word: &[u8]) -> Option<u128>
    ensures some { IfSome result (IsReadAs word.now) }
    ensures none { IfNone result (SpellsNone word.now) }
{
    if word.is_empty() || (word[0] == b'0' && word.len() > 1) {
        return None;
    }
    read_digits(word)
}

/// The value of decimal digits, where one past `u128::MAX` counts as that. None where a byte is no digit.
fn read_digits(word: &[u8]) -> Option<u128>
    ensures some { IfSome result (AreDigitsOf word.now) }
    ensures none { IfNone result (AllDigits 10 word.now → ⊥) }
{
    let mut value = 0u128;
    for digit in word {
        if !digit.is_ascii_digit() {
            return None;
        }
        value = with_digit(value, *digit - b'0');
    }
    Some(value)
}

/// The number with one more digit at its end, where one past `u128::MAX` counts as that.
fn with_digit(value: u128, digit: u8) -> u128
    requires { digit < 10 }
    ensures { IsLimited (value * 10 + digit) result }
{
    value.saturating_mul(10).saturating_add(u128::from(digit))
}
