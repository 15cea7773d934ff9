//! Whole numbers of words.
ghost use Rattle.std.specs.Prelude.{◌≡◌, ◌≤◌, ℕ, MatchOption, decimal};

use bt_frac::read_whole;

/// The whole number, at most `most`, that a word is: decimal digits without a leading zero, but for `0` itself. None
/// where the word is none such.
pub fn number_up_to(most: u64, word: &[u8]) -> Option<u64>
    ensures { MatchOption result ((n : ℕ) → n ≤ most → word.now ≡ decimal n → ⊥)
        (λ n. (n ≤ most) × (word.now ≡ decimal n)) }
{
    let number = read_whole(word)?;
    if number <= u128::from(most) {
        Some(number as u64)
    } else {
        None
    }
}
