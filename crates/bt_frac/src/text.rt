//! Fractions as texts spell them, each in one way.
ghost use Rattle.std.specs.Prelude.{◌≡◌, ◌≢◌, ℕ, ◌+◌, ◌∷◌, List, IfSome, IfNone, IsTrue, ◌⊎◌};
ghost use Rattle.bt_frac.specs.Ratio.{Ratio, IsLowest};
ghost use Rattle.bt_frac.specs.Texts.{frac_text};
ghost use Rattle.bt_frac.specs.inner.Words.{HasNoSlash, IsCutAtSlash, WordOf, AroundSlash, HasRead, AreRead, IsSigned};

use crate::frac::Frac;
use crate::whole::read_whole;

impl Frac {
    /// The fraction that the text spells: the numerator, with a minus where it is negative, and
    /// where the denominator isn't 1, a slash and the denominator, in lowest terms. None exactly
    /// where the text is the one spelling of no fraction.
    pub fn read(text: &[u8]) -> Option<Frac>
        ensures some { IfSome result (λ f. text.now ≡ frac_text f) }
        ensures lowest { IfSome result IsLowest }
        ensures none { IfNone result ((f : Ratio) → IsLowest f → text.now ≢ frac_text f) }
    {
        let (negative, word) = split_sign(text);
        let Some((size, under)) = read_parts(word) else {
            return None;
        };
        Frac::from_parts(negative, size, under)
    }
}

/// Whether a minus stands in front of the text, and what follows it.
fn split_sign(text: &[u8]) -> (bool, &[u8])
    ensures signed { IsSigned text.now result.0 result.1.now }
    ensures minus { IsTrue result.0 ⊎ ((rest : List ℕ) → text.now ≢ 45 ∷ rest) }
{
    match text {
        [b'-', word @ ..] => (true, word),
        _ => (false, text),
    }
}

/// The numbers before and after the slash of a word without sign, or its one number and 1 where it has no slash;
/// numbers past `u128::MAX` are read as that. None where one is no whole number, or 1 follows the slash.
fn read_parts(word: &[u8]) -> Option<(u128, u128)>
    ensures some { IfSome result (λ parts. HasRead word.now parts.0 parts.1) }
    ensures none { IfNone result ((m n : ℕ) → WordOf word.now m n → ⊥) }
{
    match split_slash(word) {
        Some((front, back)) => read_both(front, back),
        None => Some((read_whole(word)?, 1)),
    }
}

/// The numbers before and after a slash. None where one is no whole number, or the second is 1.
fn read_both(front: &[u8], back: &[u8]) -> Option<(u128, u128)>
    ensures some { IfSome result (λ parts. AreRead front.now back.now parts.0 parts.1) }
    ensures none { IfNone result ((m n : ℕ) → AroundSlash front.now back.now m n → ⊥) }
{
    let size = read_whole(front)?;
    let under = read_whole(back)?;
    if under == 1 {
        return None;
    }
    Some((size, under))
}

/// What stands before the first slash of a word, and what stands after it. None where there is no slash.
fn split_slash(word: &[u8]) -> Option<(&[u8], &[u8])>
    ensures some { IfSome result (λ parts. IsCutAtSlash word.now parts.0.now parts.1.now) }
    ensures none { IfNone result (HasNoSlash word.now) }
{
    let at = word.iter().position(|byte| *byte == b'/')?;
    Some((&word[..at], &word[at + 1..]))
}
