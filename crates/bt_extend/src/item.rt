//! What the lists of a line hold: fractions, numbers and literals, each as a word.
ghost use Rattle.std.specs.Prelude.{◌≡◌, ◌≢◌, ◌≤◌, ◌⊎◌, ◌∷◌, ℕ, List, IsTrue, cond, length, IfSome, IfNone};
ghost use Rattle.std.specs.Fmt.{decimal};
ghost use Rattle.std.specs.Str.Parse.{AllDigits, digits_value};
ghost use Rattle.bt_extend.specs.Words.{IsNumber};

use crate::definition::NamedLit;
use crate::written::{WrittenLit, place_of};
use bt_frac::Frac;

/// The most digits of the number of a variable or a clause.
const MOST_DIGITS: usize = 18;

/// A value that a list has as a word.
pub trait Item: Drop {
    // Whether the value may stand in a list.
    ghost can_stand: { Self → Type 0 };

    // The word for the value.
    ghost word: { Self → List ℕ };

    /// The value for which these bytes are the word. None where there is no such value.
    fn read(bytes: &[u8]) -> Option<Self>
        ensures some { IfSome result (λ x. can_stand x × (bytes.now ≡ word x)) }
        ensures none { IfNone result ((x : Self) → can_stand x → bytes.now ≡ word x → ⊥) };
}

impl Item for Frac {
    ghost use Rattle.bt_frac.specs.Ratio.{IsLowest};
    ghost use Rattle.bt_frac.specs.Texts.{frac_text};

    ghost can_stand = { IsLowest };

    ghost word = { frac_text };

    fn read(bytes: &[u8]) -> Option<Frac> {
        Frac::read(bytes)
    }
}

/// A fraction that isn't 0.
#[derive(Clone, Copy)]
pub struct Nonzero {
    /// The fraction.
    pub fraction: Frac,
}

impl Item for Nonzero {
    ghost use Rattle.bt_extend.specs.inner.Told.{IsNonzero, nonzero_text};

    ghost can_stand = { IsNonzero };

    ghost word = { nonzero_text };

    fn read(bytes: &[u8]) -> Option<Nonzero> {
        let Some(fraction) = Frac::read(bytes) else {
            return None;
        };
        if fraction.numerator() == 0 {
            return None;
        }
        Some(Nonzero { fraction })
    }
}

/// The number of a variable or of a clause.
impl Item for u64 {
    ghost use Rattle.std.specs.Fmt.{decimal};
    ghost use Rattle.bt_extend.specs.Words.{IsNumber};

    ghost can_stand = { IsNumber };

    ghost word = { decimal };

    fn read(bytes: &[u8]) -> Option<u64> {
        read_number(bytes)
    }
}

impl Item for WrittenLit {
    ghost use Rattle.bt_extend.specs.Words.{IsWrittenLit, written_lit_text};

    ghost can_stand = { IsWrittenLit };

    ghost word = { written_lit_text };

    fn read(bytes: &[u8]) -> Option<WrittenLit> {
        let (negative, digits) = split_sign(bytes);
        match read_number(digits) {
            Some(number) => Some(WrittenLit {
                number,
                positive: !negative,
            }),
            None => None,
        }
    }
}

impl Item for NamedLit {
    ghost use Rattle.bt_extend.specs.Texts.{IsNumbered, named_text};

    ghost can_stand = { λ l. IsNumbered l.var };

    ghost word = { named_text };

    fn read(bytes: &[u8]) -> Option<NamedLit> {
        match WrittenLit::read(bytes) {
            Some(lit) => Some(NamedLit {
                var: place_of(lit.number),
                positive: lit.positive,
            }),
            None => None,
        }
    }
}

/// Whether a minus stands in front of the bytes, and what follows it.
fn split_sign(bytes: &[u8]) -> (bool, &[u8])
    ensures signed { bytes.now ≡ cond result.0 (45 ∷ result.1.now) result.1.now }
    ensures minus { IsTrue result.0 ⊎ ((rest : List ℕ) → bytes.now ≢ 45 ∷ rest) }
{
    match bytes {
        [b'-', digits @ ..] => (true, digits),
        _ => (false, bytes),
    }
}

/// The number that the word spells, if it isn't 0 and has at most 18 digits.
fn read_number(word: &[u8]) -> Option<u64>
    ensures some { IfSome result (λ n. IsNumber n × (word.now ≡ decimal n)) }
    ensures none { IfNone result ((n : ℕ) → IsNumber n → word.now ≡ decimal n → ⊥) }
{
    if word.is_empty() {
        return None;
    }
    if word[0] == b'0' {
        return None;
    }
    if word.len() > MOST_DIGITS {
        return None;
    }
    read_digits(word)
}

/// The value of decimal digits. None where one of the bytes is no digit.
fn read_digits(word: &[u8]) -> Option<u64>
    requires { length word.now ≤ MOST_DIGITS }
    ensures some { IfSome result (λ n. AllDigits 10 word.now × (n ≡ digits_value 10 word.now)) }
    ensures none { IfNone result (AllDigits 10 word.now → ⊥) }
{
    let mut value = 0u64;
    for digit in word {
        if !digit.is_ascii_digit() {
            return None;
        }
        value = value * 10 + u64::from(*digit - b'0');
    }
    Some(value)
}
