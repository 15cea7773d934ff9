//! Words of a line, each with a space in front, while they are written.
ghost use Rattle.std.specs.Prelude.{◌≡◌, ◌+◌, ◌≤◌, ◌∷◌, ◌++◌, [], cond, length, ℕ, List, decimal};
ghost use Rattle.bt_frac.specs.Texts.{frac_text};
ghost use Rattle.bt_log.specs.LogText.{lit_text, hint_text};

use bt_cnf::Packed;
use bt_frac::{Frac, TEXT_MAX};
use itoa::Buffer;
use std::marker::Model;

/// The most bytes of a word: a space, and the text of a fraction.
pub const WORD_MAX: usize = 81;

/// A word while it is written.
#[derive(Drop)]
pub struct Word {
    bytes: [u8; WORD_MAX],
    len: usize,
}

impl Model for Word {
    ghost use Rattle.std.specs.Prelude.{ℕ, ◌≤◌, List, take};

    ghost Value = { List ℕ };

    ghost view = { λ w. take w.len w.bytes };

    ghost invariant = { λ w. w.len ≤ 81 };
}

impl Word {
    /// A space, a minus where the sign isn't positive, and `number` plus 1 in decimal: texts count from 1, and places
    /// from 0.
    pub fn signed(positive: bool, number: usize) -> Word
        ensures { result ≡ 32 ∷ cond positive (decimal (number + 1)) (45 ∷ decimal (number + 1)) }
    {
        let mut word = Word::new();
        if positive {
            word.push(b" ");
        } else {
            word.push(b" -");
        }
        word.push_after(number);
        word
    }

    /// A word without bytes.
    fn new() -> Word
        ensures { result ≡ [] }
    {
        Word {
            bytes: [0; WORD_MAX],
            len: 0,
        }
    }

    /// The bytes so far.
    pub fn as_bytes(&self) -> &[u8]
        ensures { result.now ≡ self.now }
    {
        &self.bytes[..self.len]
    }

    /// Appends bytes, for which the word has room.
    fn push(&mut self, piece: &[u8])
        requires { length self.old + length piece.now ≤ 81 }
        ensures { self.new ≡ self.old ++ piece.now }
    {
        let end = self.len + piece.len();
        self.bytes[self.len..end].copy_from_slice(piece);
        self.len = end;
    }

    /// Appends `number` plus 1 in decimal: texts count from 1, and places from 0.
    fn push_after(&mut self, number: usize)
        requires { length self.old + 39 ≤ 81 }
        ensures { self.new ≡ self.old ++ decimal (number + 1) }
    {
        let mut buffer = Buffer::new();
        let digits = buffer.format(number as u128 + 1).as_bytes();
        self.push(digits);
    }
}

/// What a line says by one word.
pub trait Spelled {
    /// The word, without the space in front.
    ghost text: { Self → List ℕ };

    /// A space and the word.
    fn word(&self) -> Word
        ensures { result ≡ 32 ∷ text self.now };
}

impl Spelled for Packed {
    ghost text = { lit_text };

    fn word(&self) -> Word {
        Word::signed(self.is_positive(), self.place())
    }
}

impl Spelled for Frac {
    ghost text = { frac_text };

    fn word(&self) -> Word {
        let mut text = [0; TEXT_MAX];
        let len = self.text(&mut text);
        let mut word = Word::new();
        word.push(b" ");
        word.push(&text[..len]);
        word
    }
}

impl Spelled for u32 {
    ghost text = { hint_text };

    fn word(&self) -> Word {
        let mut word = Word::new();
        word.push(b" ");
        word.push_after(*self as usize);
        word
    }
}
