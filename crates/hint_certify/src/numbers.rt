//! Whole numbers and words of a text, one after the other.

/// What stands next in a text.
#[derive(Clone, Copy, PartialEq, Eq)]
pub enum Token {
    Number(i64),
    /// A word that is no number, by its first byte.
    Word(u8),
}

/// The tokens of a text that are left.
#[derive(Clone, Copy)]
pub struct Tokens<'a> {
    text: &'a [u8],
}

/// Whether a byte separates words.
fn is_blank(byte: u8) -> bool {
    byte == b' ' || byte == b'\n' || byte == b'\r' || byte == b'\t'
}

/// How many blanks stand at the front of a text, where `blank`; else how many bytes that are none.
fn front(text: &[u8], blank: bool) -> usize {
    for (place, byte) in text.iter().enumerate() {
        if is_blank(*byte) != blank {
            return place;
        }
    }
    text.len()
}

/// The text behind so many bytes.
fn behind(text: &[u8], place: usize) -> &[u8] {
    match text.get(place..) {
        Some(rest) => rest,
        None => &[],
    }
}

/// The number that a word of one to eighteen digits spells; none where it has more, or anything else.
fn digits(word: &[u8]) -> Option<i64> {
    if word.is_empty() || word.len() > 18 {
        return None;
    }
    let mut number = 0i64;
    for byte in word {
        if !byte.is_ascii_digit() {
            return None;
        }
        number = number
            .wrapping_mul(10)
            .wrapping_add(i64::from(byte.wrapping_sub(b'0')));
    }
    Some(number)
}

/// The token that a word is; none where it has no bytes.
fn told_by(word: &[u8]) -> Option<Token> {
    let first = *word.first()?;
    let number = if first == b'-' {
        digits(behind(word, 1)).map(|number| number.wrapping_neg())
    } else {
        digits(word)
    };
    Some(match number {
        Some(number) => Token::Number(number),
        None => Token::Word(first),
    })
}

impl<'a> Tokens<'a> {
    /// The tokens of a text.
    pub fn new(text: &'a [u8]) -> Tokens<'a> {
        Tokens { text }
    }

    /// The bytes that are left: there are at most so many tokens.
    pub fn len(&self) -> usize {
        self.text.len()
    }

    /// The next token; none at the end of the text.
    pub fn next(&mut self) -> Option<Token> {
        let word = behind(self.text, front(self.text, true));
        let end = front(word, false);
        self.text = behind(word, end);
        told_by(word.get(..end)?)
    }

    /// Passes over the rest of a line.
    pub fn pass_line(&mut self) {
        for (place, byte) in self.text.iter().enumerate() {
            if *byte == b'\n' {
                self.text = behind(self.text, place.saturating_add(1));
                return;
            }
        }
        self.text = &[];
    }
}
