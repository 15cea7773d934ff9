//! Pieces of a text, each behind a byte that separates them: lines behind line feeds, words behind
//! spaces.
ghost use Rattle.std.specs.Prelude.{◌≡◌, ℕ, List, ◌∷◌, ◌++◌, IfSome, IfNone};
ghost use Rattle.bt_text.specs.Pieces.{CutsAt, LeadsTo};

use crate::line::split_once;

/// What stands before the first such byte of a text, and the rest, which begins with that byte, or is empty where the
/// text lacks it.
pub fn cut(text: &[u8], byte: u8) -> (&[u8], &[u8])
    ensures { CutsAt byte text.now result.0.now result.1.now }
{
    match split_once(text, byte) {
        Some((piece, _)) => text.split_at(piece.len()),
        None => text.split_at(text.len()),
    }
}

/// The piece behind this byte, with which the text has to begin, and the rest behind the piece. None
/// where the text begins with another byte or is empty.
pub fn next_piece(text: &[u8], byte: u8) -> Option<(&[u8], &[u8])>
    ensures some { IfSome result (λ parts. LeadsTo byte text.now parts.0.now parts.1.now) }
    ensures none { IfNone result ((rest : List ℕ) → text.now ≡ byte ∷ rest → ⊥) }
{
    match text {
        [first, rest @ ..] if *first == byte => Some(cut(rest, byte)),
        _ => None,
    }
}

/// What follows this word, with which the text has to begin. None where it begins otherwise.
pub fn after_word<'a>(text: &'a [u8], word: &[u8]) -> Option<&'a [u8]>
    ensures some { IfSome result (λ rest. text.now ≡ word.now ++ rest.now) }
    ensures none { IfNone result ((rest : List ℕ) → text.now ≡ word.now ++ rest → ⊥) }
{
    text.strip_prefix(word)
}
