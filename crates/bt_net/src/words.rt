//! The words of an edge line, and numbers.
ghost use Rattle.std.specs.Prelude.{◌≡◌, ◌↔◌, ℕ, ◌^◌, ◌<◌, ◌∷◌, decimal, IsTrue, IfSome, IfNone};
ghost use Rattle.bt_net.specs.NetText.{start_text, target_text, IsEdgeLine};
ghost use Rattle.bt_net.specs.Network.{IsCap};
ghost use Rattle.bt_net.specs.inner.Lines.{StartFits, TargetFits, EdgeFits, IsTargetAndCap};
ghost use Rattle.bt_net.specs.declared.network.Edge.{Edge};
ghost use Rattle.bt_net.specs.declared.network.Start.{Start};
ghost use Rattle.bt_net.specs.declared.network.Target.{Target};

use crate::network::{Edge, MOST_CAP, Start, Target};
use bt_frac::read_whole;
use bt_text::{after_word, split_once};

/// The edge of a line `edge S T` or `edge S T C`, from S to T, with the cap C or else 1. None where it is another line.
pub fn read_edge(line: &[u8]) -> Option<Edge>
    ensures some { IfSome result (IsEdgeLine line.now) }
    ensures fits { IfSome result EdgeFits }
    ensures none { IfNone result ((e : Edge) → EdgeFits e → IsEdgeLine line.now e → ⊥) }
{
    let ends = after_word(line, b"edge ")?;
    let (start, words) = split_once(ends, b' ')?;
    let start = read_start(start)?;
    let (target, cap) = read_target_and_cap(words)?;
    Some(Edge { start, target, cap })
}

/// Whether the word is this one.
pub fn is_word(word: &[u8], other: &[u8]) -> bool
    ensures { IsTrue result ↔ (word.now ≡ other.now) }
{
    word == other
}

/// The target of an edge and its cap, which is 1 where none is written. None where the words are others.
fn read_target_and_cap(words: &[u8]) -> Option<(Target, u32)>
    ensures some { IfSome result (λ found. IsTargetAndCap words.now found.0 found.1) }
    ensures fits { IfSome result (λ found. TargetFits found.0 × IsCap found.1) }
    ensures none { IfNone result ((t : Target) (cap : ℕ) → TargetFits t → IsCap cap
        → IsTargetAndCap words.now t cap → ⊥) }
{
    let Some((target, cap)) = split_once(words, b' ') else {
        return Some((read_target(words)?, 1));
    };
    Some((read_target(target)?, read_cap(cap)?))
}

/// The cap that a word spells: a whole number from 1 to `MOST_CAP`. None where it spells another or none.
fn read_cap(word: &[u8]) -> Option<u32>
    ensures some { IfSome result (λ cap. (word.now ≡ decimal cap) × IsCap cap) }
    ensures none { IfNone result ((cap : ℕ) → IsCap cap → word.now ≡ decimal cap → ⊥) }
{
    match read_number(word)? {
        cap @ 1..=MOST_CAP => Some(cap),
        _ => None,
    }
}

/// The start of an edge: `i` and the number of an input, or `s` and that of a splitter. None where it is another word.
fn read_start(word: &[u8]) -> Option<Start>
    ensures some { IfSome result (λ s. word.now ≡ start_text s) }
    ensures fits { IfSome result StartFits }
    ensures none { IfNone result ((s : Start) → StartFits s → word.now ≡ start_text s → ⊥) }
{
    match number_behind(word, b'i') {
        Some(input) => Some(Start::Input(input)),
        None => match number_behind(word, b's') {
            Some(splitter) => Some(Start::Split(splitter)),
            None => None,
        },
    }
}

/// The target of an edge: `s` and the number of a splitter, or `o` and that of an output. None where it is another
/// word.
fn read_target(word: &[u8]) -> Option<Target>
    ensures some { IfSome result (λ t. word.now ≡ target_text t) }
    ensures fits { IfSome result TargetFits }
    ensures none { IfNone result ((t : Target) → TargetFits t → word.now ≡ target_text t → ⊥) }
{
    match number_behind(word, b's') {
        Some(splitter) => Some(Target::Split(splitter)),
        None => match number_behind(word, b'o') {
            Some(output) => Some(Target::Output(output)),
            None => None,
        },
    }
}

/// The number behind this letter, with which the word has to begin. None where it is another word.
pub fn number_behind(word: &[u8], letter: u8) -> Option<u32>
    ensures some { IfSome result (λ n. word.now ≡ letter ∷ decimal n) }
    ensures none { IfNone result ((n : ℕ) → n < 2 ^ 32 → word.now ≡ letter ∷ decimal n → ⊥) }
{
    match after_word(word, &[letter]) {
        Some(digits) => read_number(digits),
        None => None,
    }
}

/// The whole number of at most 32 bits that a word spells. None where it spells a greater one or none.
pub fn read_number(word: &[u8]) -> Option<u32>
    ensures some { IfSome result (λ n. word.now ≡ decimal n) }
    ensures none { IfNone result ((n : ℕ) → n < 2 ^ 32 → word.now ≡ decimal n → ⊥) }
{
    match u32::try_from(read_whole(word)?) {
        Ok(number) => Some(number),
        Err(_) => None,
    }
}
