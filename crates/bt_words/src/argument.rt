//! Arguments: what stands behind a command's word.
ghost use Rattle.std.specs.Prelude.{◌≡◌, ℕ, List, MatchOption, map, string_bytes};
ghost use Rattle.bt_words.specs.Arguments.{IsPlain, IsValued};
ghost use Rattle.bt_words.specs.inner.Reading.{BeginsWith, IsMark, IsPlaced};
ghost use Rattle.bt_words.specs.declared.argument.Argument.{Argument as AnArgument};

use crate::grid::{grid_of, tier_named};
use crate::number::number_up_to;
use bt_gen::Wish;
use bt_parts::{Rect, Tier};
use bt_text::{after_word, split_once};

/// The most that a number for itself may be: nine digits.
pub const MOST_ORDER: u32 = 999_999_999;

/// The most steps to which `--learnt` may limit a log.
pub const MOST_LEARNT: u64 = 1_000_000_000;

/// The most turns to which `--pivots` may limit the solving of rows.
pub const MOST_PIVOTS: u64 = 1_000_000_000;

/// An argument of a command.
#[derive(Clone, Copy)]
pub enum Argument {
    /// The names of properties: one, or several that are joined by commas.
    Wished(Wish),
    /// A number: the order of a network that is made, or how many inputs or outputs one has that is built.
    Number(u32),
    /// `--chain`: the network that is made is a chain.
    Chain,
    /// `--learnt`: the most steps of a log.
    Learnt(u64),
    /// `--pivots`: the most turns of one call.
    Pivots(u64),
    /// `--grid`: the cells on which a layout lies.
    Grid(Rect),
    /// `--tier`: the tier of its parts.
    OfTier(Tier),
    /// `--most`: the greatest grid that is searched.
    Most(Rect),
    /// `--from`: the grid with which a search begins.
    From(Rect),
    /// `--found`: small layouts are looked for.
    Found,
    /// `--sides`: ends stay at their sides.
    Sides,
    /// `--request`: what is built is written as a request for a layout.
    Request,
}

/// The argument at the front of the words, and the words behind it. None where no argument stands there.
pub fn next_argument(words: &[String]) -> Option<(Argument, &[String])>
    ensures { MatchOption result
        ((a : AnArgument) (rest : List (List ℕ)) → BeginsWith (map string_bytes words.now) a rest → ⊥)
        (λ found. BeginsWith (map string_bytes words.now) found.0 (map string_bytes found.1.now)) }
{
    let (word, rest) = words.split_first()?;
    if let Some(argument) = plain(word.as_str()) {
        return Some((argument, rest));
    }
    let option = after_word(word.as_bytes(), b"--")?;
    if let Some((name, value)) = split_once(option, b'=') {
        return Some((valued(name, value)?, rest));
    }
    let (value, rest) = rest.split_first()?;
    Some((valued(option, value.as_bytes())?, rest))
}

/// The argument that a single word is, without a value behind it. None where it is none.
fn plain(word: &str) -> Option<Argument>
    ensures { MatchOption result ((a : AnArgument) → IsPlain a word.now → ⊥) (λ a. IsPlain a word.now) }
{
    match mark(word) {
        Some(argument) => Some(argument),
        None => placed(word.as_bytes()),
    }
}

/// The option without a value that a word is. None where it is none.
fn mark(word: &str) -> Option<Argument>
    ensures { MatchOption result ((a : AnArgument) → IsMark a word.now → ⊥) (λ a. IsMark a word.now) }
{
    if word == "--chain" {
        return Some(Argument::Chain);
    }
    if word == "--found" {
        return Some(Argument::Found);
    }
    if word == "--sides" {
        return Some(Argument::Sides);
    }
    if word == "--request" {
        return Some(Argument::Request);
    }
    None
}

/// The properties or the number that a word is. None where it is neither.
fn placed(word: &[u8]) -> Option<Argument>
    ensures { MatchOption result ((a : AnArgument) → IsPlaced a word.now → ⊥) (λ a. IsPlaced a word.now) }
{
    if let Some(wish) = Wish::named(word) {
        return Some(Argument::Wished(wish));
    }
    let number = number_up_to(u64::from(MOST_ORDER), word)?;
    Some(Argument::Number(number as u32))
}

/// The option of this name with this value. None where there is no such option, or it can't have the value.
fn valued(name: &[u8], value: &[u8]) -> Option<Argument>
    ensures { MatchOption result ((a : AnArgument) → IsValued a name.now value.now → ⊥)
        (λ a. IsValued a name.now value.now) }
{
    if name == b"learnt".as_slice() {
        return Some(Argument::Learnt(number_up_to(MOST_LEARNT, value)?));
    }
    if name == b"pivots".as_slice() {
        return Some(Argument::Pivots(number_up_to(MOST_PIVOTS, value)?));
    }
    if name == b"grid".as_slice() {
        return Some(Argument::Grid(grid_of(value)?));
    }
    if name == b"tier".as_slice() {
        return Some(Argument::OfTier(tier_named(value)?));
    }
    if name == b"most".as_slice() {
        return Some(Argument::Most(grid_of(value)?));
    }
    if name == b"from".as_slice() {
        return Some(Argument::From(grid_of(value)?));
    }
    None
}
