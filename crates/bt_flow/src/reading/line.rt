//! The lines of a state's text: their numbers, and those that hold no list, the first and the last.
ghost use Rattle.std.specs.Prelude.{◌≡◌, ◌≤◌, ◌<◌, ◌^◌, ◌∷◌, ◌++◌, ◌↔◌, ℕ, List, IsTrue, IfOk, IfErr, IfSome, IfNone};
ghost use Rattle.std.specs.Prelude.{All, codes, length};
ghost use Rattle.bt_text.specs.Blanks.{IsBlank};
ghost use Rattle.bt_text.specs.Pieces.{LeadsTo};
ghost use Rattle.bt_flow.specs.Names.{property_name};
ghost use Rattle.bt_flow.specs.Parts.{IsFault, Closes, StopsAtEnd, HasByteAfter};
ghost use Rattle.bt_flow.specs.inner.Lines.{IsLineFault, IsTitled, StopsAtTitle};

use crate::fault::StateFault;
use crate::property::Property;
use bt_text::{after_word, cut, line_feeds, next_piece, skip_blanks};

/// The number of the line that names the property.
pub const TITLE: usize = 1;

/// The number of the line of loads.
pub const LOADS: usize = 2;

/// The number of the line of rooms.
pub const ROOMS: usize = 3;

/// The number of the line of flows. That of marks comes next.
pub const FLOWS: usize = 4;

/// The number of the last line.
pub const END: usize = 6;

/// The line behind the line feed with which a text begins, and what follows it. Where the text begins otherwise, the
/// line is missing, and `CertLine` names its number.
pub fn next_line(text: &[u8], number: usize) -> Result<(&[u8], &[u8]), StateFault>
    ensures ok { IfOk result (λ parts. LeadsTo 10 text.now parts.0.now parts.1.now) }
    ensures err { IfErr result (IsLineFault number ((rest : List ℕ) → text.now ≡ 10 ∷ rest → ⊥)) }
{
    match next_piece(text, b'\n') {
        Some(parts) => Ok(parts),
        None => Err(StateFault::CertLine(number)),
    }
}

/// What follows the first line of a text, which says that the property is broken. `CertLine` names that line where it
/// doesn't.
pub fn after_title(text: &[u8], property: Property) -> Result<&[u8], StateFault>
    ensures ok { IfOk result (λ rest. IsTitled (codes "no " ++ property_name property) text.now rest.now) }
    ensures err { IfErr result
        (IsLineFault TITLE (StopsAtTitle (codes "no " ++ property_name property) text.now)) }
{
    let (title, rest) = cut(text, b'\n');
    if is_title(title, property) {
        Ok(rest)
    } else {
        Err(StateFault::CertLine(TITLE))
    }
}

/// Whether the line says that the property is broken.
fn is_title(line: &[u8], property: Property) -> bool
    ensures { IsTrue result ↔ (line.now ≡ codes "no " ++ property_name property) }
{
    match after_word(line, b"no ") {
        Some(name) => is_name(name, property),
        None => false,
    }
}

/// Whether the word is the property's name.
fn is_name(word: &[u8], property: Property) -> bool
    ensures { IsTrue result ↔ (word.now ≡ property_name property) }
{
    word == property.name().as_bytes()
}

/// Passes the line `end` that comes next in a text and has this number, after which only blanks stand. `CertLine` names
/// that line where it isn't so or is missing, or the first after it that isn't blank.
pub fn read_end(text: &[u8], number: usize) -> Result<(), StateFault>
    requires { number < 2 ^ 32 }
    ensures ok { IfOk result (λ _. Closes text.now) }
    ensures err { IfErr result (IsFault (StopsAtEnd number text.now)) }
{
    let (line, rest) = next_line(text, number)?;
    if line != b"end".as_slice() {
        return Err(StateFault::CertLine(number));
    }
    match feeds_before_byte(rest) {
        Some(feeds) => Err(StateFault::CertLine(number + feeds)),
        None => Ok(()),
    }
}

/// How many line feeds stand before the first byte that isn't blank, or None where all are blanks.
fn feeds_before_byte(text: &[u8]) -> Option<usize>
    ensures some { IfSome result (HasByteAfter text.now) }
    ensures few { IfSome result (λ feeds. feeds ≤ length text.now) }
    ensures none { IfNone result (All IsBlank text.now) }
{
    let rest = skip_blanks(text);
    if rest.is_empty() {
        return None;
    }
    Some(line_feeds(&text[..text.len() - rest.len()]))
}
