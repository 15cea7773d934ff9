//! The lines that say where ends stand, and where no part does, and their words.
ghost use Rattle.std.specs.Prelude.{◌≡◌, ℕ, ◌^◌, ◌<◌, ◌++◌, Option, codes, decimal, IfSome, IfNone};
ghost use Rattle.bt_parts.specs.declared.part.Dir.{Dir};
ghost use Rattle.bt_net.specs.declared.network.Block.{Block};
ghost use Rattle.bt_net.specs.declared.network.End.{End};
ghost use Rattle.bt_net.specs.declared.network.Pin.{Pin};
ghost use Rattle.bt_net.specs.PinText.{end_text, dir_text, way_text, IsPinLine, IsBlockLine};
ghost use Rattle.bt_net.specs.Wiring.{HasSmallSizes};
ghost use Rattle.bt_net.specs.inner.Lines.{EndFits};
ghost use Rattle.bt_net.specs.inner.PinWords.{AreCellAndWay, AreRowAndWay};

use crate::network::{Block, End, NO_COORDINATE, Pin};
use crate::wiring::Wiring;
use crate::words::{is_word, number_behind, read_number};
use bt_parts::Dir;
use bt_text::{after_word, split_once};

/// The pin of a line `pin E X Y` or `pin E X Y D` with this number. None where it is another line, or names an end that
/// the network lacks.
pub fn read_pin(wiring: &Wiring, number: usize, line: &[u8]) -> Option<Pin>
    requires { HasSmallSizes wiring.now }
    ensures some { IfSome result (IsPinLine wiring.now number line.now) }
    ensures none { IfNone result ((pin : Pin) → IsPinLine wiring.now number line.now pin → ⊥) }
{
    let (end, words) = split_once(after_word(line, b"pin ")?, b' ')?;
    let end = read_end(end)?;
    let (x, y, dir) = read_cell_and_way(words)?;
    if !wiring.has_end(end) {
        return None;
    }
    Some(Pin {
        end,
        x,
        y,
        dir,
        line: number,
    })
}

/// The block of a line `block X Y` with this number. None where it is another line.
pub fn read_block(number: usize, line: &[u8]) -> Option<Block>
    ensures some { IfSome result (IsBlockLine number line.now) }
    ensures none { IfNone result ((block : Block) → IsBlockLine number line.now block → ⊥) }
{
    let (x, y) = split_once(after_word(line, b"block ")?, b' ')?;
    Some(Block {
        x: read_coordinate(x)?,
        y: read_coordinate(y)?,
        line: number,
    })
}

/// The end that a word names: `i` and the number of an input, or `o` and that of an output. None where it is another
/// word.
pub fn read_end(word: &[u8]) -> Option<End>
    ensures some { IfSome result (λ e. word.now ≡ end_text e) }
    ensures fits { IfSome result EndFits }
    ensures none { IfNone result ((e : End) → EndFits e → word.now ≡ end_text e → ⊥) }
{
    match number_behind(word, b'i') {
        Some(input) => Some(End::Input(input)),
        None => match number_behind(word, b'o') {
            Some(output) => Some(End::Output(output)),
            None => None,
        },
    }
}

/// The x and the y of a cell, and the direction where a third word names one. None where the words are others.
fn read_cell_and_way(words: &[u8]) -> Option<(u32, u32, Option<Dir>)>
    ensures some { IfSome result (λ found. AreCellAndWay words.now found.0 found.1 found.2) }
    ensures none { IfNone result ((x y : ℕ) (way : Option Dir) → AreCellAndWay words.now x y way → ⊥) }
{
    let (x, words) = split_once(words, b' ')?;
    let x = read_coordinate(x)?;
    let (y, way) = read_row_and_way(words)?;
    Some((x, y, way))
}

/// The y of a cell, and the direction where a second word names one. None where the words are others.
fn read_row_and_way(words: &[u8]) -> Option<(u32, Option<Dir>)>
    ensures some { IfSome result (λ found. AreRowAndWay words.now found.0 found.1) }
    ensures none { IfNone result ((y : ℕ) (way : Option Dir) → AreRowAndWay words.now y way → ⊥) }
{
    let Some((y, way)) = split_once(words, b' ') else {
        return Some((read_coordinate(words)?, None));
    };
    Some((read_coordinate(y)?, Some(read_dir(way)?)))
}

/// The direction that a word names. None where it is no word of a direction.
pub fn read_dir(word: &[u8]) -> Option<Dir>
    ensures some { IfSome result (λ dir. word.now ≡ dir_text dir) }
    ensures none { IfNone result ((dir : Dir) → word.now ≡ dir_text dir → ⊥) }
{
    if is_word(word, b"north") {
        Some(Dir::North)
    } else if is_word(word, b"east") {
        Some(Dir::East)
    } else if is_word(word, b"south") {
        Some(Dir::South)
    } else if is_word(word, b"west") {
        Some(Dir::West)
    } else {
        None
    }
}

/// The whole number of at most nine digits that a word spells. None where it spells none.
fn read_coordinate(word: &[u8]) -> Option<u32>
    ensures some { IfSome result (λ n. (word.now ≡ decimal n) × (n < NO_COORDINATE)) }
    ensures none { IfNone result ((n : ℕ) → n < NO_COORDINATE → word.now ≡ decimal n → ⊥) }
{
    let number = read_number(word)?;
    if number < NO_COORDINATE {
        Some(number)
    } else {
        None
    }
}
