//! From the middle of a part, in halves of a tile, to its first cell. A blueprint's positions are relative
//! to a point of its own, so its parts may all stand off whole tiles by half a tile, each way.

ghost use Rattle.std.specs.Prelude.{◌≡◌, ◌<◌, ◌^◌, ℤ, ◌-ℤ◌, ◌*ℤ◌, pos, neg_ℤ, unsigned_abs};
ghost use Rattle.std.specs.Prelude.{if◌then◌else◌, MatchOption};
ghost use Rattle.bt_entities.specs.Places.{width_of, height_of, IsMiddle};

use bt_parts::{Dir, Kind};

/// By how many halves of a tile, 0 or 1, a blueprint's parts stand off the grid of cells.
#[derive(Clone, Copy)]
pub struct Shift {
    /// To the east.
    pub x: u8,
    /// To the south.
    pub y: u8,
}

/// How many tiles a part takes from west to east.
pub fn width(kind: Kind, dir: Dir) -> u8
    ensures { result ≡ width_of kind dir }
{
    match (kind, dir) {
        (Kind::Splitter, Dir::North | Dir::South) => 2,
        _ => 1,
    }
}

/// How many tiles a part takes from north to south.
pub fn height(kind: Kind, dir: Dir) -> u8
    ensures { result ≡ height_of kind dir }
{
    match (kind, dir) {
        (Kind::Splitter, Dir::East | Dir::West) => 2,
        _ => 1,
    }
}

/// The whole number of this magnitude, negative or not.
fn with_sign(negative: bool, magnitude: u64) -> i32
    requires { magnitude < 2 ^ 31 }
    ensures { result ≡ (if negative then neg_ℤ (pos magnitude) else pos magnitude) }
{
    let value = magnitude as i32;
    if negative { -value } else { value }
}

/// The half of an even number. None of an odd one.
fn half(twice: i64) -> Option<i32>
    requires { unsigned_abs twice < 2 ^ 32 }
    ensures { MatchOption result
        ((half : ℤ) → ¬ (twice ≡ pos 2 *ℤ half))
        (λ half. twice ≡ pos 2 *ℤ half) }
{
    let magnitude = twice.unsigned_abs();
    if magnitude % 2 != 0 {
        return None;
    }
    Some(with_sign(twice < 0, magnitude / 2))
}

/// Twice the coordinate of the first of `size` tiles, whose middle is given in halves of a tile, on a grid that is
/// shifted by `shift` halves of a tile.
fn twice_first(middle: i32, size: u8, shift: u8) -> i64
    ensures first { result ≡ (middle -ℤ pos size) -ℤ pos shift }
    ensures near { unsigned_abs result < 2 ^ 32 }
{
    i64::from(middle) - i64::from(size) - i64::from(shift)
}

/// The coordinate of the first of `size` tiles, whose middle is given in halves of a tile, on a grid that is shifted by
/// `shift` halves of a tile. None where they are off that grid.
pub fn first_tile(middle: i32, size: u8, shift: u8) -> Option<i32>
    ensures { MatchOption result
        ((first : ℤ) → ¬ IsMiddle middle size shift first)
        (IsMiddle middle size shift) }
{
    half(twice_first(middle, size, shift))
}

/// By how many halves of a tile, 0 or 1, so many tiles with this middle, in halves of a tile, stand off the grid.
pub fn shift_of(middle: i32, size: u8) -> u8
    ensures small { result < 2 }
    ensures on { (first : ℤ) × IsMiddle middle size result first }
{
    match first_tile(middle, size, 0) {
        Some(_) => 0,
        None => 1,
    }
}
