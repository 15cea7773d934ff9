//! Which part hands what it carries to which: through the ground to the exit of its pair, or to what is
//! in front of it, where that takes from there (Factorio Wiki, transport belts and underground belts).
ghost use Rattle.std.specs.Prelude.{◌≡◌, ◌↔◌, ℕ, ◌<◌, length, Some, IsTrue, IfSome};
ghost use Rattle.bt_parts.specs.Cells.{Covers, IsInRange};
ghost use Rattle.bt_parts.specs.Layouts.{AreInRange, IsWellPlaced, Pairs};
ghost use Rattle.bt_model.specs.Handing.{FeedsPart, Feeds, Hands};

use crate::plain::{Plain, covers, is_kind};
use bt_parts::{Cell, Kind, Part, accepts, cells_of, front, other_end, side};

/// The index of the exit with which part `a` is a pair, where it is an entrance that has one; else None.
pub(crate) fn exit_of(parts: &[Part], a: usize) -> Option<usize>
    requires within { a < length parts.now }
    requires in_range { AreInRange parts.now }
    requires well_placed { IsWellPlaced parts.now }
    ensures pair { (b : ℕ) → (result ≡ Some b) ↔ Pairs parts.now a b }
    ensures within { IfSome result (λ b. b < length parts.now) }
{
    if is_kind(&parts[a], Kind::Entrance) {
        other_end(&Plain { parts }, a)
    } else {
        None
    }
}

/// Whether part `a` is the entrance and part `b` the exit of a pair.
pub fn pair(parts: &[Part], a: usize, b: usize) -> bool
    requires a_within { a < length parts.now }
    requires b_within { b < length parts.now }
    requires in_range { AreInRange parts.now }
    requires well_placed { IsWellPlaced parts.now }
    ensures { IsTrue result ↔ Pairs parts.now a b }
{
    match exit_of(parts, a) {
        Some(exit) => exit == b,
        None => false,
    }
}

/// Whether the giver hands to the taker from this cell of its: it is no entrance, the cell faces the taker, and the
/// taker takes from there.
pub(crate) fn feeds_from(giver: &Part, half: Cell, taker: &Part) -> bool
    requires giver { IsInRange giver.now.cell }
    requires taker { IsInRange taker.now.cell }
    requires half { Covers giver.now half }
    ensures { IsTrue result ↔ FeedsPart giver.now half taker.now }
{
    giver.kind != Kind::Entrance
        && covers(taker, front(giver, half))
        && accepts(taker.kind, side(giver.dir, taker.dir))
}

/// Whether part `p` hands to part `q` over the ground, from one of its cells.
fn feeds(parts: &[Part], p: usize, q: usize) -> bool
    requires p_within { p < length parts.now }
    requires q_within { q < length parts.now }
    requires in_range { AreInRange parts.now }
    ensures { IsTrue result ↔ Feeds parts.now p q }
{
    let giver = &parts[p];
    let taker = &parts[q];
    let (first, second) = cells_of(giver);
    if feeds_from(giver, first, taker) {
        return true;
    }
    match second {
        Some(half) => feeds_from(giver, half, taker),
        None => false,
    }
}

/// Whether part `a` hands what it carries to part `b`, over the ground or through it.
pub fn hands(parts: &[Part], a: usize, b: usize) -> bool
    requires a_within { a < length parts.now }
    requires b_within { b < length parts.now }
    requires in_range { AreInRange parts.now }
    requires well_placed { IsWellPlaced parts.now }
    ensures { IsTrue result ↔ Hands parts.now a b }
{
    pair(parts, a, b) || feeds(parts, a, b)
}
