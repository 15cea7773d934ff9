//! Rings of belts and underground pieces, which no chain enters or leaves.
ghost use Rattle.std.specs.Prelude.{◌≡◌, ◌≢◌, ◌↔◌, ℕ, ◌<◌, length, IsTrue, MatchOption, IfSome};
ghost use Rattle.bt_parts.specs.Cells.{IsInRange};
ghost use Rattle.bt_parts.specs.Layouts.{AreInRange, IsWellPlaced};
ghost use Rattle.bt_model.specs.Handing.{FeedsPart};
ghost use Rattle.bt_model.specs.Chains.{LinksTo};
ghost use Rattle.bt_model.specs.Clean.{IsOnRing};

use crate::giving::{exit_of, feeds_from};
use crate::plain::{is_kind, part_at};
use bt_parts::{Kind, Part, front};

/// Whether the giver's own cell faces the taker, which is no splitter and takes from there.
fn feeds_link(giver: &Part, taker: &Part) -> bool
    requires giver { IsInRange giver.now.cell }
    requires taker { IsInRange taker.now.cell }
    ensures { IsTrue result
        ↔ ((taker.now.kind ≢ Kind.Splitter) × FeedsPart giver.now giver.now.cell taker.now) }
{
    taker.kind != Kind::Splitter && feeds_from(giver, giver.cell, taker)
}

/// The index of the belt or underground piece to which part `i` hands. None where it hands to none, or is a splitter.
fn next_link(parts: &[Part], i: usize) -> Option<usize>
    requires within { i < length parts.now }
    requires in_range { AreInRange parts.now }
    requires well_placed { IsWellPlaced parts.now }
    ensures next { MatchOption result ((j : ℕ) → LinksTo parts.now i j → ⊥) (LinksTo parts.now i) }
    ensures within { IfSome result (λ j. j < length parts.now) }
{
    let giver = &parts[i];
    if is_kind(giver, Kind::Splitter) {
        return None;
    }
    if is_kind(giver, Kind::Entrance) {
        return exit_of(parts, i);
    }
    let Some(j) = part_at(parts, front(giver, giver.cell)) else {
        return None;
    };
    if feeds_link(giver, &parts[j]) {
        Some(j)
    } else {
        None
    }
}

/// Whether the part is on a ring: a closed list of belts and underground pieces, each of which
/// hands to the next.
pub fn ring(parts: &[Part], i: usize) -> bool
    requires within { i < length parts.now }
    requires in_range { AreInRange parts.now }
    requires well_placed { IsWellPlaced parts.now }
    ensures { IsTrue result ↔ IsOnRing parts.now i }
{
    let mut last = i;
    for _steps in 0..parts.len() {
        let Some(next) = next_link(parts, last) else {
            return false;
        };
        if next == i {
            return true;
        }
        last = next;
    }
    false
}
