//! Which part hands to a belt or an underground piece, and to which it hands, by looking at few cells. A part looks at
//! the cell in front of it, and hands to the part there; an entrance looks at none, and hands to its exit.
//!
//! In a layout that is refused for nothing but rings each has one giver and one taker at most, so that chains can be
//! walked in both directions.
ghost use Rattle.std.specs.Prelude.{◌≡◌, ◌≢◌, ◌↔◌, ℕ, ◌<◌, length, IsTrue, MatchOption, IfSome};
ghost use Rattle.bt_parts.specs.Cells.{IsInRange, opposite};
ghost use Rattle.bt_parts.specs.Layouts.{HasPart, IsAt, IsWellPlaced};
ghost use Rattle.bt_recover.specs.Pairing.{ArePartners};
ghost use Rattle.bt_model.specs.Handing.{Hands};
ghost use Rattle.bt_model.specs.Chains.{IsLink, LinksTo, IsOutput};
ghost use Rattle.bt_model.specs.Orderly.{IsOrderly};
ghost use Rattle.bt_model.specs.inner.Sight.{IsBeltFeeder};
ghost use Rattle.bt_recover.specs.inner.Told.{TellsOne};

use crate::grid::Grid;
use crate::partners::Pairs;
use crate::sight::{left, looker};
use bt_model::is_kind;
use bt_parts::{Kind, Part, front};

/// A part that looks at the cell of a belt, and not from ahead. None where no part does.
fn belt_feeder(grid: &Grid, belt: &Part) -> Option<usize>
    requires { IsInRange belt.now.cell }
    ensures feeder { TellsOne (IsBeltFeeder grid.now belt.now) result }
    ensures within { IfSome result (λ p. p < length grid.now) }
{
    if let Some(p) = looker(grid, belt.cell, belt.dir) {
        return Some(p);
    }
    if let Some(p) = looker(grid, belt.cell, left(belt.dir)) {
        return Some(p);
    }
    looker(grid, belt.cell, left(belt.dir).opposite())
}

/// The part that hands to this belt or underground piece. None where no part does.
pub(crate) fn giver(grid: &Grid, pairs: &Pairs, i: usize) -> Option<usize>
    requires link { IsLink grid.now i }
    requires within { i < length grid.now }
    requires partners { ArePartners grid.now pairs.now }
    ensures gives { TellsOne (λ p. Hands grid.now p i) result }
    ensures within { IfSome result (λ p. p < length grid.now) }
{
    let part = grid.part(i);
    match part.kind {
        Kind::Belt => belt_feeder(grid, part),
        Kind::Entrance => looker(grid, part.cell, part.dir),
        Kind::Exit => pairs.partner(i),
        Kind::Splitter => None,
    }
}

/// The part to which this belt or underground piece hands; an output hands to none.
pub(crate) fn taker(grid: &Grid, pairs: &Pairs, i: usize) -> Option<usize>
    requires link { IsLink grid.now i }
    requires within { i < length grid.now }
    requires partners { ArePartners grid.now pairs.now }
    requires orderly { IsOrderly grid.now }
    ensures takes { MatchOption result (IsOutput grid.now i) (Hands grid.now i) }
    ensures within { IfSome result (λ j. j < length grid.now) }
{
    let part = grid.part(i);
    if is_kind(part, Kind::Entrance) {
        return pairs.partner(i);
    }
    grid.at(front(part, part.cell))
}

/// The belt or underground piece that hands to this one. None where a splitter does, or nothing.
pub(crate) fn link_before(grid: &Grid, pairs: &Pairs, i: usize) -> Option<usize>
    requires link { IsLink grid.now i }
    requires within { i < length grid.now }
    requires partners { ArePartners grid.now pairs.now }
    requires orderly { IsOrderly grid.now }
    ensures { TellsOne (λ p. LinksTo grid.now p i) result }
{
    let Some(p) = giver(grid, pairs, i) else {
        return None;
    };
    if is_kind(grid.part(p), Kind::Splitter) {
        None
    } else {
        Some(p)
    }
}

/// The belt or underground piece to which this one hands. None where it hands to a splitter, or to nothing.
pub(crate) fn link_after(grid: &Grid, pairs: &Pairs, i: usize) -> Option<usize>
    requires link { IsLink grid.now i }
    requires within { i < length grid.now }
    requires partners { ArePartners grid.now pairs.now }
    requires orderly { IsOrderly grid.now }
    ensures next { TellsOne (LinksTo grid.now i) result }
    ensures within { IfSome result (λ j. j < length grid.now) }
{
    let Some(j) = taker(grid, pairs, i) else {
        return None;
    };
    if is_kind(grid.part(j), Kind::Splitter) {
        None
    } else {
        Some(j)
    }
}
