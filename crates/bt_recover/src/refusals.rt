//! Side-loading and blocked parts, each found by looking at the few cells round a part.
//!
//! Both are refused: side-loading fills one lane of a belt alone, and what a part looks at but does not
//! feed would be an end that nobody meant. A network of whole belts has neither.
ghost use Rattle.std.specs.Prelude.{◌≡◌, ◌↔◌, ℕ, ◌<◌, length, IsTrue, MatchOption};
ghost use Rattle.bt_parts.specs.Cells.{IsInRange};
ghost use Rattle.bt_parts.specs.Layouts.{HasPart, IsAt, IsWellPlaced};
ghost use Rattle.bt_model.specs.Handing.{BlocksFrom};
ghost use Rattle.bt_model.specs.Clean.{IsSideLoaded, IsHalfBlocked, IsBlocked};
ghost use Rattle.bt_recover.specs.inner.Told.{TellsFirst};

use crate::grid::Grid;
use crate::sight::{is_seen_aside, is_seen_twice};
use bt_model::is_kind;
use bt_parts::{Cell, Kind, Side, cells_of, front, side};

/// Whether the part is side-loaded: a belt at which two parts look that aren't ahead of it, or an underground piece at
/// which one looks from a side.
fn is_side_loaded(grid: &Grid, i: usize) -> bool
    requires within { i < length grid.now }
    requires well_placed { IsWellPlaced grid.now }
    ensures { IsTrue result ↔ IsSideLoaded grid.now i }
{
    let part = grid.part(i);
    match part.kind {
        Kind::Belt => is_seen_twice(grid, part.cell, part.dir),
        Kind::Entrance => is_seen_aside(grid, part.cell, part.dir),
        Kind::Exit => is_seen_aside(grid, part.cell, part.dir),
        Kind::Splitter => false,
    }
}

/// The first part that is side-loaded. None where no part is.
pub(crate) fn first_side_loaded(grid: &Grid) -> Option<usize>
    ensures well_placed { IsWellPlaced grid.now }
    ensures none { TellsFirst (IsSideLoaded grid.now) result }
{
    for i in 0..grid.parts().len() {
        if is_side_loaded(grid, i) {
            return Some(i);
        }
    }
    None
}

/// Whether a part of the kind takes nothing from a part that looks at it from this side.
///
/// A belt and an entrance block from ahead, an exit from behind and ahead, and a splitter from everywhere but behind.
fn blocks(kind: Kind, side: Side) -> bool
    ensures { IsTrue result ↔ BlocksFrom kind side }
{
    match kind {
        Kind::Belt | Kind::Entrance => side == Side::Ahead,
        Kind::Exit => side != Side::Across,
        Kind::Splitter => side != Side::Behind,
    }
}

/// Whether this cell of the part looks at a part that blocks. An entrance looks at no cell.
fn is_half_blocked(grid: &Grid, i: usize, half: Cell) -> bool
    requires within { i < length grid.now }
    requires half { IsAt grid.now i half }
    ensures { IsTrue result ↔ IsHalfBlocked grid.now i half }
{
    let giver = grid.part(i);
    if is_kind(giver, Kind::Entrance) {
        return false;
    }
    let Some(j) = grid.at(front(giver, half)) else {
        return false;
    };
    let taker = grid.part(j);
    blocks(taker.kind, side(giver.dir, taker.dir))
}

/// Whether the part looks at a part that takes nothing from there.
fn is_blocked(grid: &Grid, i: usize) -> bool
    requires { i < length grid.now }
    ensures { IsTrue result ↔ IsBlocked grid.now i }
{
    let (first, second) = cells_of(grid.part(i));
    if is_half_blocked(grid, i, first) {
        return true;
    }
    match second {
        Some(half) => is_half_blocked(grid, i, half),
        None => false,
    }
}

/// The first part that looks at one that takes nothing from there. None where no part does.
pub(crate) fn first_blocked(grid: &Grid) -> Option<usize>
    ensures { TellsFirst (IsBlocked grid.now) result }
{
    for i in 0..grid.parts().len() {
        if is_blocked(grid, i) {
            return Some(i);
        }
    }
    None
}
