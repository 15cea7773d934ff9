//! Whether parts fit a request.
ghost use Rattle.std.specs.Prelude.{◌≡◌, ◌↔◌, ◌<◌, All, IsTrue, length};
ghost use Rattle.bt_parts.specs.Cells.{IsInRange};
ghost use Rattle.bt_parts.specs.Layouts.{AreInRange};
ghost use Rattle.bt_model.specs.Requests.{IsGrid, blocked};
ghost use Rattle.bt_layout_check.specs.inner.Fitting.{IsFirstInside, IsFree, IsLastInside, LiesInside, SuitsAlone};

use bt_net::Block;
use bt_parts::{Cell, Part, Rect, Tier, back, cells_of, front, inside};
use bt_recover::Grid;

/// Whether all cells of a part lie in the rectangle.
fn lies_inside(rect: Rect, part: &Part) -> bool
    requires { IsGrid rect }
    ensures { IsTrue result ↔ LiesInside rect part.now }
{
    if !inside(&rect, part.cell) {
        return false;
    }
    match cells_of(part).1 {
        Some(greater) => inside(&rect, greater),
        None => true,
    }
}

/// Whether the two are the same tier.
fn is_same(one: Tier, other: Tier) -> bool
    ensures { IsTrue result ↔ (one ≡ other) }
{
    one == other
}

/// Whether a part lies in the rectangle and has the tier.
fn suits_alone(rect: Rect, tier: Tier, part: &Part) -> bool
    requires { IsGrid rect }
    ensures { IsTrue result ↔ SuitsAlone rect tier part.now }
{
    lies_inside(rect, part) && is_same(part.tier, tier)
}

/// Whether all parts lie in the rectangle and have the tier.
pub(crate) fn all_suit(rect: Rect, tier: Tier, parts: &[Part]) -> bool
    requires { IsGrid rect }
    ensures { IsTrue result ↔ All (SuitsAlone rect tier) parts.now }
{
    for part in parts {
        if !suits_alone(rect, tier, part) {
            return false;
        }
    }
    true
}

/// The cell that a block names.
fn blocked_cell(block: &Block) -> Cell
    requires { IsInRange (blocked block.now) }
    ensures { result ≡ blocked block.now }
{
    Cell {
        x: block.x as i32,
        y: block.y as i32,
    }
}

/// Whether no part stands on the cell of a block.
fn is_free(grid: &Grid, block: &Block) -> bool
    requires { IsInRange (blocked block.now) }
    ensures { IsTrue result ↔ IsFree grid.now block.now }
{
    grid.at(blocked_cell(block)).is_none()
}

/// Whether no part stands on a blocked cell.
pub(crate) fn are_free(grid: &Grid, blocks: &[Block]) -> bool
    requires { All (λ block. IsInRange (blocked block)) blocks.now }
    ensures { IsTrue result ↔ All (IsFree grid.now) blocks.now }
{
    for block in blocks {
        if !is_free(grid, block) {
            return false;
        }
    }
    true
}

/// Whether the rectangle ends behind each of these parts.
pub(crate) fn are_first(rect: Rect, parts: &[Part], indices: &[usize]) -> bool
    requires in_range { AreInRange parts.now }
    requires within { All (λ i. i < length parts.now) indices.now }
    ensures { IsTrue result ↔ All (IsFirstInside rect parts.now) indices.now }
{
    for i in indices {
        let part = &parts[*i];
        if inside(&rect, back(part, part.cell)) {
            return false;
        }
    }
    true
}

/// Whether the rectangle ends in front of each of these parts.
pub(crate) fn are_last(rect: Rect, parts: &[Part], indices: &[usize]) -> bool
    requires in_range { AreInRange parts.now }
    requires within { All (λ i. i < length parts.now) indices.now }
    ensures { IsTrue result ↔ All (IsLastInside rect parts.now) indices.now }
{
    for i in indices {
        let part = &parts[*i];
        if inside(&rect, front(part, part.cell)) {
            return false;
        }
    }
    true
}
