//! Whether ends stand in a row.
ghost use Rattle.std.specs.Prelude.{◌≡◌, ◌↔◌, ◌<◌, All, AllPairs, IsTrue, length};
ghost use Rattle.bt_parts.specs.Layouts.{AreInRange};
ghost use Rattle.bt_net.specs.declared.network.EndKind.{EndKind as AKind};
ghost use Rattle.bt_model.specs.Laying.{IsEndPart, StandInRow};
ghost use Rattle.bt_model.specs.Shown.{IsPlacedBefore, ListsEach};
ghost use Rattle.bt_layout_check.specs.Laid.{naming_of};
ghost use Rattle.bt_layout_check.specs.inner.Rows.{AreEnds, AreInLine, IsNextTo, count_of};

use crate::names::Names;
use bt_net::EndKind;
use bt_parts::{Cell, Dir, Part};

/// Whether the two are the same cell.
fn is_same(one: Cell, other: Cell) -> bool
    ensures { IsTrue result ↔ (one ≡ other) }
{
    one == other
}

/// Whether the second part stands on the next cell in the direction from the first one.
fn is_next(parts: &[Part], first: usize, second: usize, dir: Dir) -> bool
    requires in_range { AreInRange parts.now }
    requires first { first < length parts.now }
    requires second { second < length parts.now }
    ensures { IsTrue result ↔ IsNextTo parts.now dir first second }
{
    let (before, part) = (&parts[first], &parts[second]);
    is_same(part.cell, before.cell.ahead(dir, 1))
}

/// Whether each part but the first stands on the next cell in the direction from the one before it.
fn are_in_line(parts: &[Part], indices: &[usize], dir: Dir) -> bool
    requires in_range { AreInRange parts.now }
    requires within { All (λ i. i < length parts.now) indices.now }
    ensures { IsTrue result ↔ AreInLine parts.now dir indices.now }
{
    for k in 1..indices.len() {
        if !is_next(parts, indices[k - 1], indices[k], dir) {
            return false;
        }
    }
    true
}

/// Whether the parts, which are those of all ends of a kind in the order of their cells, stand in a row.
fn are_in_row(parts: &[Part], indices: &[usize]) -> bool
    requires in_range { AreInRange parts.now }
    requires within { All (λ i. i < length parts.now) indices.now }
    ensures { (kind : AKind) → ListsEach (IsEndPart parts.now kind) indices.now
        → AllPairs (IsPlacedBefore parts.now) indices.now
        → IsTrue result ↔ StandInRow parts.now kind (length indices.now) }
{
    are_in_line(parts, indices, Dir::East) || are_in_line(parts, indices, Dir::South)
}

/// Whether all ends of a kind stand in a row; they are those that were recovered.
pub(crate) fn stand_in_row(parts: &[Part], own: &Names, kind: EndKind) -> bool
    requires in_range { AreInRange parts.now }
    requires ends { AreEnds parts.now (naming_of own.now) }
    ensures { IsTrue result ↔ StandInRow parts.now kind (count_of (naming_of own.now) kind) }
{
    match kind {
        EndKind::Inputs => are_in_row(parts, &own.inputs),
        EndKind::Outputs => are_in_row(parts, &own.outputs),
    }
}
