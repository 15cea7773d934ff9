//! Looking at a layout that is a plain list of parts, by going through the list.
//!
//! It needs no index, so that what the calls of this crate answer rests on the definitions alone.
ghost use Rattle.std.specs.Prelude.{◌≡◌, ◌↔◌, ℕ, ◌<◌, length, IsTrue, MatchOption, IfSome};
ghost use Rattle.bt_parts.specs.Cells.{Covers, IsInRange};
ghost use Rattle.bt_parts.specs.Layouts.{AreInRange, IsAt};

use bt_parts::{Cell, Kind, Layout, Part, cells_of};

/// Whether the part is of the kind.
pub fn is_kind(part: &Part, kind: Kind) -> bool
    ensures { IsTrue result ↔ (part.now.kind ≡ kind) }
{
    part.kind == kind
}

/// Whether the two are the same cell.
fn is_same(one: Cell, other: Cell) -> bool
    ensures { IsTrue result ↔ (one ≡ other) }
{
    one == other
}

/// Whether the part covers the cell.
pub(crate) fn covers(part: &Part, cell: Cell) -> bool
    requires { IsInRange part.now.cell }
    ensures { IsTrue result ↔ Covers part.now cell }
{
    let (first, second) = cells_of(part);
    if is_same(cell, first) {
        return true;
    }
    match second {
        Some(greater) => is_same(cell, greater),
        None => false,
    }
}

/// The index of the first part that covers the cell. None where no part does.
pub(crate) fn part_at(parts: &[Part], cell: Cell) -> Option<usize>
    requires { AreInRange parts.now }
    ensures there { MatchOption result ((i : ℕ) → IsAt parts.now i cell → ⊥) (λ i. IsAt parts.now i cell) }
    ensures within { IfSome result (λ i. i < length parts.now) }
{
    for (i, part) in parts.iter().enumerate() {
        if covers(part, cell) {
            return Some(i);
        }
    }
    None
}

/// A plain list of parts as a layout.
#[derive(Clone, Copy)]
pub(crate) struct Plain<'a> {
    pub(crate) parts: &'a [Part],
}

impl Layout for Plain<'_> {
    ghost parts = { λ plain. plain.parts.now };

    /// The part at this place of the list.
    fn part(&self, i: usize) -> &Part {
        &self.parts[i]
    }

    /// The index of the first part of the list that covers the cell. None where no part does.
    fn at(&self, cell: Cell) -> Option<usize> {
        part_at(self.parts, cell)
    }
}
