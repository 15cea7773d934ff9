//! Underground pieces, and the way from one end of a pair to the other.
//!
//! A layout is looked at through `Layout`, so that a list of parts and an index of its cells share the
//! one loop over distances that the rule of pairs asks for.

ghost use Rattle.std.specs.Prelude.{◌≡◌, ◌↔◌, ℕ, ◌+◌, ◌<◌, List, length, IsTrue, MatchOption};
ghost use Rattle.bt_parts.specs.Cells.{IsInRange};
ghost use Rattle.bt_parts.specs.Layouts.{AreInRange, IsWellPlaced, HasPart, IsAt};
ghost use Rattle.bt_parts.specs.Layouts.{IsUnderground, IsPieceOn, ArePaired};
ghost use Rattle.bt_parts.specs.Tiers.{reach_of};
ghost use Rattle.bt_parts.specs.inner.Looking.{IsPieceThere, NoneNearer, IsFirstPiece, IsFarEnd, IsEndFor};
ghost use Rattle.bt_parts.specs.declared.part.Part.{Part};

use crate::part::{Cell, Dir, Kind, Part, Tier};

/// Parts in the plane. A part's index is its place in their list, which contracts see.
pub trait Layout {
    /// The parts, in the order of their indices.
    ghost parts: { Self → List Part };

    /// The part with this index.
    fn part(&self, i: usize) -> &Part
        requires { i < length (parts self.now) }
        ensures { HasPart (parts self.now) i result.now };

    /// The index of a part that covers the cell, if there is one.
    fn at(&self, cell: Cell) -> Option<usize>
        requires { AreInRange (parts self.now) }
        ensures { MatchOption result
            ((i : ℕ) → IsAt (parts self.now) i cell → ⊥)
            (λ i. IsAt (parts self.now) i cell) };
}

/// Whether the part is an underground piece.
pub fn is_underground(part: &Part) -> bool
    ensures { IsTrue result ↔ IsUnderground part.now }
{
    part.kind == Kind::Entrance || part.kind == Kind::Exit
}

/// Whether the part is an underground piece of the tier that points along the direction or against it.
fn is_piece_on(part: &Part, tier: Tier, dir: Dir) -> bool
    ensures { IsTrue result ↔ IsPieceOn tier dir part.now }
{
    is_underground(part) && part.tier == tier && (part.dir == dir || part.dir == dir.opposite())
}

/// In which direction the other end of an underground piece lies, and of what kind it is. None where the part is no
/// underground piece.
fn far_end(part: &Part) -> Option<(Dir, Kind)>
    ensures { MatchOption result (IsUnderground part.now → ⊥) (λ far. IsFarEnd part.now far.0 far.1) }
{
    match part.kind {
        Kind::Entrance => Some((part.dir, Kind::Exit)),
        Kind::Exit => Some((part.dir.opposite(), Kind::Entrance)),
        Kind::Belt | Kind::Splitter => None,
    }
}

/// The index of the underground piece on the cell, where it is of the tier and points along the direction or against
/// it; else None.
fn piece_at<L: Layout>(layout: &L, cell: Cell, tier: Tier, dir: Dir) -> Option<usize>
    requires in_range { AreInRange (L.parts layout.now) }
    requires well_placed { IsWellPlaced (L.parts layout.now) }
    ensures { MatchOption result
        ((i : ℕ) → IsPieceThere (L.parts layout.now) tier dir cell i → ⊥)
        (IsPieceThere (L.parts layout.now) tier dir cell) }
{
    let Some(i) = layout.at(cell) else {
        return None;
    };
    if is_piece_on(layout.part(i), tier, dir) {
        Some(i)
    } else {
        None
    }
}

/// The index of the nearest underground piece of the part's tier and axis in a direction from the part, at a distance
/// of at most one more than the tier's reach. None where there is none.
fn first_piece<L: Layout>(layout: &L, from: &Part, toward: Dir) -> Option<usize>
    requires in_range { AreInRange (L.parts layout.now) }
    requires well_placed { IsWellPlaced (L.parts layout.now) }
    requires from { IsInRange from.now.cell }
    ensures { MatchOption result
        (NoneNearer (L.parts layout.now) from.now toward (reach_of from.now.tier + 2))
        (IsFirstPiece (L.parts layout.now) from.now toward) }
{
    for distance in 1..from.tier.reach() + 2 {
        let cell = from.cell.ahead(toward, distance);
        if let Some(i) = piece_at(layout, cell, from.tier, from.dir) {
            return Some(i);
        }
    }
    None
}

/// Whether the other part is of this kind and points in the part's direction.
fn is_end_for(other: &Part, kind: Kind, part: &Part) -> bool
    ensures { IsTrue result ↔ IsEndFor other.now kind part.now }
{
    other.kind == kind && other.dir == part.dir
}

/// The index of the other end of the underground pair of the part with this index (Factorio Wiki, underground belts).
/// None where the part is in no pair.
///
/// An entrance and an exit of one tier and direction are a pair where the exit lies ahead within
/// reach and no piece of that tier and axis lies between. So from either end on toward the other, the
/// other one is the first such piece, and it is looked up at no more than reach + 1 cells.
pub fn other_end<L: Layout>(layout: &L, i: usize) -> Option<usize>
    requires within { i < length (L.parts layout.now) }
    requires in_range { AreInRange (L.parts layout.now) }
    requires well_placed { IsWellPlaced (L.parts layout.now) }
    ensures { (j : ℕ) → (result ≡ Some j) ↔ ArePaired (L.parts layout.now) i j }
{
    let part = layout.part(i);
    let Some((toward, kind)) = far_end(part) else {
        return None;
    };
    let Some(j) = first_piece(layout, part, toward) else {
        return None;
    };
    if is_end_for(layout.part(j), kind, part) {
        Some(j)
    } else {
        None
    }
}
