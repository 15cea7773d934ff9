//! Which parts look at a cell, by the direction in which they look. A part looks at the cell in front of it, and an
//! entrance, which hands on below the ground, at none.
ghost use Rattle.std.specs.Prelude.{◌≡◌, ◌≢◌, ◌↔◌, ◌⊎◌, ℕ, ◌<◌, length, IsTrue, MatchOption, IfSome};
ghost use Rattle.bt_parts.specs.Cells.{IsInRange, opposite};
ghost use Rattle.bt_parts.specs.Layouts.{HasPart, IsAt};
ghost use Rattle.bt_model.specs.inner.Sight.{left, LooksToward, IsSeen, IsSeenAside, IsSeenOnBoth, IsSeenTwice};
ghost use Rattle.bt_recover.specs.inner.Told.{TellsOne};

use crate::grid::Grid;
use bt_parts::{Cell, Dir, Kind, Part};

/// The direction to the left of this one.
pub(crate) fn left(dir: Dir) -> Dir
    ensures { result ≡ left dir }
{
    match dir {
        Dir::North => Dir::West,
        Dir::East => Dir::North,
        Dir::South => Dir::East,
        Dir::West => Dir::South,
    }
}

/// Whether the part looks in the direction. An entrance looks in none.
fn looks_along(part: &Part, dir: Dir) -> bool
    ensures { IsTrue result ↔ ((part.now.kind ≢ Kind.Entrance) × (part.now.dir ≡ dir)) }
{
    part.kind != Kind::Entrance && part.dir == dir
}

/// The part that looks in the direction at the cell. None where no part does.
pub(crate) fn looker(grid: &Grid, cell: Cell, dir: Dir) -> Option<usize>
    requires { IsInRange cell }
    ensures seen { TellsOne (LooksToward grid.now cell dir) result }
    ensures within { IfSome result (λ p. p < length grid.now) }
{
    let Some(p) = grid.at(cell.ahead(dir.opposite(), 1)) else {
        return None;
    };
    if looks_along(grid.part(p), dir) {
        Some(p)
    } else {
        None
    }
}

/// Whether a part looks in the direction at the cell.
fn is_seen(grid: &Grid, cell: Cell, dir: Dir) -> bool
    requires { IsInRange cell }
    ensures { IsTrue result ↔ IsSeen grid.now cell dir }
{
    looker(grid, cell, dir).is_some()
}

/// Whether a part looks at the cell from the left or from the right of the direction.
pub(crate) fn is_seen_aside(grid: &Grid, cell: Cell, dir: Dir) -> bool
    requires { IsInRange cell }
    ensures { IsTrue result ↔ IsSeenAside grid.now cell dir }
{
    is_seen(grid, cell, left(dir)) || is_seen(grid, cell, left(dir).opposite())
}

/// Whether parts look at the cell from the left and from the right of the direction.
fn is_seen_on_both(grid: &Grid, cell: Cell, dir: Dir) -> bool
    requires { IsInRange cell }
    ensures { IsTrue result ↔ IsSeenOnBoth grid.now cell dir }
{
    is_seen(grid, cell, left(dir)) && is_seen(grid, cell, left(dir).opposite())
}

/// Whether parts look at the cell from two of the three sides that aren't ahead of the direction.
pub(crate) fn is_seen_twice(grid: &Grid, cell: Cell, dir: Dir) -> bool
    requires { IsInRange cell }
    ensures { IsTrue result ↔ IsSeenTwice grid.now cell dir }
{
    (is_seen(grid, cell, dir) && is_seen_aside(grid, cell, dir)) || is_seen_on_both(grid, cell, dir)
}
