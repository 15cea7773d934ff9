//! Cells, directions, tiers and parts, and the cells that a part covers, faces and turns its back to.

ghost use Rattle.std.specs.Prelude.{◌≡◌, ◌↔◌, ◌≤◌, ◌+◌, unsigned_abs, IsTrue};
ghost use Rattle.bt_parts.specs.Cells.{step, steps, wrapped, opposite, Covers, IsGreaterHalf, IsInRange, IsInside};
ghost use Rattle.bt_parts.specs.Tiers.{reach_of, speed_of};

/// The greatest magnitude of a coordinate of a part's cell, in tiles: far more than a map of the game
/// has, and so little that a sum of a few coordinates always fits.
pub const MOST_COORDINATE: u32 = 1 << 20;

/// A unit square of the plane, whose centre is at (x + 1/2, y + 1/2).
///
/// x grows to the east and y to the south. Cells are ordered by x and then by y.
#[derive(Clone, Copy, PartialEq, Eq, PartialOrd, Ord)]
pub struct Cell {
    /// Tiles to the east.
    pub x: i32,

    /// Tiles to the south.
    pub y: i32,
}

impl Cell {
    /// The cell so many steps on in a direction.
    pub fn ahead(self, dir: Dir, distance: u32) -> Cell
        requires x_small { unsigned_abs self.x ≤ MOST_COORDINATE + 1 }
        requires y_small { unsigned_abs self.y ≤ MOST_COORDINATE + 1 }
        requires near { distance ≤ MOST_COORDINATE }
        ensures { result ≡ steps distance dir self }
    {
        let Cell { x, y } = self;
        let distance = distance as i32;
        match dir {
            Dir::North => Cell { x, y: y - distance },
            Dir::East => Cell { x: x + distance, y },
            Dir::South => Cell { x, y: y + distance },
            Dir::West => Cell { x: x - distance, y },
        }
    }

    /// The next cell in a direction; beyond the greatest number of 32 bits comes the least.
    pub fn next(self, dir: Dir) -> Cell
        ensures { result ≡ wrapped (step dir self) }
    {
        let Cell { x, y } = self;
        match dir {
            Dir::North => Cell {
                x,
                y: y.wrapping_sub(1),
            },
            Dir::East => Cell {
                x: x.wrapping_add(1),
                y,
            },
            Dir::South => Cell {
                x,
                y: y.wrapping_add(1),
            },
            Dir::West => Cell {
                x: x.wrapping_sub(1),
                y,
            },
        }
    }
}

/// The direction in which a part moves its items.
#[derive(Clone, Copy, PartialEq, Eq)]
pub enum Dir {
    /// Towards lesser y.
    North,
    /// Towards greater x.
    East,
    /// Towards greater y.
    South,
    /// Towards lesser x.
    West,
}

/// The four directions.
pub const DIRS: [Dir; 4] = [Dir::North, Dir::East, Dir::South, Dir::West];

impl Dir {
    /// The direction against this one.
    pub fn opposite(self) -> Dir
        ensures { result ≡ opposite self }
    {
        match self {
            Dir::North => Dir::South,
            Dir::East => Dir::West,
            Dir::South => Dir::North,
            Dir::West => Dir::East,
        }
    }
}

/// The speed class of a part (Factorio Wiki, belt transport system).
#[derive(Clone, Copy, PartialEq, Eq)]
pub enum Tier {
    /// The yellow belts, 15 items a second.
    Basic,
    /// The red belts, 30 items a second.
    Fast,
    /// The blue belts, 45 items a second.
    Express,
    /// The green belts, 60 items a second.
    Turbo,
}

impl Tier {
    /// The number of tiles, at most, between the two ends of an underground pair.
    pub fn reach(self) -> u32
        ensures { result ≡ reach_of self }
    {
        match self {
            Tier::Basic => 4,
            Tier::Fast => 6,
            Tier::Express => 8,
            Tier::Turbo => 10,
        }
    }

    /// The speed as a multiple of the basic tier's.
    pub fn speed(self) -> u32
        ensures { result ≡ speed_of self }
    {
        match self {
            Tier::Basic => 1,
            Tier::Fast => 2,
            Tier::Express => 3,
            Tier::Turbo => 4,
        }
    }
}

/// What a part is. An entrance and an exit are the two underground pieces.
#[derive(Clone, Copy, PartialEq, Eq)]
pub enum Kind {
    /// A transport belt.
    Belt,
    /// An underground piece that takes items down.
    Entrance,
    /// An underground piece that brings items up.
    Exit,
    /// A splitter, which covers two cells across its direction.
    Splitter,
}

/// A part of a layout.
#[derive(Clone, Copy, PartialEq, Eq)]
pub struct Part {
    /// What it is.
    pub kind: Kind,

    /// Its speed class.
    pub tier: Tier,

    /// The direction in which it moves its items.
    pub dir: Dir,

    /// The part's cell; of a splitter its lesser half, the one further to the west or the north.
    pub cell: Cell,
}

/// From where a part comes upon another one.
#[derive(Clone, Copy, PartialEq, Eq)]
pub enum Side {
    /// In the other's direction.
    Behind,
    /// Across the other's direction, from either side.
    Across,
    /// Against the other's direction.
    Ahead,
}

/// The cells from (0, 0) on, so many to the east and so many to the south.
#[derive(Clone, Copy, PartialEq, Eq)]
pub struct Rect {
    /// In tiles, from west to east.
    pub width: u32,

    /// In tiles, from north to south.
    pub height: u32,
}

/// The part's own cell, which is a splitter's lesser half; and a splitter's greater half, None where it is another
/// part.
pub fn cells_of(part: &Part) -> (Cell, Option<Cell>)
    requires { IsInRange part.now.cell }
    ensures first { result.0 ≡ part.now.cell }
    ensures second { (c : Cell) → (result.1 ≡ Some c) ↔ IsGreaterHalf part.now c }
{
    let greater = match part.kind {
        Kind::Splitter => Some(match part.dir {
            Dir::North | Dir::South => part.cell.ahead(Dir::East, 1),
            Dir::East | Dir::West => part.cell.ahead(Dir::South, 1),
        }),
        Kind::Belt | Kind::Entrance | Kind::Exit => None,
    };
    (part.cell, greater)
}

/// The cell next to this one of the part's cells in the part's direction, which it faces.
pub fn front(part: &Part, half: Cell) -> Cell
    requires range { IsInRange part.now.cell }
    requires half { Covers part.now half }
    ensures { result ≡ step part.now.dir half }
{
    half.ahead(part.dir, 1)
}

/// The cell next to this one of the part's cells against the part's direction.
pub fn back(part: &Part, half: Cell) -> Cell
    requires range { IsInRange part.now.cell }
    requires half { Covers part.now half }
    ensures { result ≡ step (opposite part.now.dir) half }
{
    half.ahead(part.dir.opposite(), 1)
}

/// Whether the cell lies in the rectangle.
pub fn inside(rect: &Rect, cell: Cell) -> bool
    ensures { IsTrue result ↔ IsInside rect.now cell }
{
    cell.x >= 0
        && cell.y >= 0
        && cell.x.unsigned_abs() < rect.width
        && cell.y.unsigned_abs() < rect.height
}
