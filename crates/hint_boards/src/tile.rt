//! What a cell holds, and which chains of parts come there and leave it.
use bt_parts::{Dir, Kind, Part};

/// The number of a chain: the way from a splitter or an input to a splitter or an output.
pub type Chain = usize;

/// What stands on a cell.
#[derive(Clone, Copy, PartialEq, Eq)]
pub enum Piece {
    Empty,
    Belt(Dir),
    Entrance(Dir),
    Exit(Dir),
    /// The half of a splitter further to the west or the north.
    Lesser(Dir),
    /// The other half.
    Greater(Dir),
}

/// A cell.
#[derive(Clone, Copy)]
pub struct Tile {
    pub piece: Piece,
    /// The splitter of which a half stands here.
    pub splitter: Option<usize>,
    /// The chain that leaves here, above the ground or downwards.
    pub goes: Option<Chain>,
    /// The chain that comes from a neighbour above the ground, and the direction in which it comes.
    pub comes: Option<Chain>,
    pub from: Option<Dir>,
    /// The chains that come below the ground, by the directions in which they move.
    pub below: Below,
    /// Whether an input or an output of the network is here.
    pub is_end: bool,
}

/// For each direction the chain that moves so below the ground.
#[derive(Clone, Copy)]
pub struct Below {
    pub north: Option<Chain>,
    pub east: Option<Chain>,
    pub south: Option<Chain>,
    pub west: Option<Chain>,
}

impl Below {
    /// The chain that moves in a direction.
    pub fn get(self, dir: Dir) -> Option<Chain> {
        match dir {
            Dir::North => self.north,
            Dir::East => self.east,
            Dir::South => self.south,
            Dir::West => self.west,
        }
    }

    /// Notes the chain, or none, that moves in a direction.
    pub fn put(&mut self, dir: Dir, chain: Option<Chain>) {
        match dir {
            Dir::North => self.north = chain,
            Dir::East => self.east = chain,
            Dir::South => self.south = chain,
            Dir::West => self.west = chain,
        }
    }
}

/// A cell without parts, below which nothing moves.
pub const BARE: Tile = Tile {
    piece: Piece::Empty,
    splitter: None,
    goes: None,
    comes: None,
    from: None,
    below: Below {
        north: None,
        east: None,
        south: None,
        west: None,
    },
    is_end: false,
};

impl Piece {
    /// What the own cell of a part holds: of a splitter the lesser half.
    pub fn of(part: &Part) -> Piece {
        match part.kind {
            Kind::Belt => Piece::Belt(part.dir),
            Kind::Entrance => Piece::Entrance(part.dir),
            Kind::Exit => Piece::Exit(part.dir),
            Kind::Splitter => Piece::Lesser(part.dir),
        }
    }

    /// The direction in which the piece hands on above the ground; none for an entrance and an empty cell.
    pub fn hands(self) -> Option<Dir> {
        match self {
            Piece::Belt(dir) | Piece::Exit(dir) | Piece::Lesser(dir) | Piece::Greater(dir) => Some(
                dir,
            ),
            Piece::Empty | Piece::Entrance(_) => None,
        }
    }

    /// Whether the piece takes what comes above the ground and moves in a direction.
    pub fn takes(self, coming: Dir) -> bool {
        match self {
            Piece::Belt(dir) => dir != coming.opposite(),
            Piece::Entrance(dir) | Piece::Lesser(dir) | Piece::Greater(dir) => dir == coming,
            Piece::Empty | Piece::Exit(_) => false,
        }
    }

    /// Whether the piece is a half of a splitter.
    pub fn is_half(self) -> bool {
        match self {
            Piece::Lesser(_) | Piece::Greater(_) => true,
            _ => false,
        }
    }

    /// The kind and the direction of the part whose own cell this is; none for an empty cell and the greater half of a
    /// splitter.
    pub fn kind(self) -> Option<(Kind, Dir)> {
        match self {
            Piece::Belt(dir) => Some((Kind::Belt, dir)),
            Piece::Entrance(dir) => Some((Kind::Entrance, dir)),
            Piece::Exit(dir) => Some((Kind::Exit, dir)),
            Piece::Lesser(dir) => Some((Kind::Splitter, dir)),
            Piece::Greater(_) | Piece::Empty => None,
        }
    }
}

impl Tile {
    /// The chain that leaves in a direction above the ground.
    pub fn out(self, dir: Dir) -> Option<Chain> {
        if self.piece.hands() == Some(dir) {
            self.goes
        } else {
            None
        }
    }

    /// The chain that comes in a direction above the ground.
    pub fn into(self, dir: Dir) -> Option<Chain> {
        if self.from == Some(dir) {
            self.comes
        } else {
            None
        }
    }

    /// The chain that leaves in a direction below the ground.
    pub fn down(self, dir: Dir) -> Option<Chain> {
        match self.piece {
            Piece::Entrance(own) if own == dir => self.goes,
            Piece::Exit(own) if own == dir => None,
            _ => self.below.get(dir),
        }
    }
}
