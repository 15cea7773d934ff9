//! The core: a butterfly of eight lines in eight columns and eleven rows, without the belts of its ends, which a search
//! of a placement formula found: with its channels alone it would have eighteen rows. Its first rank is its last row,
//! and its last rank its first row.
use crate::sense::Sense;
use bt_parts::{Cell, Dir, Kind};
use hint_routing::Stand;

/// How many rows it has.
pub const CORE_ROWS: u32 = 11;

/// How many lines it has.
pub const CORE_LINES: u32 = 8;

/// How many ranks it has.
pub const CORE_RANKS: usize = 3;

/// How many splitters each of its ranks has.
pub const CORE_ACROSS: usize = 4;

/// Its belts as they go: `^`, `>`, `v` and `<`, entrances as small letters of the direction in which they look, exits as
/// great ones, and `=` where a splitter stands.
const ONWARD: [&str; 11] = [
    "========", "^NN^^==^", "^>>^^^^^", "==..^^^^", "N^<<^NN^", ">enN^<E^", "^n^=W^w<", "^^<=<^<^",
    "^<>e^E^^", "n==n^nn^", "========",
];

/// The same turned upside down, with each belt the other way.
const AGAINST: [&str; 11] = [
    "========", "N==N^NN^", ">^^W^w<^", "^>>=^>^^", "^N>=e^E^", "^WNn>^w<", "n>>^^nn^", "==..^^^^",
    "^^<<^^^^", "^nn^^==^", "========",
];

/// Its splitters: first the four of its first rank, then those of its second one, by halves, then those of its last one.
const ONWARD_SEATS: [Stand; 12] = [
    Stand {
        cell: Cell { x: 0, y: 10 },
        dir: Dir::North,
    },
    Stand {
        cell: Cell { x: 2, y: 10 },
        dir: Dir::North,
    },
    Stand {
        cell: Cell { x: 4, y: 10 },
        dir: Dir::North,
    },
    Stand {
        cell: Cell { x: 6, y: 10 },
        dir: Dir::North,
    },
    Stand {
        cell: Cell { x: 0, y: 3 },
        dir: Dir::North,
    },
    Stand {
        cell: Cell { x: 1, y: 9 },
        dir: Dir::North,
    },
    Stand {
        cell: Cell { x: 3, y: 6 },
        dir: Dir::West,
    },
    Stand {
        cell: Cell { x: 5, y: 1 },
        dir: Dir::North,
    },
    Stand {
        cell: Cell { x: 0, y: 0 },
        dir: Dir::North,
    },
    Stand {
        cell: Cell { x: 2, y: 0 },
        dir: Dir::North,
    },
    Stand {
        cell: Cell { x: 4, y: 0 },
        dir: Dir::North,
    },
    Stand {
        cell: Cell { x: 6, y: 0 },
        dir: Dir::North,
    },
];

/// The same turned upside down, in the same order.
const AGAINST_SEATS: [Stand; 12] = [
    Stand {
        cell: Cell { x: 0, y: 0 },
        dir: Dir::North,
    },
    Stand {
        cell: Cell { x: 2, y: 0 },
        dir: Dir::North,
    },
    Stand {
        cell: Cell { x: 4, y: 0 },
        dir: Dir::North,
    },
    Stand {
        cell: Cell { x: 6, y: 0 },
        dir: Dir::North,
    },
    Stand {
        cell: Cell { x: 0, y: 7 },
        dir: Dir::North,
    },
    Stand {
        cell: Cell { x: 1, y: 1 },
        dir: Dir::North,
    },
    Stand {
        cell: Cell { x: 3, y: 3 },
        dir: Dir::East,
    },
    Stand {
        cell: Cell { x: 5, y: 9 },
        dir: Dir::North,
    },
    Stand {
        cell: Cell { x: 0, y: 10 },
        dir: Dir::North,
    },
    Stand {
        cell: Cell { x: 2, y: 10 },
        dir: Dir::North,
    },
    Stand {
        cell: Cell { x: 4, y: 10 },
        dir: Dir::North,
    },
    Stand {
        cell: Cell { x: 6, y: 10 },
        dir: Dir::North,
    },
];

/// The rows of the core's drawing, from the north to the south.
pub fn drawing(sense: Sense) -> &'static [&'static str] {
    match sense {
        Sense::Onward => &ONWARD,
        Sense::Against => &AGAINST,
    }
}

/// Where the splitter at a place of a rank of the core stands, both counted from 0; none where it has no such.
pub fn seat(sense: Sense, rank: usize, place: usize) -> Option<Stand> {
    let number = rank.saturating_mul(CORE_ACROSS).saturating_add(place);
    match sense {
        Sense::Onward => ONWARD_SEATS.get(number).copied(),
        Sense::Against => AGAINST_SEATS.get(number).copied(),
    }
}

/// What a sign of the drawing stands for, but for splitters.
pub fn piece(sign: u8) -> Option<(Kind, Dir)> {
    match sign {
        b'^' => Some((Kind::Belt, Dir::North)),
        b'>' => Some((Kind::Belt, Dir::East)),
        b'v' => Some((Kind::Belt, Dir::South)),
        b'<' => Some((Kind::Belt, Dir::West)),
        b'n' => Some((Kind::Entrance, Dir::North)),
        b'e' => Some((Kind::Entrance, Dir::East)),
        b's' => Some((Kind::Entrance, Dir::South)),
        b'w' => Some((Kind::Entrance, Dir::West)),
        b'N' => Some((Kind::Exit, Dir::North)),
        b'E' => Some((Kind::Exit, Dir::East)),
        b'S' => Some((Kind::Exit, Dir::South)),
        b'W' => Some((Kind::Exit, Dir::West)),
        _ => None,
    }
}
