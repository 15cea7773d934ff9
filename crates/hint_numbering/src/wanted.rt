//! Where a request wants an end to stand.
use bt_model::{MOST_ACROSS, Request, ends_of, names};
use bt_net::{Demand, End, Ends, Pin};
use bt_parts::{Cell, Dir, Rect};

/// Where an end is to stand.
#[derive(Clone, Copy)]
pub enum Wanted {
    /// On any cell of the border.
    Anywhere,
    /// On this cell, and turned so where a direction is named.
    On(Cell, Option<Dir>),
    /// At the side that lies in this direction: an input comes in across it, an output leaves across it.
    At(Dir),
}

/// The cell in this column and row of a rectangle, from 0 on; none where it lies outside.
fn cell_in(rect: Rect, x: u32, y: u32) -> Option<Cell> {
    let mut cell = Cell { x: 0, y: 0 };
    if x >= rect.width || y >= rect.height {
        return None;
    }
    for _ in 0..x {
        cell.x = cell.x.wrapping_add(1);
    }
    for _ in 0..y {
        cell.y = cell.y.wrapping_add(1);
    }
    Some(cell)
}

/// Where a pin wants its end to stand: anywhere where its cell lies outside the rectangle.
fn wanted_by(rect: Rect, pin: &Pin) -> Wanted {
    match cell_in(rect, pin.x, pin.y) {
        Some(cell) => Wanted::On(cell, pin.dir),
        None => Wanted::Anywhere,
    }
}

/// Where a demand wants each of the ends that it names to stand: anywhere where it is a row, which says so of none by
/// itself.
fn wanted_of(rect: Rect, demand: &Demand) -> Wanted {
    match demand {
        Demand::Pin(pin) => wanted_by(rect, pin),
        Demand::Side(side) => Wanted::At(side.dir),
        Demand::Row(_) => Wanted::Anywhere,
    }
}

/// Whether a demand says of the end by itself where it is to stand: a row says so of all ends of a kind together.
fn names_end(demand: Demand, end: End) -> bool {
    match demand {
        Demand::Pin(_) | Demand::Side(_) => names(ends_of(demand), end),
        Demand::Row(_) => false,
    }
}

/// Where a request wants this end to stand: anywhere where no pin and no side names it.
pub fn place_wanted(request: &Request, end: End) -> Wanted {
    for demand in request.demands() {
        if names_end(*demand, end) {
            return wanted_of(request.rect(), demand);
        }
    }
    Wanted::Anywhere
}

/// Whether a demand lets inputs stand in the south and outputs in the north: a side that says so, or a row, which names
/// no side. A pin doesn't count as one that does.
fn is_upright(demand: &Demand) -> bool {
    let side = match demand {
        Demand::Pin(_) => return false,
        Demand::Side(side) => side,
        Demand::Row(_) => return true,
    };
    match side.ends {
        Ends::Inputs | Ends::One(End::Input(_)) => side.dir == Dir::South,
        Ends::Outputs | Ends::One(End::Output(_)) => side.dir == Dir::North,
    }
}

/// Whether all may go to the north: a request pins no end, and names no sides but the south for inputs and the north
/// for outputs.
pub fn goes_north(request: &Request) -> bool {
    for demand in request.demands() {
        if !is_upright(demand) {
            return false;
        }
    }
    true
}

/// Whether a request wants no part on this cell.
pub fn is_blocked(request: &Request, cell: Cell) -> bool {
    for block in request.blocks() {
        if cell.x.unsigned_abs() == block.x && cell.y.unsigned_abs() == block.y {
            return true;
        }
    }
    false
}

/// The colour of an end by where it is to stand: the same just where the same is wanted.
pub fn colour(wanted: Wanted) -> u64 {
    match wanted {
        Wanted::Anywhere => 1,
        Wanted::On(cell, dir) => {
            let row = u64::from(cell.y.unsigned_abs()).wrapping_mul(u64::from(MOST_ACROSS));
            let place = row.wrapping_add(u64::from(cell.x.unsigned_abs()));
            place
                .wrapping_mul(8)
                .wrapping_add(dir_number(dir))
                .wrapping_add(16)
        }
        Wanted::At(dir) => dir_number(Some(dir)).wrapping_add(8),
    }
}

/// The number of a direction, from 1 on; 0 where none is named.
fn dir_number(dir: Option<Dir>) -> u64 {
    match dir {
        None => 0,
        Some(Dir::North) => 1,
        Some(Dir::East) => 2,
        Some(Dir::South) => 3,
        Some(Dir::West) => 4,
    }
}
