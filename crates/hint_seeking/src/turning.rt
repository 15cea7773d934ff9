//! Sketches in a smaller rectangle, which is turned over where that is wanted, as sketches in the whole one.
use bt_model::MOST_ACROSS;
use bt_parts::{Cell, Dir, Kind, Part, Rect, inside};
use std::alloc::AllocError;

/// A direction where rows and columns are exchanged.
fn turned_dir(dir: Dir) -> Dir {
    match dir {
        Dir::North => Dir::West,
        Dir::West => Dir::North,
        Dir::South => Dir::East,
        Dir::East => Dir::South,
    }
}

/// A part where rows and columns are exchanged.
pub fn turned_part(part: Part) -> Part {
    Part {
        dir: turned_dir(part.dir),
        cell: Cell {
            x: part.cell.y,
            y: part.cell.x,
        },
        ..part
    }
}

/// A rectangle where rows and columns are exchanged.
pub fn turned_rect(rect: Rect) -> Rect {
    Rect {
        width: rect.height,
        height: rect.width,
    }
}

/// Adds belts that look as a part does, from the next cell in the direction `towards` to the border of a rectangle.
fn add_belts(
    others: &mut Vec<Part>,
    rect: Rect,
    part: Part,
    towards: Dir,
) -> Result<(), AllocError> {
    let mut cell = part.cell;
    for _ in 0..MOST_ACROSS {
        cell = cell.next(towards);
        if inside(&rect, cell) {
            others.push(Part {
                kind: Kind::Belt,
                cell,
                ..part
            })?;
        }
    }
    Ok(())
}

/// Whether a part hands on to the next cell.
fn hands_ahead(part: Part) -> bool {
    match part.kind {
        Kind::Belt | Kind::Exit => true,
        Kind::Entrance | Kind::Splitter => false,
    }
}

/// Adds a belt or an underground piece of a layout in the small rectangle. Where an input begins there or an output
/// ends, belts lead there from the border of the great one, or from there to it.
pub fn add_stretched(
    others: &mut Vec<Part>,
    small: Rect,
    great: Rect,
    part: Part,
    begins: bool,
) -> Result<(), AllocError> {
    others.push(part)?;
    let back = part.dir.opposite();
    if begins && !inside(&small, part.cell.next(back)) {
        add_belts(others, great, part, back)?;
    }
    if hands_ahead(part) && !inside(&small, part.cell.next(part.dir)) {
        add_belts(others, great, part, part.dir)?;
    }
    Ok(())
}
