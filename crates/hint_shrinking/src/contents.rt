//! What a cell may hold.
use crate::line::Axis;
use bt_facts::{Content, Half, Shape};
use bt_parts::{DIRS, Dir, Kind, Part};
use std::alloc::{AllocError, Global};

/// The shapes of what may stand on a cell.
const SHAPES: [Shape; 5] = [
    Shape::Belt,
    Shape::Entrance,
    Shape::Exit,
    Shape::Half(Half::Lesser),
    Shape::Half(Half::Greater),
];

/// All that a cell may hold.
pub fn contents(alloc: Global) -> Result<Vec<Content>, AllocError> {
    let mut contents = Vec::new(alloc);
    contents.push(Content::Empty)?;
    for shape in &SHAPES {
        for dir in &DIRS {
            contents.push(Content::Turned(*shape, *dir))?;
        }
    }
    Ok(contents)
}

/// Whether nothing stands there.
pub fn is_empty(content: Content) -> bool {
    match content {
        Content::Empty => true,
        Content::Turned(_, _) => false,
    }
}

/// The axis of a direction.
fn axis_of(dir: Dir) -> Axis {
    match dir {
        Dir::North | Dir::South => Axis::Upright,
        Dir::East | Dir::West => Axis::Level,
    }
}

/// Whether a cell that holds this is empty or holds a belt that looks along an axis.
pub fn leads_along(content: Content, axis: Axis) -> bool {
    match content {
        Content::Empty => true,
        Content::Turned(Shape::Belt, dir) => axis_of(dir) == axis,
        Content::Turned(_, _) => false,
    }
}

/// What the cell of a part holds.
pub fn content_of(part: &Part) -> Content {
    let shape = match part.kind {
        Kind::Belt => Shape::Belt,
        Kind::Entrance => Shape::Entrance,
        Kind::Exit => Shape::Exit,
        Kind::Splitter => Shape::Half(Half::Lesser),
    };
    Content::Turned(shape, part.dir)
}

/// The kind and the direction of the belt or underground piece that this is; none where it is none.
pub fn piece_of(content: Content) -> Option<(Kind, Dir)> {
    match content {
        Content::Turned(Shape::Belt, dir) => Some((Kind::Belt, dir)),
        Content::Turned(Shape::Entrance, dir) => Some((Kind::Entrance, dir)),
        Content::Turned(Shape::Exit, dir) => Some((Kind::Exit, dir)),
        Content::Turned(Shape::Half(_), _) | Content::Empty => None,
    }
}
