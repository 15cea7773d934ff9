//! Rows and columns.
use bt_parts::Rect;
use std::alloc::{AllocError, Global};

/// How a line of cells lies, or how belts lead.
#[derive(Clone, Copy, PartialEq, Eq)]
pub enum Axis {
    /// From west to east or back.
    Level,
    /// From north to south or back.
    Upright,
}

impl Axis {
    /// The axis across this one.
    pub fn across(self) -> Axis {
        match self {
            Axis::Level => Axis::Upright,
            Axis::Upright => Axis::Level,
        }
    }
}

/// A row, which is level, or a column, which is upright.
#[derive(Clone, Copy)]
pub struct Line {
    pub axis: Axis,
    /// So many rows or columns come before it.
    pub number: usize,
}

impl Line {
    /// How far from the first line of the same axis a cell lies: its row, or its column.
    pub fn coordinate(self, x: usize, y: usize) -> usize {
        match self.axis {
            Axis::Level => y,
            Axis::Upright => x,
        }
    }

    /// Whether a cell lies no more than so many lines from where this one was, which was cut out.
    pub fn is_near(self, x: usize, y: usize, margin: usize) -> bool {
        let coordinate = self.coordinate(x, y);
        coordinate.saturating_add(margin) >= self.number
            && coordinate < self.number.saturating_add(margin)
    }

    /// Where a coordinate was before this line was cut out.
    fn before(self, axis: Axis, coordinate: usize) -> usize {
        if self.axis == axis && coordinate >= self.number {
            coordinate.saturating_add(1)
        } else {
            coordinate
        }
    }

    /// Where a cell was before this line was cut out.
    pub fn cell_before(self, x: usize, y: usize) -> (usize, usize) {
        (self.before(Axis::Upright, x), self.before(Axis::Level, y))
    }

    /// The rectangle without this line; none where nothing is left.
    pub fn cut_from(self, rect: Rect) -> Option<Rect> {
        let Rect { width, height } = rect;
        match self.axis {
            Axis::Level if height > 1 => Some(Rect {
                width,
                height: height - 1,
            }),
            Axis::Upright if width > 1 => Some(Rect {
                width: width - 1,
                height,
            }),
            _ => None,
        }
    }
}

/// How many lines of an axis a rectangle has.
pub fn lines_in(rect: Rect, axis: Axis) -> usize {
    match axis {
        Axis::Level => rect.height as usize,
        Axis::Upright => rect.width as usize,
    }
}

/// The lines of an axis.
pub fn lines_of(alloc: Global, rect: Rect, axis: Axis) -> Result<Vec<Line>, AllocError> {
    let mut lines = Vec::new(alloc);
    for number in 0..lines_in(rect, axis) {
        lines.push(Line { axis, number })?;
    }
    Ok(lines)
}
