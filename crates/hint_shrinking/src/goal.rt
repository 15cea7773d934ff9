//! How small a layout is to get.
use crate::line::{Axis, lines_in};
use bt_parts::Rect;

/// How small a layout is to get.
#[derive(Clone, Copy)]
pub enum Goal {
    /// As small as is found.
    Least,
    /// So small that it lies in a rectangle.
    Within(Rect),
}

impl Goal {
    /// Whether lines of an axis are to be cut out of a rectangle.
    pub fn wants(self, rect: Rect, axis: Axis) -> bool {
        match self {
            Goal::Least => true,
            Goal::Within(most) => lines_in(rect, axis) > lines_in(most, axis),
        }
    }

    /// Whether a layout in a rectangle is small enough.
    pub fn is_met(self, rect: Rect) -> bool {
        !self.wants(rect, Axis::Level) && !self.wants(rect, Axis::Upright)
    }
}
