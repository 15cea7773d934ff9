//! Ends that stand side by side.
use crate::around::is_upright;
use crate::poses::Pose;
use bt_parts::{Cell, Dir};

/// Cells side by side, on each of which an end of a kind stands, whatever its number.
#[derive(Clone, Copy)]
pub struct Span {
    /// The first of the cells: that furthest to the north or to the west.
    pub first: Cell,
    pub count: u32,
    /// Where the parts of the ends look.
    pub dir: Dir,
}

/// Where the inputs and the outputs stand side by side; none where each of them stands by itself.
#[derive(Clone, Copy)]
pub struct Spans {
    pub inputs: Option<Span>,
    pub outputs: Option<Span>,
}

impl Spans {
    /// No ends stand side by side.
    pub fn none() -> Spans {
        Spans {
            inputs: None,
            outputs: None,
        }
    }
}

impl Span {
    /// How far a cell lies behind the first one, along the span and across it.
    fn offset(self, cell: Cell) -> (i32, i32) {
        let (x, y) = (
            cell.x.wrapping_sub(self.first.x),
            cell.y.wrapping_sub(self.first.y),
        );
        if is_upright(self.dir) { (x, y) } else { (y, x) }
    }

    /// Whether the cell is one of the span, on which an end stands.
    pub fn covers(self, cell: Cell) -> bool {
        let (along, across) = self.offset(cell);
        across == 0 && along >= 0 && along.unsigned_abs() < self.count
    }

    /// How many cells there are at least between a cell and the line of the span.
    pub(crate) fn distance(self, cell: Cell) -> u64 {
        let (_, across) = self.offset(cell);
        u64::from(across.unsigned_abs()).saturating_sub(1)
    }

    /// Whether a pose is on a cell of the span and in its direction, so that an input may begin in it.
    pub(crate) fn has(self, pose: Pose) -> bool {
        pose.dir == self.dir && self.covers(pose.cell)
    }
}
