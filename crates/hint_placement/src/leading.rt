//! Edges that lead back round a block of stages, and its ends to the border.
use crate::sketching::Sketch;
use crate::spans::middle_spans;
use bt_model::Request;
use bt_net::Edge;
use bt_parts::{Cell, Dir, Rect};
use hint_numbering::joined;
use hint_routing::{Chain, Effort, Negotiated, Places, Stand, ahead, negotiate};
use std::alloc::{AllocError, Global};

/// How many chains may be laid.
const MOST_CHAINS: u32 = 10_000;

/// How long the chains negotiate.
const EFFORT: Effort = Effort {
    rounds: 300,
    patience: 100,
    trial: usize::MAX,
};

/// Where a block stands in a rectangle: how many quarters of the columns and of the rows that are left lie before it.
#[derive(Clone, Copy)]
pub struct BlockSeat {
    columns: u32,
    rows: u32,
}

/// The seats that are tried: in the middle first.
pub const BLOCK_SEATS: [BlockSeat; 9] = [
    BlockSeat {
        columns: 2,
        rows: 2,
    },
    BlockSeat {
        columns: 1,
        rows: 2,
    },
    BlockSeat {
        columns: 3,
        rows: 2,
    },
    BlockSeat {
        columns: 2,
        rows: 3,
    },
    BlockSeat {
        columns: 2,
        rows: 1,
    },
    BlockSeat {
        columns: 0,
        rows: 2,
    },
    BlockSeat {
        columns: 4,
        rows: 2,
    },
    BlockSeat {
        columns: 1,
        rows: 3,
    },
    BlockSeat {
        columns: 3,
        rows: 1,
    },
];

/// So many quarters of a number, rounded down.
fn quarters(number: u32, count: u32) -> u32 {
    number.saturating_mul(count) / 4
}

/// Where a rectangle has no more cells, a search of a placement formula finds more than the router round a block, and as soon.
const SMALL: u32 = 256;

impl BlockSeat {
    /// The north-western cell of a block on this seat; none where the rectangle is small or has no room round the
    /// block.
    pub fn first_cell(self, rect: Rect, block: Rect) -> Option<Cell> {
        let wide = rect.width.checked_sub(block.width)?;
        let high = rect.height.checked_sub(block.height)?;
        if wide == 0 || high < 2 || rect.width.saturating_mul(rect.height) <= SMALL {
            return None;
        }
        let beside = ahead(Cell { x: 0, y: 0 }, Dir::East, quarters(wide, self.columns));
        Some(ahead(beside, Dir::South, quarters(high, self.rows)))
    }
}

/// The stands of a plan's splitters, each at its number; those that the plan lacks stand far outside.
fn stands_of(alloc: Global, sketch: &Sketch, count: usize) -> Result<Vec<Stand>, AllocError> {
    let nowhere = Stand {
        cell: Cell { x: -8, y: -8 },
        dir: Dir::North,
    };
    let mut stands = vec![in alloc; nowhere; count]?;
    for (number, part) in &sketch.splitters {
        if let Some(stand) = stands.get_mut(*number) {
            *stand = Stand {
                cell: part.cell,
                dir: part.dir,
            };
        }
    }
    Ok(stands)
}

/// Adds stands of no splitter on all rows of a block but the first: so the router leads nothing through it.
fn push_closed(stands: &mut Vec<Stand>, first: Cell, block: Rect) -> Result<(), AllocError> {
    let mut start = first;
    for _ in 1..block.height {
        start = start.next(Dir::South);
        let mut cell = start;
        for _ in 0..block.width / 2 {
            stands.push(Stand {
                cell,
                dir: Dir::North,
            })?;
            cell = cell.next(Dir::East).next(Dir::East);
        }
    }
    Ok(())
}

/// The edges outside the stages: those that lead back, and those with ends.
fn outer_edges(alloc: Global, request: &Request, loops: &[Edge]) -> Result<Vec<Edge>, AllocError> {
    let mut edges = Vec::from_slice(alloc, loops)?;
    for edge in request.net().edges() {
        if joined(edge).is_none() {
            edges.push(*edge)?;
        }
    }
    Ok(edges)
}

/// Chains for the edges outside a block of stages that begins with this cell; none where the router doesn't settle
/// them.
pub fn lead_round(
    alloc: Global,
    request: &Request,
    sketch: &Sketch,
    first: Cell,
    block: Rect,
    loops: &[Edge],
) -> Result<Option<Vec<Option<Chain>>>, AllocError> {
    let edges = outer_edges(alloc, request, loops)?;
    let mut stands = stands_of(alloc, sketch, request.net().splitters() as usize)?;
    push_closed(&mut stands, first, block)?;
    let mut left = MOST_CHAINS;
    let places = Places {
        stands: &stands,
        spans: middle_spans(request),
    };
    match negotiate(alloc, request, &edges, places, EFFORT, &mut left)? {
        Negotiated::Settled(chains) => Ok(Some(chains)),
        Negotiated::Shared(_) => Ok(None),
    }
}
