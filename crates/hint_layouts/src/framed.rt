//! Plans in the middle of a rectangle that is much larger than a network needs, whose ends are led straight on to the border.
use crate::naming::{Proposal, name_sketch};
use bt_model::{MOST_ACROSS, Request};
use bt_net::Demand;
use bt_parts::{Cell, Dir, Kind, Part, Rect, inside};
use hint_numbering::name_by_structure;
use hint_placement::{Sketch, find_sketch};
use std::alloc::{AllocError, Global};

/// So many cells for each splitter are enough for the router, as a rule.
const ROOM: u64 = 80;

/// The router is asked in a part of a rectangle only where edges times cells are at most so many: beyond, it takes a minute.
pub const MOST_ROUTED: u64 = 1 << 23;

/// The least side of the part of a rectangle in which a plan is looked for.
const LEAST_SIDE: u32 = 16;

/// How many edges times cells a router has to do with.
pub fn routed(request: &Request, rect: Rect) -> u64 {
    cells_of(rect).saturating_mul(request.net().edges().len() as u64)
}

/// How many cells a rectangle has.
fn cells_of(rect: Rect) -> u64 {
    u64::from(rect.width).saturating_mul(u64::from(rect.height))
}

/// The side of the least square of at least so many cells, or the most cells that a rectangle may have in a row.
fn side_of(cells: u64) -> u32 {
    for side in 1..MOST_ACROSS {
        if u64::from(side).saturating_mul(u64::from(side)) >= cells {
            return side;
        }
    }
    MOST_ACROSS
}

/// Whether a demand names no cells: a side, or a row, which stays one where its ends go straight on.
fn names_no_cells(demand: &Demand) -> bool {
    match demand {
        Demand::Side(_) | Demand::Row(_) => true,
        Demand::Pin(_) => false,
    }
}

/// The part of a request's rectangle in which a plan is looked for, where it has at most half of the cells, and the
/// request names no cells; else none.
fn inner_of(request: &Request) -> Option<Rect> {
    let (net, rect) = (request.net(), request.rect());
    let may_be_moved = request.blocks().is_empty() && request.demands().iter().all(names_no_cells);
    let ends = net.inputs().max(net.outputs());
    let side = side_of(u64::from(net.splitters()).saturating_mul(ROOM));
    let side = side.max(LEAST_SIDE).max(ends.saturating_mul(2));
    let inner = Rect {
        width: rect.width.min(side),
        height: rect.height.min(side),
    };
    if may_be_moved && cells_of(inner).saturating_mul(2) <= cells_of(rect) {
        Some(inner)
    } else {
        None
    }
}

/// A rectangle in another one.
#[derive(Clone, Copy)]
struct Frame {
    outer: Rect,
    inner: Rect,
    /// The first cell of the inner one.
    first: Cell,
}

/// The inner rectangle in the middle of the other one.
fn frame_of(outer: Rect, inner: Rect) -> Frame {
    let mut first = Cell { x: 0, y: 0 };
    for _ in 0..outer.width.saturating_sub(inner.width) / 2 {
        first = first.next(Dir::East);
    }
    for _ in 0..outer.height.saturating_sub(inner.height) / 2 {
        first = first.next(Dir::South);
    }
    Frame {
        outer,
        inner,
        first,
    }
}

/// The opposite of a direction, and then the two across it.
fn behind(dir: Dir) -> [Dir; 3] {
    match dir {
        Dir::North => [Dir::South, Dir::East, Dir::West],
        Dir::South => [Dir::North, Dir::East, Dir::West],
        Dir::East => [Dir::West, Dir::North, Dir::South],
        Dir::West => [Dir::East, Dir::North, Dir::South],
    }
}

impl Frame {
    /// Where a cell of the inner rectangle lies in the other one.
    fn cell(self, cell: Cell) -> Cell {
        Cell {
            x: cell.x.wrapping_add(self.first.x),
            y: cell.y.wrapping_add(self.first.y),
        }
    }

    /// A part of the inner rectangle as it stands in the other one.
    fn part(self, part: Part) -> Part {
        Part {
            cell: self.cell(part.cell),
            ..part
        }
    }

    /// On which side of an input's first part the border of the inner rectangle lies: behind the part, or else beside
    /// it. None where it lies at neither.
    fn origin(self, part: Part) -> Option<Dir> {
        for dir in &behind(part.dir) {
            if !inside(&self.inner, part.cell.next(*dir)) {
                return Some(*dir);
            }
        }
        None
    }

    /// Adds belts that look in the direction `dir`, from the cell beside a part of the inner rectangle in the direction
    /// `away` to the border of the other one.
    fn push_belts(
        self,
        sketch: &mut Sketch,
        part: Part,
        away: Dir,
        dir: Dir,
    ) -> Result<(), AllocError> {
        let mut cell = self.cell(part.cell).next(away);
        for _ in 0..MOST_ACROSS {
            if !inside(&self.outer, cell) {
                break;
            }
            sketch.others.push(Part {
                kind: Kind::Belt,
                tier: part.tier,
                dir,
                cell,
            })?;
            cell = cell.next(away);
        }
        Ok(())
    }

    /// Adds belts from the border to the first parts of inputs.
    fn push_inputs(self, sketch: &mut Sketch, proposal: &Proposal) -> Result<(), AllocError> {
        for index in &proposal.names.inputs {
            if let Some(part) = proposal.parts.get(*index) {
                if let Some(origin) = self.origin(*part) {
                    self.push_belts(sketch, *part, origin, origin.opposite())?;
                }
            }
        }
        Ok(())
    }

    /// Adds belts from the last parts of outputs to the border.
    fn push_outputs(self, sketch: &mut Sketch, proposal: &Proposal) -> Result<(), AllocError> {
        for index in &proposal.names.outputs {
            if let Some(part) = proposal.parts.get(*index) {
                self.push_belts(sketch, *part, part.dir, part.dir)?;
            }
        }
        Ok(())
    }
}

/// A sketch of the inner rectangle as one of the other. A splitter gets the number that stands in `numbers` at the
/// place of its own.
fn moved(
    alloc: Global,
    frame: Frame,
    sketch: &Sketch,
    numbers: &[usize],
) -> Result<Sketch, AllocError> {
    let mut outer = Sketch {
        splitters: Vec::new(alloc),
        others: Vec::new(alloc),
    };
    for (splitter, part) in &sketch.splitters {
        let number = numbers.get(*splitter).copied().unwrap_or(usize::MAX);
        outer.splitters.push((number, frame.part(*part)))?;
    }
    for part in &sketch.others {
        outer.others.push(frame.part(*part))?;
    }
    Ok(outer)
}

/// The plan of a request in the inner rectangle, where one is found, with its ends led on.
fn framed_in(alloc: Global, request: &Request, inner: Rect) -> Result<Option<Sketch>, AllocError> {
    let Some(named) = name_by_structure(alloc, request, inner)? else {
        return Ok(None);
    };
    let Some(sketch) = find_sketch(alloc, &named.request)? else {
        return Ok(None);
    };
    let Some(proposal) = name_sketch(alloc, &named.request, &sketch)? else {
        return Ok(None);
    };
    let frame = frame_of(request.rect(), inner);
    let mut outer = moved(alloc, frame, &sketch, &named.splitters)?;
    frame.push_inputs(&mut outer, &proposal)?;
    frame.push_outputs(&mut outer, &proposal)?;
    Ok(Some(outer))
}

/// A plan in the middle of a request's rectangle, where that is much larger than the network needs. None elsewhere, and
/// where the router would take too long or finds none.
pub fn find_framed(alloc: Global, request: &Request) -> Result<Option<Sketch>, AllocError> {
    match inner_of(request) {
        Some(inner) if routed(request, inner) <= MOST_ROUTED => framed_in(alloc, request, inner),
        _ => Ok(None),
    }
}
