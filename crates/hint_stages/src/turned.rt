//! Plans turned by quarters, so that they go in the direction in which a request wants them to.
use crate::stacking::{LeastPlan, find_upright};
use bt_model::Request;
use bt_net::{Demand, End, Ends};
use bt_parts::{Cell, DIRS, Dir, Kind, Part, Rect};
use hint_placement::Sketch;
use hint_routing::ahead;
use std::alloc::{AllocError, Global};

/// Whether a demand lets all lines go in a direction: inputs come in at the side behind, and outputs leave at the side
/// ahead. A row lets them go in each, a pin in none.
fn lets_go(demand: &Demand, dir: Dir) -> bool {
    let side = match demand {
        Demand::Pin(_) => return false,
        Demand::Row(_) => return true,
        Demand::Side(side) => side,
    };
    match side.ends {
        Ends::Inputs | Ends::One(End::Input(_)) => side.dir == dir.opposite(),
        Ends::Outputs | Ends::One(End::Output(_)) => side.dir == dir,
    }
}

/// Whether a plan in this rectangle may go in a direction: the request lets it, and has room.
fn may_go(request: &Request, dir: Dir, rect: Rect) -> bool {
    let most = request.rect();
    rect.width <= most.width
        && rect.height <= most.height
        && request.demands().iter().all(|demand| lets_go(demand, dir))
}

/// A direction, a quarter to the right.
fn turned_dir(dir: Dir) -> Dir {
    match dir {
        Dir::North => Dir::East,
        Dir::East => Dir::South,
        Dir::South => Dir::West,
        Dir::West => Dir::North,
    }
}

/// A rectangle, a quarter turned.
fn turned_rect(rect: Rect) -> Rect {
    Rect {
        width: rect.height,
        height: rect.width,
    }
}

/// Where a cell of a rectangle of this height lies after that is turned a quarter to the right.
fn turned_cell(cell: Cell, height: u32) -> Cell {
    let far = ahead(Cell { x: 0, y: 0 }, Dir::East, height);
    Cell {
        x: far.x.wrapping_sub(1).wrapping_sub(cell.y),
        y: cell.x,
    }
}

/// A part of a rectangle of this height after that is turned a quarter to the right. A splitter's cell is that of its
/// lesser half, which may be the other half then.
fn turned_part(part: Part, height: u32) -> Part {
    let lesser = match (part.kind, part.dir) {
        (Kind::Splitter, Dir::East) | (Kind::Splitter, Dir::West) => part.cell.next(Dir::South),
        _ => part.cell,
    };
    Part {
        dir: turned_dir(part.dir),
        cell: turned_cell(lesser, height),
        ..part
    }
}

/// A plan, a quarter turned to the right.
fn turned_plan(alloc: Global, plan: &LeastPlan) -> Result<LeastPlan, AllocError> {
    let height = plan.rect.height;
    let mut sketch = Sketch {
        splitters: Vec::new(alloc),
        others: Vec::new(alloc),
    };
    for (splitter, part) in &plan.sketch.splitters {
        sketch
            .splitters
            .push((*splitter, turned_part(*part, height)))?;
    }
    for part in &plan.sketch.others {
        sketch.others.push(turned_part(*part, height))?;
    }
    Ok(LeastPlan {
        rect: turned_rect(plan.rect),
        sketch,
    })
}

/// A plan of a butterfly or of a Benes network without loops in the least rectangle, which goes from the sides where a
/// request wants inputs to those where it wants outputs. None of other networks, where a request wants anything else, or
/// where it has no room.
pub fn find_least(alloc: Global, request: &Request) -> Result<Option<LeastPlan>, AllocError> {
    if !request.blocks().is_empty() {
        return Ok(None);
    }
    let Some(mut plan) = find_upright(alloc, request)? else {
        return Ok(None);
    };
    for dir in &DIRS {
        if may_go(request, *dir, plan.rect) {
            return Ok(Some(plan));
        }
        plan = turned_plan(alloc, &plan)?;
    }
    Ok(None)
}
