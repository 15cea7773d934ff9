//! The parts of a design in its own rectangle.
use crate::board::{Plan, aside};
use bt_parts::{Cell, Kind, Part, Rect, Tier};
use std::alloc::{AllocError, Global};

/// The parts of a design in their least rectangle, whose splitters are numbered in their order.
#[derive(Drop)]
pub struct Own {
    pub rect: Rect,
    pub tier: Tier,
    pub plan: Plan,
}

/// From which column and row to which others parts reach.
#[derive(Clone, Copy)]
struct Reach {
    least: Cell,
    greatest: Cell,
}

impl Reach {
    /// The reach with a cell more.
    fn with(self, cell: Cell) -> Reach {
        Reach {
            least: Cell {
                x: self.least.x.min(cell.x),
                y: self.least.y.min(cell.y),
            },
            greatest: Cell {
                x: self.greatest.x.max(cell.x),
                y: self.greatest.y.max(cell.y),
            },
        }
    }

    /// The least rectangle that holds all that is reached.
    fn rect(self) -> Rect {
        Rect {
            width: self.least.x.abs_diff(self.greatest.x).saturating_add(1),
            height: self.least.y.abs_diff(self.greatest.y).saturating_add(1),
        }
    }

    /// A part whose cell is told from the least column and row.
    fn moved(self, part: Part) -> Part {
        let cell = Cell {
            x: part.cell.x.wrapping_sub(self.least.x),
            y: part.cell.y.wrapping_sub(self.least.y),
        };
        Part { cell, ..part }
    }
}

/// From where to where the parts reach; nothing where there are none.
fn reach_of(parts: &[Part]) -> Option<Reach> {
    let first = parts.first()?;
    let mut reach = Reach {
        least: first.cell,
        greatest: first.cell,
    };
    for part in parts {
        reach = reach.with(part.cell);
        if part.kind == Kind::Splitter {
            reach = reach.with(part.cell.next(aside(part.dir)));
        }
    }
    Some(reach)
}

/// Whether all parts have this tier.
fn are_of(parts: &[Part], tier: Tier) -> bool {
    for part in parts {
        if part.tier != tier {
            return false;
        }
    }
    true
}

/// The parts in their least rectangle; none where there are no parts, one isn't of this tier, or the rectangle has more
/// than `most` cells.
pub fn own_of(
    alloc: Global,
    parts: &[Part],
    tier: Tier,
    most: u64,
) -> Result<Option<Own>, AllocError> {
    let Some(reach) = reach_of(parts) else {
        return Ok(None);
    };
    let rect = reach.rect();
    let cells = u64::from(rect.width).saturating_mul(u64::from(rect.height));
    if cells > most || !are_of(parts, tier) {
        return Ok(None);
    }
    let mut plan = Plan {
        splitters: Vec::new(alloc),
        others: Vec::new(alloc),
    };
    for part in parts {
        let part_there = reach.moved(*part);
        if part.kind == Kind::Splitter {
            let number = plan.splitters.len();
            plan.splitters.push((number, part_there))?;
        } else {
            plan.others.push(part_there)?;
        }
    }
    Ok(Some(Own { rect, tier, plan }))
}
