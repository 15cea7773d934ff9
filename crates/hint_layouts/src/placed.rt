//! Parts on a grid.
ghost use Rattle.std.specs.Prelude.{◌↔◌, IsTrue};
ghost use Rattle.bt_parts.specs.Cells.{IsInRange};
ghost use Rattle.bt_parts.specs.Layouts.{AreInRange};

use bt_parts::{MOST_COORDINATE, Part};
use bt_recover::{Grid, GridFault};
use std::alloc::{AllocError, Global};

/// Whether the coordinates of a part are in range.
fn is_in_range(part: &Part) -> bool
    ensures { IsTrue result ↔ IsInRange part.now.cell }
{
    part.cell.x.unsigned_abs() <= MOST_COORDINATE && part.cell.y.unsigned_abs() <= MOST_COORDINATE
}

/// Whether the coordinates of all parts are in range.
fn are_in_range(parts: &[Part]) -> bool
    ensures { IsTrue result → AreInRange parts.now }
{
    for part in parts {
        if !is_in_range(part) {
            return false;
        }
    }
    true
}

/// The parts on a grid; none where two share a cell, or a coordinate is out of range.
pub fn grid_of(alloc: Global, parts: Vec<Part>) -> Result<Option<Grid>, AllocError> {
    if !are_in_range(&parts) {
        return Ok(None);
    }
    match Grid::place(alloc, parts) {
        Ok(grid) => Ok(Some(grid)),
        Err(GridFault::Overlap(..)) => Ok(None),
        Err(GridFault::Memory) => Err(AllocError),
    }
}
