//! The sides of a layout at which its ends stand.
ghost use Rattle.std.specs.Prelude.{◌≡◌, ◌↔◌, ◌<◌, ◌≤◌, ◌++◌, All, IfOk, IsTrue, Ok, OnOk, length, vec_items};
ghost use Rattle.std.specs.Option.{option_to_list};
ghost use Rattle.bt_text.specs.Answers.{Answers, seen};
ghost use Rattle.bt_parts.specs.Cells.{IsInRange};
ghost use Rattle.bt_parts.specs.Layouts.{AreInRange};
ghost use Rattle.bt_model.specs.Laying.{way_across};
ghost use Rattle.bt_recover.specs.declared.fault.RecoverFault.TheVariants.{Memory};
ghost use Rattle.bt_recover.specs.Recovered.{IsRecovered, network_and_naming};
ghost use Rattle.bt_recover.specs.Sides.{AreEndSides, AreStays, IsAtSideOf, IsFarther, IsStayOf, ReachesFarther};
ghost use Rattle.bt_recover.specs.inner.Staying.{AddsStays, end_of};

use crate::fault::RecoverFault;
use crate::grid::Grid;
use crate::recovery::{Traced, recover};
use bt_net::{Demand, End, Ends, MOST_OF_EACH, Side};
use bt_parts::{Cell, Dir, Part, cells_of};
use std::alloc::{AllocError, Global};

/// The line of a side that no text names: lines count from 1.
pub const NO_LINE: usize = 0;

/// The kinds of ends.
#[derive(Clone, Copy)]
enum EndKind {
    Inputs,
    Outputs,
}

impl EndKind {
    /// The end of this kind with a number.
    fn end(self, number: u32) -> End
        ensures { result ≡ end_of self number }
    {
        match self {
            EndKind::Inputs => End::Input(number),
            EndKind::Outputs => End::Output(number),
        }
    }
}

/// That each end of a layout is to stand at the side at which it stands there: where its part is at a side of the least
/// rectangle that holds the parts, and points in across it (of an input) or out across it. Of other ends nothing is
/// said. The inputs come first, by the numbers that [`recover`] gives them.
///
/// # Errors
///
/// The first of the faults in the order of [`RecoverFault`], as [`recover`] tells it.
pub fn end_sides(alloc: Global, grid: &Grid) -> Result<Vec<Demand>, RecoverFault>
    ensures { Answers Memory (AreEndSides grid.now) (seen vec_items result) }
{
    match recover(alloc, grid) {
        Ok(traced) => match stays_of(alloc, grid, &traced) {
            Ok(stays) => Ok(stays),
            Err(_) => Err(RecoverFault::Memory),
        },
        Err(fault) => Err(fault),
    }
}

/// That the ends of what was recovered are to stand at their sides.
fn stays_of(alloc: Global, grid: &Grid, traced: &Traced) -> Result<Vec<Demand>, AllocError>
    requires { IsRecovered grid.now (Ok (network_and_naming traced.now)) }
    ensures { IfOk result (λ stays. AreStays grid.now (network_and_naming traced.now).1 stays.items) }
{
    let mut stays = Vec::new(alloc);
    push_stays(&mut stays, grid, EndKind::Inputs, &traced.inputs)?;
    push_stays(&mut stays, grid, EndKind::Outputs, &traced.outputs)?;
    Ok(stays)
}

/// Adds that the ends of a kind, whose parts have these indices, are to stand at their sides.
fn push_stays(
    stays: &mut Vec<Demand>,
    grid: &Grid,
    kind: EndKind,
    indices: &[usize],
) -> Result<(), AllocError>
    requires within { All (λ i. i < length grid.now) indices.now }
    requires few { length indices.now ≤ MOST_OF_EACH }
    ensures { OnOk result (AddsStays grid.now kind indices.now stays.old.items stays.new.items) }
{
    for (number, i) in indices.iter().enumerate() {
        let stay = stay_of(grid.parts(), kind.end(number as u32), grid.part(*i));
        push_if_any(stays, stay)?;
    }
    Ok(())
}

/// Adds the demand, where there is one.
fn push_if_any(stays: &mut Vec<Demand>, stay: Option<Demand>) -> Result<(), AllocError>
    ensures { OnOk result (stays.new.items ≡ stays.old.items ++ option_to_list stay) }
{
    if let Some(stay) = stay {
        stays.push(stay)?;
    }
    Ok(())
}

/// That the end with this part is to stand at the side across which the part looks. None where the part isn't at that
/// side.
fn stay_of(parts: &[Part], end: End, part: &Part) -> Option<Demand>
    requires { AreInRange parts.now }
    ensures { IsStayOf parts.now end part.now (option_to_list result) }
{
    let dir = side_ahead(end, part.dir);
    if is_at_side(parts, dir, part.cell) {
        let ends = Ends::One(end);
        let line = NO_LINE;
        Some(Demand::Side(Side { ends, dir, line }))
    } else {
        None
    }
}

/// The side at which an end may stand whose part points in the direction: behind the part of an input, and ahead of
/// that of an output.
fn side_ahead(end: End, dir: Dir) -> Dir
    ensures { dir ≡ way_across end result }
{
    match end {
        End::Input(_) => dir.opposite(),
        End::Output(_) => dir,
    }
}

/// Whether no part reaches farther in the direction than the cell, which is then at that side of the layout.
fn is_at_side(parts: &[Part], dir: Dir, cell: Cell) -> bool
    requires { AreInRange parts.now }
    ensures { IsTrue result ↔ IsAtSideOf parts.now dir cell }
{
    for part in parts {
        if reaches_farther(part, dir, cell) {
            return false;
        }
    }
    true
}

/// Whether the part covers a cell that lies farther in the direction than this one.
fn reaches_farther(part: &Part, dir: Dir, cell: Cell) -> bool
    requires { IsInRange part.now.cell }
    ensures { IsTrue result ↔ ReachesFarther part.now dir cell }
{
    let (first, second) = cells_of(part);
    if is_farther(dir, first, cell) {
        return true;
    }
    match second {
        Some(second) => is_farther(dir, second, cell),
        None => false,
    }
}

/// Whether the one cell lies farther in the direction than the other.
fn is_farther(dir: Dir, cell: Cell, other: Cell) -> bool
    ensures { IsTrue result ↔ IsFarther dir cell other }
{
    match dir {
        Dir::North => cell.y < other.y,
        Dir::East => other.x < cell.x,
        Dir::South => other.y < cell.y,
        Dir::West => cell.x < other.x,
    }
}
