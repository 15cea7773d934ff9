//! The layout that an assignment describes.
ghost use Rattle.std.specs.Prelude.{◌<◌, IfOk, AllPairs};
ghost use Rattle.bt_model.specs.Laying.{Lays};
ghost use Rattle.bt_place.specs.Solutions.{IsSolution, ComesAbove};
ghost use Rattle.bt_place.specs.inner.Grid.{spots_in};
ghost use Rattle.bt_place.specs.inner.Told.{IsSolved};
ghost use Rattle.bt_place.specs.inner.Reaching.{AreMarks, HasStarts, TellsKind, TellsPart};

use crate::grid::{cell_of, spots};
use crate::numbering::Numbers;
use crate::reaching::reached;
use crate::reading::Reading;
use bt_facts::{Content, Half, Shape};
use bt_model::Request;
use bt_parts::{Kind, Part};
use std::alloc::{AllocError, Global};

/// The kind of the part whose own cell has this shape: none for the greater half of a splitter.
fn kind_of(shape: Shape) -> Option<Kind>
    ensures { TellsKind shape result }
{
    match shape {
        Shape::Belt => Some(Kind::Belt),
        Shape::Entrance => Some(Kind::Entrance),
        Shape::Exit => Some(Kind::Exit),
        Shape::Half(Half::Lesser) => Some(Kind::Splitter),
        Shape::Half(Half::Greater) => None,
    }
}

/// The part whose own cell has this number; none where nothing stands there, or the greater half of a splitter.
fn part_on(reading: &Reading, i: usize) -> Option<Part>
    requires solved { IsSolved reading.now }
    requires within { i < spots_in reading.now.request.rect }
    ensures { TellsPart reading.now i result }
{
    let Content::Turned(shape, dir) = reading.content(i) else {
        return None;
    };
    let Some(kind) = kind_of(shape) else {
        return None;
    };
    Some(Part {
        kind,
        tier: reading.tier(),
        dir,
        cell: cell_of(reading.rect(), i),
    })
}

/// The parts whose own cells are marked, in the order of the cells.
fn parts_on(alloc: Global, reading: &Reading, marks: &[bool]) -> Result<Vec<Part>, AllocError>
    requires solved { IsSolved reading.now }
    requires marks { AreMarks reading.now marks.now }
    requires starts { HasStarts reading.now marks.now (spots_in reading.now.request.rect) }
    ensures lays { IfOk result (λ parts. Lays parts.items reading.now.request) }
    ensures in_order { IfOk result (λ parts. AllPairs ComesAbove parts.items) }
{
    let mut parts = Vec::new(alloc);
    for i in 0..spots(reading.rect()) {
        if !marks[i] {
            continue;
        }
        if let Some(part) = part_on(reading, i) {
            parts.push(part)?;
        }
    }
    Ok(parts)
}

/// The layout that an assignment of the request's placement formula describes: it lays the request.
///
/// The assignment meets the formula. It also says what stands on cells to which nothing comes, in closed
/// rings of belts and underground pieces: those are left out. The parts come in ascending order of y and
/// then x of their cells. The only error is want of memory.
pub fn decode(
    alloc: Global,
    request: &Request,
    assignment: &[bool],
) -> Result<Vec<Part>, AllocError>
    requires { IsSolution request.now assignment.now }
    ensures lays { IfOk result (λ parts. Lays parts.items request.now) }
    ensures in_order { IfOk result (λ parts. AllPairs ComesAbove parts.items) }
{
    let numbers = Numbers::new(alloc, request)?;
    let reading = Reading::new(request, &numbers, assignment);
    let marks = reached(alloc, &reading)?;
    parts_on(alloc, &reading, &marks)
}
