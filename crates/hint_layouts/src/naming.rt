//! Names for the parts of a sketch.
use crate::ends::name_ends;
use crate::placed::grid_of;
use bt_layout_check::Names;
use bt_model::Request;
use bt_parts::Part;
use bt_recover::{Grid, RecoverFault, recover};
use hint_placement::Sketch;
use std::alloc::{AllocError, Global};

/// Parts in ascending order of y and then x of their cells, and which of them bears each number of a request's network.
#[derive(Drop)]
pub struct Proposal {
    pub parts: Vec<Part>,
    pub names: Names,
}

/// A part of a sketch by its cell, and its place in the sketch: the splitters come first.
type Placed = (i32, i32, usize);

/// The part at a place of a sketch, where the others follow the splitters; none beyond.
fn part_at(sketch: &Sketch, place: usize) -> Option<Part> {
    let splitters = sketch.splitters.len();
    match sketch.splitters.get(place) {
        Some((_, part)) => Some(*part),
        None => sketch.others.get(place.saturating_sub(splitters)).copied(),
    }
}

/// The places of a sketch's parts in ascending order of y and then x of their cells.
fn in_order(alloc: Global, sketch: &Sketch) -> Result<Vec<Placed>, AllocError> {
    let count = sketch.splitters.len().saturating_add(sketch.others.len());
    let mut order = Vec::new(alloc);
    for place in 0..count {
        if let Some(part) = part_at(sketch, place) {
            order.push((part.cell.y, part.cell.x, place))?;
        }
    }
    order.sort()?;
    Ok(order)
}

/// Notes an index as that of the splitter at a place of a sketch, by its number. Does nothing where no splitter is
/// there.
fn name_splitter(splitters: &mut [usize], sketch: &Sketch, place: usize, index: usize) {
    if let Some((number, _)) = sketch.splitters.get(place) {
        if let Some(name) = splitters.get_mut(*number) {
            *name = index;
        }
    }
}

/// The parts of a sketch in this order.
fn parts_in(alloc: Global, sketch: &Sketch, order: &[Placed]) -> Result<Vec<Part>, AllocError> {
    let mut parts = Vec::new(alloc);
    for (_, _, place) in order {
        if let Some(part) = part_at(sketch, *place) {
            parts.push(part)?;
        }
    }
    Ok(parts)
}

/// The index in this order of each of so many splitters of a sketch, by their numbers; the greatest number where it
/// lacks one.
fn splitters_in(
    alloc: Global,
    sketch: &Sketch,
    order: &[Placed],
    count: usize,
) -> Result<Vec<usize>, AllocError> {
    let mut splitters = vec![in alloc; usize::MAX; count]?;
    for (index, (_, _, place)) in order.iter().enumerate() {
        name_splitter(&mut splitters, sketch, *place, index);
    }
    Ok(splitters)
}

/// The proposal of these parts, whose splitters have these indices; none where the parts show no network.
fn proposal_on(
    alloc: Global,
    request: &Request,
    grid: &Grid,
    splitters: Vec<usize>,
) -> Result<Option<Proposal>, AllocError> {
    match recover(alloc, grid) {
        Ok(traced) => Ok(Some(Proposal {
            parts: Vec::from_slice(alloc, grid.parts())?,
            names: name_ends(alloc, request, grid.parts(), splitters, &traced)?,
        })),
        Err(RecoverFault::Memory) => Err(AllocError),
        Err(_) => Ok(None),
    }
}

/// The parts of a sketch of a request, with names: the splitters have those of the sketch, and ends get theirs by the
/// splitters to which they lead and by where the request wants them. None where the parts show no network.
pub fn name_sketch(
    alloc: Global,
    request: &Request,
    sketch: &Sketch,
) -> Result<Option<Proposal>, AllocError> {
    let order = in_order(alloc, sketch)?;
    let count = request.net().splitters() as usize;
    let splitters = splitters_in(alloc, sketch, &order, count)?;
    let parts = parts_in(alloc, sketch, &order)?;
    match grid_of(alloc, parts)? {
        Some(grid) => proposal_on(alloc, request, &grid, splitters),
        None => Ok(None),
    }
}
