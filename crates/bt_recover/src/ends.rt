//! Which part bears each number: the splitters in the order of the parts, and the ends by their cells.
//!
//! Each list is made in the order of the parts first; the ends are then sorted by cell, with the part
//! beside its cell as the key, so that the sort alone takes more than one step a part.
ghost use Rattle.std.specs.Prelude.{◌≡◌, ◌++◌, ◌∷◌, [], if◌then◌else◌, OnOk, ◌↔◌, ℕ, ◌<◌, length, IsTrue, IfOk, All, AllPairs, IsPermutation, map};
ghost use Rattle.bt_recover.specs.Pairing.{ArePartners};
ghost use Rattle.bt_model.specs.Chains.{IsSplitter, IsInput, IsOutput};
ghost use Rattle.bt_model.specs.Shown.{IsPlacedBefore};
ghost use Rattle.bt_recover.specs.inner.Edges.{naming_of, AreNames, HasMany};
ghost use Rattle.bt_recover.specs.inner.Ends.{AreListed, AreKeyed};

use crate::following::giver;
use crate::grid::Grid;
use crate::partners::Pairs;
use bt_model::is_kind;
use bt_net::MOST_OF_EACH;
use bt_parts::{Cell, Kind, Part, front};
use std::alloc::{AllocError, Global};

/// Which part bears each number. Each list has the index of a part at the place of its number: a
/// splitter, the first part of an input, or the last part of an output.
#[derive(Drop)]
pub(crate) struct Names {
    pub(crate) splitters: Vec<usize>,
    pub(crate) inputs: Vec<usize>,
    pub(crate) outputs: Vec<usize>,
}

/// Whether the part is a belt or an entrance to which no part hands.
fn is_input(grid: &Grid, pairs: &Pairs, i: usize) -> bool
    requires within { i < length grid.now }
    requires partners { ArePartners grid.now pairs.now }
    ensures { IsTrue result ↔ IsInput grid.now i }
{
    let part = grid.part(i);
    match part.kind {
        Kind::Belt => giver(grid, pairs, i).is_none(),
        Kind::Entrance => giver(grid, pairs, i).is_none(),
        Kind::Exit => false,
        Kind::Splitter => false,
    }
}

/// Whether the part is a belt or an exit whose front cell is empty.
fn is_output(grid: &Grid, i: usize) -> bool
    requires { i < length grid.now }
    ensures { IsTrue result ↔ IsOutput grid.now i }
{
    let part = grid.part(i);
    match part.kind {
        Kind::Belt => grid.at(front(part, part.cell)).is_none(),
        Kind::Exit => grid.at(front(part, part.cell)).is_none(),
        Kind::Entrance => false,
        Kind::Splitter => false,
    }
}

/// Whether the part is a splitter.
fn is_splitter(grid: &Grid, i: usize) -> bool
    requires { i < length grid.now }
    ensures { IsTrue result ↔ IsSplitter grid.now i }
{
    is_kind(grid.part(i), Kind::Splitter)
}

/// Adds the part to the list where `listed` is set.
fn push_if(list: &mut Vec<usize>, i: usize, listed: bool) -> Result<(), AllocError>
    ensures { OnOk result (list.new.items ≡ (if listed then list.old.items ++ i ∷ [] else list.old.items)) }
{
    if listed {
        list.push(i)?;
    }
    Ok(())
}

/// The splitters and ends, each in the order of the parts.
fn listed(alloc: Global, grid: &Grid, pairs: &Pairs) -> Result<Names, AllocError>
    requires { ArePartners grid.now pairs.now }
    ensures { IfOk result (λ names. AreListed grid.now (naming_of names) (length grid.now)) }
{
    let mut splitters = Vec::new(alloc);
    let mut inputs = Vec::new(alloc);
    let mut outputs = Vec::new(alloc);
    for i in 0..grid.parts().len() {
        push_if(&mut splitters, i, is_splitter(grid, i))?;
        push_if(&mut inputs, i, is_input(grid, pairs, i))?;
        push_if(&mut outputs, i, is_output(grid, i))?;
    }
    Ok(Names {
        splitters,
        inputs,
        outputs,
    })
}

/// The parts with these indices, each with its cell before its index.
fn keyed(alloc: Global, parts: &[Part], indices: &[usize]) -> Result<Vec<(Cell, usize)>, AllocError>
    requires { All (λ i. i < length parts.now) indices.now }
    ensures { IfOk result (λ list. AreKeyed parts.now indices.now list.items) }
{
    let mut list = Vec::with_capacity(alloc, indices.len())?;
    for i in indices {
        list.push((parts[*i].cell, *i))?;
    }
    Ok(list)
}

/// The indices of the parts without their cells.
fn unkeyed(alloc: Global, keyed: &[(Cell, usize)]) -> Result<Vec<usize>, AllocError>
    ensures { IfOk result (λ list. list.items ≡ map (λ entry. entry.1) keyed.now) }
{
    keyed.iter().map(|entry| entry.1).collect(alloc)
}

/// The parts in the order of their cells, by x and then by y.
fn by_cell(alloc: Global, grid: &Grid, indices: &[usize]) -> Result<Vec<usize>, AllocError>
    requires within { All (λ i. i < length grid.now) indices.now }
    requires ascends { AllPairs ◌<◌ indices.now }
    ensures moved { IfOk result (λ list. IsPermutation indices.now list.items) }
    ensures in_order { IfOk result (λ list. AllPairs (IsPlacedBefore grid.now) list.items) }
{
    let mut keyed = keyed(alloc, grid.parts(), indices)?;
    keyed.sort()?;
    unkeyed(alloc, &keyed)
}

/// Which part bears each number: splitters in the order of the parts, inputs and outputs by cells.
pub(crate) fn names_of(alloc: Global, grid: &Grid, pairs: &Pairs) -> Result<Names, AllocError>
    requires { ArePartners grid.now pairs.now }
    ensures { IfOk result (λ names. AreNames grid.now (naming_of names)) }
{
    let listed = listed(alloc, grid, pairs)?;
    let inputs = by_cell(alloc, grid, &listed.inputs)?;
    let outputs = by_cell(alloc, grid, &listed.outputs)?;
    Ok(Names {
        splitters: listed.splitters,
        inputs,
        outputs,
    })
}

/// Whether there are too many inputs, outputs or splitters for a network.
pub(crate) fn has_many(names: &Names) -> bool
    ensures { IsTrue result ↔ HasMany (naming_of names.now) }
{
    names.inputs.len() > MOST_OF_EACH
        || names.outputs.len() > MOST_OF_EACH
        || names.splitters.len() > MOST_OF_EACH
}
