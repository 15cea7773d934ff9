//! Parts on their cells: a list of which no two share a cell, and an ordered map to look a cell up.
//!
//! The map takes its place in memory once, so that the pairs, and later the feeders, of n parts are found
//! in O(n log n) steps in place of n times n.

ghost use Rattle.std.specs.Prelude.{◌≡◌, ◌↔◌, ℕ, ◌<◌, length, MatchOption, OnOk};
ghost use Rattle.bt_text.specs.Answers.{Answers};
ghost use Rattle.bt_parts.specs.Cells.{IsInRange};
ghost use Rattle.bt_parts.specs.Layouts.{AreInRange, HasPart, IsAt, IsWellPlaced};
ghost use Rattle.bt_recover.specs.Placing.{IsPlaced};
ghost use Rattle.bt_recover.specs.inner.Index.{index_at, IsLesser, IsFreeFor, IsLeastOn, Adds};
ghost use Rattle.bt_recover.specs.declared.grid.GridFault.TheVariants.{Memory};

use bt_parts::{Cell, Layout, Part, cells_of};
use std::alloc::{AllocError, Global};
use std::collections::BTreeMap;
use std::marker::Model;

/// Why parts can't be placed. The numbers are places in the list of parts.
#[derive(Clone, Copy, Debug, PartialEq, Eq)]
pub enum GridFault {
    /// The second part shares a cell with the first one, which comes before it.
    Overlap(usize, usize),

    /// There is no memory.
    Memory,
}

impl From<AllocError> for GridFault {
    ghost use Rattle.std.specs.Prelude.{◌≡◌};
    ghost use Rattle.bt_recover.specs.declared.grid.GridFault.TheVariants.{Memory};

    ghost from_gives = { λ _ fault. fault ≡ Memory };

    fn from(_: AllocError) -> GridFault {
        GridFault::Memory
    }
}

/// The index of the part on the cell. None where the cell is empty.
fn index_at(cells: &BTreeMap<Cell, usize>, cell: Cell) -> Option<usize>
    ensures { result ≡ index_at cells.now cell }
{
    cells.get(&cell).copied()
}

/// The lesser of two indices, or the only one where one is missing. None where both are.
fn lesser(one: Option<usize>, other: Option<usize>) -> Option<usize>
    ensures { IsLesser one other result }
{
    match (one, other) {
        (Some(i), Some(j)) => Some(i.min(j)),
        (Some(i), None) => Some(i),
        (None, other) => other,
    }
}

/// The least index of a part that is already on a cell of this part. None where its cells are empty.
fn least_on(cells: &BTreeMap<Cell, usize>, part: &Part) -> Option<usize>
    requires { IsInRange part.now.cell }
    ensures { MatchOption result (IsFreeFor cells.now part.now) (IsLeastOn cells.now part.now) }
{
    let (first, second) = cells_of(part);
    lesser(
        index_at(cells, first),
        second.and_then(|cell| index_at(cells, cell)),
    )
}

/// Puts the index on each cell of the part.
fn add(cells: &mut BTreeMap<Cell, usize>, part: &Part, i: usize) -> Result<(), AllocError>
    requires { IsInRange part.now.cell }
    ensures { OnOk result (Adds cells.old cells.new part.now i) }
{
    let (first, second) = cells_of(part);
    cells.insert(first, i)?;
    if let Some(cell) = second {
        cells.insert(cell, i)?;
    }
    Ok(())
}

/// Parts of which no two share a cell, with an ordered map from each cell to the part on it.
#[derive(Drop)]
pub struct Grid {
    parts: Vec<Part>,
    cells: BTreeMap<Cell, usize>,
}

impl Model for Grid {
    ghost use Rattle.std.specs.Prelude.{List};
    ghost use Rattle.bt_parts.specs.declared.part.Part.{Part};
    ghost use Rattle.bt_recover.specs.inner.Index.{Indexes};

    ghost Value = { List Part };

    ghost view = { λ grid. grid.parts.items };

    ghost invariant = { λ grid. Indexes grid.parts.items grid.cells };
}

impl Grid {
    /// Places the parts. A part's index is its place in the list. It takes O(n log n) steps for n parts.
    ///
    /// # Errors
    ///
    /// The first overlap: the least index that shares a cell with an earlier part, and the least such
    /// earlier one.
    #[tactic(auto, using(crate::proofs::OneAnswer::placed_answers))]
    pub fn place(alloc: Global, parts: Vec<Part>) -> Result<Grid, GridFault>
        requires { AreInRange parts.items }
        ensures { Answers Memory (IsPlaced parts.items) result }
    {
        let mut cells = BTreeMap::new(alloc);
        for (i, part) in parts.iter().enumerate() {
            if let Some(first) = least_on(&cells, part) {
                return Err(GridFault::Overlap(first, i));
            }
            add(&mut cells, part, i)?;
        }
        Ok(Grid { parts, cells })
    }

    /// The parts in the order of their indices.
    pub fn parts(&self) -> &[Part]
        ensures value { result.now ≡ self.now }
        ensures in_range { AreInRange self.now }
        ensures well_placed { IsWellPlaced self.now }
    {
        &self.parts
    }

    /// The part with this index, which is less than the number of parts.
    pub fn part(&self, i: usize) -> &Part
        requires { i < length self.now }
        ensures value { HasPart self.now i result.now }
        ensures in_range { IsInRange result.now.cell }
    {
        &self.parts[i]
    }

    /// The index of the part that covers the cell, if there is one.
    pub fn at(&self, cell: Cell) -> Option<usize>
        ensures found { (i : ℕ) → (result ≡ Some i) ↔ IsAt self.now i cell }
        ensures empty { (result ≡ None) ↔ ((i : ℕ) → IsAt self.now i cell → ⊥) }
    {
        index_at(&self.cells, cell)
    }
}

impl Layout for Grid {
    ghost parts = { λ grid. grid };

    fn part(&self, i: usize) -> &Part {
        Grid::part(self, i)
    }

    fn at(&self, cell: Cell) -> Option<usize> {
        Grid::at(self, cell)
    }
}
