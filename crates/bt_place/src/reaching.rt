//! The cells that something comes to, found by marking what each start leads to: what is left unmarked
//! holds nothing, or a part of a closed ring.
//!
//! Each cell is marked once, so that this takes no more steps than there are cells.
ghost use Rattle.std.specs.Prelude.{◌≡◌, ◌↔◌, ◌<◌, ◌≤◌, ◌+◌, IsTrue, IfOk};
ghost use Rattle.bt_facts.specs.declared.fact.Shape.TheVariants as shapes;
ghost use Rattle.bt_rules.specs.Underground.{most_distance};
ghost use Rattle.bt_place.specs.inner.Grid.{spots_in};
ghost use Rattle.bt_place.specs.inner.Told.{IsSolved};
ghost use Rattle.bt_place.specs.inner.Reaching.{Reached, cell_in, IsStart, TellsHanded, TellsPaired, TellsExit, TellsNext};
ghost use Rattle.bt_place.specs.inner.Reaching.{IsMarked, AreMarks, Keeps, HasStarts};

use crate::grid::{ahead, cell_of, spots};
use crate::reading::Reading;
use bt_facts::{Content, Fact, Shape};
use bt_parts::Dir;
use std::alloc::{AllocError, Global};

/// Whether a half stands on the cell with this number, or an input begins there.
fn starts(reading: &Reading, i: usize) -> bool
    requires { i < spots_in reading.now.request.rect }
    ensures { IsTrue result ↔ IsStart reading.now (cell_in reading.now i) }
{
    let cell = cell_of(reading.rect(), i);
    reading.says(Fact::Begins(cell)) || reading.says(Fact::HalfOn(cell))
}

/// The number of the cell to which what stands on this one, so turned, hands; none where it hands to none inside.
fn handed(reading: &Reading, i: usize, dir: Dir) -> Option<usize>
    requires solved { IsSolved reading.now }
    requires within { i < spots_in reading.now.request.rect }
    ensures { TellsHanded reading.now i dir result }
{
    let rect = reading.rect();
    if !reading.says(Fact::Goes(cell_of(rect, i), dir)) {
        return None;
    }
    ahead(rect, i, dir, 1)
}

/// The number of the cell at this distance ahead, where the entrance on this one pairs with an exit there; else none.
fn paired(reading: &Reading, i: usize, dir: Dir, distance: u32) -> Option<usize>
    requires within { i < spots_in reading.now.request.rect }
    requires some { 1 ≤ distance }
    requires few { distance ≤ most_distance reading.now.request }
    requires near { distance ≤ 11 }
    ensures { TellsPaired reading.now i dir distance result }
{
    let rect = reading.rect();
    let Some(there) = ahead(rect, i, dir, distance) else {
        return None;
    };
    if reading.says(Fact::Pair(cell_of(rect, i), dir, distance as usize)) {
        Some(there)
    } else {
        None
    }
}

/// The number of the cell of the exit with which the entrance on this one pairs; none where it pairs with none.
fn exit_of(reading: &Reading, i: usize, dir: Dir) -> Option<usize>
    requires { i < spots_in reading.now.request.rect }
    ensures { TellsExit reading.now i dir result }
{
    let most = reading.most_distance();
    for distance in 1..most + 1 {
        if let Some(there) = paired(reading, i, dir, distance) {
            return Some(there);
        }
    }
    None
}

/// Whether the shape is that of an entrance.
fn is_entrance(shape: Shape) -> bool
    ensures { IsTrue result ↔ (shape ≡ shapes.Entrance) }
{
    matches!(shape, Shape::Entrance)
}

/// The number of the cell to which what comes to this one goes; none where this one is empty, or it goes to none
/// inside.
fn next(reading: &Reading, i: usize) -> Option<usize>
    requires solved { IsSolved reading.now }
    requires within { i < spots_in reading.now.request.rect }
    ensures { TellsNext reading.now i result }
{
    let Content::Turned(shape, dir) = reading.content(i) else {
        return None;
    };
    if is_entrance(shape) {
        exit_of(reading, i, dir)
    } else {
        handed(reading, i, dir)
    }
}

/// Marks this cell and those to which what comes to it goes, one after another, up to one that is marked already.
fn mark_from(reading: &Reading, marks: &mut Vec<bool>, start: usize)
    requires solved { IsSolved reading.now }
    requires marks { AreMarks reading.now marks.old.items }
    requires within { start < spots_in reading.now.request.rect }
    requires reached { Reached reading.now (cell_in reading.now start) }
    ensures marks { AreMarks reading.now marks.new.items }
    ensures keeps { Keeps marks.old.items marks.new.items }
    ensures start { IsMarked marks.new.items start }
{
    let mut i = start;
    while !marks[i] {
        marks[i] = true;
        let Some(j) = next(reading, i) else {
            return;
        };
        i = j;
    }
}

/// For each cell, by its number, whether it is reached: a half stands there, an input begins there, or something comes
/// to it from such a cell.
pub(crate) fn reached(alloc: Global, reading: &Reading) -> Result<Vec<bool>, AllocError>
    requires { IsSolved reading.now }
    ensures marks { IfOk result (λ marks. AreMarks reading.now marks.items) }
    ensures starts { IfOk result (λ marks.
        HasStarts reading.now marks.items (spots_in reading.now.request.rect)) }
{
    let count = spots(reading.rect());
    let mut marks = vec![in alloc; false; count]?;
    for i in 0..count {
        if starts(reading, i) {
            mark_from(reading, &mut marks, i);
        }
    }
    Ok(marks)
}
