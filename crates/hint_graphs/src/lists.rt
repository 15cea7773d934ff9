//! Lists of numbers and marks, asked at places that they may lack.
ghost use Rattle.std.specs.Prelude.{ℕ, ◌<◌, IfOk, OnOk};
ghost use Rattle.std.specs.List.{All};
ghost use Rattle.hint_graphs.specs.Places.{AreBelow};

use std::alloc::{AllocError, Global};

/// So many empty lists.
pub fn empty_lists(alloc: Global, count: u32) -> Result<Vec<Vec<usize>>, AllocError>
    ensures { (end : ℕ) → IfOk result (λ lists. All (λ list. AreBelow end list.items) lists.items) }
{
    let mut lists = Vec::new(alloc);
    for _ in 0..count {
        lists.push(Vec::new(alloc))?;
    }
    Ok(lists)
}

/// Adds a number to a splitter's list, where there is one.
pub fn add(lists: &mut [Vec<usize>], splitter: Option<u32>, number: usize) -> Result<(), AllocError>
    ensures { (end : ℕ) → All (λ list. AreBelow end list.items) lists.old → number < end
        → OnOk result (All (λ list. AreBelow end list.items) lists.new) }
{
    let Some(splitter) = splitter else {
        return Ok(());
    };
    let splitter = splitter as usize;
    if splitter < lists.len() {
        lists[splitter].push(number)?;
    }
    Ok(())
}

/// The list at a place, empty where there is none.
pub fn list_at(lists: &[Vec<usize>], place: usize) -> &[usize] {
    match lists.get(place) {
        Some(list) => list,
        None => &[],
    }
}

/// Whether there is a mark at a place, and it is set.
pub fn is_set(marks: &[bool], place: usize) -> bool {
    marks.get(place).copied().unwrap_or(false)
}

/// Sets the mark at a place to a value, where there is one.
pub fn mark(marks: &mut [bool], place: usize, value: bool) {
    if place < marks.len() {
        marks[place] = value;
    }
}
