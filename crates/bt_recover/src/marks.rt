//! Rings, found by marking every chain that starts somewhere: what is left unmarked is on a ring.
//!
//! Each part is marked once, so that this takes no more steps than there are parts, also where a
//! layout has many chains.
ghost use Rattle.std.specs.Prelude.{◌≡◌, ◌≢◌, ◌↔◌, ◌⊎◌, ℕ, ◌<◌, length, IsTrue, IfOk, MatchOption};
ghost use Rattle.bt_recover.specs.Pairing.{ArePartners};
ghost use Rattle.bt_model.specs.Chains.{IsLink, LinksTo};
ghost use Rattle.bt_model.specs.Clean.{IsOnRing};
ghost use Rattle.bt_model.specs.Orderly.{IsOrderly};
ghost use Rattle.bt_recover.specs.inner.Marks.{IsMarked, AreMarks, Keeps, IsUnmarkedLink};
ghost use Rattle.bt_recover.specs.inner.Told.{TellsFirst};

use crate::following::{link_after, link_before};
use crate::grid::Grid;
use crate::partners::Pairs;
use bt_model::is_kind;
use bt_parts::Kind;
use std::alloc::{AllocError, Global};

/// Marks this belt or underground piece, and those after it on its chain, up to one that is marked already.
fn mark_from(grid: &Grid, pairs: &Pairs, marks: &mut Vec<bool>, start: usize)
    requires partners { ArePartners grid.now pairs.now }
    requires orderly { IsOrderly grid.now }
    requires marks { AreMarks grid.now marks.old.items }
    requires within { start < length grid.now }
    requires link { IsLink grid.now start }
    requires free { IsOnRing grid.now start → ⊥ }
    ensures marks { AreMarks grid.now marks.new.items }
    ensures keeps { Keeps marks.old.items marks.new.items }
    ensures start { IsMarked marks.new.items start }
{
    let mut i = start;
    while !marks[i] {
        marks[i] = true;
        let Some(next) = link_after(grid, pairs, i) else {
            return;
        };
        i = next;
    }
}

/// Marks the belts and underground pieces of a chain that starts with this part: no other such piece hands to it. Does
/// nothing where none starts here.
fn mark_chain(grid: &Grid, pairs: &Pairs, marks: &mut Vec<bool>, i: usize)
    requires partners { ArePartners grid.now pairs.now }
    requires orderly { IsOrderly grid.now }
    requires marks { AreMarks grid.now marks.old.items }
    requires within { i < length grid.now }
    ensures marks { AreMarks grid.now marks.new.items }
    ensures keeps { Keeps marks.old.items marks.new.items }
    ensures chain { IsLink grid.now i → IsMarked marks.new.items i ⊎ ((p : ℕ) × LinksTo grid.now p i) }
{
    if is_kind(grid.part(i), Kind::Splitter) {
        return;
    }
    if link_before(grid, pairs, i).is_none() {
        mark_from(grid, pairs, marks, i);
    }
}

/// The first belt or underground piece that isn't marked. None where all are.
fn first_unmarked(grid: &Grid, marks: &[bool]) -> Option<usize>
    requires { length marks.now ≡ length grid.now }
    ensures { TellsFirst (IsUnmarkedLink grid.now marks.now) result }
{
    for (i, marked) in marks.iter().enumerate() {
        if !*marked && !is_kind(grid.part(i), Kind::Splitter) {
            return Some(i);
        }
    }
    None
}

/// The first part that is on a ring. None where no part is.
///
/// A belt or underground piece is on a ring where no chain that starts somewhere leads to it.
pub(crate) fn first_on_ring(
    alloc: Global,
    grid: &Grid,
    pairs: &Pairs,
) -> Result<Option<usize>, AllocError>
    requires partners { ArePartners grid.now pairs.now }
    requires orderly { IsOrderly grid.now }
    ensures { IfOk result (TellsFirst (IsOnRing grid.now)) }
{
    let count = grid.parts().len();
    let mut marks = vec![in alloc; false; count]?;
    for i in 0..count {
        mark_chain(grid, pairs, &mut marks, i);
    }
    Ok(first_unmarked(grid, &marks))
}
