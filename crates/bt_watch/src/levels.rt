//! Levels: each begins with a choice, and a backjump goes back to what was true before one began.
ghost use Rattle.std.specs.Prelude.{◌≡◌, ◌<◌, length, None, OnOk};
ghost use Rattle.bt_watch.specs.Keeping.{AreTrue};
ghost use Rattle.bt_watch.specs.Levels.{BeginsLevel, ArePlaced, Unassigns, Backjumps, IsLevelOf, start_of};
ghost use Rattle.std.specs.List.Sorted.{IsNonDecreasing};

use crate::assignment::{Assignment, assign};
use crate::search::Search;
use bt_cnf::{Lit, Truth};
use std::alloc::AllocError;

/// Begins a level with a literal that is chosen.
pub fn begin_level(search: &mut Search, lit: &Lit) -> Result<(), AllocError>
    requires { lit.now.var < length search.old.assignment.values }
    ensures { OnOk result (BeginsLevel lit.now search.old search.new) }
{
    search.starts.push(search.assignment.trail.len())?;
    assign(&mut search.assignment, lit, None)?;
    Ok(())
}

/// Unsets all variables but those of the first so many literals of the trail.
fn unassign(assignment: &mut Assignment, size: usize)
    requires truths { AreTrue assignment.old.values assignment.old.trail.items }
    requires placed { ArePlaced assignment.old }
    ensures { Unassigns size assignment.old assignment.new }
{
    while assignment.trail.len() > size {
        if let Some(lit) = assignment.trail.pop() {
            *assignment.values.get_mut(lit.var) = Truth::unset();
        }
    }
    assignment.reasons.truncate(size);
}

/// The place on the trail where a level begins, or the end of the trail where there is no such level. Levels are
/// numbered from 0.
pub fn start(search: &Search, level: usize) -> usize
    ensures { result ≡ start_of search.now level }
{
    match search.starts.get(level) {
        Some(start) => *start,
        None => search.assignment.trail.len(),
    }
}

/// Backjumps to what was true before a level began. Where there is no such level, nothing changes.
pub fn backjump(search: &mut Search, level: usize)
    requires truths { AreTrue search.old.assignment.values search.old.assignment.trail.items }
    requires placed { ArePlaced search.old.assignment }
    ensures { Backjumps level search.old search.new }
{
    let size = start(search, level);
    unassign(&mut search.assignment, size);
    search.starts.truncate(level);
}

/// How many levels begin at a place of the trail or before it. The places where levels begin ascend.
pub fn level_of(starts: &[usize], place: usize) -> usize
    requires { IsNonDecreasing starts.now }
    ensures { IsLevelOf starts.now place result }
{
    starts.partition_point(|start| *start <= place)
}
