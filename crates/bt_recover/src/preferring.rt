//! The edges that splitters prefer: those whose chains start, or end, at the halves that they prefer.
ghost use Rattle.std.specs.Prelude.{◌≡◌, ◌≢◌, ◌↔◌, ℕ, ◌<◌, List, length, IsTrue, IfOk, IfSome, All, AllPairs};
ghost use Rattle.std.specs.List.{AllZip};
ghost use Rattle.bt_model.specs.Chains.{Chain};
ghost use Rattle.bt_model.specs.Shown.{Naming};
ghost use Rattle.bt_recover.specs.Preferred.{priority_of, IsHalfOn, IsGivenFirst, IsTakenFirst, ArePreferred};
ghost use Rattle.bt_recover.specs.inner.Edges.{IsJoint};
ghost use Rattle.bt_recover.specs.inner.Found.{TellsPreferred};

use crate::edges::Joint;
use crate::grid::Grid;
use bt_net::{Start, Target};
use bt_parts::{Cell, Hand, Priority, is_preferred};
use std::alloc::{AllocError, Global};

/// The priority of the part with this index: none, where there are fewer priorities.
fn priority_of(priorities: &[Priority], i: usize) -> Priority
    ensures { result ≡ priority_of priorities.now i }
{
    match priorities.get(i) {
        Some(priority) => *priority,
        None => Priority {
            give: None,
            take: None,
        },
    }
}

/// Whether the half of this splitter is the one on this hand. False where no hand is named.
fn is_half_on(grid: &Grid, s: usize, hand: Option<Hand>, half: Cell) -> bool
    requires { s < length grid.now }
    ensures { IsTrue result ↔ IsHalfOn grid.now s hand half }
{
    is_preferred(hand, grid.part(s), half)
}

/// The number of the splitter that gives to this edge first. None where the edge starts at no splitter, or that one
/// prefers another edge or none.
fn given(grid: &Grid, priorities: &[Priority], splitters: &[usize], joint: Joint) -> Option<usize>
    requires { All (λ s. s < length grid.now) splitters.now }
    ensures told { (naming : Naming) (chain : Chain) → naming.splitters ≡ splitters.now
        → IsJoint grid.now naming chain joint
        → TellsPreferred (IsGivenFirst grid.now priorities.now) splitters.now chain result }
    ensures within { IfSome result (λ k. k < length splitters.now) }
{
    let Start::Split(number) = joint.edge.start else {
        return None;
    };
    let Some(half) = joint.source_half else {
        return None;
    };
    let k = number as usize;
    let Some(at) = splitters.get(k) else {
        return None;
    };
    if is_half_on(grid, *at, priority_of(priorities, *at).give, half) {
        Some(k)
    } else {
        None
    }
}

/// The number of the splitter that takes from this edge first. None where the edge ends at no splitter, or that one
/// prefers another edge or none.
fn taken(grid: &Grid, priorities: &[Priority], splitters: &[usize], joint: Joint) -> Option<usize>
    requires { All (λ s. s < length grid.now) splitters.now }
    ensures told { (naming : Naming) (chain : Chain) → naming.splitters ≡ splitters.now
        → IsJoint grid.now naming chain joint
        → TellsPreferred (IsTakenFirst grid.now priorities.now) splitters.now chain result }
    ensures within { IfSome result (λ k. k < length splitters.now) }
{
    let Target::Split(number) = joint.edge.target else {
        return None;
    };
    let Some(half) = joint.sink_half else {
        return None;
    };
    let k = number as usize;
    let Some(at) = splitters.get(k) else {
        return None;
    };
    if is_half_on(grid, *at, priority_of(priorities, *at).take, half) {
        Some(k)
    } else {
        None
    }
}

/// For each splitter the edge to which it gives first; None where it prefers none.
pub(crate) fn gives_of(
    alloc: Global,
    grid: &Grid,
    priorities: &[Priority],
    splitters: &[usize],
    joints: &[Joint],
) -> Result<Vec<Option<usize>>, AllocError>
    requires within { All (λ s. s < length grid.now) splitters.now }
    requires once { AllPairs ◌≢◌ splitters.now }
    ensures { IfOk result (λ gives. (naming : Naming) (chains : List Chain) → naming.splitters ≡ splitters.now
        → AllZip (IsJoint grid.now naming) chains joints.now
        → ArePreferred (IsGivenFirst grid.now priorities.now) splitters.now chains gives.items) }
{
    let mut gives = vec![in alloc; None; splitters.len()]?;
    for (a, joint) in joints.iter().enumerate() {
        if let Some(k) = given(grid, priorities, splitters, *joint) {
            gives[k] = Some(a);
        }
    }
    Ok(gives)
}

/// For each splitter the edge from which it takes first; None where it prefers none.
pub(crate) fn takes_of(
    alloc: Global,
    grid: &Grid,
    priorities: &[Priority],
    splitters: &[usize],
    joints: &[Joint],
) -> Result<Vec<Option<usize>>, AllocError>
    requires within { All (λ s. s < length grid.now) splitters.now }
    requires once { AllPairs ◌≢◌ splitters.now }
    ensures { IfOk result (λ takes. (naming : Naming) (chains : List Chain) → naming.splitters ≡ splitters.now
        → AllZip (IsJoint grid.now naming) chains joints.now
        → ArePreferred (IsTakenFirst grid.now priorities.now) splitters.now chains takes.items) }
{
    let mut takes = vec![in alloc; None; splitters.len()]?;
    for (a, joint) in joints.iter().enumerate() {
        if let Some(k) = taken(grid, priorities, splitters, *joint) {
            takes[k] = Some(a);
        }
    }
    Ok(takes)
}
