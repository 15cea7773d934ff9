//! The edges of a network by the parts at their ends.
ghost use Rattle.std.specs.Prelude.{◌≡◌, ◌↔◌, IfOk, IsPermutation, IsTrue, slice_index_or};
ghost use Rattle.bt_layout_check.specs.Laid.{naming_of};
ghost use Rattle.bt_layout_check.specs.inner.Joins as joins;

use crate::names::Names;
use bt_net::{Edge, Start, Target};
use std::alloc::{AllocError, Global};

/// An edge by the indices of the parts at its ends: of the splitter at which it starts or the first part of its input, and
/// of the splitter at which it ends or the last part of its output.
#[derive(Clone, Copy, PartialEq, Eq, PartialOrd, Ord)]
pub(crate) struct Join {
    pub(crate) start: usize,
    pub(crate) target: usize,
    pub(crate) cap: u32,
}

/// The part that bears the number, or the first part where none does.
fn bearer(list: &[usize], number: u32) -> usize
    ensures { result ≡ slice_index_or list.now number 0 }
{
    match list.get(number as usize) {
        Some(part) => *part,
        None => 0,
    }
}

/// The part that bears the number of a start by these names, or the first part where none does.
pub(crate) fn start_part(names: &Names, start: Start) -> usize
    ensures { result ≡ joins.start_part (naming_of names.now) start }
{
    match start {
        Start::Input(k) => bearer(&names.inputs, k),
        Start::Split(k) => bearer(&names.splitters, k),
    }
}

/// The part that bears the number of a target by these names, or the first part where none does.
pub(crate) fn target_part(names: &Names, target: Target) -> usize
    ensures { result ≡ joins.target_part (naming_of names.now) target }
{
    match target {
        Target::Output(k) => bearer(&names.outputs, k),
        Target::Split(k) => bearer(&names.splitters, k),
    }
}

/// The edge by the parts at its ends.
fn join_of(names: &Names, edge: Edge) -> Join
    ensures { result ≡ joins.join_of (naming_of names.now) edge }
{
    Join {
        start: start_part(names, edge.start),
        target: target_part(names, edge.target),
        cap: edge.cap,
    }
}

/// The edges by the parts at their ends.
pub(crate) fn joins_of(
    alloc: Global,
    names: &Names,
    edges: &[Edge],
) -> Result<Vec<Join>, AllocError>
    ensures { IfOk result (λ list. list.items ≡ joins.joins_of (naming_of names.now) edges.now) }
{
    let mut joins = Vec::with_capacity(alloc, edges.len())?;
    for edge in edges {
        joins.push(join_of(names, *edge))?;
    }
    Ok(joins)
}

/// Whether the two lists have the same edges, each as often, in any order.
pub(crate) fn are_rearranged(mut one: Vec<Join>, mut other: Vec<Join>) -> Result<bool, AllocError>
    ensures { IfOk result (λ same. IsTrue same ↔ IsPermutation one.items other.items) }
{
    one.sort()?;
    other.sort()?;
    Ok(are_same(&one, &other))
}

/// Whether the two are the same.
fn is_same(one: Join, other: Join) -> bool
    ensures { IsTrue result ↔ (one ≡ other) }
{
    one == other
}

/// Whether the two lists are the same.
fn are_same(one: &[Join], other: &[Join]) -> bool
    ensures { IsTrue result ↔ (one.now ≡ other.now) }
{
    if one.len() != other.len() {
        return false;
    }
    for k in 0..one.len() {
        if !is_same(one[k], other[k]) {
            return false;
        }
    }
    true
}
