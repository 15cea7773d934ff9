//! The test whether a layout shows what the splitters of a network prefer.
ghost use Rattle.std.specs.Prelude.{◌≡◌, ◌≢◌, ◌↔◌, ◌<◌, IfOk, IsPermutation, IsTrue, Some, false, length};
ghost use Rattle.bt_recover.specs.declared.fault.RecoverFault.TheVariants.{Memory};
ghost use Rattle.bt_parts.specs.Layouts.{AreInRange};
ghost use Rattle.bt_net.specs.Network.{IsNetwork};
ghost use Rattle.bt_model.specs.Preferring.{ShowsPreferring};
ghost use Rattle.bt_model.specs.Shown.{IsNaming};
ghost use Rattle.bt_layout_check.specs.Laid.{LaysPreferringBy, naming_of};
ghost use Rattle.bt_layout_check.specs.inner.Marks.{AreMarkedAs, AreMarks, HaveSameMarks, IsGivenAt, IsMarkOf, IsTakenAt};

use crate::joins::{start_part, target_part};
use crate::names::Names;
use crate::testing::{Own, lays, own_of};
use bt_model::Request;
use bt_net::{Net, Start, Target};
use bt_parts::{Part, Priority};
use bt_recover::{Grid, GridFault, RecoverFault, recover_with};
use std::alloc::{AllocError, Global};

/// An edge by the parts at its ends, and whether the splitter at its start prefers to give to it, and the one at its end to
/// take from it.
#[derive(Clone, Copy, PartialEq, Eq, PartialOrd, Ord)]
pub(crate) struct Marked {
    pub(crate) start: usize,
    pub(crate) target: usize,
    pub(crate) cap: u32,
    pub(crate) given: bool,
    pub(crate) taken: bool,
}

/// Whether the preferred edge is the one at this place.
fn is_edge(preferred: Option<usize>, place: usize) -> bool
    ensures { IsTrue result ↔ (preferred ≡ Some place) }
{
    preferred == Some(place)
}

/// Whether an edge with this start at this place is the one to which the splitter at its start prefers to give.
fn is_given(net: &Net, place: usize, start: Start) -> bool
    ensures { IsTrue result ↔ IsGivenAt net.now place start }
{
    match start {
        Start::Split(splitter) => is_edge(net.give(splitter as usize), place),
        Start::Input(_) => false,
    }
}

/// Whether an edge with this target at this place is the one from which the splitter at its end prefers to take.
fn is_taken(net: &Net, place: usize, target: Target) -> bool
    ensures { IsTrue result ↔ IsTakenAt net.now place target }
{
    match target {
        Target::Split(splitter) => is_edge(net.take(splitter as usize), place),
        Target::Output(_) => false,
    }
}

/// The edge at this place by the parts at its ends, with what is preferred of it.
fn mark_of(names: &Names, net: &Net, place: usize) -> Marked
    requires { place < length net.now.edges }
    ensures { IsMarkOf (naming_of names.now) net.now place result }
{
    let edge = net.edges()[place];
    Marked {
        start: start_part(names, edge.start),
        target: target_part(names, edge.target),
        cap: edge.cap,
        given: is_given(net, place, edge.start),
        taken: is_taken(net, place, edge.target),
    }
}

/// The edges by the parts at their ends, with what is preferred of them.
pub(crate) fn marks_of(alloc: Global, names: &Names, net: &Net) -> Result<Vec<Marked>, AllocError>
    ensures { IfOk result (λ marks. AreMarks (naming_of names.now) net.now marks.items) }
{
    let count = net.edges().len();
    let mut marks = Vec::with_capacity(alloc, count)?;
    for place in 0..count {
        marks.push(mark_of(names, net, place))?;
    }
    Ok(marks)
}

/// Whether the two are the same.
fn is_same(one: Marked, other: Marked) -> bool
    ensures { IsTrue result ↔ (one ≡ other) }
{
    one == other
}

/// Whether the two lists are the same.
fn are_same(one: &[Marked], other: &[Marked]) -> bool
    ensures { IsTrue result ↔ (one.now ≡ other.now) }
{
    if one.len() != other.len() {
        return false;
    }
    for k in 0..one.len() {
        if !is_same(one[k], other[k]) {
            return false;
        }
    }
    true
}

/// Whether the two lists have the same edges, each as often, in any order.
fn are_rearranged(mut one: Vec<Marked>, mut other: Vec<Marked>) -> Result<bool, AllocError>
    ensures { IfOk result (λ same. IsTrue same ↔ IsPermutation one.items other.items) }
{
    one.sort()?;
    other.sort()?;
    Ok(are_same(&one, &other))
}

/// Whether the edges of the network that was recovered and those of the given one join the same parts by their names,
/// and the same of them are preferred.
fn prefer_same(alloc: Global, own: &Own, names: &Names, net: &Net) -> Result<bool, AllocError>
    ensures marked { IfOk result (λ same. IsTrue same
        → AreMarkedAs (naming_of own.now.names) own.now.net (naming_of names.now) net.now) }
    ensures same { IfOk result (λ same.
        HaveSameMarks (naming_of own.now.names) own.now.net (naming_of names.now) net.now → IsTrue same) }
{
    let first = marks_of(alloc, &own.names, &own.net)?;
    let second = marks_of(alloc, names, net)?;
    are_rearranged(first, second)
}

/// The answer of parts of which no network was recovered: they show nothing. An error where memory was wanting.
fn refused(fault: RecoverFault) -> Result<bool, AllocError>
    ensures { IfOk result (λ shows. (shows ≡ false) × (fault ≢ Memory)) }
{
    match fault {
        RecoverFault::Memory => Err(AllocError),
        RecoverFault::Unpaired(_)
        | RecoverFault::SideLoad(_)
        | RecoverFault::Blocked(_)
        | RecoverFault::Ring(_)
        | RecoverFault::TooLarge
        | RecoverFault::NoEnds => Ok(false),
    }
}

/// Whether the layout on the grid with these priorities shows what the splitters of the network prefer, by names of its
/// parts.
fn shows_on(
    alloc: Global,
    grid: &Grid,
    priorities: &[Priority],
    names: &Names,
    net: &Net,
) -> Result<bool, AllocError>
    requires network { IsNetwork net.now }
    requires names { IsNaming grid.now net.now (naming_of names.now) }
    ensures { IfOk result (λ shows. IsTrue shows
        ↔ ShowsPreferring grid.now priorities.now net.now (naming_of names.now)) }
{
    match recover_with(alloc, grid, priorities) {
        Ok(traced) => prefer_same(alloc, &own_of(traced), names, net),
        Err(fault) => refused(fault),
    }
}

/// Whether the layout with these priorities shows what the splitters of the network prefer, by names of its parts.
fn shows_preferred(
    alloc: Global,
    parts: &[Part],
    priorities: &[Priority],
    names: &Names,
    net: &Net,
) -> Result<bool, AllocError>
    requires in_range { AreInRange parts.now }
    requires network { IsNetwork net.now }
    requires names { IsNaming parts.now net.now (naming_of names.now) }
    ensures { IfOk result (λ shows. IsTrue shows
        ↔ ShowsPreferring parts.now priorities.now net.now (naming_of names.now)) }
{
    match Grid::place(alloc, Vec::from_slice(alloc, parts)?) {
        Ok(grid) => shows_on(alloc, &grid, priorities, names, net),
        Err(GridFault::Overlap(..)) => Ok(false),
        Err(GridFault::Memory) => Err(AllocError),
    }
}

/// Whether the parts with these priorities lay the request with what its splitters prefer, by these names: they lay it by
/// them, and each chain that a splitter prefers stands for an edge that the network's splitter prefers, and no other does.
///
/// # Errors
///
/// Only want of memory.
pub fn lays_preferring(
    alloc: Global,
    parts: &[Part],
    priorities: &[Priority],
    names: &Names,
    request: &Request,
) -> Result<bool, AllocError>
    ensures { IfOk result (λ holds. IsTrue holds
        ↔ LaysPreferringBy parts.now priorities.now (naming_of names.now) request.now) }
{
    if !lays(alloc, parts, names, request)? {
        return Ok(false);
    }
    shows_preferred(alloc, parts, priorities, names, request.net())
}
