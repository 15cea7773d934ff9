//! What the splitters of a layout are to prefer, so that it shows what those of a network prefer.
//!
//! Where all splitters prefer their left halves, the layout's own network tells of each edge whether it starts, and
//! whether it ends, at a left half. Its edges and those of the other network are put in one order, by the parts that they
//! join: so each edge that is preferred stands beside one of the layout between the same parts, of whose halves the hands
//! are known.
ghost use Rattle.std.specs.Prelude.{◌≡◌, ◌≢◌, ℕ, IfOk, IsPermutation, length, map, replicate};
ghost use Rattle.bt_parts.specs.Hands.{no_priority, priority_of};
ghost use Rattle.bt_parts.specs.declared.part.Kind.TheVariants.{Splitter as IsSplitter};
ghost use Rattle.bt_parts.specs.declared.part.Part.{Part as APart};
ghost use Rattle.bt_parts.specs.Layouts.{HasPart};
ghost use Rattle.bt_recover.specs.declared.fault.RecoverFault.TheVariants.{Memory};
ghost use Rattle.bt_net.specs.Network.{IsNetwork};
ghost use Rattle.bt_model.specs.Preferring.{ShowsPreferring};
ghost use Rattle.bt_model.specs.Shown.{Shows};
ghost use Rattle.bt_layout_check.specs.Laid.{LaysBy, LaysPreferringBy, naming_of};
ghost use Rattle.bt_layout_check.specs.inner.Tests.{AreJoinedAs};
ghost use Rattle.bt_layout_check.specs.inner.Handed.{AreHanded, AreMatched, AreTold, IsTold, TellsGive, TellsTake, hand_told, to_left};
ghost use Rattle.bt_layout_check.specs.inner.Handed as handed;

use crate::names::Names;
use crate::preferring::{Marked, marks_of};
use crate::testing::{Own, own_of};
use bt_model::Request;
use bt_net::Net;
use bt_parts::{Hand, Kind, Part, Priority};
use bt_recover::{Grid, GridFault, RecoverFault, recover_with};
use std::alloc::{AllocError, Global};

/// The hand of a half that is the left one, or isn't.
fn hand_of(is_left: bool) -> Hand
    ensures { result ≡ hand_told is_left }
{
    if is_left { Hand::Left } else { Hand::Right }
}

/// The hand on which the splitter is to give first, that of the half where the edge starts that it is to prefer; none
/// where no such edge is wished for. The two lists have the same edges in one order: of which halves they are, and what
/// is wished.
fn give_at(halves: &[Marked], wishes: &[Marked], splitter: usize) -> Option<Hand>
    requires { length halves.now ≡ length wishes.now }
    ensures { TellsGive halves.now wishes.now splitter result }
{
    for k in 0..wishes.len() {
        if wishes[k].given && wishes[k].start == splitter {
            return Some(hand_of(halves[k].given));
        }
    }
    None
}

/// The hand on which the splitter is to take first, that of the half where the edge ends that it is to prefer; none
/// where no such edge is wished for. The two lists have the same edges in one order: of which halves they are, and what
/// is wished.
fn take_at(halves: &[Marked], wishes: &[Marked], splitter: usize) -> Option<Hand>
    requires { length halves.now ≡ length wishes.now }
    ensures { TellsTake halves.now wishes.now splitter result }
{
    for k in 0..wishes.len() {
        if wishes[k].taken && wishes[k].target == splitter {
            return Some(hand_of(halves[k].taken));
        }
    }
    None
}

/// What the part with this index is to prefer: nothing, where it is no splitter.
fn priority_at(halves: &[Marked], wishes: &[Marked], index: usize, kind: Kind) -> Priority
    requires { length halves.now ≡ length wishes.now }
    ensures { IsTold halves.now wishes.now index kind result }
{
    match kind {
        Kind::Splitter => Priority {
            give: give_at(halves, wishes, index),
            take: take_at(halves, wishes, index),
        },
        Kind::Belt | Kind::Entrance | Kind::Exit => Priority {
            give: None,
            take: None,
        },
    }
}

/// What each part is to prefer.
fn all_told(
    alloc: Global,
    parts: &[Part],
    halves: &[Marked],
    wishes: &[Marked],
) -> Result<Vec<Priority>, AllocError>
    requires { length halves.now ≡ length wishes.now }
    ensures { IfOk result (λ priorities. AreTold parts.now halves.now wishes.now priorities.items) }
{
    let mut priorities = Vec::with_capacity(alloc, parts.len())?;
    for index in 0..parts.len() {
        priorities.push(priority_at(halves, wishes, index, parts[index].kind))?;
    }
    Ok(priorities)
}

/// The marks of two networks whose edges join the same parts, put in one order.
fn matched(
    mut halves: Vec<Marked>,
    mut wishes: Vec<Marked>,
) -> Result<(Vec<Marked>, Vec<Marked>), AllocError>
    requires { IsPermutation (map handed.join_in halves.items) (map handed.join_in wishes.items) }
    ensures { IfOk result (λ both. AreMatched halves.items wishes.items both.0.items both.1.items) }
{
    halves.sort()?;
    wishes.sort()?;
    Ok((halves, wishes))
}

/// What each part is to prefer, where the edges of the layout's own network, whose splitters prefer their left halves,
/// join the same parts as those of the network.
fn handed(
    alloc: Global,
    parts: &[Part],
    own: &Own,
    names: &Names,
    net: &Net,
) -> Result<Vec<Priority>, AllocError>
    requires { AreJoinedAs (naming_of own.now.names) own.now.net (naming_of names.now) net.now }
    ensures { IfOk result (λ priorities. AreHanded parts.now
        (naming_of own.now.names) own.now.net (naming_of names.now) net.now priorities.items) }
{
    let first = marks_of(alloc, &own.names, &own.net)?;
    let second = marks_of(alloc, names, net)?;
    let (halves, wishes) = matched(first, second)?;
    all_told(alloc, parts, &halves, &wishes)
}

/// Why nothing was recovered of parts that show a network: memory was wanting.
fn wanting(fault: RecoverFault) -> AllocError
    requires { fault ≡ Memory }
{
    match fault {
        RecoverFault::Memory => AllocError,
        RecoverFault::Unpaired(_)
        | RecoverFault::SideLoad(_)
        | RecoverFault::Blocked(_)
        | RecoverFault::Ring(_)
        | RecoverFault::TooLarge
        | RecoverFault::NoEnds => unreachable!(),
    }
}

/// The priorities of so many splitters that prefer their left halves, where they give and where they take.
fn all_left(alloc: Global, count: usize) -> Result<Vec<Priority>, AllocError>
    ensures { IfOk result (λ lefts. lefts.items ≡ replicate count to_left) }
{
    let to_left = Priority {
        give: Some(Hand::Left),
        take: Some(Hand::Left),
    };
    vec![in alloc; to_left; count]
}

/// What each part on the grid is to prefer, so that the layout shows what the network's splitters prefer.
fn on_grid(
    alloc: Global,
    grid: &Grid,
    names: &Names,
    net: &Net,
) -> Result<Vec<Priority>, AllocError>
    requires network { IsNetwork net.now }
    requires shows { Shows grid.now net.now (naming_of names.now) }
    ensures shows { IfOk result (λ priorities.
        ShowsPreferring grid.now priorities.items net.now (naming_of names.now)) }
    ensures splitters { IfOk result (λ priorities. (i : ℕ) (part : APart)
        → HasPart grid.now i part → part.kind ≢ IsSplitter → priority_of priorities.items i ≡ no_priority) }
{
    let lefts = all_left(alloc, grid.parts().len())?;
    match recover_with(alloc, grid, &lefts) {
        Ok(traced) => handed(alloc, grid.parts(), &own_of(traced), names, net),
        Err(fault) => Err(wanting(fault)),
    }
}

/// The priorities of parts that lay a request by these names, but for what its splitters prefer, so that they lay it by
/// them with that too: those of the parts in their order, of which splitters alone prefer anything. There are some for
/// all such parts, since a splitter may prefer either of its halves.
///
/// # Errors
///
/// Only want of memory.
pub fn priorities_by(
    alloc: Global,
    parts: &[Part],
    names: &Names,
    request: &Request,
) -> Result<Vec<Priority>, AllocError>
    requires { LaysBy parts.now (naming_of names.now) request.now }
    ensures lays { IfOk result (λ priorities.
        LaysPreferringBy parts.now priorities.items (naming_of names.now) request.now) }
    ensures splitters { IfOk result (λ priorities. (i : ℕ) (part : APart)
        → HasPart parts.now i part → part.kind ≢ IsSplitter → priority_of priorities.items i ≡ no_priority) }
{
    let net = request.net();
    match Grid::place(alloc, Vec::from_slice(alloc, parts)?) {
        Ok(grid) => on_grid(alloc, &grid, names, net),
        Err(GridFault::Memory) => Err(AllocError),
        Err(GridFault::Overlap(..)) => unreachable!(),
    }
}
