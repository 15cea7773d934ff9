//! The network of a layout: refuse what isn't clean, number the ends and the splitters, and follow
//! each chain to its end.
ghost use Rattle.std.specs.Prelude.{◌≡◌};
ghost use Rattle.bt_text.specs.Answers.{Answers, UnlessMemory, seen};
ghost use Rattle.bt_net.specs.Network.{IsWired};
ghost use Rattle.bt_recover.specs.declared.fault.RecoverFault.TheVariants.{Memory};
ghost use Rattle.bt_recover.specs.Recovered.{IsRecovered, network_and_naming};
ghost use Rattle.bt_recover.specs.Preferred.{IsRecoveredWith};
ghost use Rattle.bt_recover.specs.inner.Found.{HasJoints, IsFound};
ghost use Rattle.bt_recover.specs.inner.Refused.{size_fault, IsNetTold};
ghost use Rattle.bt_recover.specs.inner.Edges.{naming_of, HasMany, net_with};

use crate::clean::clean_pairs;
use crate::edges::{Joint, edges_in, joints_of};
use crate::ends::{Names, has_many, names_of};
use crate::fault::RecoverFault;
use crate::grid::Grid;
use crate::preferring::{gives_of, takes_of};
use bt_net::{Edge, Net, NetFault};
use bt_parts::Priority;
use std::alloc::Global;

/// A network that was recovered from a layout, with the parts that its numbers name.
///
/// Each list has the index of a part at the place of its number: a splitter, the first part of an
/// input, or the last part of an output.
#[derive(Drop)]
pub struct Traced {
    pub net: Net,
    pub splitters: Vec<usize>,
    pub inputs: Vec<usize>,
    pub outputs: Vec<usize>,
}

/// The refusal of a layout whose edges make no network: there are too many of them, or else an end is lacking. No other
/// fault comes of edges that chains make.
fn size_fault(fault: NetFault) -> RecoverFault
    ensures { result ≡ size_fault fault }
{
    match fault {
        NetFault::TooLarge => RecoverFault::TooLarge,
        NetFault::NoEnds | NetFault::NetLine(_) | NetFault::Memory => RecoverFault::NoEnds,
    }
}

/// The network of these numbers with these edges, unless there are too many edges, no input or no
/// output.
fn net_of(names: &Names, edges: Vec<Edge>) -> Result<Net, RecoverFault>
    requires few { HasMany (naming_of names.now) → ⊥ }
    requires wired { IsWired (net_with (naming_of names.now) edges.items) }
    ensures { IsNetTold (net_with (naming_of names.now) edges.items) result }
{
    let inputs = names.inputs.len() as u32;
    let outputs = names.outputs.len() as u32;
    let splitters = names.splitters.len() as u32;
    match Net::new(inputs, outputs, splitters, edges) {
        Ok(net) => Ok(net),
        Err(fault) => Err(size_fault(fault)),
    }
}

/// What is found of a layout: its network, which part bears each number, and the edges with the halves
/// that they join.
#[derive(Drop)]
struct Found {
    net: Net,
    names: Names,
    joints: Vec<Joint>,
}

/// What is found of the layout; or the first of its faults, in the order of [`RecoverFault`].
fn found_in(alloc: Global, grid: &Grid) -> Result<Found, RecoverFault>
    ensures { UnlessMemory Memory (IsFound grid.now) result }
{
    let pairs = clean_pairs(alloc, grid)?;
    let names = names_of(alloc, grid, &pairs)?;
    if has_many(&names) {
        return Err(RecoverFault::TooLarge);
    }
    let joints = joints_of(alloc, grid, &pairs, &names)?;
    let edges = edges_in(alloc, &joints)?;
    let net = net_of(&names, edges)?;
    Ok(Found { net, names, joints })
}

/// The network with the parts that its numbers name.
fn told_as(net: Net, names: Names) -> Traced
    ensures { network_and_naming result ≡ (net, naming_of names) }
{
    Traced {
        net,
        splitters: names.splitters,
        inputs: names.inputs,
        outputs: names.outputs,
    }
}

/// Recovers the network that a layout shows, with its own numbering.
///
/// Splitters are numbered in the order of the parts, inputs by the cells of their first parts and
/// outputs by the cells of their last, by x and then by y. Edges come in the order of their starts:
/// the inputs, then the splitters, and of a splitter the lesser half first. The lists have indices of
/// parts. The work grows as that of sorting the parts.
///
/// An edge's cap is 1 where all parts have one tier. Otherwise it is the speed of the slowest among its
/// chain's parts and the splitters at the chain's ends, as a multiple of the basic tier's.
///
/// # Errors
///
/// The first of the faults in the order of [`RecoverFault`].
pub fn recover(alloc: Global, grid: &Grid) -> Result<Traced, RecoverFault>
    ensures { Answers Memory (IsRecovered grid.now) (seen network_and_naming result) }
{
    match found_in(alloc, grid) {
        Ok(Found { net, names, .. }) => Ok(told_as(net, names)),
        Err(fault) => Err(fault),
    }
}

/// Recovers the network that a layout shows, as [`recover`] does, with the edges that its splitters
/// prefer: the one whose chain starts at the half to which the splitter gives first, and the one whose
/// chain ends at the half from which it takes first.
///
/// The priorities are those of the parts, in their order. A half at which no chain starts, or none ends,
/// prefers nothing there.
///
/// # Errors
///
/// The first of the faults in the order of [`RecoverFault`].
pub fn recover_with(
    alloc: Global,
    grid: &Grid,
    priorities: &[Priority],
) -> Result<Traced, RecoverFault>
    ensures { Answers Memory (IsRecoveredWith grid.now priorities.now) (seen network_and_naming result) }
{
    match found_in(alloc, grid) {
        Ok(found) => preferring(alloc, grid, priorities, found),
        Err(fault) => Err(fault),
    }
}

/// The network that was found, in which splitters prefer edges.
fn preferring(
    alloc: Global,
    grid: &Grid,
    priorities: &[Priority],
    found: Found,
) -> Result<Traced, RecoverFault>
    requires { HasJoints grid.now found }
    ensures { UnlessMemory Memory (IsRecoveredWith grid.now priorities.now) (seen network_and_naming result) }
{
    let Found { net, names, joints } = found;
    let gives = gives_of(alloc, grid, priorities, &names.splitters, &joints)?;
    let takes = takes_of(alloc, grid, priorities, &names.splitters, &joints)?;
    Ok(told_as(net.preferring(gives, takes), names))
}
