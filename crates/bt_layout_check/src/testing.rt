//! The test whether parts lay a request by given names.
ghost use Rattle.std.specs.Prelude.{◌≡◌, ◌≢◌, ◌↔◌, All, IfOk, IsTrue, false};
ghost use Rattle.bt_recover.specs.declared.fault.RecoverFault.TheVariants.{Memory};
ghost use Rattle.bt_parts.specs.Layouts.{IsWellPlaced};
ghost use Rattle.bt_net.specs.Network.{IsNetwork};
ghost use Rattle.bt_model.specs.Laying.{Fits, KeepsDemand};
ghost use Rattle.bt_model.specs.Requests.{IsRequest};
ghost use Rattle.bt_model.specs.Chains.{IsInput, IsOutput};
ghost use Rattle.bt_model.specs.Shown.{IsNumbered, ListsEach, Shows};
ghost use Rattle.bt_recover.specs.Recovered.{network_and_naming};
ghost use Rattle.bt_layout_check.specs.Laid.{LaysBy, naming_of};
ghost use Rattle.bt_layout_check.specs.inner.Fitting.{SuitsAlone};

use crate::demands::keeps_demands;
use crate::fitting::{all_suit, are_first, are_free, are_last};
use crate::names::Names;
use crate::showing::{are_joined, are_named};
use bt_model::Request;
use bt_net::Net;
use bt_parts::Part;
use bt_recover::{Grid, GridFault, RecoverFault, Traced, recover};
use std::alloc::{AllocError, Global};

/// Whether the parts lay the request by these names: they lie in its rectangle, on none of its blocked cells, and have its
/// tier; they show its network, of which the numbers are those of the names; and its ends stand where it wants them. The
/// work grows as that of sorting the parts.
///
/// Any parts and names may be tested: names that are too few or too many, that name a part twice or one that there isn't
/// are no names of the network.
///
/// # Errors
///
/// Only want of memory.
pub fn lays(
    alloc: Global,
    parts: &[Part],
    names: &Names,
    request: &Request,
) -> Result<bool, AllocError>
    ensures { IfOk result (λ holds. IsTrue holds ↔ LaysBy parts.now (naming_of names.now) request.now) }
{
    if !all_suit(request.rect(), request.tier(), parts) {
        return Ok(false);
    }
    match Grid::place(alloc, Vec::from_slice(alloc, parts)?) {
        Ok(grid) => lays_placed(alloc, &grid, names, request),
        Err(GridFault::Overlap(..)) => Ok(false),
        Err(GridFault::Memory) => Err(AllocError),
    }
}

/// A network that was recovered, and the parts that its numbers name.
#[derive(Drop)]
pub(crate) struct Own {
    pub(crate) net: Net,
    pub(crate) names: Names,
}

/// The network that was recovered, with the names of its parts.
pub(crate) fn own_of(traced: Traced) -> Own
    ensures net { result.net ≡ traced.net }
    ensures names { naming_of result.names ≡ (network_and_naming traced).1 }
{
    let Traced {
        net,
        splitters,
        inputs,
        outputs,
    } = traced;
    Own {
        net,
        names: Names {
            splitters,
            inputs,
            outputs,
        },
    }
}

/// Whether the parts, of which no two share a cell and all lie in the rectangle, lay the request by these names.
fn lays_placed(
    alloc: Global,
    grid: &Grid,
    names: &Names,
    request: &Request,
) -> Result<bool, AllocError>
    requires request { IsRequest request.now }
    requires suits { All (SuitsAlone request.now.rect request.now.tier) grid.now }
    ensures { IfOk result (λ holds. IsTrue holds ↔ LaysBy grid.now (naming_of names.now) request.now) }
{
    match recover(alloc, grid) {
        Ok(traced) => lays_recovered(alloc, grid, &own_of(traced), names, request),
        Err(fault) => refused(fault),
    }
}

/// The answer of parts of which no network was recovered: they lay nothing. An error where memory was wanting.
fn refused(fault: RecoverFault) -> Result<bool, AllocError>
    ensures { IfOk result (λ holds. (holds ≡ false) × (fault ≢ Memory)) }
{
    match fault {
        RecoverFault::Memory => Err(AllocError),
        RecoverFault::Unpaired(_)
        | RecoverFault::SideLoad(_)
        | RecoverFault::Blocked(_)
        | RecoverFault::Ring(_)
        | RecoverFault::TooLarge
        | RecoverFault::NoEnds => Ok(false),
    }
}

/// Whether no part stands on a blocked cell, and the rectangle ends behind the first part of each input and in front of
/// the last part of each output.
fn fits(grid: &Grid, own: &Names, request: &Request) -> bool
    requires suits { All (SuitsAlone request.now.rect request.now.tier) grid.now }
    requires inputs { ListsEach (IsInput grid.now)
        (naming_of own.now).inputs }
    requires outputs { ListsEach (IsOutput grid.now)
        (naming_of own.now).outputs }
    ensures { IsTrue result ↔ Fits grid.now request.now }
{
    let (rect, parts) = (request.rect(), grid.parts());
    if !are_free(grid, request.blocks()) {
        return false;
    }
    if !are_first(rect, parts, &own.inputs) {
        return false;
    }
    are_last(rect, parts, &own.outputs)
}

/// Whether the layout, of which `own` was recovered, shows the network by the given names.
fn shows(
    alloc: Global,
    grid: &Grid,
    own: &Own,
    names: &Names,
    net: &Net,
) -> Result<bool, AllocError>
    requires numbered { IsNumbered grid.now own.now.net (naming_of own.now.names) }
    requires network { IsNetwork net.now }
    ensures { IfOk result (λ holds. IsTrue holds ↔ Shows grid.now net.now (naming_of names.now)) }
{
    if !are_named(alloc, &own.names, names, net)? {
        return Ok(false);
    }
    are_joined(alloc, &own.names, &own.net, names, net)
}

/// Whether the ends of parts that fit the request and show its network stand where it wants them.
fn keeps(grid: &Grid, own: &Own, names: &Names, request: &Request) -> bool
    requires request { IsRequest request.now }
    requires suits { All (SuitsAlone request.now.rect request.now.tier) grid.now }
    requires numbered { IsNumbered grid.now own.now.net (naming_of own.now.names) }
    requires shows { Shows grid.now request.now.net (naming_of names.now) }
    ensures { IsTrue result
        ↔ All (KeepsDemand grid.now request.now (naming_of names.now)) request.now.demands }
{
    keeps_demands(grid.parts(), &own.names, request, names)
}

/// Whether the parts, of which `own` was recovered, lay the request by the given names.
fn lays_recovered(
    alloc: Global,
    grid: &Grid,
    own: &Own,
    names: &Names,
    request: &Request,
) -> Result<bool, AllocError>
    requires request { IsRequest request.now }
    requires suits { All (SuitsAlone request.now.rect request.now.tier) grid.now }
    requires numbered { IsNumbered grid.now own.now.net (naming_of own.now.names) }
    ensures { IfOk result (λ holds. IsTrue holds ↔ LaysBy grid.now (naming_of names.now) request.now) }
{
    if !fits(grid, &own.names, request) {
        return Ok(false);
    }
    if !shows(alloc, grid, own, names, request.net())? {
        return Ok(false);
    }
    Ok(keeps(grid, own, names, request))
}
