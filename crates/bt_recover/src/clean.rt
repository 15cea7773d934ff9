//! What is wrong with a layout, in the order of the refusals.
//!
//! Rings are looked for last, since chains can be followed only where each part has one giver.
ghost use Rattle.std.specs.Prelude.{◌≡◌, IfOk, IfErr};
ghost use Rattle.bt_recover.specs.Pairing.{ArePartners};
ghost use Rattle.bt_model.specs.Clean.{IsClean};
ghost use Rattle.bt_recover.specs.inner.Refused.{fault_of, IsRefused};

use crate::fault::RecoverFault;
use crate::grid::Grid;
use crate::marks::first_on_ring;
use crate::pairing::{PairFault, pairs};
use crate::partners::Pairs;
use crate::refusals::{first_blocked, first_side_loaded};
use std::alloc::Global;

/// The refusal of a layout whose underground pieces aren't all in pairs.
fn fault_of(fault: PairFault) -> RecoverFault
    ensures { result ≡ fault_of fault }
{
    match fault {
        PairFault::Unpaired(i) => RecoverFault::Unpaired(i),
        PairFault::Memory => RecoverFault::Memory,
    }
}

/// The pairs of a clean layout, or what is wrong with it.
///
/// A layout is clean where each underground piece is in a pair, no part is side-loaded, none looks
/// at a part that takes nothing from there, and no belts and underground pieces form a ring.
pub(crate) fn clean_pairs(alloc: Global, grid: &Grid) -> Result<Pairs, RecoverFault>
    ensures clean { IfOk result (λ pairs. IsClean grid.now) }
    ensures paired { IfOk result (ArePartners grid.now) }
    ensures refused { IfErr result (IsRefused grid.now) }
{
    let pairs = match pairs(alloc, grid) {
        Ok(pairs) => pairs,
        Err(fault) => return Err(fault_of(fault)),
    };
    if let Some(i) = first_side_loaded(grid) {
        return Err(RecoverFault::SideLoad(i));
    }
    if let Some(i) = first_blocked(grid) {
        return Err(RecoverFault::Blocked(i));
    }
    match first_on_ring(alloc, grid, &pairs)? {
        Some(i) => Err(RecoverFault::Ring(i)),
        None => Ok(pairs),
    }
}
