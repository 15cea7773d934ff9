//! Building a network for a wish.
ghost use Rattle.std.specs.Prelude.{◌≡◌, ◌↔◌, IsTrue, All, IfOk, IfSome};
ghost use Rattle.bt_decide.specs.Building.{IsBuilt};

use crate::granting::grants;
use bt_cnf::Limits;
use bt_flow::Property;
use bt_gen::Wish;
use bt_net::{Edge, Net};
use hint_balancers::{Belts, MOST_TABLED, candidates, dropped};
use hint_simulation::simplest;
use std::alloc::{AllocError, Global};

/// The most inputs or outputs of a network of which splitters are left out, so that it takes seconds.
const MOST_LEFT_OUT: u32 = 12;

/// Of the networks of so many inputs and outputs, up to 64 each, that are likely to have each wished property, the one
/// of fewest splitters that is decided within the limits to have them, without splitters in whose place two belts do.
/// None where none is.
pub fn build(
    alloc: Global,
    wish: Wish,
    inputs: u32,
    outputs: u32,
    limits: Limits,
) -> Result<Option<Net>, AllocError>
    ensures { IfOk result (λ found. IfSome found (IsBuilt wish inputs outputs)) }
{
    let mut nets = candidates(alloc, wish, inputs, outputs)?;
    for _ in 0..nets.len() {
        let Some(net) = take_least(&mut nets) else {
            return Ok(None);
        };
        if is_built(alloc, &net, wish, inputs, outputs, limits)? {
            return Ok(Some(lessened(alloc, net, wish, inputs, outputs, limits)?));
        }
    }
    Ok(None)
}

/// The network without splitters in whose place two belts do, where some are found and what is left is decided to be as
/// it was built.
fn lessened(
    alloc: Global,
    net: Net,
    wish: Wish,
    inputs: u32,
    outputs: u32,
    limits: Limits,
) -> Result<Net, AllocError>
    requires built { IsBuilt wish inputs outputs net }
    ensures { IfOk result (IsBuilt wish inputs outputs) }
{
    if !has_needless(wish, inputs, outputs) {
        return Ok(net);
    }
    let fewer = likely(alloc, &net, wish)?;
    fewest(alloc, net, fewer, wish, inputs, outputs, limits)
}

/// The network without the splitters of which simulations show no need, each tried once, from the last on. None where
/// all are needed.
fn likely(alloc: Global, net: &Net, wish: Wish) -> Result<Option<Net>, AllocError> {
    let mut least: Option<Net> = None;
    for splitter in (0..net.splitters()).rev() {
        let fewer = match &least {
            Some(least) => without(alloc, least, splitter, wish)?,
            None => without(alloc, net, splitter, wish)?,
        };
        if fewer.is_some() {
            least = fewer;
        }
    }
    Ok(least)
}

/// The network with two belts in place of a splitter. None where there is no such, or simulations show that a wished
/// property is lost.
fn without(alloc: Global, net: &Net, splitter: u32, wish: Wish) -> Result<Option<Net>, AllocError> {
    for belts in [Belts::Straight, Belts::Crossed] {
        if let Some(fewer) = dropped(alloc, net, splitter, belts)? {
            if !is_shown_broken(alloc, &fewer, wish)? {
                return Ok(Some(fewer));
            }
        }
    }
    Ok(None)
}

/// Whether simulations show a state that breaks a wished property of those that may be lost.
fn is_shown_broken(alloc: Global, net: &Net, wish: Wish) -> Result<bool, AllocError> {
    for property in [Property::Balanced, Property::DrawnEvenly, Property::Full] {
        if wish.includes(property) && simplest(alloc, net, property)?.is_some() {
            return Ok(true);
        }
    }
    Ok(false)
}

/// Whether splitters are likely to be needless in what is built for a wish: in two networks in a row, which bring lines
/// to another number evenly at both ends. Those of the table have none.
fn has_needless(wish: Wish, inputs: u32, outputs: u32) -> bool {
    let most = inputs.max(outputs);
    let is_in_row = wish.balanced && wish.drawn_evenly && !wish.unlimited && inputs != outputs;
    is_in_row && most > MOST_TABLED && most <= MOST_LEFT_OUT
}

/// The network of fewer splitters, where there is one and it is decided to be as it was built, or else the other.
fn fewest(
    alloc: Global,
    net: Net,
    fewer: Option<Net>,
    wish: Wish,
    inputs: u32,
    outputs: u32,
    limits: Limits,
) -> Result<Net, AllocError>
    requires built { IsBuilt wish inputs outputs net }
    ensures { IfOk result (IsBuilt wish inputs outputs) }
{
    if let Some(fewer) = fewer {
        if is_built(alloc, &fewer, wish, inputs, outputs, limits)? {
            return Ok(fewer);
        }
    }
    Ok(net)
}

/// Takes the first network of those with fewest splitters out of the list. None where the list is empty.
fn take_least(nets: &mut Vec<Net>) -> Option<Net> {
    let mut least = 0;
    let mut splitters = u32::MAX;
    for (place, net) in nets.iter().enumerate() {
        if net.splitters() < splitters {
            least = place;
            splitters = net.splitters();
        }
    }
    if least < nets.len() {
        Some(nets.remove(least))
    } else {
        None
    }
}

/// Whether a network has so many inputs and outputs, edges of the cap 1 alone, and each wished property as far as is
/// decided within the limits.
fn is_built(
    alloc: Global,
    net: &Net,
    wish: Wish,
    inputs: u32,
    outputs: u32,
    limits: Limits,
) -> Result<bool, AllocError>
    ensures { IfOk result (λ is. IsTrue is → IsBuilt wish inputs outputs net.now) }
{
    if net.inputs() != inputs || net.outputs() != outputs || !has_slow_edges(net.edges()) {
        return Ok(false);
    }
    grants(alloc, net, wish, limits)
}

/// Whether every edge has the cap 1.
fn has_slow_edges(edges: &[Edge]) -> bool
    ensures { IsTrue result ↔ All (λ e. e.cap ≡ 1) edges.now }
{
    edges.iter().all(|edge| edge.cap == 1)
}
