//! Whether a layout shows a network under given names.
ghost use Rattle.std.specs.Prelude.{◌≡◌, ◌↔◌, IfOk, IsPermutation, IsTrue, length};
ghost use Rattle.bt_layout_check.specs.Laid.{naming_of};
ghost use Rattle.bt_layout_check.specs.inner.Tests.{AreJoinedAs, AreNamedAs};

use crate::joins::{are_rearranged, joins_of};
use crate::names::Names;
use bt_net::Net;
use std::alloc::{AllocError, Global};

/// Whether the two lists are the same.
fn are_same(one: &[usize], other: &[usize]) -> bool
    ensures { IsTrue result ↔ (one.now ≡ other.now) }
{
    one == other
}

/// Whether the two lists have the same indices, each as often, in any order.
fn has_each(alloc: Global, one: &[usize], other: &[usize]) -> Result<bool, AllocError>
    ensures { IfOk result (λ same. IsTrue same ↔ IsPermutation one.now other.now) }
{
    let mut first = Vec::from_slice(alloc, one)?;
    let mut second = Vec::from_slice(alloc, other)?;
    first.sort()?;
    second.sort()?;
    Ok(are_same(&first, &second))
}

/// Whether names are as many of each kind as the network has.
fn has_counts(names: &Names, net: &Net) -> bool
    ensures { IsTrue result ↔ ((net.now.splitters ≡ length (naming_of names.now).splitters)
        × (net.now.inputs ≡ length (naming_of names.now).inputs)
        × (net.now.outputs ≡ length (naming_of names.now).outputs)) }
{
    net.splitters() as usize == names.splitters.len()
        && net.inputs() as usize == names.inputs.len()
        && net.outputs() as usize == names.outputs.len()
}

/// Whether the names have the same splitters, inputs and outputs as those that were recovered, and as many of each as
/// the network has.
pub(crate) fn are_named(
    alloc: Global,
    own: &Names,
    names: &Names,
    net: &Net,
) -> Result<bool, AllocError>
    ensures { IfOk result (λ named. IsTrue named
        ↔ AreNamedAs (naming_of own.now) (naming_of names.now) net.now) }
{
    Ok(
        has_counts(names, net)
            && has_each(alloc, &own.splitters, &names.splitters)?
            && has_each(alloc, &own.inputs, &names.inputs)?
            && has_each(alloc, &own.outputs, &names.outputs)?,
    )
}

/// Whether the edges of the recovered network by its own names, and those of the given one by the given names, join the
/// same parts.
pub(crate) fn are_joined(
    alloc: Global,
    own: &Names,
    recovered: &Net,
    names: &Names,
    net: &Net,
) -> Result<bool, AllocError>
    ensures { IfOk result (λ joined. IsTrue joined
        ↔ AreJoinedAs (naming_of own.now) recovered.now (naming_of names.now) net.now) }
{
    let first = joins_of(alloc, own, recovered.edges())?;
    let second = joins_of(alloc, names, net.edges())?;
    are_rearranged(first, second)
}
