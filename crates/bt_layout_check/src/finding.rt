//! Names by which parts lay a request, wherever there are any.
//!
//! All that there may be are tried, one after another, so this takes very long where the parts are many: it is for who
//! was proposed none that hold.
ghost use Rattle.std.specs.Prelude.{◌≡◌, ◌≤◌, ◌+◌, ◌++◌, ◌∷◌, [], IfOk, MatchOption, length};
ghost use Rattle.bt_model.specs.Laying.{Lays};
ghost use Rattle.bt_net.specs.Network.{Network};
ghost use Rattle.bt_layout_check.specs.Laid.{LaysBy, naming_of};
ghost use Rattle.bt_layout_check.specs.inner.Finding.{NoneGoesOn, count_in, naming_in};

use crate::names::Names;
use crate::testing::lays;
use bt_model::Request;
use bt_net::Net;
use bt_parts::Part;
use std::alloc::{AllocError, Global};

/// How many names a network wants: of splitters, inputs and outputs.
fn count_of(net: &Net) -> usize
    ensures { result ≡ count_in net.now }
{
    net.splitters() as usize + net.inputs() as usize + net.outputs() as usize
}

/// The names that the parts with these indices bear: the splitters first, behind them the inputs, and then the outputs.
fn names_in(alloc: Global, bearers: &[usize], net: &Net) -> Result<Names, AllocError>
    requires { length bearers.now ≡ count_in net.now }
    ensures { IfOk result (λ names. naming_of names ≡ naming_in net.now bearers.now) }
{
    let (splitters, ends) = bearers.split_at(net.splitters() as usize);
    let (inputs, outputs) = ends.split_at(net.inputs() as usize);
    Ok(Names {
        splitters: Vec::from_slice(alloc, splitters)?,
        inputs: Vec::from_slice(alloc, inputs)?,
        outputs: Vec::from_slice(alloc, outputs)?,
    })
}

/// The list with one part more behind it.
fn with(alloc: Global, bearers: &[usize], part: usize) -> Result<Vec<usize>, AllocError>
    ensures { IfOk result (λ more. more.items ≡ bearers.now ++ part ∷ []) }
{
    let mut more = Vec::from_slice(alloc, bearers)?;
    more.push(part)?;
    Ok(more)
}

/// The names that these parts bear; none where the parts don't lay the request by them.
fn tested(
    alloc: Global,
    parts: &[Part],
    request: &Request,
    bearers: &[usize],
) -> Result<Option<Names>, AllocError>
    requires { length bearers.now ≡ count_in request.now.net }
    ensures { IfOk result (λ found. MatchOption found
        (LaysBy parts.now (naming_in request.now.net bearers.now) request.now → ⊥)
        (λ names. LaysBy parts.now (naming_of names) request.now)) }
{
    let names = names_in(alloc, bearers, request.net())?;
    if lays(alloc, parts, &names, request)? {
        Ok(Some(names))
    } else {
        Ok(None)
    }
}

/// Names that begin with these parts and go on with `left` more, by which the parts lay the request; none where no such
/// names do.
fn gone_on(
    alloc: Global,
    parts: &[Part],
    request: &Request,
    bearers: &[usize],
    left: usize,
) -> Result<Option<Names>, AllocError>
    requires { length bearers.now + left ≡ count_in request.now.net }
    ensures { IfOk result (λ found. MatchOption found
        (NoneGoesOn parts.now request.now bearers.now left)
        (λ names. LaysBy parts.now (naming_of names) request.now)) }
{
    if left == 0 {
        return tested(alloc, parts, request, bearers);
    }
    for part in 0..parts.len() {
        let more = with(alloc, bearers, part)?;
        if let Some(names) = gone_on(alloc, parts, request, &more, left - 1)? {
            return Ok(Some(names));
        }
    }
    Ok(None)
}

/// Names by which the parts lay the request, or none where they lay it by none.
///
/// # Errors
///
/// Only want of memory.
pub fn any_names(
    alloc: Global,
    parts: &[Part],
    request: &Request,
) -> Result<Option<Names>, AllocError>
    ensures { IfOk result (λ found. MatchOption found
        (Lays parts.now request.now → ⊥)
        (λ names. LaysBy parts.now (naming_of names) request.now)) }
{
    gone_on(alloc, parts, request, &[], count_of(request.net()))
}
