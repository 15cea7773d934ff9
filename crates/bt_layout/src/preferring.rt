//! What the splitters of a layout are to prefer. Names tell which part is which splitter, input and output of the
//! network.
ghost use Rattle.std.specs.Prelude.{◌≡◌, IfOk, IfSome, None, false};
ghost use Rattle.bt_net.specs.Network.{give_of, take_of};
ghost use Rattle.bt_model.specs.Laying.{Lays, LaysPreferring};
ghost use Rattle.bt_model.specs.Requests.{IsRequest};
ghost use Rattle.bt_layout_check.specs.Laid.{LaysBy, naming_of};
ghost use Rattle.bt_entities.specs.ReadBack.{SplittersPrefer};
ghost use Rattle.bt_grids.specs.Asked.{NamesNoCells, request_on};
ghost use Rattle.bt_layout.specs.inner.Bare.{PrefersNothing};

use bt_grids::request_on;
use bt_layout_check::{Names, any_names, lays, priorities_by};
use bt_model::Request;
use bt_net::Net;
use bt_parts::{Part, Priority, Rect};
use hint_layouts::name_parts;
use std::alloc::{AllocError, Global};

/// The priorities by which parts that lay a request lay it also in what its network's splitters prefer: one for each
/// part, in their order, or none where no splitter prefers anything. There always are some.
///
/// # Errors
///
/// Only want of memory.
pub fn priorities_of(
    alloc: Global,
    request: &Request,
    parts: &[Part],
) -> Result<Vec<Priority>, AllocError>
    requires { Lays parts.now request.now }
    ensures lays { IfOk result (λ priorities. LaysPreferring parts.now priorities.items request.now) }
    ensures splitters { IfOk result (λ priorities. SplittersPrefer parts.now priorities.items) }
{
    if !prefers_any(request.net()) {
        return Ok(Vec::new(alloc));
    }
    let names = names_of(alloc, request, parts)?;
    priorities_by(alloc, parts, &names, request)
}

/// The priorities by which parts that lay a request on this grid, in place of its own rectangle, lay it also in what
/// its network's splitters prefer: one for each part, in their order, or none where no splitter prefers anything.
///
/// # Errors
///
/// Only want of memory.
pub fn priorities_on(
    alloc: Global,
    request: &Request,
    grid: Rect,
    parts: &[Part],
) -> Result<Vec<Priority>, AllocError>
    requires request { IsRequest (request_on request.now grid) }
    requires cells { NamesNoCells request.now }
    requires lays { Lays parts.now (request_on request.now grid) }
    ensures lays { IfOk result (λ priorities.
        LaysPreferring parts.now priorities.items (request_on request.now grid)) }
    ensures splitters { IfOk result (λ priorities. SplittersPrefer parts.now priorities.items) }
{
    let again = request_on(alloc, request, grid)?;
    priorities_of(alloc, &again, parts)
}

/// The names that a hint proposes, where parts lay the request by them; else None.
fn proposed(alloc: Global, request: &Request, parts: &[Part]) -> Result<Option<Names>, AllocError>
    ensures { IfOk result (λ found. IfSome found (λ names. LaysBy parts.now (naming_of names) request.now)) }
{
    let Some(names) = name_parts(alloc, request, parts)? else {
        return Ok(None);
    };
    if lays(alloc, parts, &names, request)? {
        Ok(Some(names))
    } else {
        Ok(None)
    }
}

/// Names by which parts that lay a request lay it: those that a hint proposes, where they hold, or else the first of
/// all that do. No layout is known of which the hint proposes none.
fn names_of(alloc: Global, request: &Request, parts: &[Part]) -> Result<Names, AllocError>
    requires { Lays parts.now request.now }
    ensures { IfOk result (λ names. LaysBy parts.now (naming_of names) request.now) }
{
    if let Some(names) = proposed(alloc, request, parts)? {
        return Ok(names);
    }
    match any_names(alloc, parts, request)? {
        Some(names) => Ok(names),
        None => unreachable!(),
    }
}

/// Whether a splitter of a network prefers an edge.
fn prefers(net: &Net, splitter: usize) -> bool
    ensures give { result ≡ false → give_of net.now splitter ≡ None }
    ensures take { result ≡ false → take_of net.now splitter ≡ None }
{
    net.give(splitter).is_some() || net.take(splitter).is_some()
}

/// Whether some splitter of a network prefers an edge.
fn prefers_any(net: &Net) -> bool
    ensures { result ≡ false → PrefersNothing net.now }
{
    for splitter in 0..net.splitters() {
        if prefers(net, splitter as usize) {
            return true;
        }
    }
    false
}
