//! `smallest`: the least grid on which parts show a network.
ghost use Rattle.std.specs.Prelude.{◌≤◌, ℕ, IfOk, Option, alloc_error};
ghost use Rattle.bt_text.specs.Answers.{UnlessMemory};
ghost use Rattle.bt_parts.specs.declared.part.Rect.{Rect as ARect};
ghost use Rattle.bt_model.specs.Requests.{IsGrid, IsRequest};
ghost use Rattle.bt_model.specs.declared.request.TheConstants.{MOST_CELLS};
ghost use Rattle.bt_grids.specs.Grids.{area_of};
ghost use Rattle.bt_grids.specs.Asked.{NamesNoCells};
ghost use Rattle.bt_layout.specs.Smallest.{IsSmallest};
ghost use Rattle.bt_words.specs.Commands.{HasFewCells};
ghost use Rattle.bt_print.specs.Replies.{UnlessLarge};
ghost use Rattle.bt_top.specs.Searching.{IsLeastFoundAgain, IsLeastPreferred, IsSearched, IsSearchedFrom};

use bt_designs::{DesignFault, Refusal, read_sided_request};
use bt_layout::{Smallest, priorities_on};
use bt_model::Request;
use bt_parts::{Priority, Rect, Tier};
use bt_place::has_formula;
use bt_print::{Answer, refused};
use std::alloc::{AllocError, Global};

/// The answer of `smallest` to the bytes of its input.
pub fn smallest(
    alloc: Global,
    first: Option<Rect>,
    most: Rect,
    tier: Option<Tier>,
    learnt: u64,
    bytes: &[u8],
) -> Result<Answer, AllocError>
    requires grid { IsGrid most }
    requires few { HasFewCells most }
    ensures { UnlessMemory alloc_error (IsSearchedFrom first most tier learnt bytes.now) result }
{
    match read_sided_request(alloc, most, tier, bytes) {
        Ok(request) => smallest_unless_large(alloc, first, learnt, &request),
        Err(fault) => refused(fault),
    }
}

/// The answer to a request on the greatest grid; a refusal where it has no formula there.
fn smallest_unless_large(
    alloc: Global,
    first: Option<Rect>,
    learnt: u64,
    request: &Request,
) -> Result<Answer, AllocError>
    requires request { IsRequest request.now }
    requires cells { NamesNoCells request.now }
    requires few { area_of request.now.rect ≤ MOST_CELLS }
    ensures { UnlessMemory alloc_error (UnlessLarge (IsSearched first learnt) request.now) result }
{
    let has = has_formula(alloc, request)?;
    if has {
        smallest_of(alloc, first, learnt, request)
    } else {
        refused(DesignFault::Refused(Refusal::TooLarge))
    }
}

/// The answer to a request on the greatest grid, where the search begins with the first, if one is named.
fn smallest_of(
    alloc: Global,
    first: Option<Rect>,
    learnt: u64,
    request: &Request,
) -> Result<Answer, AllocError>
    requires request { IsRequest request.now }
    requires cells { NamesNoCells request.now }
    requires few { area_of request.now.rect ≤ MOST_CELLS }
    ensures { UnlessMemory alloc_error (IsSearched first learnt request.now) result }
{
    let found = bt_layout::smallest(alloc, first, request, learnt)?;
    let priorities = priorities_of_least(alloc, request, &found)?;
    Ok(Answer::Least(first, found, priorities))
}

/// The priorities of the parts that a search for the least grid found.
fn priorities_of_least(
    alloc: Global,
    request: &Request,
    found: &Smallest,
) -> Result<Vec<Priority>, AllocError>
    requires request { IsRequest request.now }
    requires cells { NamesNoCells request.now }
    requires found { (first : Option ARect) × (learnt : ℕ) × IsSmallest first request.now learnt found.now }
    ensures { IfOk result (λ priorities. IsLeastPreferred request.now found.now priorities.items
        × IsLeastFoundAgain found.now priorities.items) }
{
    match found {
        Smallest::Found { grid, parts, .. } => priorities_on(alloc, request, *grid, parts),
        Smallest::Nowhere(_) | Smallest::Spent { .. } => Ok(Vec::new(alloc)),
    }
}
