//! Strategies that propose layouts.
use crate::framed::{MOST_ROUTED, find_framed, routed};
use crate::naming::{Proposal, name_sketch};
use bt_layout_check::lays;
use bt_model::Request;
use hint_placement::{Sketch, find_sketch, wants_rows};
use hint_stages::find_stages;
use std::alloc::{AllocError, Global};

/// Whether a router may be asked.
fn may_route(request: &Request) -> bool {
    routed(request, request.rect()) <= MOST_ROUTED
}

/// Parts with names by a sketch, where there is one.
fn proposal_of(
    alloc: Global,
    request: &Request,
    sketch: Option<Sketch>,
) -> Result<Option<Proposal>, AllocError> {
    match sketch {
        Some(sketch) => name_sketch(alloc, request, &sketch),
        None => Ok(None),
    }
}

/// Whether a proposal lays a request.
fn does_lay(
    alloc: Global,
    request: &Request,
    proposal: &Option<Proposal>,
) -> Result<bool, AllocError> {
    match proposal {
        Some(proposal) => lays(alloc, &proposal.parts, &proposal.names, request),
        None => Ok(false),
    }
}

/// Parts with names that may lay a butterfly or a Benes network, in ascending order of y and then x of their cells,
/// stage by stage, or, where a request wants ends in a row, another network by ranks. None of all others.
pub fn propose_stages(alloc: Global, request: &Request) -> Result<Option<Proposal>, AllocError> {
    let staged = find_stages(alloc, request)?;
    let proposal = proposal_of(alloc, request, staged)?;
    // Outputs that are led back may leave the others apart.
    if !wants_rows(request) || does_lay(alloc, request, &proposal)? {
        return Ok(proposal);
    }
    let ranked = ranked_sketch(alloc, request)?;
    proposal_of(alloc, request, ranked)
}

/// A plan by ranks: in the middle of a large rectangle, or else in all of it.
fn ranked_sketch(alloc: Global, request: &Request) -> Result<Option<Sketch>, AllocError> {
    let framed = find_framed(alloc, request)?;
    if framed.is_some() || !may_route(request) {
        return Ok(framed);
    }
    find_sketch(alloc, request)
}

/// Parts with names that may lay a request, in ascending order of y and then x of their cells, where some are found: by the
/// first strategy that comes to a plan, stage by stage or else by ranks. The budget is how many steps may be taken in all:
/// with none nothing is looked for.
pub fn propose(
    alloc: Global,
    request: &Request,
    budget: u64,
) -> Result<Option<Proposal>, AllocError> {
    if budget == 0 {
        return Ok(None);
    }
    let staged = propose_stages(alloc, request)?;
    if staged.is_some() || wants_rows(request) {
        return Ok(staged);
    }
    let ranked = ranked_sketch(alloc, request)?;
    proposal_of(alloc, request, ranked)
}
