//! Layouts that hints propose and the test takes, without a formula.
ghost use Rattle.std.specs.Prelude.{◌↔◌, ◌≤◌, AllPairs, IfOk, IfSome, IsTrue, length};
ghost use Rattle.bt_entities.specs.declared.blueprint.TheConstants.{MOST_ENTITIES};
ghost use Rattle.bt_place.specs.Solutions.{ComesAbove};
ghost use Rattle.bt_layout.specs.inner.Likely.{IsLaidOut};

use bt_entities::MOST_ENTITIES;
use bt_layout_check::{Names, lays};
use bt_model::Request;
use bt_parts::{Cell, Part};
use hint_layouts::Proposal;
use std::alloc::{AllocError, Global};

/// Whether the one part comes before the other: by y and then by x of their cells.
fn comes_above(one: &Part, other: &Part) -> bool
    ensures { IsTrue result ↔ ComesAbove one.now other.now }
{
    let (first, second): (Cell, Cell) = (one.cell, other.cell);
    first.y < second.y || first.y == second.y && first.x < second.x
}

/// Whether the parts come in ascending order of y and then x of their cells.
fn are_in_order(parts: &[Part]) -> bool
    ensures { IsTrue result → AllPairs ComesAbove parts.now }
{
    for k in 1..parts.len() {
        if !comes_above(&parts[k - 1], &parts[k]) {
            return false;
        }
    }
    true
}

/// Whether the parts are no more than a blueprint may have, and come in order.
fn are_few_in_order(parts: &[Part]) -> bool
    ensures few { IsTrue result → length parts.now ≤ MOST_ENTITIES }
    ensures in_order { IsTrue result → AllPairs ComesAbove parts.now }
{
    parts.len() <= MOST_ENTITIES && are_in_order(parts)
}

/// Whether parts lay the request by these names, come in order, and are no more than a blueprint may have.
fn are_right(
    alloc: Global,
    request: &Request,
    parts: &[Part],
    names: &Names,
) -> Result<bool, AllocError>
    ensures { IfOk result (λ right. IsTrue right
        → IsLaidOut request.now parts.now × (length parts.now ≤ MOST_ENTITIES)) }
{
    if !are_few_in_order(parts) {
        return Ok(false);
    }
    lays(alloc, parts, names, request)
}

/// The parts that are proposed, where they lay the request, come in order, and are no more than a blueprint may have;
/// else None.
fn taken(
    alloc: Global,
    request: &Request,
    proposal: Proposal,
) -> Result<Option<Vec<Part>>, AllocError>
    ensures { IfOk result (λ found. IfSome found (λ parts.
        IsLaidOut request.now parts.items × (length parts.items ≤ MOST_ENTITIES))) }
{
    let Proposal { parts, names } = proposal;
    if are_right(alloc, request, &parts, &names)? {
        Ok(Some(parts))
    } else {
        Ok(None)
    }
}

/// The parts that are proposed, where they lay the request, come in ascending order of y and then x, and are no more
/// than a blueprint may have; else None. It needs no formula.
pub fn laid_by(
    alloc: Global,
    request: &Request,
    proposal: Option<Proposal>,
) -> Result<Option<Vec<Part>>, AllocError>
    ensures { IfOk result (λ found. IfSome found (λ parts.
        IsLaidOut request.now parts.items × (length parts.items ≤ MOST_ENTITIES))) }
{
    match proposal {
        Some(proposal) => taken(alloc, request, proposal),
        None => Ok(None),
    }
}
