//! Which requests have a formula.
ghost use Rattle.std.specs.Prelude.{◌↔◌, IfOk, IsTrue};
ghost use Rattle.bt_place.specs.PlaceFormula.{HasFormula, IsEncodable};

use crate::grid::spots;
use bt_demands::has_room;
use bt_facts::cells_of;
use bt_model::{MOST_CELLS, MOST_ENCODED, Request};
use std::alloc::{AllocError, Global};

/// Whether a request is no larger than those of which a formula with all rules is written.
fn is_encodable(request: &Request) -> bool
    ensures { IsTrue result ↔ IsEncodable request.now }
{
    let net = request.net();
    spots(request.rect()) <= MOST_CELLS as usize
        && net.edges().len() <= MOST_ENCODED
        && net.splitters() as usize <= MOST_ENCODED
}

/// Whether a request has a formula: it is no larger than those of which one with all rules is written, or its
/// rectangle has no room for halves and ends, upon which the formula is the empty clause. Formulas of others would be
/// too large to be of use, so nobody writes them. The only error is want of memory.
pub fn has_formula(alloc: Global, request: &Request) -> Result<bool, AllocError>
    ensures { IfOk result (λ has. IsTrue has ↔ HasFormula request.now) }
{
    if is_encodable(request) {
        return Ok(true);
    }
    let cells = cells_of(alloc, request.rect())?;
    Ok(!has_room(alloc, request, &cells)?)
}
