//! Requests for a blueprint, with its ends anywhere or at the sides at which they stand in it, beside its own parts.
ghost use Rattle.std.specs.Prelude.{◌≡◌, IfOk};
ghost use Rattle.bt_text.specs.Answers.{UnlessMemory, seen};
ghost use Rattle.bt_model.specs.Requests.{IsGrid};
ghost use Rattle.bt_designs.specs.Found.{blueprint_request_of};
ghost use Rattle.bt_designs.specs.Kept.{AreDrawn, IsBlueprintRequest, IsKeptFor, IsKeptRequest};
ghost use Rattle.bt_designs.specs.Requested.{IsRequestFor, pinned_laid};

use crate::design::Laid;
use crate::drawing::{Drawing, read_lone_drawing};
use crate::fault::DesignFault;
use crate::request::tier_for;
use bt_model::Request;
use bt_net::Demand;
use bt_parts::{Rect, Tier};
use bt_recover::{Grid, end_sides};
use std::alloc::Global;

/// The request for a blueprint, and the blueprint's own parts on their cells.
#[derive(Drop)]
pub struct BlueprintRequest {
    pub request: Request,
    pub grid: Grid,
}

/// The request for the blueprint that the bytes are, with blanks behind it, and its parts. The bytes are read once.
pub fn read_blueprint_request(
    alloc: Global,
    rect: Rect,
    tier: Option<Tier>,
    bytes: &[u8],
) -> Result<BlueprintRequest, DesignFault>
    requires { IsGrid rect }
    ensures request { UnlessMemory DesignFault.Memory (IsBlueprintRequest rect tier bytes.now)
        (seen blueprint_request_of result) }
    ensures drawn { IfOk result (λ found. AreDrawn bytes.now found.grid) }
{
    match read_lone_drawing(alloc, bytes) {
        Ok(drawing) => blueprint_request(alloc, rect, tier, drawing, Vec::new(alloc)),
        Err(fault) => Err(fault),
    }
}

/// The request for the blueprint that the bytes are, with its ends at their own sides, and blanks behind it, and its
/// parts. The bytes are read once.
pub fn read_kept_request(
    alloc: Global,
    rect: Rect,
    tier: Option<Tier>,
    bytes: &[u8],
) -> Result<BlueprintRequest, DesignFault>
    requires { IsGrid rect }
    ensures request { UnlessMemory DesignFault.Memory (IsKeptRequest rect tier bytes.now)
        (seen blueprint_request_of result) }
    ensures drawn { IfOk result (λ found. AreDrawn bytes.now found.grid) }
{
    match read_lone_drawing(alloc, bytes) {
        Ok(drawing) => kept_request(alloc, rect, tier, drawing),
        Err(fault) => Err(fault),
    }
}

/// The request for a blueprint with its ends at their own sides.
fn kept_request(
    alloc: Global,
    rect: Rect,
    tier: Option<Tier>,
    drawing: Drawing,
) -> Result<BlueprintRequest, DesignFault>
    requires { IsGrid rect }
    ensures request { UnlessMemory DesignFault.Memory (IsKeptFor rect tier drawing.grid drawing.laid)
        (seen blueprint_request_of result) }
    ensures grid { IfOk result (λ found. found.grid ≡ drawing.grid) }
{
    match end_sides(alloc, &drawing.grid) {
        Ok(stays) => blueprint_request(alloc, rect, tier, drawing, stays),
        Err(fault) => Err(fault.into()),
    }
}

/// The request for a blueprint with these demands, in the rectangle, of parts of the tier: where none is asked for, of
/// its own, or else of the basic one.
fn blueprint_request(
    alloc: Global,
    rect: Rect,
    tier: Option<Tier>,
    drawing: Drawing,
    demands: Vec<Demand>,
) -> Result<BlueprintRequest, DesignFault>
    requires { IsGrid rect }
    ensures request { UnlessMemory DesignFault.Memory
        (IsRequestFor rect tier (record (pinned_laid drawing.laid) { demands = demands.items }))
        (seen blueprint_request_of result) }
    ensures grid { IfOk result (λ found. found.grid ≡ drawing.grid) }
{
    let Drawing { laid, grid } = drawing;
    let Laid { net, tier: own } = laid;
    match Request::new(net, rect, tier_for(tier, own), demands, Vec::new(alloc)) {
        Ok(request) => Ok(BlueprintRequest { request, grid }),
        Err(fault) => Err(fault.into()),
    }
}
