//! The request at the front of an input: a design, whose network text may also name pins, sides, rows and blocks,
//! with the rectangle and the tier of the command.
ghost use Rattle.std.specs.Prelude.{◌≡◌, ◌≤◌, IfOk, length};
ghost use Rattle.bt_text.specs.Answers.{UnlessMemory, seen};
ghost use Rattle.bt_model.specs.Requests.{IsGrid};
ghost use Rattle.bt_designs.specs.Found.{pinned_and_used, pinned_of};
ghost use Rattle.bt_designs.specs.Alone.{IsAlone};
ghost use Rattle.bt_designs.specs.Requested.{IsPinned, IsPinnedJson, IsPinnedText};
ghost use Rattle.bt_designs.specs.Requested.{IsLoneRequest, IsRequestFor, IsSidedRequest, tier_for};

use crate::alone::refused_behind;
use crate::design::{Laid, is_json};
use crate::drawing::{Drawing, read_drawing};
use crate::fault::DesignFault;
use bt_model::Request;
use bt_net::{Admitted, Block, Demand, Net};
use bt_parts::{Rect, Tier};
use std::alloc::Global;

/// A design's network with its pins, sides and rows, its blocks and its tier, and how many bytes the design has.
#[derive(Drop)]
pub struct PinnedDesign {
    pub net: Net,
    pub demands: Vec<Demand>,
    pub blocks: Vec<Block>,
    /// The tier of its own parts, where it is laid out and they have one.
    pub tier: Option<Tier>,
    pub used: usize,
}

/// The request that the bytes are, with blanks behind it, in the rectangle, of parts of the tier, or of the design's
/// own where none is asked for.
pub fn read_lone_request(
    alloc: Global,
    rect: Rect,
    tier: Option<Tier>,
    bytes: &[u8],
) -> Result<Request, DesignFault>
    requires { IsGrid rect }
    ensures { UnlessMemory DesignFault.Memory (IsLoneRequest rect tier bytes.now) result }
{
    match read_lone_pinned(alloc, bytes) {
        Ok(design) => request_for(rect, tier, design),
        Err(fault) => Err(fault),
    }
}

/// The request for a design in the rectangle, of parts of the tier: where none is asked for, of the design's own, or else
/// of the basic one.
pub fn request_for(
    rect: Rect,
    tier: Option<Tier>,
    design: PinnedDesign,
) -> Result<Request, DesignFault>
    requires { IsGrid rect }
    ensures { UnlessMemory DesignFault.Memory (IsRequestFor rect tier (pinned_of design)) result }
{
    let PinnedDesign {
        net,
        demands,
        blocks,
        tier: own,
        ..
    } = design;
    match Request::new(net, rect, tier_for(tier, own), demands, blocks) {
        Ok(request) => Ok(request),
        Err(fault) => Err(fault.into()),
    }
}

/// The tier of a request: the one that is asked for, or else the design's own, or else the basic one.
pub fn tier_for(asked: Option<Tier>, own: Option<Tier>) -> Tier
    ensures { result ≡ tier_for asked own }
{
    asked.unwrap_or(own.unwrap_or(Tier::Basic))
}

/// The design that the bytes are, with its pins, sides and rows and its blocks, and blanks behind it.
fn read_lone_pinned(alloc: Global, bytes: &[u8]) -> Result<PinnedDesign, DesignFault>
    ensures { UnlessMemory DesignFault.Memory (IsAlone IsPinned bytes.now) (seen pinned_of result) }
{
    match read_pinned(alloc, bytes) {
        Ok(design) => match refused_behind(bytes, design.used) {
            None => Ok(design),
            Some(refusal) => Err(DesignFault::Refused(refusal)),
        },
        Err(fault) => Err(fault),
    }
}

/// The design at the front of the bytes, with its pins, sides and rows and its blocks.
pub fn read_pinned(alloc: Global, bytes: &[u8]) -> Result<PinnedDesign, DesignFault>
    ensures design { UnlessMemory DesignFault.Memory (IsPinned bytes.now) (seen pinned_and_used result) }
    ensures within { IfOk result (λ design. design.used ≤ length bytes.now) }
{
    if is_json(bytes) {
        read_pinned_json(alloc, bytes)
    } else {
        read_pinned_text(alloc, Admitted::All, bytes)
    }
}

/// The request for the network whose text the bytes are, with its sides and rows, and blanks behind it.
pub fn read_sided_request(
    alloc: Global,
    rect: Rect,
    tier: Option<Tier>,
    bytes: &[u8],
) -> Result<Request, DesignFault>
    requires { IsGrid rect }
    ensures { UnlessMemory DesignFault.Memory (IsSidedRequest rect tier bytes.now) result }
{
    match read_lone_sided(alloc, bytes) {
        Ok(design) => request_for(rect, tier, design),
        Err(fault) => Err(fault),
    }
}

/// The design whose network text the bytes are, behind whose edges priorities, sides and rows alone may stand, and
/// blanks behind it.
fn read_lone_sided(alloc: Global, bytes: &[u8]) -> Result<PinnedDesign, DesignFault>
    ensures { UnlessMemory DesignFault.Memory (IsAlone (IsPinnedText Admitted.Sides) bytes.now)
        (seen pinned_of result) }
{
    match read_pinned_text(alloc, Admitted::Sides, bytes) {
        Ok(design) => match refused_behind(bytes, design.used) {
            None => Ok(design),
            Some(refusal) => Err(DesignFault::Refused(refusal)),
        },
        Err(fault) => Err(fault),
    }
}

/// The design whose network text stands at the front of the bytes; `admitted` says what may stand behind its edges.
fn read_pinned_text(
    alloc: Global,
    admitted: Admitted,
    bytes: &[u8],
) -> Result<PinnedDesign, DesignFault>
    ensures design { UnlessMemory DesignFault.Memory (IsPinnedText admitted bytes.now)
        (seen pinned_and_used result) }
    ensures within { IfOk result (λ design. design.used ≤ length bytes.now) }
{
    match bt_net::read(alloc, admitted, bytes) {
        Ok(read) => Ok(PinnedDesign {
            net: read.net,
            demands: read.demands,
            blocks: read.blocks,
            tier: None,
            used: read.used,
        }),
        Err(fault) => Err(fault.into()),
    }
}

/// The design whose JSON text stands at the front of the bytes, which names no pins, sides, rows and blocks.
fn read_pinned_json(alloc: Global, bytes: &[u8]) -> Result<PinnedDesign, DesignFault>
    ensures design { UnlessMemory DesignFault.Memory (IsPinnedJson bytes.now) (seen pinned_and_used result) }
    ensures within { IfOk result (λ design. design.used ≤ length bytes.now) }
{
    match read_drawing(alloc, bytes) {
        Ok((drawing, used)) => {
            let Drawing { laid, .. } = drawing;
            let Laid { net, tier } = laid;
            let demands = Vec::new(alloc);
            let blocks = Vec::new(alloc);
            Ok(PinnedDesign {
                net,
                demands,
                blocks,
                tier,
                used,
            })
        }
        Err(fault) => Err(fault),
    }
}
