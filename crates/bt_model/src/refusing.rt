//! Finding the edge, the pin or side and the block that a request can't have.
//!
//! A pin, a side, a row and a block are looked at beside those before them in the list, and only while their line
//! may still be the least refused one. So where lines ascend, as those of a text do, the time is linear: among
//! pins and sides that are not refused there is at most one of each end, of rows one of each kind, and among such
//! blocks one of each cell.
ghost use Rattle.std.specs.Prelude.{◌≡◌, ◌↔◌, ℕ, ◌<◌, ◌≤◌, length, max, Some, IsTrue};
ghost use Rattle.bt_parts.specs.Cells.{IsInside, cell_at};
ghost use Rattle.bt_net.specs.Network.{HasEnd};
ghost use Rattle.bt_model.specs.Requests.{HasEnds, IsPinnedInside, IsPinnedTo, blocked, line_of as line_is};
ghost use Rattle.bt_model.specs.RequestFaults.{HasOtherCap, IsOutOfPlace, NameOneEnd, IsPinned, IsInTheWay};
ghost use Rattle.bt_model.specs.RequestFaults.{BlockOneCell, IsPinRefused, IsBlockRefused};
ghost use Rattle.bt_model.specs.inner.Least.{IsLeastIfAny, lesser, MayPrecede, IsRefusedHere};

use crate::demanding::{ends_of, line_of, name_one_end};
use bt_net::{Block, Demand, End, Ends, Net};
use bt_parts::Rect;

/// The number of the first edge with another cap than 1, where there is one.
pub(crate) fn other_cap(net: &Net) -> Option<usize>
    ensures { IsLeastIfAny (HasOtherCap net.now) result }
{
    let edges = net.edges();
    for (k, edge) in edges.iter().enumerate() {
        if edge.cap != 1 {
            return Some(k);
        }
    }
    None
}

/// The least line of a pin, a side or a row that is refused.
pub(crate) fn refused_demand(net: &Net, rect: Rect, demands: &[Demand]) -> Option<usize>
    ensures { IsLeastIfAny (IsPinRefused net.now rect demands.now) result }
{
    let mut least = None;
    for k in 0..demands.len() {
        if may_precede(line_of(demands[k]), least) {
            least = earlier(least, line_refused_by_demand(net, rect, demands, k));
        }
    }
    least
}

/// The least line of a block that is refused, beside these pins.
pub(crate) fn refused_block(rect: Rect, demands: &[Demand], blocks: &[Block]) -> Option<usize>
    ensures { IsLeastIfAny (IsBlockRefused rect demands.now blocks.now) result }
{
    let mut least = None;
    for k in 0..blocks.len() {
        if may_precede(blocks[k].line, least) {
            least = earlier(least, line_refused_by_block(rect, demands, blocks, k));
        }
    }
    least
}

/// The least line that is refused where the pin, side or row at this place is looked at: its own where it names an end
/// or a cell that is not there, else, of it and each one before it in the list that names the same end, the later. None
/// where it is not refused.
fn line_refused_by_demand(net: &Net, rect: Rect, demands: &[Demand], k: usize) -> Option<usize>
    requires { k < length demands.now }
    ensures { IsLeastIfAny
        (IsRefusedHere (IsOutOfPlace net.now rect) NameOneEnd line_is demands.now k) result }
{
    let demand = demands[k];
    let line = line_of(demand);
    if is_out_of_place(net, rect, demand) {
        return Some(line);
    }
    let mut least = None;
    for j in 0..k {
        if name_one_end(demands[j], demand) {
            least = earlier(least, Some(later(line_of(demands[j]), line)));
        }
    }
    least
}

/// The least line that is refused where the block at this place is looked at: its own where its cell lies outside or is
/// that of a pin, else, of it and each block before it in the list on the same cell, the later. None where it is not
/// refused.
fn line_refused_by_block(
    rect: Rect,
    demands: &[Demand],
    blocks: &[Block],
    k: usize,
) -> Option<usize>
    requires { k < length blocks.now }
    ensures { IsLeastIfAny
        (IsRefusedHere (IsInTheWay rect demands.now) BlockOneCell (λ block. block.line) blocks.now k) result }
{
    let block = blocks[k];
    if is_in_the_way(rect, demands, block) {
        return Some(block.line);
    }
    let mut least = None;
    for j in 0..k {
        if is_same_cell(blocks[j], block) {
            least = earlier(least, Some(later(blocks[j].line, block.line)));
        }
    }
    least
}

/// Whether the line names an end that the network doesn't have, or a cell outside the rectangle.
fn is_out_of_place(net: &Net, rect: Rect, demand: Demand) -> bool
    ensures { IsTrue result ↔ IsOutOfPlace net.now rect demand }
{
    !has_ends(net, ends_of(demand)) || !is_pinned_inside(rect, demand)
}

/// Whether the cell of a pin lies in the rectangle. Sides and rows name no cell, so of them it holds.
fn is_pinned_inside(rect: Rect, demand: Demand) -> bool
    ensures { IsTrue result ↔ IsPinnedInside rect demand }
{
    match demand {
        Demand::Pin(pin) => is_inside(rect, pin.x, pin.y),
        Demand::Side(_) | Demand::Row(_) => true,
    }
}

/// Whether the network has the ends that are named: all inputs, or all outputs, always are there.
fn has_ends(net: &Net, ends: Ends) -> bool
    ensures { IsTrue result ↔ HasEnds net.now ends }
{
    match ends {
        Ends::One(end) => has_end(net, end),
        Ends::Inputs | Ends::Outputs => true,
    }
}

/// Whether the network has this end.
fn has_end(net: &Net, end: End) -> bool
    ensures { IsTrue result ↔ HasEnd net.now end }
{
    match end {
        End::Input(k) => k < net.inputs(),
        End::Output(k) => k < net.outputs(),
    }
}

/// Whether the cell so many tiles to the east and to the south lies in the rectangle.
fn is_inside(rect: Rect, x: u32, y: u32) -> bool
    ensures { IsTrue result ↔ IsInside rect (cell_at x y) }
{
    x < rect.width && y < rect.height
}

/// Whether the block names a cell outside the rectangle, or that of a pin.
fn is_in_the_way(rect: Rect, demands: &[Demand], block: Block) -> bool
    ensures { IsTrue result ↔ IsInTheWay rect demands.now block }
{
    !is_inside(rect, block.x, block.y) || is_pinned(demands, block)
}

/// Whether the block names the cell of a pin.
fn is_pinned(demands: &[Demand], block: Block) -> bool
    ensures { IsTrue result ↔ IsPinned demands.now block }
{
    for demand in demands {
        if is_pinned_to(*demand, block) {
            return true;
        }
    }
    false
}

/// Whether the line names the cell of the block.
fn is_pinned_to(demand: Demand, block: Block) -> bool
    ensures { IsTrue result ↔ IsPinnedTo (blocked block) demand }
{
    match demand {
        Demand::Pin(pin) => pin.x == block.x && pin.y == block.y,
        Demand::Side(_) | Demand::Row(_) => false,
    }
}

/// Whether the two blocks name the same cell.
fn is_same_cell(one: Block, other: Block) -> bool
    ensures { IsTrue result ↔ BlockOneCell one other }
{
    one.x == other.x && one.y == other.y
}

/// Whether the line comes before the least one so far, or there is none.
fn may_precede(line: usize, least: Option<usize>) -> bool
    ensures { IsTrue result ↔ MayPrecede line least }
{
    match least {
        Some(least) => line < least,
        None => true,
    }
}

/// The earlier of two lines; where one is None, the other.
fn earlier(one: Option<usize>, other: Option<usize>) -> Option<usize>
    ensures { result ≡ lesser one other }
{
    match (one, other) {
        (Some(a), Some(b)) => Some(if a < b { a } else { b }),
        (Some(a), None) => Some(a),
        (None, _) => other,
    }
}

/// The later of two lines.
fn later(one: usize, other: usize) -> usize
    ensures { result ≡ max one other }
{
    if one < other { other } else { one }
}
