//! Whether ends stand where a request wants them.
ghost use Rattle.std.specs.Prelude.{◌≡◌, ◌↔◌, ◌<◌, ℕ, All, IfSome, IsTrue, MatchOption, Some, slice_get};
ghost use Rattle.bt_parts.specs.declared.part.Part.{Part as APart};
ghost use Rattle.bt_parts.specs.Cells.{cell_at};
ghost use Rattle.bt_parts.specs.Layouts.{AreInRange};
ghost use Rattle.bt_net.specs.declared.network.End.{End as AnEnd};
ghost use Rattle.bt_net.specs.Network.{HasEnd, Network};
ghost use Rattle.bt_net.specs.declared.network.EndKind.{EndKind as AKind};
ghost use Rattle.bt_model.specs.Laying as laying;
ghost use Rattle.bt_model.specs.Laying.{IsAtSide, KeepsDemand, KeepsPin, StandsAtSide, end_count};
ghost use Rattle.bt_model.specs.Requests.{HasEnds, IsGrid, IsRequest, Names as AreNames, ends_of};
ghost use Rattle.bt_layout_check.specs.Laid.{naming_of};
ghost use Rattle.bt_layout_check.specs.inner.Naming.{Bears};
ghost use Rattle.bt_layout_check.specs.inner.Rows.{AreEnds, count_of};

use crate::names::Names;
use crate::rows::stand_in_row;
use bt_model::Request;
use bt_net::{Demand, End, Ends, Net, Pin, Side};
use bt_parts::{Cell, Dir, Part, Rect, inside};

/// The part that bears the name of an end; none where the names have no such end, or an index that no part has.
fn bearer(parts: &[Part], names: &Names, end: End) -> Option<Part>
    ensures { MatchOption result ((part : APart) → Bears parts.now (naming_of names.now) end part → ⊥)
        (Bears parts.now (naming_of names.now) end) }
{
    let index = match end {
        End::Input(k) => names.inputs.get(k as usize),
        End::Output(k) => names.outputs.get(k as usize),
    };
    match index {
        Some(i) => parts.get(*i).copied(),
        None => None,
    }
}

/// Whether the cell is so many tiles to the east and to the south of the first one.
fn is_cell(cell: Cell, x: u32, y: u32) -> bool
    ensures { IsTrue result ↔ (cell ≡ cell_at x y) }
{
    cell.x >= 0 && cell.y >= 0 && cell.x.unsigned_abs() == x && cell.y.unsigned_abs() == y
}

/// Whether the two are the same direction.
fn is_same(one: Dir, other: Dir) -> bool
    ensures { IsTrue result ↔ (one ≡ other) }
{
    one == other
}

/// Whether the direction is the wanted one; true where none is wanted.
fn points(wanted: Option<Dir>, dir: Dir) -> bool
    ensures { IsTrue result ↔ IfSome wanted (λ wanted. dir ≡ wanted) }
{
    match wanted {
        Some(wanted) => is_same(dir, wanted),
        None => true,
    }
}

/// Whether the pinned end stands on its cell, turned as the pin says; false where no part bears its name.
fn keeps_pin(parts: &[Part], names: &Names, pin: Pin) -> bool
    ensures { IsTrue result ↔ KeepsPin parts.now (naming_of names.now) pin }
{
    match bearer(parts, names, pin.end) {
        Some(part) => is_cell(part.cell, pin.x, pin.y) && points(pin.dir, part.dir),
        None => false,
    }
}

/// The direction of the part with which an end stands at the side in direction `dir`: outputs leave there, inputs come
/// in.
fn way_across(end: End, dir: Dir) -> Dir
    ensures { result ≡ laying.way_across end dir }
{
    match end {
        End::Input(_) => dir.opposite(),
        End::Output(_) => dir,
    }
}

/// Whether the cell is at the side of the rectangle that lies in the direction.
fn is_at_side(rect: Rect, dir: Dir, cell: Cell) -> bool
    requires { IsGrid rect }
    ensures { IsTrue result ↔ IsAtSide rect dir cell }
{
    inside(&rect, cell) && !inside(&rect, cell.ahead(dir, 1))
}

/// Whether the end stands at the side, turned across it; false where no part bears its name.
fn stands_at_side(parts: &[Part], rect: Rect, names: &Names, dir: Dir, end: End) -> bool
    requires { IsGrid rect }
    ensures { IsTrue result ↔ StandsAtSide parts.now rect (naming_of names.now) dir end }
{
    match bearer(parts, names, end) {
        Some(part) => is_at_side(rect, dir, part.cell) && is_same(part.dir, way_across(end, dir)),
        None => false,
    }
}

/// Whether each input stands at the side.
fn inputs_stand(parts: &[Part], rect: Rect, names: &Names, dir: Dir, inputs: u32) -> bool
    requires { IsGrid rect }
    ensures { IsTrue result ↔ ((k : ℕ) → k < inputs
        → StandsAtSide parts.now rect (naming_of names.now) dir (AnEnd.Input k)) }
{
    for k in 0..inputs {
        if !stands_at_side(parts, rect, names, dir, End::Input(k)) {
            return false;
        }
    }
    true
}

/// Whether each output stands at the side.
fn outputs_stand(parts: &[Part], rect: Rect, names: &Names, dir: Dir, outputs: u32) -> bool
    requires { IsGrid rect }
    ensures { IsTrue result ↔ ((k : ℕ) → k < outputs
        → StandsAtSide parts.now rect (naming_of names.now) dir (AnEnd.Output k)) }
{
    for k in 0..outputs {
        if !stands_at_side(parts, rect, names, dir, End::Output(k)) {
            return false;
        }
    }
    true
}

/// Whether each end that the demand names stands at its side.
fn keeps_side(parts: &[Part], rect: Rect, names: &Names, net: &Net, side: Side) -> bool
    requires grid { IsGrid rect }
    requires ends { HasEnds net.now side.ends }
    ensures { IsTrue result ↔ ((end : AnEnd) → HasEnd net.now end → AreNames side.ends end
        → StandsAtSide parts.now rect (naming_of names.now) side.dir end) }
{
    match side.ends {
        Ends::One(end) => stands_at_side(parts, rect, names, side.dir, end),
        Ends::Inputs => inputs_stand(parts, rect, names, side.dir, net.inputs()),
        Ends::Outputs => outputs_stand(parts, rect, names, side.dir, net.outputs()),
    }
}

/// Whether a pinned end stands on its cell, or each end that the demand names at its side, or all ends of a kind in a
/// row. The ends that were recovered of the parts, `own`, are as many as the network has.
fn keeps_demand(
    parts: &[Part],
    own: &Names,
    request: &Request,
    names: &Names,
    demand: Demand,
) -> bool
    requires named { HasEnds request.now.net (ends_of demand) }
    requires in_range { AreInRange parts.now }
    requires ends { AreEnds parts.now (naming_of own.now) }
    requires counts { (kind : AKind) → end_count request.now.net kind ≡ count_of (naming_of own.now) kind }
    ensures { IsTrue result ↔ KeepsDemand parts.now request.now (naming_of names.now) demand }
{
    match demand {
        Demand::Pin(pin) => keeps_pin(parts, names, pin),
        Demand::Side(side) => keeps_side(parts, request.rect(), names, request.net(), side),
        Demand::Row(row) => stand_in_row(parts, own, row.kind),
    }
}

/// Whether all ends stand where the request wants them. `own` are the names that were recovered, `names` those that are
/// tested.
pub(crate) fn keeps_demands(parts: &[Part], own: &Names, request: &Request, names: &Names) -> bool
    requires request { IsRequest request.now }
    requires in_range { AreInRange parts.now }
    requires ends { AreEnds parts.now (naming_of own.now) }
    requires counts { (kind : AKind) → end_count request.now.net kind ≡ count_of (naming_of own.now) kind }
    ensures { IsTrue result
        ↔ All (KeepsDemand parts.now request.now (naming_of names.now)) request.now.demands }
{
    for demand in request.demands() {
        if !keeps_demand(parts, own, request, names, *demand) {
            return false;
        }
    }
    true
}
