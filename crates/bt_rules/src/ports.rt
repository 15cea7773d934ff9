//! Rules of ports: which edges come into a splitter, and which leave it, by which of its halves.
ghost use Rattle.std.specs.Prelude.{◌≡◌, ◌++◌, ◌∷◌, [], map, flat_map, IfOk, OnOk};
ghost use Rattle.std.specs.List.{All};
ghost use Rattle.bt_parts.specs.Cells.{IsInRange};
ghost use Rattle.bt_demands.specs.Plans.{IsGate};
ghost use Rattle.bt_rules.specs.Ports as ports;
ghost use Rattle.bt_facts.specs.Spots.{cells_of, dirs, half_at as cell_of_half};
ghost use Rattle.bt_facts.specs.Near.{IsNear};
ghost use Rattle.bt_rules.specs.inner.PortParts as parts;
ghost use Rattle.bt_facts.specs.declared.fact.Fact.TheVariants as fact;

use bt_demands::{Gate, same_class};
use bt_facts::{
    Class, Draft, Fact, Half, add_excluded, add_excluded_by, ahead, behind, carries_split,
    goes_into, half_at, is_inside, mate, other_half, push_inside,
};
use bt_model::Request;
use bt_parts::{Cell, DIRS, Dir, Rect};
use std::alloc::{AllocError, Global};

/// The fact that the cell behind this one has the class; no fact where that cell is outside.
fn carries_into(
    alloc: Global,
    rect: Rect,
    cell: Cell,
    dir: Dir,
    class: Class,
) -> Result<Vec<Fact>, AllocError>
    requires { IsNear cell }
    ensures { IfOk result (λ facts. facts.items ≡ ports.carries_into rect cell dir class) }
{
    let mut facts = Vec::new(alloc);
    let before = behind(dir, cell);
    push_inside(&mut facts, rect, before, &[Fact::Carries(before, class)])?;
    Ok(facts)
}

/// A splitter that stands somewhere: that it does, its number, the cell of its lesser half and its direction.
#[derive(Clone, Copy)]
pub struct Stand {
    at: Fact,
    splitter: usize,
    cell: Cell,
    dir: Dir,
}

/// The cell of this half of the splitter.
fn cell_of(stand: Stand, half: Half) -> Cell
    requires { IsInRange stand.cell }
    ensures cell { result ≡ cell_of_half half stand.dir stand.cell }
    ensures near { IsNear result }
{
    half_at(half, stand.dir, stand.cell)
}

/// Adds that nothing comes into the half, since no edge goes into the splitter.
fn add_none_in(
    alloc: Global,
    draft: &mut Draft,
    rect: Rect,
    stand: Stand,
    half: Half,
) -> Result<(), AllocError>
    requires { IsInRange stand.cell }
    ensures { OnOk result (draft.new ≡ draft.old
        ++ ports.in_rules rect stand.splitter stand.at stand.cell stand.dir [] half) }
{
    let cell = cell_of(stand, half);
    let going = goes_into(alloc, rect, cell, stand.dir)?;
    add_excluded(draft, stand.at, &going)?;
    Ok(())
}

/// Adds where `EntersLesser` says that the one edge into the splitter, of this class, comes in by this half: it does,
/// and nothing comes in by the other half, since no other edge goes into the splitter.
fn add_one_in(
    alloc: Global,
    draft: &mut Draft,
    rect: Rect,
    stand: Stand,
    class: Class,
    half: Half,
) -> Result<(), AllocError>
    requires { IsInRange stand.cell }
    ensures { OnOk result (draft.new ≡ draft.old
        ++ ports.in_rules rect stand.splitter stand.at stand.cell stand.dir (class ∷ []) half) }
{
    let by_lesser = Fact::EntersLesser(stand.splitter);
    let cell = cell_of(stand, half);
    let other = cell_of(stand, other_half(half));
    let going = goes_into(alloc, rect, cell, stand.dir)?;
    let carrying = carries_into(alloc, rect, cell, stand.dir, class)?;
    let beside = goes_into(alloc, rect, other, stand.dir)?;
    draft.add_by(half, by_lesser, &[stand.at], &going)?;
    draft.add_by(half, by_lesser, &[stand.at], &carrying)?;
    add_excluded_by(draft, half, by_lesser, stand.at, &beside)?;
    Ok(())
}

/// Adds which class the half takes of the two that come in: where the first edge comes in by this half, the second
/// comes in by the other one.
/// A splitter has two halves, so one truth value says all of it; where both edges in have one class, no fact is needed.
fn add_two_classes(
    alloc: Global,
    draft: &mut Draft,
    rect: Rect,
    stand: Stand,
    half: Half,
    one: Class,
    two: Class,
) -> Result<(), AllocError>
    requires { IsInRange stand.cell }
    ensures { OnOk result (draft.new ≡ draft.old ++ ports.two_in_rules rect stand.splitter stand.at stand.cell
        stand.dir half one two) }
{
    let cell = cell_of(stand, half);
    let first = carries_into(alloc, rect, cell, stand.dir, one)?;
    if same_class(one, two) {
        draft.add(&[stand.at], &first)
    } else {
        let by_lesser = Fact::EntersLesser(stand.splitter);
        let other = cell_of(stand, other_half(half));
        let second = carries_into(alloc, rect, other, stand.dir, two)?;
        draft.add_by(half, by_lesser, &[stand.at], &first)?;
        draft.add_by(half, by_lesser, &[stand.at], &second)
    }
}

/// Adds that something comes into the half, of one of these two classes: two edges go into the splitter, and take a
/// half each.
fn add_two_in(
    alloc: Global,
    draft: &mut Draft,
    rect: Rect,
    stand: Stand,
    half: Half,
    one: Class,
    two: Class,
) -> Result<(), AllocError>
    requires { IsInRange stand.cell }
    ensures { OnOk result (draft.new ≡ draft.old
        ++ parts.two_rules rect stand.splitter stand.at stand.cell stand.dir one two half) }
{
    let cell = cell_of(stand, half);
    let going = goes_into(alloc, rect, cell, stand.dir)?;
    draft.add(&[stand.at], &going)?;
    add_two_classes(alloc, draft, rect, stand, half, one, two)
}

/// Adds what comes into the half, by the classes of the edges into its splitter: nothing, the one edge or one of the
/// two.
fn add_in(
    alloc: Global,
    draft: &mut Draft,
    rect: Rect,
    stand: Stand,
    into: &[Class],
    half: Half,
) -> Result<(), AllocError>
    requires { IsInRange stand.cell }
    ensures { OnOk result (draft.new ≡ draft.old
        ++ ports.in_rules rect stand.splitter stand.at stand.cell stand.dir into.now half) }
{
    match into {
        [] => add_none_in(alloc, draft, rect, stand, half),
        [class] => add_one_in(alloc, draft, rect, stand, *class, half),
        [one, two, ..] => add_two_in(alloc, draft, rect, stand, half, *one, *two),
    }
}

/// The facts of what may be on a cell to which a half of the gate's splitter hands: its class, or that of a splitter
/// into which its edges go, which a half has. None where the cell is outside.
fn in_front(
    alloc: Global,
    request: &Request,
    gate: &Gate,
    cell: Cell,
) -> Result<Vec<Fact>, AllocError>
    requires { IsGate request.now gate.now }
    ensures { IfOk result (λ facts. facts.items ≡ ports.in_front request.now gate.now.splitter cell) }
{
    if is_inside(request.rect(), cell) {
        carries_split(alloc, cell, &gate.onward)
    } else {
        Ok(Vec::new(alloc))
    }
}

/// Adds where `LeavesLesser` says that the one edge leaves the splitter by this half: it does, to one of what may be in
/// `front`, and nothing leaves by the other half, since no other edge leaves the splitter.
fn add_one_out(
    draft: &mut Draft,
    stand: Stand,
    front: &[Fact],
    half: Half,
) -> Result<(), AllocError>
    requires { IsInRange stand.cell }
    ensures { OnOk result (draft.new ≡ draft.old
        ++ parts.one_out_rules stand.splitter stand.at stand.cell stand.dir front.now half) }
{
    let by_lesser = Fact::LeavesLesser(stand.splitter);
    let here = Fact::Goes(cell_of(stand, half), stand.dir);
    let other = cell_of(stand, other_half(half));
    let there = Fact::Goes(other, stand.dir);
    draft.add_by(half, by_lesser, &[stand.at], &[here])?;
    draft.add_by(half, by_lesser, &[stand.at], front)?;
    draft.add_by(half, by_lesser, &[stand.at, there], &[])
}

/// Adds that an edge leaves by the half, to one of what may be in `front`: two edges leave the splitter, by a half
/// each.
fn add_two_out(
    draft: &mut Draft,
    stand: Stand,
    front: &[Fact],
    half: Half,
) -> Result<(), AllocError>
    requires { IsInRange stand.cell }
    ensures { OnOk result (draft.new ≡ draft.old
        ++ parts.two_out_rules stand.at stand.cell stand.dir front.now half) }
{
    let here = Fact::Goes(cell_of(stand, half), stand.dir);
    draft.add(&[stand.at], &[here])?;
    draft.add(&[stand.at], front)
}

/// Adds what leaves by the half: nothing where no edge leaves its splitter, else the one edge, where that leaves by
/// this half, or one of the two.
fn add_out(
    alloc: Global,
    draft: &mut Draft,
    request: &Request,
    gate: &Gate,
    stand: Stand,
    half: Half,
) -> Result<(), AllocError>
    requires range { IsInRange stand.cell }
    requires gate { IsGate request.now gate.now }
    requires splitter { stand.splitter ≡ gate.now.splitter }
    ensures { OnOk result (draft.new ≡ draft.old ++ ports.out_rules request.now stand.splitter stand.at
        stand.cell stand.dir gate.now.leaving.items half) }
{
    let cell = cell_of(stand, half);
    let front = in_front(alloc, request, gate, ahead(stand.dir, cell))?;
    match gate.leaving.as_slice() {
        [] => draft.add(&[stand.at, Fact::Goes(cell, stand.dir)], &[]),
        [_] => add_one_out(draft, stand, &front, half),
        _ => add_two_out(draft, stand, &front, half),
    }
}

/// Adds the rules of both halves of a splitter that stands so.
fn add_halves(
    alloc: Global,
    draft: &mut Draft,
    request: &Request,
    gate: &Gate,
    stand: Stand,
) -> Result<(), AllocError>
    requires range { IsInRange stand.cell }
    requires gate { IsGate request.now gate.now }
    requires splitter { stand.splitter ≡ gate.now.splitter }
    ensures { OnOk result (draft.new ≡ draft.old ++ parts.both_halves request.now stand.splitter stand.at
        stand.cell stand.dir) }
{
    let rect = request.rect();
    add_in(alloc, draft, rect, stand, &gate.into, Half::Lesser)?;
    add_in(alloc, draft, rect, stand, &gate.into, Half::Greater)?;
    add_out(alloc, draft, request, gate, stand, Half::Lesser)?;
    add_out(alloc, draft, request, gate, stand, Half::Greater)
}

/// Adds the rules of the ports of a splitter whose lesser half stands on the cell, so turned; nothing where the greater
/// half would be outside, since other rules say that it doesn't stand there.
fn add_standing_ports(
    alloc: Global,
    draft: &mut Draft,
    request: &Request,
    gate: &Gate,
    cell: Cell,
    dir: Dir,
) -> Result<(), AllocError>
    requires range { IsInRange cell }
    requires gate { IsGate request.now gate.now }
    ensures { OnOk result (draft.new ≡ draft.old
        ++ ports.standing_port_rules request.now gate.now.splitter cell dir) }
{
    let stand = Stand {
        at: Fact::At(gate.splitter, cell, dir),
        splitter: gate.splitter,
        cell,
        dir,
    };
    if is_inside(request.rect(), mate(Half::Lesser, dir, cell)) {
        add_halves(alloc, draft, request, gate, stand)?;
    }
    Ok(())
}

/// Adds the rules of the ports of a splitter whose lesser half stands on the cell, however it is turned.
fn add_ports_on(
    alloc: Global,
    draft: &mut Draft,
    request: &Request,
    gate: &Gate,
    cell: Cell,
) -> Result<(), AllocError>
    requires range { IsInRange cell }
    requires gate { IsGate request.now gate.now }
    ensures { OnOk result (draft.new ≡ draft.old
        ++ flat_map (ports.standing_port_rules request.now gate.now.splitter cell) dirs) }
{
    for dir in DIRS {
        add_standing_ports(alloc, draft, request, gate, cell, dir)?;
    }
    Ok(())
}

/// Adds the rules of the ports of a splitter, wherever it stands.
pub fn add_ports(
    alloc: Global,
    draft: &mut Draft,
    request: &Request,
    gate: &Gate,
    cells: &[Cell],
) -> Result<(), AllocError>
    requires cells { cells.now ≡ cells_of request.now.rect }
    requires range { All IsInRange cells.now }
    requires gate { IsGate request.now gate.now }
    ensures { OnOk result (draft.new ≡ draft.old ++ ports.port_rules request.now gate.now.splitter) }
{
    for cell in cells {
        add_ports_on(alloc, draft, request, gate, *cell)?;
    }
    Ok(())
}
