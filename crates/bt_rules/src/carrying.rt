//! Rules of how classes go on from one cell to the next. What stands on a cell carries a class where it lies on the
//! chain of an edge of that class, and a half carries the class of the edges that leave its splitter.
ghost use Rattle.std.specs.Prelude.{◌≡◌, ◌++◌, ◌∷◌, [], map, flat_map, OnOk};
ghost use Rattle.std.specs.List.{AllByRecursion};
ghost use Rattle.bt_rules.specs.Carrying as carrying;
ghost use Rattle.bt_demands.specs.Plans.{IsWay, IsGate, IsPlan};
ghost use Rattle.bt_facts.specs.Near.{IsNear};
ghost use Rattle.bt_rules.specs.inner.Parts as parts;

use bt_demands::{Gate, Plan, Way};
use bt_facts::{Class, Draft, Fact, Shape, ahead, carries, carries_split, holds, is_inside};
use bt_model::Request;
use bt_parts::{Cell, DIRS, Dir};
use std::alloc::{AllocError, Global};

/// Adds how a class goes on where the cell hands to the next one in this direction. A part that is no half has the
/// class that it is handed, since a chain is of one edge from end to end; a half is of a splitter into which an edge of
/// the class goes, since else the chain would stand for no edge of the network.
fn add_carried(
    alloc: Global,
    draft: &mut Draft,
    request: &Request,
    cell: Cell,
    dir: Dir,
    way: &Way,
) -> Result<(), AllocError>
    requires near { IsNear cell }
    requires way { IsWay request.now way.now }
    ensures { OnOk result (draft.new ≡ draft.old
        ++ carrying.carried_rules request.now cell dir way.now.class) }
{
    let goes = Fact::Goes(cell, dir);
    let next = ahead(dir, cell);
    let half = Fact::HalfOn(next);
    let here = Fact::Carries(cell, way.class);
    let there = Fact::Carries(next, way.class);
    let goals = carries_split(alloc, next, &way.goals)?;
    draft.add(&[goes, here], &[half, there])?;
    draft.add(&[goes, there], &[half, here])?;
    draft.add(&[goes, half, here], &goals)
}

/// Adds that what is handed to a half of this splitter has a class of which an edge goes into the splitter: the network
/// has no other edges into it.
fn add_taken(
    alloc: Global,
    draft: &mut Draft,
    request: &Request,
    cell: Cell,
    dir: Dir,
    gate: &Gate,
) -> Result<(), AllocError>
    requires near { IsNear cell }
    requires gate { IsGate request.now gate.now }
    ensures { OnOk result (draft.new ≡ draft.old
        ++ carrying.taken_rule request.now cell dir gate.now.splitter ∷ []) }
{
    let next = ahead(dir, cell);
    let class = Class::Split(gate.splitter);
    let given = [
        Fact::Goes(cell, dir),
        Fact::HalfOn(next),
        Fact::Carries(next, class),
    ];
    let sources = carries(alloc, cell, &gate.sources)?;
    draft.add(&given, &sources)
}

/// Adds that a belt or an exit that faces the outside hasn't this class, of which no edge ends at an output: what
/// leaves the rectangle is an output.
fn add_kept_in(draft: &mut Draft, cell: Cell, dir: Dir, class: Class) -> Result<(), AllocError>
    ensures { OnOk result (draft.new ≡ draft.old ++ carrying.kept_in_rules cell dir class) }
{
    let carries = Fact::Carries(cell, class);
    draft.add(&[carries, holds(cell, Shape::Belt, dir)], &[])?;
    draft.add(&[carries, holds(cell, Shape::Exit, dir)], &[])
}

/// Adds how each of these classes goes on where the cell hands to the next one in this direction.
fn add_all_carried(
    alloc: Global,
    draft: &mut Draft,
    request: &Request,
    cell: Cell,
    dir: Dir,
    ways: &[Way],
) -> Result<(), AllocError>
    requires near { IsNear cell }
    requires ways { AllByRecursion (IsWay request.now) ways.now }
    ensures { OnOk result (draft.new ≡ draft.old
        ++ flat_map (λ w. carrying.carried_rules request.now cell dir w.class) ways.now) }
{
    for way in ways {
        add_carried(alloc, draft, request, cell, dir, way)?;
    }
    Ok(())
}

/// Adds of each of these splitters that what is handed to a half of it has a class of which an edge goes into it.
fn add_all_taken(
    alloc: Global,
    draft: &mut Draft,
    request: &Request,
    cell: Cell,
    dir: Dir,
    gates: &[Gate],
) -> Result<(), AllocError>
    requires near { IsNear cell }
    requires gates { AllByRecursion (IsGate request.now) gates.now }
    ensures { OnOk result (draft.new ≡ draft.old
        ++ map (λ g. carrying.taken_rule request.now cell dir g.splitter) gates.now) }
{
    for gate in gates {
        add_taken(alloc, draft, request, cell, dir, gate)?;
    }
    Ok(())
}

/// Adds that a belt or an exit that faces the outside has none of these classes.
fn add_all_kept_in(
    draft: &mut Draft,
    cell: Cell,
    dir: Dir,
    classes: &[Class],
) -> Result<(), AllocError>
    ensures { OnOk result (draft.new ≡ draft.old ++ flat_map (carrying.kept_in_rules cell dir) classes.now) }
{
    for class in classes {
        add_kept_in(draft, cell, dir, *class)?;
    }
    Ok(())
}

/// Adds how classes go on where the cell hands to the next one in this direction, which is inside the rectangle.
fn add_onward_inside(
    alloc: Global,
    draft: &mut Draft,
    request: &Request,
    plan: &Plan,
    cell: Cell,
    dir: Dir,
) -> Result<(), AllocError>
    requires near { IsNear cell }
    requires plan { IsPlan request.now plan.now }
    ensures { OnOk result (draft.new ≡ draft.old ++ parts.onward_inside_rules request.now cell dir) }
{
    add_all_carried(alloc, draft, request, cell, dir, &plan.ways)?;
    add_all_taken(alloc, draft, request, cell, dir, &plan.gates)?;
    Ok(())
}

/// Adds how classes go on from a cell in a direction: to the next cell, or out of the rectangle, which outputs alone
/// do.
fn add_onward(
    alloc: Global,
    draft: &mut Draft,
    request: &Request,
    plan: &Plan,
    cell: Cell,
    dir: Dir,
) -> Result<(), AllocError>
    requires near { IsNear cell }
    requires plan { IsPlan request.now plan.now }
    ensures { OnOk result (draft.new ≡ draft.old ++ carrying.onward_rules request.now cell dir) }
{
    if is_inside(request.rect(), ahead(dir, cell)) {
        add_onward_inside(alloc, draft, request, plan, cell, dir)
    } else {
        add_all_kept_in(draft, cell, dir, &plan.kept)
    }
}

/// Adds how classes go on from a cell in each direction.
pub fn add_carrying(
    alloc: Global,
    draft: &mut Draft,
    request: &Request,
    plan: &Plan,
    cell: Cell,
) -> Result<(), AllocError>
    requires near { IsNear cell }
    requires plan { IsPlan request.now plan.now }
    ensures { OnOk result (draft.new ≡ draft.old ++ carrying.carrying_rules request.now cell) }
{
    for dir in DIRS {
        add_onward(alloc, draft, request, plan, cell, dir)?;
    }
    Ok(())
}
