//! Rules of what a cell holds, and of which class it has: that of the edge on whose chain a part lies, or of the edges
//! that leave the splitter of a half.
ghost use Rattle.std.specs.Prelude.{◌≡◌, ◌++◌, ◌∷◌, [], map, flat_map, IfOk, OnOk};
ghost use Rattle.bt_rules.specs.Contents as contents;
ghost use Rattle.bt_facts.specs.Facts as told;
ghost use Rattle.bt_demands.specs.Plans.{IsPlan};
ghost use Rattle.bt_facts.specs.Spots.{dirs};
ghost use Rattle.bt_facts.specs.Near.{IsNear};
ghost use Rattle.bt_rules.specs.inner.Parts as parts;
ghost use Rattle.bt_facts.specs.declared.fact.Fact.TheVariants as fact;

use bt_demands::Plan;
use bt_facts::{
    Content, Draft, Fact, Half, Shape, add_at_most_one, add_equals_one, add_exactly_one,
    add_excluded, carries, holds, is_inside, mate, other_half, turned,
};
use bt_model::Request;
use bt_parts::{Cell, DIRS, Dir, Rect};
use std::alloc::{AllocError, Global};

/// Adds for each of these shapes and each direction the fact that the cell holds a part of the shape, turned that way.
fn push_turned(facts: &mut Vec<Fact>, cell: Cell, shapes: &[Shape]) -> Result<(), AllocError>
    ensures { OnOk result (facts.new.items ≡ facts.old.items
        ++ flat_map (λ of. map (told.holds cell of) dirs) shapes.now) }
{
    for shape in shapes {
        facts.extend_from_slice(&turned(cell, *shape))?;
    }
    Ok(())
}

/// The facts of what the cell may hold: nothing, or a part of each shape in each direction.
fn kinds(alloc: Global, cell: Cell) -> Result<Vec<Fact>, AllocError>
    ensures { IfOk result (λ facts. facts.items ≡ map (fact.Kind cell) contents.contents) }
{
    let halves = [Shape::Half(Half::Lesser), Shape::Half(Half::Greater)];
    let mut facts = vec![in alloc; Fact::Kind(cell, Content::Empty)]?;
    push_turned(
        &mut facts,
        cell,
        &[Shape::Belt, Shape::Entrance, Shape::Exit],
    )?;
    push_turned(&mut facts, cell, &halves)?;
    Ok(facts)
}

/// Adds that the cell holds exactly one thing, a part or nothing: parts don't overlap.
fn add_contents(alloc: Global, draft: &mut Draft, cell: Cell) -> Result<(), AllocError>
    ensures { OnOk result (draft.new ≡ draft.old ++ contents.content_rules cell) }
{
    let facts = kinds(alloc, cell)?;
    add_exactly_one(draft, &facts)?;
    Ok(())
}

/// Adds that a half stands on the cell exactly where it holds one, turned some way, and a belt likewise. So rules to
/// which the direction is all the same are short.
fn add_shapes(alloc: Global, draft: &mut Draft, cell: Cell) -> Result<(), AllocError>
    ensures { OnOk result (draft.new ≡ draft.old ++ contents.shape_rules cell) }
{
    let halves = [Shape::Half(Half::Lesser), Shape::Half(Half::Greater)];
    let mut facts = Vec::new(alloc);
    push_turned(&mut facts, cell, &halves)?;
    add_equals_one(draft, Fact::HalfOn(cell), &facts)?;
    add_equals_one(draft, Fact::BeltOn(cell), &turned(cell, Shape::Belt))?;
    Ok(())
}

/// Adds that beside a half so turned stands the other one, since a splitter covers both cells; or that no such half
/// stands here, where the other one would be outside.
fn add_mate(
    draft: &mut Draft,
    rect: Rect,
    cell: Cell,
    half: Half,
    dir: Dir,
) -> Result<(), AllocError>
    requires { IsNear cell }
    ensures { OnOk result (draft.new ≡ draft.old ++ contents.mate_rule rect cell half dir ∷ []) }
{
    let given = holds(cell, Shape::Half(half), dir);
    let other = mate(half, dir, cell);
    if is_inside(rect, other) {
        draft.add(
            &[given],
            &[holds(other, Shape::Half(other_half(half)), dir)],
        )
    } else {
        draft.add(&[given], &[])
    }
}

/// Adds that beside this half, however it is turned, stands the other one.
fn add_mates_of(draft: &mut Draft, rect: Rect, cell: Cell, half: Half) -> Result<(), AllocError>
    requires { IsNear cell }
    ensures { OnOk result (draft.new ≡ draft.old ++ map (contents.mate_rule rect cell half) dirs) }
{
    for dir in DIRS {
        add_mate(draft, rect, cell, half, dir)?;
    }
    Ok(())
}

/// Adds that beside either half on the cell, however it is turned, stands the other one.
fn add_mates(draft: &mut Draft, rect: Rect, cell: Cell) -> Result<(), AllocError>
    requires { IsNear cell }
    ensures { OnOk result (draft.new ≡ draft.old ++ contents.mate_rules rect cell) }
{
    add_mates_of(draft, rect, cell, Half::Lesser)?;
    add_mates_of(draft, rect, cell, Half::Greater)
}

/// Adds that a cell that isn't empty has a class, and an empty one none, and no cell more than one: each part lies on
/// the chain of one edge, or is a half of one splitter.
fn add_one_class(
    alloc: Global,
    draft: &mut Draft,
    request: &Request,
    plan: &Plan,
    cell: Cell,
) -> Result<(), AllocError>
    requires { IsPlan request.now plan.now }
    ensures { OnOk result (draft.new ≡ draft.old ++ parts.one_class_rules request.now cell) }
{
    let facts = carries(alloc, cell, &plan.classes)?;
    let mut some = vec![in alloc; Fact::Kind(cell, Content::Empty)]?;
    some.extend_from_slice(&facts)?;
    draft.add(&[], &some)?;
    add_at_most_one(draft, &facts)?;
    add_excluded(draft, Fact::Kind(cell, Content::Empty), &facts)?;
    Ok(())
}

/// Adds that a half has no class of edges from inputs: it has that of the edges that leave its splitter.
fn add_half_class(
    alloc: Global,
    draft: &mut Draft,
    request: &Request,
    plan: &Plan,
    cell: Cell,
) -> Result<(), AllocError>
    requires { IsPlan request.now plan.now }
    ensures { OnOk result (draft.new ≡ draft.old ++ parts.half_class_rules request.now cell) }
{
    let facts = carries(alloc, cell, &plan.inputs)?;
    add_excluded(draft, Fact::HalfOn(cell), &facts)?;
    Ok(())
}

/// Adds the rules of what a cell holds, but for classes.
fn add_things(alloc: Global, draft: &mut Draft, rect: Rect, cell: Cell) -> Result<(), AllocError>
    requires { IsNear cell }
    ensures { OnOk result (draft.new ≡ draft.old ++ (contents.content_rules cell ++ contents.shape_rules cell
        ++ contents.mate_rules rect cell)) }
{
    add_contents(alloc, draft, cell)?;
    add_shapes(alloc, draft, cell)?;
    add_mates(draft, rect, cell)
}

/// Adds the rules of what a cell holds and which class it has.
pub fn add_cell_contents(
    alloc: Global,
    draft: &mut Draft,
    request: &Request,
    plan: &Plan,
    cell: Cell,
) -> Result<(), AllocError>
    requires near { IsNear cell }
    requires plan { IsPlan request.now plan.now }
    ensures { OnOk result (draft.new ≡ draft.old ++ (contents.content_rules cell ++ contents.shape_rules cell
        ++ contents.mate_rules request.now.rect cell ++ contents.class_rules request.now cell)) }
{
    add_things(alloc, draft, request.rect(), cell)?;
    add_one_class(alloc, draft, request, plan, cell)?;
    add_half_class(alloc, draft, request, plan, cell)?;
    Ok(())
}
