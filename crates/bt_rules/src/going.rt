//! Rules of what one cell hands to the next.
ghost use Rattle.std.specs.Prelude.{◌≡◌, ◌++◌, ◌∷◌, [], map, flat_map, IfOk, OnOk};
ghost use Rattle.bt_rules.specs.Going as going;
ghost use Rattle.bt_facts.specs.Facts as told;
ghost use Rattle.bt_demands.specs.Plans.{IsPlan};
ghost use Rattle.bt_facts.specs.Spots.{dirs};
ghost use Rattle.bt_facts.specs.Near.{IsNear};
ghost use Rattle.bt_rules.specs.inner.Parts as parts;
ghost use Rattle.bt_facts.specs.declared.fact.Fact.TheVariants as fact;

use bt_demands::Plan;
use bt_facts::{
    Content, Draft, Fact, Half, Shape, add_at_most_one, ahead, behind, carries, holds, is_inside,
    push_goes_into, push_outside, sides_of,
};
use bt_model::Request;
use bt_parts::{Cell, DIRS, Dir, Rect};
use std::alloc::{AllocError, Global};

/// Adds that only a belt, an exit or a half so turned hands on in this direction, and only to a belt, an entrance or a
/// half: a belt takes from behind and from its sides, so not where it faces this cell, and the others take from behind
/// alone.
fn add_handed(draft: &mut Draft, cell: Cell, dir: Dir) -> Result<(), AllocError>
    requires { IsNear cell }
    ensures { OnOk result (draft.new ≡ draft.old ++ parts.handed_rules cell dir) }
{
    let goes = Fact::Goes(cell, dir);
    let next = ahead(dir, cell);
    let givers = [
        holds(cell, Shape::Belt, dir),
        holds(cell, Shape::Exit, dir),
        holds(cell, Shape::Half(Half::Lesser), dir),
        holds(cell, Shape::Half(Half::Greater), dir),
    ];
    let takers = [
        Fact::BeltOn(next),
        holds(next, Shape::Entrance, dir),
        holds(next, Shape::Half(Half::Lesser), dir),
        holds(next, Shape::Half(Half::Greater), dir),
    ];
    draft.add(&[goes], &givers)?;
    draft.add(&[goes], &takers)?;
    draft.add(&[goes, holds(next, Shape::Belt, dir.opposite())], &[])
}

/// Adds that a belt and an exit so turned hand on to the next cell, and that a half does so unless that is empty: a
/// chain stops within the rectangle at splitters alone, but a splitter may have a half by which no edge leaves.
fn add_running(draft: &mut Draft, cell: Cell, dir: Dir) -> Result<(), AllocError>
    requires { IsNear cell }
    ensures { OnOk result (draft.new ≡ draft.old ++ parts.running_rules cell dir) }
{
    let goes = Fact::Goes(cell, dir);
    let free = [goes, Fact::Kind(ahead(dir, cell), Content::Empty)];
    draft.add(&[holds(cell, Shape::Belt, dir)], &[goes])?;
    draft.add(&[holds(cell, Shape::Exit, dir)], &[goes])?;
    draft.add(&[holds(cell, Shape::Half(Half::Lesser), dir)], &free)?;
    draft.add(&[holds(cell, Shape::Half(Half::Greater), dir)], &free)
}

/// Adds what the cell hands on in a direction. To a cell outside it hands nothing: what leaves there is an output.
fn add_going(draft: &mut Draft, rect: Rect, cell: Cell, dir: Dir) -> Result<(), AllocError>
    requires { IsNear cell }
    ensures { OnOk result (draft.new ≡ draft.old ++ going.going_rules rect cell dir) }
{
    if is_inside(rect, ahead(dir, cell)) {
        add_handed(draft, cell, dir)?;
        add_running(draft, cell, dir)
    } else {
        draft.add(&[Fact::Goes(cell, dir)], &[])
    }
}

/// Adds what the cell hands on in each direction.
fn add_all_going(draft: &mut Draft, rect: Rect, cell: Cell) -> Result<(), AllocError>
    requires { IsNear cell }
    ensures { OnOk result (draft.new ≡ draft.old ++ flat_map (going.going_rules rect cell) dirs) }
{
    for dir in DIRS {
        add_going(draft, rect, cell, dir)?;
    }
    Ok(())
}

/// Adds the fact that an input begins on the cell. Adds nothing where the cell behind it in this direction is inside.
fn push_begins_there(
    facts: &mut Vec<Fact>,
    rect: Rect,
    cell: Cell,
    dir: Dir,
) -> Result<(), AllocError>
    requires { IsNear cell }
    ensures { OnOk result (facts.new.items ≡ facts.old.items ++ going.begins_there rect cell dir) }
{
    push_outside(facts, rect, behind(dir, cell), &[Fact::Begins(cell)])
}

/// Adds for each of these directions the fact that the cell behind hands to this one in it, where that cell is inside.
fn push_all_going_into(
    facts: &mut Vec<Fact>,
    rect: Rect,
    cell: Cell,
    towards: &[Dir],
) -> Result<(), AllocError>
    requires { IsNear cell }
    ensures { OnOk result (facts.new.items ≡ facts.old.items
        ++ flat_map (told.goes_into rect cell) towards.now) }
{
    for dir in towards {
        push_goes_into(facts, rect, cell, *dir)?;
    }
    Ok(())
}

/// Adds that a belt so turned is fed from behind or from a side, or begins an input: else a chain could begin out of
/// nothing.
fn add_fed_belt(
    alloc: Global,
    draft: &mut Draft,
    rect: Rect,
    cell: Cell,
    dir: Dir,
) -> Result<(), AllocError>
    requires { IsNear cell }
    ensures { OnOk result (draft.new ≡ draft.old ++ going.fed_belt rect cell dir ∷ []) }
{
    let mut facts = Vec::new(alloc);
    push_goes_into(&mut facts, rect, cell, dir)?;
    push_all_going_into(&mut facts, rect, cell, &sides_of(dir))?;
    push_begins_there(&mut facts, rect, cell, dir)?;
    draft.add(&[holds(cell, Shape::Belt, dir)], &facts)
}

/// Adds that a belt, however it is turned, is fed from behind or from a side, or begins an input.
fn add_fed_belts(alloc: Global, draft: &mut Draft, rect: Rect, cell: Cell) -> Result<(), AllocError>
    requires { IsNear cell }
    ensures { OnOk result (draft.new ≡ draft.old ++ map (going.fed_belt rect cell) dirs) }
{
    for dir in DIRS {
        add_fed_belt(alloc, draft, rect, cell, dir)?;
    }
    Ok(())
}

/// Adds that an entrance so turned is fed from behind, or begins an input: else a chain could begin out of nothing.
/// From its sides it takes nothing.
fn add_fed_entrance(
    alloc: Global,
    draft: &mut Draft,
    rect: Rect,
    cell: Cell,
    dir: Dir,
) -> Result<(), AllocError>
    requires { IsNear cell }
    ensures { OnOk result (draft.new ≡ draft.old ++ going.fed_entrance rect cell dir ∷ []) }
{
    let mut facts = Vec::new(alloc);
    push_goes_into(&mut facts, rect, cell, dir)?;
    push_begins_there(&mut facts, rect, cell, dir)?;
    draft.add(&[holds(cell, Shape::Entrance, dir)], &facts)
}

/// Adds that an entrance, however it is turned, is fed from behind, or begins an input.
fn add_fed_entrances(
    alloc: Global,
    draft: &mut Draft,
    rect: Rect,
    cell: Cell,
) -> Result<(), AllocError>
    requires { IsNear cell }
    ensures { OnOk result (draft.new ≡ draft.old ++ map (going.fed_entrance rect cell) dirs) }
{
    for dir in DIRS {
        add_fed_entrance(alloc, draft, rect, cell, dir)?;
    }
    Ok(())
}

/// Adds the facts that a belt and that an entrance stands on the cell so turned. Adds nothing where the cell behind is
/// inside.
fn push_starters(facts: &mut Vec<Fact>, rect: Rect, cell: Cell, dir: Dir) -> Result<(), AllocError>
    requires { IsNear cell }
    ensures { OnOk result (facts.new.items ≡ facts.old.items ++ parts.starters_towards rect cell dir) }
{
    let parts = [
        holds(cell, Shape::Belt, dir),
        holds(cell, Shape::Entrance, dir),
    ];
    push_outside(facts, rect, behind(dir, cell), &parts)
}

/// The facts that a belt or an entrance stands on the cell with its back to the outside, for each direction in which it
/// may.
fn starters(alloc: Global, rect: Rect, cell: Cell) -> Result<Vec<Fact>, AllocError>
    requires { IsNear cell }
    ensures { IfOk result (λ facts. facts.items ≡ going.starters rect cell) }
{
    let mut facts = Vec::new(alloc);
    for dir in DIRS {
        push_starters(&mut facts, rect, cell, dir)?;
    }
    Ok(facts)
}

/// Adds that where an input begins, a belt or an entrance stands with its back to the outside, and has a class of edges
/// from inputs: nothing else comes in there.
fn add_begins(
    alloc: Global,
    draft: &mut Draft,
    request: &Request,
    plan: &Plan,
    cell: Cell,
) -> Result<(), AllocError>
    requires near { IsNear cell }
    requires plan { IsPlan request.now plan.now }
    ensures { OnOk result (draft.new ≡ draft.old ++ going.begin_rules request.now cell) }
{
    let begins = Fact::Begins(cell);
    let parts = starters(alloc, request.rect(), cell)?;
    let classes = carries(alloc, cell, &plan.inputs)?;
    draft.add(&[begins], &parts)?;
    draft.add(&[begins], &classes)
}

/// Adds that the cell hands on in at most one direction, and that it is fed from at most one or begins an input: chains
/// neither fork nor join but at splitters.
fn add_once(alloc: Global, draft: &mut Draft, rect: Rect, cell: Cell) -> Result<(), AllocError>
    requires { IsNear cell }
    ensures { OnOk result (draft.new ≡ draft.old ++ going.once_rules rect cell) }
{
    let north = Fact::Goes(cell, Dir::North);
    let east = Fact::Goes(cell, Dir::East);
    let south = Fact::Goes(cell, Dir::South);
    let west = Fact::Goes(cell, Dir::West);
    let mut coming = vec![in alloc; Fact::Begins(cell)]?;
    push_all_going_into(&mut coming, rect, cell, &DIRS)?;
    add_at_most_one(draft, &[north, east, south, west])?;
    add_at_most_one(draft, &coming)
}

/// Adds what the cell hands on, and by what a belt or an entrance on it is fed.
fn add_fed(alloc: Global, draft: &mut Draft, rect: Rect, cell: Cell) -> Result<(), AllocError>
    requires { IsNear cell }
    ensures { OnOk result (draft.new ≡ draft.old ++ (flat_map (going.going_rules rect cell) dirs
        ++ map (going.fed_belt rect cell) dirs ++ map (going.fed_entrance rect cell) dirs)) }
{
    add_all_going(draft, rect, cell)?;
    add_fed_belts(alloc, draft, rect, cell)?;
    add_fed_entrances(alloc, draft, rect, cell)
}

/// Adds the rules of what is handed on from a cell, by what it is fed and with what an input begins there.
pub fn add_handing(
    alloc: Global,
    draft: &mut Draft,
    request: &Request,
    plan: &Plan,
    cell: Cell,
) -> Result<(), AllocError>
    requires near { IsNear cell }
    requires plan { IsPlan request.now plan.now }
    ensures { OnOk result (draft.new ≡ draft.old ++ going.handing_rules request.now cell) }
{
    let rect = request.rect();
    add_fed(alloc, draft, rect, cell)?;
    add_begins(alloc, draft, request, plan, cell)?;
    add_once(alloc, draft, rect, cell)
}
