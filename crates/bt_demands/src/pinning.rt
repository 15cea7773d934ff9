//! Rules of pins, and of blocks: cells on which nothing may stand.
ghost use Rattle.std.specs.Prelude.{◌≡◌, ◌<◌, ◌^◌, ◌++◌, ◌∷◌, [], map, flat_map, filter, IfOk, OnOk, if◌then◌else◌};
ghost use Rattle.std.specs.List.{AllByRecursion};
ghost use Rattle.bt_demands.specs.Classes.{class_of as class_of_edge};
ghost use Rattle.bt_facts.specs.Facts as told;
ghost use Rattle.bt_demands.specs.Enders.{enders as all_enders};
ghost use Rattle.bt_demands.specs.Pinning as pinning;
ghost use Rattle.bt_facts.specs.Rules.{some_of, not_all};
ghost use Rattle.bt_facts.specs.Spots.{dirs, others_than as others_of};
ghost use Rattle.bt_facts.specs.Near.{IsNear};
ghost use Rattle.bt_demands.specs.inner.Near.{IsPinnedNear, IsBlockedNear};
ghost use Rattle.bt_demands.specs.inner.Parts as parts;
ghost use Rattle.bt_facts.specs.declared.fact.Fact.TheVariants as fact;

use crate::classes::{class_of, is_input, is_output};
use bt_facts::{Content, Draft, Fact, Shape, ahead, cell_at, holds, others_than, push_outside};
use bt_model::Request;
use bt_net::{Block, Demand, Edge, End, Pin};
use bt_parts::{Cell, DIRS, Dir, Rect};
use std::alloc::{AllocError, Global};

/// Whether the edge is that of this end.
pub fn is_edge_of(end: End, edge: Edge) -> bool
    ensures { result ≡ pinning.is_edge_of end edge }
{
    match end {
        End::Input(input) => is_input(input as usize, edge),
        End::Output(output) => is_output(output as usize, edge),
    }
}

/// Adds that the cell has the class of the edge, where the edge is that of this end.
fn add_pin_class(
    draft: &mut Draft,
    demands: &[Demand],
    cell: Cell,
    end: End,
    edge: Edge,
) -> Result<(), AllocError>
    ensures { OnOk result (draft.new ≡ draft.old ++ (if pinning.is_edge_of end edge
        then some_of (fact.Carries cell (class_of_edge demands.now edge) ∷ []) ∷ [] else [])) }
{
    if is_edge_of(end, edge) {
        draft.add(&[], &[Fact::Carries(cell, class_of(demands, edge))])?;
    }
    Ok(())
}

/// Adds that the cell has the class of the edge of this end, which is one of these edges.
fn add_pin_classes(
    draft: &mut Draft,
    edges: &[Edge],
    demands: &[Demand],
    cell: Cell,
    end: End,
) -> Result<(), AllocError>
    ensures { OnOk result (draft.new ≡ draft.old
        ++ map (λ edge. some_of (fact.Carries cell (class_of_edge demands.now edge) ∷ []))
        (filter (pinning.is_edge_of end) edges.now)) }
{
    for edge in edges {
        add_pin_class(draft, demands, cell, end, *edge)?;
    }
    Ok(())
}

/// Adds the facts that a belt and that an exit stands on the cell so turned. Adds nothing where the cell in front is
/// inside.
pub fn push_enders(
    facts: &mut Vec<Fact>,
    rect: Rect,
    cell: Cell,
    dir: Dir,
) -> Result<(), AllocError>
    requires { IsNear cell }
    ensures { OnOk result (facts.new.items ≡ facts.old.items ++ parts.enders_towards rect cell dir) }
{
    let parts = [holds(cell, Shape::Belt, dir), holds(cell, Shape::Exit, dir)];
    push_outside(facts, rect, ahead(dir, cell), &parts)
}

/// The facts that a belt or an exit stands on the cell and faces the outside, for each direction in which the rectangle
/// ends.
pub fn enders(alloc: Global, rect: Rect, cell: Cell) -> Result<Vec<Fact>, AllocError>
    requires { IsNear cell }
    ensures { IfOk result (λ facts. facts.items ≡ all_enders rect cell) }
{
    let mut facts = Vec::new(alloc);
    for dir in DIRS {
        push_enders(&mut facts, rect, cell, dir)?;
    }
    Ok(facts)
}

/// Adds that an input begins on the cell, or that a belt or exit stands there which faces the outside, for an output.
fn add_end(
    alloc: Global,
    draft: &mut Draft,
    rect: Rect,
    cell: Cell,
    end: End,
) -> Result<(), AllocError>
    requires { IsNear cell }
    ensures { OnOk result (draft.new ≡ draft.old ++ some_of (pinning.end_facts rect cell end) ∷ []) }
{
    match end {
        End::Input(_) => draft.add(&[], &[Fact::Begins(cell)]),
        End::Output(_) => {
            let facts = enders(alloc, rect, cell)?;
            draft.add(&[], &facts)
        }
    }
}

/// Adds that no part of this shape stands on the cell turned any of these ways.
fn add_not_turned(
    draft: &mut Draft,
    cell: Cell,
    shape: Shape,
    others: &[Dir],
) -> Result<(), AllocError>
    ensures { OnOk result (draft.new ≡ draft.old
        ++ map (λ other. not_all (told.holds cell shape other ∷ [])) others.now) }
{
    for other in others {
        draft.add(&[Fact::Kind(cell, Content::Turned(shape, *other))], &[])?;
    }
    Ok(())
}

/// Adds that neither a belt nor the piece of an end, an entrance for an input and an exit for an output, stands on the
/// cell turned another way than this.
fn add_turned(draft: &mut Draft, cell: Cell, end: End, dir: Dir) -> Result<(), AllocError>
    ensures { OnOk result (draft.new ≡ draft.old
        ++ flat_map (λ of. map (λ other. not_all (told.holds cell of other ∷ [])) (others_of dir))
        (pinning.end_shapes end)) }
{
    let others = others_than(dir);
    let piece = match end {
        End::Input(_) => Shape::Entrance,
        End::Output(_) => Shape::Exit,
    };
    add_not_turned(draft, cell, Shape::Belt, &others)?;
    add_not_turned(draft, cell, piece, &others)
}

/// Adds that the part of an end is turned no other way than this one; nothing where no direction is given.
fn add_direction(
    draft: &mut Draft,
    cell: Cell,
    end: End,
    dir: Option<Dir>,
) -> Result<(), AllocError>
    ensures { OnOk result (draft.new ≡ draft.old ++ pinning.turned_rules cell end dir) }
{
    match dir {
        Some(dir) => add_turned(draft, cell, end, dir),
        None => Ok(()),
    }
}

/// Adds that a pinned end stands on its cell, turned as the pin says.
pub fn add_pin(
    alloc: Global,
    draft: &mut Draft,
    request: &Request,
    pin: &Pin,
) -> Result<(), AllocError>
    requires { IsPinnedNear pin.now }
    ensures { OnOk result (draft.new ≡ draft.old ++ pinning.pin_rules request.now pin.now) }
{
    let cell = cell_at(pin.x, pin.y);
    let edges = request.net().edges();
    add_pin_classes(draft, edges, request.demands(), cell, pin.end)?;
    add_end(alloc, draft, request.rect(), cell, pin.end)?;
    add_direction(draft, cell, pin.end, pin.dir)
}

/// Whether both are inputs, or both are outputs.
fn same_kind(one: End, other: End) -> bool
    ensures { result ≡ pinning.same_kind one other }
{
    match (one, other) {
        (End::Input(_), End::Input(_)) | (End::Output(_), End::Output(_)) => true,
        _ => false,
    }
}

/// Whether the two pins put two inputs, or two outputs, on one cell.
fn pins_clash(one: Pin, other: Pin) -> bool
    ensures { result ≡ pinning.pins_clash one other }
{
    same_kind(one.end, other.end) && one.x == other.x && one.y == other.y
}

/// Whether the two demands are pins that put two inputs, or two outputs, on one cell.
fn clashes(one: Demand, other: Demand) -> bool
    ensures { result ≡ pinning.clashes one other }
{
    match (one, other) {
        (Demand::Pin(one), Demand::Pin(other)) => pins_clash(one, other),
        _ => false,
    }
}

/// Adds a rule that nothing keeps, where the two demands clash: a cell has room for one end of a kind.
fn add_clash(draft: &mut Draft, one: Demand, other: Demand) -> Result<(), AllocError>
    ensures { OnOk result (draft.new ≡ draft.old
        ++ (if pinning.clashes one other then some_of [] ∷ [] else [])) }
{
    if clashes(one, other) {
        draft.add(&[], &[])?;
    }
    Ok(())
}

/// Adds a rule that nothing keeps for each of the other demands with which the demand clashes.
fn add_clashes_with(draft: &mut Draft, demand: Demand, others: &[Demand]) -> Result<(), AllocError>
    ensures { OnOk result (draft.new ≡ draft.old
        ++ map (λ other. some_of []) (filter (pinning.clashes demand) others.now)) }
{
    for other in others {
        add_clash(draft, demand, *other)?;
    }
    Ok(())
}

/// Adds a rule that nothing keeps for each two demands that clash.
pub fn add_clashes(draft: &mut Draft, demands: &[Demand]) -> Result<(), AllocError>
    ensures { OnOk result (draft.new ≡ draft.old ++ pinning.clash_rules demands.now) }
{
    let mut rest = demands;
    while let Some((demand, others)) = rest.split_first() {
        add_clashes_with(draft, *demand, others)?;
        rest = others;
    }
    Ok(())
}

/// Adds that a blocked cell holds nothing.
fn add_block(draft: &mut Draft, block: &Block) -> Result<(), AllocError>
    requires { IsBlockedNear block.now }
    ensures { OnOk result (draft.new ≡ draft.old ++ pinning.block_rule block.now ∷ []) }
{
    let cell = cell_at(block.x, block.y);
    draft.add(&[], &[Fact::Kind(cell, Content::Empty)])
}

/// Adds that blocked cells hold nothing.
pub fn add_blocks(draft: &mut Draft, blocks: &[Block]) -> Result<(), AllocError>
    requires { AllByRecursion IsBlockedNear blocks.now }
    ensures { OnOk result (draft.new ≡ draft.old ++ map pinning.block_rule blocks.now) }
{
    for block in blocks {
        add_block(draft, block)?;
    }
    Ok(())
}
