//! Rules of sides, and of all demands, which say where ends stand.
ghost use Rattle.std.specs.Prelude.{◌≡◌, ◌++◌, ◌∷◌, [], map, flat_map, IfOk, OnOk};
ghost use Rattle.std.specs.List.{All, AllByRecursion, list_any, range_with_len};
ghost use Rattle.bt_demands.specs.Pinning as pinning;
ghost use Rattle.bt_facts.specs.Rules.{rule, some_of, not_all};
ghost use Rattle.bt_facts.specs.Spots.{border_of, cells_of, others_than as others_of};
ghost use Rattle.bt_demands.specs.Stopping as stops;
ghost use Rattle.bt_facts.specs.Near.{IsNear};
ghost use Rattle.bt_demands.specs.inner.Near.{IsPinnedNear, IsDemandedNear};
ghost use Rattle.bt_demands.specs.inner.Parts as parts;
ghost use Rattle.bt_facts.specs.declared.fact.Fact.TheVariants as fact;

use crate::classes::class_of;
use crate::pinning::{add_pin, is_edge_of, push_enders};
use crate::rowing::add_row;
use bt_facts::{Class, Draft, Fact, Shape, cell_at, holds, others_than, stops_on};
use bt_model::Request;
use bt_net::{Demand, Edge, End, Ends, Pin, Side};
use bt_parts::{Cell, Dir, Rect};
use std::alloc::{AllocError, Global};

/// Adds the class of the edge, where the edge is that of this end.
fn push_end_class(
    found: &mut Vec<Class>,
    request: &Request,
    end: End,
    edge: Edge,
) -> Result<(), AllocError>
    ensures { OnOk result (found.new.items ≡ found.old.items
        ++ parts.end_class request.now end edge) }
{
    if is_edge_of(end, edge) {
        found.push(class_of(request.demands(), edge))?;
    }
    Ok(())
}

/// The class of the edge of an end, as a list of one.
fn end_classes(alloc: Global, request: &Request, end: End) -> Result<Vec<Class>, AllocError>
    ensures { IfOk result (λ found. found.items ≡ pinning.end_classes request.now end) }
{
    let edges = request.net().edges();
    let mut found = Vec::new(alloc);
    for edge in edges {
        push_end_class(&mut found, request, end, *edge)?;
    }
    Ok(found)
}

/// Adds that no input of this class begins on the cell with a belt or an entrance that is turned this way.
fn add_not_begun(draft: &mut Draft, class: Class, cell: Cell, other: Dir) -> Result<(), AllocError>
    ensures { OnOk result (draft.new ≡ draft.old ++ pinning.not_begun class cell other) }
{
    let begins = Fact::Begins(cell);
    let carries = Fact::Carries(cell, class);
    draft.add(&[begins, carries, holds(cell, Shape::Belt, other)], &[])?;
    draft.add(&[begins, carries, holds(cell, Shape::Entrance, other)], &[])
}

/// Adds that no input of this class begins on the cell with a belt or an entrance that is turned any of these ways.
fn add_none_begun(
    draft: &mut Draft,
    class: Class,
    cell: Cell,
    others: &[Dir],
) -> Result<(), AllocError>
    ensures { OnOk result (draft.new ≡ draft.old ++ flat_map (pinning.not_begun class cell) others.now) }
{
    for other in others {
        add_not_begun(draft, class, cell, *other)?;
    }
    Ok(())
}

/// Adds that an input of this class that begins on one of the border's cells is turned away from this side.
fn add_begun(draft: &mut Draft, border: &[Cell], dir: Dir, class: Class) -> Result<(), AllocError>
    ensures { OnOk result (draft.new ≡ draft.old ++ parts.begun_on dir class border.now) }
{
    let others = others_than(dir.opposite());
    for cell in border {
        add_none_begun(draft, class, *cell, &others)?;
    }
    Ok(())
}

/// Adds that an input, whose edge has one of these classes, stands at this side: what comes in there is turned away
/// from it.
fn add_input_side(
    draft: &mut Draft,
    border: &[Cell],
    dir: Dir,
    classes: &[Class],
) -> Result<(), AllocError>
    ensures { OnOk result (draft.new ≡ draft.old
        ++ flat_map (λ k. parts.begun_on dir k border.now) classes.now) }
{
    for class in classes {
        add_begun(draft, border, dir, *class)?;
    }
    Ok(())
}

/// Adds that where the output stops on the cell, the cell has each of these classes.
/// Outputs of one splitter have one class: without a fact of where each of them stops one belt could serve two of
/// them.
fn add_stop_classes(
    draft: &mut Draft,
    stops: Fact,
    cell: Cell,
    classes: &[Class],
) -> Result<(), AllocError>
    ensures { OnOk result (draft.new ≡ draft.old
        ++ map (λ k. rule (stops ∷ []) (fact.Carries cell k ∷ [])) classes.now) }
{
    for class in classes {
        draft.add(&[stops], &[Fact::Carries(cell, *class)])?;
    }
    Ok(())
}

/// The facts that a belt and that an exit stands on the cell so turned; none where the cell in front is inside.
fn enders_towards(alloc: Global, rect: Rect, cell: Cell, dir: Dir) -> Result<Vec<Fact>, AllocError>
    requires { IsNear cell }
    ensures { IfOk result (λ facts. facts.items ≡ parts.enders_towards rect cell dir) }
{
    let mut facts = Vec::new(alloc);
    push_enders(&mut facts, rect, cell, dir)?;
    Ok(facts)
}

/// Adds that where the output stops on the cell, a belt or exit stands there that faces the outside on this side, and
/// has these classes.
fn add_stop(
    alloc: Global,
    draft: &mut Draft,
    rect: Rect,
    dir: Dir,
    output: usize,
    classes: &[Class],
    cell: Cell,
) -> Result<(), AllocError>
    requires { IsNear cell }
    ensures { OnOk result (draft.new ≡ draft.old
        ++ parts.stop_part_rules rect dir output classes.now cell) }
{
    let stops = Fact::Stops(cell, output);
    let enders = enders_towards(alloc, rect, cell, dir)?;
    draft.add(&[stops], &enders)?;
    add_stop_classes(draft, stops, cell, classes)
}

/// Adds that where the output stops on a cell of the border, a belt or exit stands there that faces the outside on this
/// side, and has these classes.
fn add_stops(
    alloc: Global,
    draft: &mut Draft,
    rect: Rect,
    dir: Dir,
    output: usize,
    classes: &[Class],
    border: &[Cell],
) -> Result<(), AllocError>
    requires { All IsNear border.now }
    ensures { OnOk result (draft.new ≡ draft.old
        ++ flat_map (parts.stop_part_rules rect dir output classes.now) border.now) }
{
    for cell in border {
        add_stop(alloc, draft, rect, dir, output, classes, *cell)?;
    }
    Ok(())
}

/// Adds that the two outputs don't stop on the same one of these cells.
fn add_apart(
    draft: &mut Draft,
    output: usize,
    other: usize,
    border: &[Cell],
) -> Result<(), AllocError>
    ensures { OnOk result (draft.new ≡ draft.old
        ++ map (λ c. not_all (fact.Stops c output ∷ fact.Stops c other ∷ [])) border.now) }
{
    for cell in border {
        draft.add(
            &[Fact::Stops(*cell, output), Fact::Stops(*cell, other)],
            &[],
        )?;
    }
    Ok(())
}

/// Adds that the output stops on none of these cells on which an output of a lower number stops.
fn add_all_apart(draft: &mut Draft, output: usize, border: &[Cell]) -> Result<(), AllocError>
    ensures { OnOk result (draft.new ≡ draft.old
        ++ flat_map (λ other. map (λ c. not_all (fact.Stops c output ∷ fact.Stops c other ∷ [])) border.now)
        (range_with_len 0 output)) }
{
    for other in 0..output {
        add_apart(draft, output, other, border)?;
    }
    Ok(())
}

/// Whether another output than this one is pinned.
fn pins_other_output(output: usize, pin: Pin) -> bool
    ensures { result ≡ pinning.pins_other output pin.end }
{
    match pin.end {
        End::Input(_) => false,
        End::Output(number) => number as usize != output,
    }
}

/// Adds that the output doesn't stop on the cell to which another one is pinned.
fn add_unpinned(draft: &mut Draft, output: usize, demand: Demand) -> Result<(), AllocError>
    requires { IsDemandedNear demand }
    ensures { OnOk result (draft.new ≡ draft.old ++ pinning.unpinned_rules output demand) }
{
    if let Demand::Pin(pin) = demand {
        if pins_other_output(output, pin) {
            let cell = cell_at(pin.x, pin.y);
            draft.add(&[Fact::Stops(cell, output)], &[])?;
        }
    }
    Ok(())
}

/// Adds that the output doesn't stop on cells to which others are pinned.
fn add_all_unpinned(draft: &mut Draft, output: usize, demands: &[Demand]) -> Result<(), AllocError>
    requires { AllByRecursion IsDemandedNear demands.now }
    ensures { OnOk result (draft.new ≡ draft.old
        ++ flat_map (pinning.unpinned_rules output) demands.now) }
{
    for demand in demands {
        add_unpinned(draft, output, *demand)?;
    }
    Ok(())
}

/// Adds that an output stops on some cell of the border, across this side, where no other output does.
fn add_output_side(
    alloc: Global,
    draft: &mut Draft,
    request: &Request,
    border: &[Cell],
    dir: Dir,
    output: usize,
    classes: &[Class],
) -> Result<(), AllocError>
    requires border { border.now ≡ border_of request.now.rect }
    requires classes { classes.now ≡ pinning.end_classes request.now (End.Output output) }
    requires near { AllByRecursion IsDemandedNear request.now.demands }
    requires cells { All IsNear border.now }
    ensures { OnOk result (draft.new ≡ draft.old ++ pinning.output_rules request.now dir output) }
{
    let facts = stops_on(alloc, border, output)?;
    draft.add(&[], &facts)?;
    add_stops(alloc, draft, request.rect(), dir, output, classes, border)?;
    add_all_apart(draft, output, border)?;
    add_all_unpinned(draft, output, request.demands())
}

/// Adds that an end stands at this side of the rectangle: of an input how it is turned, of an output where it stops.
fn add_side_end(
    alloc: Global,
    draft: &mut Draft,
    request: &Request,
    border: &[Cell],
    dir: Dir,
    end: End,
) -> Result<(), AllocError>
    requires border { border.now ≡ border_of request.now.rect }
    requires near { AllByRecursion IsDemandedNear request.now.demands }
    requires cells { All IsNear border.now }
    ensures { OnOk result (draft.new ≡ draft.old ++ pinning.side_end_rules request.now dir end) }
{
    let classes = end_classes(alloc, request, end)?;
    match end {
        End::Input(_) => add_input_side(draft, border, dir, &classes),
        End::Output(output) => {
            add_output_side(
                alloc,
                draft,
                request,
                border,
                dir,
                output as usize,
                &classes,
            )
        }
    }
}

/// Adds that each input stands at this side.
fn add_inputs_side(
    alloc: Global,
    draft: &mut Draft,
    request: &Request,
    border: &[Cell],
    dir: Dir,
) -> Result<(), AllocError>
    requires border { border.now ≡ border_of request.now.rect }
    requires near { AllByRecursion IsDemandedNear request.now.demands }
    requires cells { All IsNear border.now }
    ensures { OnOk result (draft.new ≡ draft.old
        ++ flat_map (λ i. pinning.side_end_rules request.now dir (End.Input i))
        (range_with_len 0 request.now.net.inputs)) }
{
    let inputs = request.net().inputs();
    for input in 0..inputs {
        add_side_end(alloc, draft, request, border, dir, End::Input(input))?;
    }
    Ok(())
}

/// Adds that each output stands at this side.
fn add_outputs_side(
    alloc: Global,
    draft: &mut Draft,
    request: &Request,
    border: &[Cell],
    dir: Dir,
) -> Result<(), AllocError>
    requires border { border.now ≡ border_of request.now.rect }
    requires near { AllByRecursion IsDemandedNear request.now.demands }
    requires cells { All IsNear border.now }
    ensures { OnOk result (draft.new ≡ draft.old
        ++ flat_map (λ o. pinning.side_end_rules request.now dir (End.Output o))
        (range_with_len 0 request.now.net.outputs)) }
{
    let outputs = request.net().outputs();
    for output in 0..outputs {
        add_side_end(alloc, draft, request, border, dir, End::Output(output))?;
    }
    Ok(())
}

/// Adds that the ends that a demand names stand at its side.
fn add_side(
    alloc: Global,
    draft: &mut Draft,
    request: &Request,
    border: &[Cell],
    side: Side,
) -> Result<(), AllocError>
    requires border { border.now ≡ border_of request.now.rect }
    requires near { AllByRecursion IsDemandedNear request.now.demands }
    requires cells { All IsNear border.now }
    ensures { OnOk result (draft.new ≡ draft.old ++ pinning.side_rules request.now side) }
{
    match side.ends {
        Ends::One(end) => add_side_end(alloc, draft, request, border, side.dir, end),
        Ends::Inputs => add_inputs_side(alloc, draft, request, border, side.dir),
        Ends::Outputs => add_outputs_side(alloc, draft, request, border, side.dir),
    }
}

/// Adds that ends stand where the demand says.
fn add_demand(
    alloc: Global,
    draft: &mut Draft,
    request: &Request,
    border: &[Cell],
    cells: &[Cell],
    demand: Demand,
) -> Result<(), AllocError>
    requires border { border.now ≡ border_of request.now.rect }
    requires near { AllByRecursion IsDemandedNear request.now.demands }
    requires near_border { All IsNear border.now }
    requires cells { cells.now ≡ cells_of request.now.rect }
    requires demand { IsDemandedNear demand }
    ensures { OnOk result (draft.new ≡ draft.old ++ pinning.demand_rules request.now demand) }
{
    match demand {
        Demand::Pin(pin) => add_pin(alloc, draft, request, &pin),
        Demand::Side(side) => add_side(alloc, draft, request, border, side),
        Demand::Row(row) => add_row(alloc, draft, request, cells, row),
    }
}

/// Adds that ends stand where these demands of the request say.
pub fn add_demands(
    alloc: Global,
    draft: &mut Draft,
    request: &Request,
    border: &[Cell],
    cells: &[Cell],
    demands: &[Demand],
) -> Result<(), AllocError>
    requires border { border.now ≡ border_of request.now.rect }
    requires near { AllByRecursion IsDemandedNear request.now.demands }
    requires near_border { All IsNear border.now }
    requires cells { cells.now ≡ cells_of request.now.rect }
    requires demands { AllByRecursion IsDemandedNear demands.now }
    ensures { OnOk result (draft.new ≡ draft.old
        ++ flat_map (pinning.demand_rules request.now) demands.now) }
{
    for demand in demands {
        add_demand(alloc, draft, request, border, cells, *demand)?;
    }
    Ok(())
}

/// Whether these ends are outputs.
fn has_outputs(ends: Ends) -> bool
    ensures { result ≡ stops.has_outputs ends }
{
    match ends {
        Ends::One(End::Output(_)) | Ends::Outputs => true,
        Ends::One(End::Input(_)) | Ends::Inputs => false,
    }
}

/// Whether the demand says of outputs at which side they are to stand.
fn sides_outputs(demand: Demand) -> bool
    ensures { result ≡ stops.sides_outputs demand }
{
    match demand {
        Demand::Pin(_) | Demand::Row(_) => false,
        Demand::Side(side) => has_outputs(side.ends),
    }
}

/// Whether some demand says of outputs at which side they are to stand.
fn some_sides_outputs(demands: &[Demand]) -> bool
    ensures { result ≡ list_any stops.sides_outputs demands.now }
{
    for demand in demands {
        if sides_outputs(*demand) {
            return true;
        }
    }
    false
}

/// The number of outputs, where some are to stand at a side, and else 0.
pub fn stopping(request: &Request) -> usize
    ensures { result ≡ stops.stopping request.now }
{
    if some_sides_outputs(request.demands()) {
        request.net().outputs() as usize
    } else {
        0
    }
}
