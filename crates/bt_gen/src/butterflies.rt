//! Butterflies: stages, from 0, in each of which each splitter joins two lines, numbered from 0, that lie 2^stage
//! apart. Its lesser line is that of the lower number.
ghost use Rattle.std.specs.Prelude.{◌≡◌, ◌↔◌, ◌^◌, ◌*◌, ◌+◌, ◌<◌, ◌≤◌, ◌++◌, ℕ, IfOk, OnOk};
ghost use Rattle.bt_text.specs.Answers.{Answers};
ghost use Rattle.bt_flow.specs.declared.property.Property.TheVariants.{Balanced};
ghost use Rattle.bt_flow.specs.Properties.{Holds};
ghost use Rattle.bt_gen.specs.Butterfly.{number, lesser_line, greater_line, HasLine, place_with_line};
ghost use Rattle.bt_gen.specs.Butterfly.{leads_to, input_edge, input_edges, out_edges, stage_edges};
ghost use Rattle.bt_gen.specs.Butterfly.{butterfly_edges, butterfly_net};
ghost use Rattle.bt_gen.specs.Orders.{IsOrder, IsGenerated};

use crate::fault::GenFault;
use crate::order::{edge, made, power};
use bt_net::{Edge, Net, Start, Target};
use std::alloc::{AllocError, Global};

/// The most stages of a butterfly, which has at least one.
pub const MOST_STAGES: u32 = 7;

/// The butterfly of this order, from 1 to `MOST_STAGES`: 2^order inputs and outputs, and `order` stages
/// of 2^(order - 1) splitters. In each stage each line goes through one splitter, and splitter `place`
/// of stage `stage` has the number `stage * 2^(order - 1) + place`. `Order` exactly where the order is
/// none of these.
///
/// It is balanced: where no output is blocked, all outputs carry the same. From the outputs back, a backed
/// edge is full, so each splitter divides evenly; and from the inputs on, the lines of a block carry the
/// same behind the stage that has joined them.
pub fn butterfly(alloc: Global, order: u32) -> Result<Net, GenFault>
    ensures answers { Answers GenFault.Memory (IsGenerated MOST_STAGES butterfly_net order) result }
    ensures balanced { IfOk result (λ net. Holds net Balanced) }
{
    if order < 1 || order > MOST_STAGES {
        return Err(GenFault::Order(order));
    }
    let edges = edges_of(alloc, order)?;
    let lines = power(order);
    Ok(made(lines, lines, order * power(order - 1), edges))
}

/// Each line goes through one splitter of each stage.
pub fn one_splitter_has_a_line()
    ensures { (stage place line : ℕ) → HasLine stage place line ↔ (place ≡ place_with_line stage line) }
{}

/// All edges of a butterfly, in the order of their sources.
fn edges_of(alloc: Global, order: u32) -> Result<Vec<Edge>, AllocError>
    requires { IsOrder MOST_STAGES order }
    ensures { IfOk result (λ edges. edges.items ≡ butterfly_edges order) }
{
    let mut edges = Vec::new(alloc);
    push_inputs(&mut edges, order)?;
    for stage in 0..order {
        push_stage(&mut edges, order, stage)?;
    }
    Ok(edges)
}

/// Adds for each input the edge to the splitter of stage 0 that has the line of its number.
fn push_inputs(edges: &mut Vec<Edge>, order: u32) -> Result<(), AllocError>
    requires { IsOrder MOST_STAGES order }
    ensures { OnOk result (edges.new.items ≡ edges.old.items ++ input_edges order) }
{
    for line in 0..power(order) {
        let splitter = place_with_line(0, line);
        edges.push(edge(Start::Input(line), Target::Split(splitter)))?;
    }
    Ok(())
}

/// Adds the two out edges of each splitter of a stage.
fn push_stage(edges: &mut Vec<Edge>, order: u32, stage: u32) -> Result<(), AllocError>
    requires order { IsOrder MOST_STAGES order }
    requires stage { stage < order }
    ensures { OnOk result (edges.new.items ≡ edges.old.items ++ stage_edges order stage) }
{
    for place in 0..power(order - 1) {
        let [lesser, greater] = out_edges(order, stage, place);
        edges.push(lesser)?;
        edges.push(greater)?;
    }
    Ok(())
}

/// The two out edges of a splitter, that of its lesser line first.
fn out_edges(order: u32, stage: u32, place: u32) -> [Edge; 2]
    requires order { IsOrder MOST_STAGES order }
    requires stage { stage < order }
    requires place { place < 128 }
    ensures { result ≡ out_edges order stage place }
{
    let from = Start::Split(number(order, stage, place));
    let lesser = lesser_line(stage, place);
    let greater = lesser + power(stage);
    [
        edge(from, leads_to(order, stage, lesser, 2 * place)),
        edge(from, leads_to(order, stage, greater, 2 * place + 1)),
    ]
}

/// Where a line leads behind a stage: to the splitter of the next stage that has it, or behind the last stage to the
/// output of number `output`.
fn leads_to(order: u32, stage: u32, line: u32, output: u32) -> Target
    requires order { IsOrder MOST_STAGES order }
    requires stage { stage < order }
    requires line { line < 20000 }
    ensures { result ≡ leads_to order stage line output }
{
    let next = stage + 1;
    if next < order {
        Target::Split(number(order, next, place_with_line(next, line)))
    } else {
        Target::Output(output)
    }
}

/// The number of the splitter at a place of a stage, both from 0.
fn number(order: u32, stage: u32, place: u32) -> u32
    requires order { IsOrder MOST_STAGES order }
    requires stage { stage < order }
    requires place { place < 3000000 }
    ensures { result ≡ number order stage place }
{
    stage * power(order - 1) + place
}

/// The lesser line of the splitter at a place of a stage. Of a block of 2^(stage + 1) lines each of the first half is
/// joined with the one 2^stage behind it.
fn lesser_line(stage: u32, place: u32) -> u32
    requires stage { stage < 7 }
    requires place { place < 128 }
    ensures line { result ≡ lesser_line stage place }
    ensures small { result < 17000 }
{
    let apart = power(stage);
    place / apart * power(stage + 1) + place % apart
}

/// The place of the splitter of a stage that has this line.
fn place_with_line(stage: u32, line: u32) -> u32
    requires stage { stage < 7 }
    requires line { line < 20000 }
    ensures place { result ≡ place_with_line stage line }
    ensures small { result < 3000000 }
{
    let apart = power(stage);
    line / power(stage + 1) * apart + line % apart
}
