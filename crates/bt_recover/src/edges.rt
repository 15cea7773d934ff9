//! One edge for each chain, found by following the chain to its end. A chain is what an item passes from an input or a
//! half of a splitter to the next splitter or to an output.
//!
//! An edge names a splitter or an output by its number, so the numbers are written into a table by part first. With it
//! each chain is walked once, the least speed so far is carried along, and the work is that of the parts.
ghost use Rattle.std.specs.Prelude.{◌≡◌, ◌≢◌, map, ◌↔◌, ℕ, ◌<◌, ◌≤◌, length, OnOk, IfOk, MatchOption, All, AllPairs, Contains};
ghost use Rattle.bt_parts.specs.Layouts.{IsAt};
ghost use Rattle.bt_recover.specs.Pairing.{ArePartners};
ghost use Rattle.bt_model.specs.Chains.{IsLink, IsSplitter, Source, leaves};
ghost use Rattle.bt_model.specs.Clean.{IsClean};
ghost use Rattle.bt_recover.specs.inner.Edges.{naming_of, AreNames, HasMany, AreNumbered, AreNumbers, AreLabels, KeepsOthers, edge_to, half_of, joint_of, IsFrontOf, LeadsTo, LeadsIfAny, AddsEdge, AddsHalves, IsJoint, HasEdges, AllDone};

use crate::ends::Names;
use crate::following::taker;
use crate::grid::Grid;
use crate::partners::Pairs;
use crate::speeds::{has_one_tier, slowed_by, speed_at};
use bt_model::is_kind;
use bt_net::{Edge, MOST_OF_EACH, Start, Target};
use bt_parts::{Cell, Kind, cells_of, front};
use std::alloc::{AllocError, Global};

/// What edges are made with: the number of each splitter and of each output, at the index of its part,
/// and whether all parts of the layout have one tier.
#[derive(Drop)]
struct Labels {
    numbers: Vec<u32>,
    one_tier: bool,
}

/// An edge, with the half of a splitter at which its chain starts, and the one at which it ends.
#[derive(Clone, Copy)]
pub(crate) struct Joint {
    pub(crate) edge: Edge,
    pub(crate) source_half: Option<Cell>,
    pub(crate) sink_half: Option<Cell>,
}

/// Where a chain leads, and the least speed on the way there. The splitter at which it ends counts too.
#[derive(Clone, Copy)]
struct Way {
    target: Target,

    /// The half of the splitter at which it ends.
    sink_half: Option<Cell>,

    /// As a multiple of the basic tier's.
    speed: u32,
}

/// Writes for each listed part its place in the list, at the index of the part.
fn write_places(numbers: &mut Vec<u32>, list: &[usize])
    requires within { All (λ i. i < length numbers.old.items) list.now }
    requires once { AllPairs ◌≢◌ list.now }
    requires few { length list.now ≤ MOST_OF_EACH }
    ensures count { length numbers.new.items ≡ length numbers.old.items }
    ensures numbered { AreNumbered numbers.new.items list.now }
    ensures others { KeepsOthers list.now numbers.old.items numbers.new.items }
{
    for (k, i) in list.iter().enumerate() {
        numbers[*i] = k as u32;
    }
}

/// The numbers of the splitters and of the outputs, at the indices of their parts. At all others there is 0.
fn numbers_of(alloc: Global, grid: &Grid, names: &Names) -> Result<Vec<u32>, AllocError>
    requires names { AreNames grid.now (naming_of names.now) }
    requires few { HasMany (naming_of names.now) → ⊥ }
    ensures { IfOk result (λ numbers. AreNumbers grid.now (naming_of names.now) numbers.items) }
{
    let mut numbers = vec![in alloc; 0; grid.parts().len()]?;
    write_places(&mut numbers, &names.splitters);
    write_places(&mut numbers, &names.outputs);
    Ok(numbers)
}

/// The numbers of the splitters and of the outputs, and whether all parts have one tier.
fn labels_of(alloc: Global, grid: &Grid, names: &Names) -> Result<Labels, AllocError>
    requires names { AreNames grid.now (naming_of names.now) }
    requires few { HasMany (naming_of names.now) → ⊥ }
    ensures { IfOk result (λ labels. AreLabels grid.now (naming_of names.now) labels) }
{
    let numbers = numbers_of(alloc, grid, names)?;
    Ok(Labels {
        numbers,
        one_tier: has_one_tier(grid.parts()),
    })
}

/// The edge of this start and of where the way ends. Its cap is 1 where all parts have one tier, and the
/// speed of the way otherwise.
fn edge_to(labels: &Labels, start: Start, way: Way) -> Edge
    ensures { result ≡ edge_to labels.now.one_tier start way }
{
    Edge {
        start,
        target: way.target,
        cap: if labels.one_tier { 1 } else { way.speed },
    }
}

/// The edge of this start and of where the way ends, with the halves that it joins.
fn joint_of(labels: &Labels, start: Start, source_half: Option<Cell>, way: Way) -> Joint
    ensures { (source : Source) → source_half ≡ half_of source
        → result ≡ joint_of labels.now.one_tier source start way }
{
    Joint {
        edge: edge_to(labels, start, way),
        source_half,
        sink_half: way.sink_half,
    }
}

/// The cell in front of a belt or an exit.
fn front_of(grid: &Grid, i: usize) -> Cell
    requires { i < length grid.now }
    ensures { IsFrontOf grid.now i result }
{
    let part = grid.part(i);
    front(part, part.cell)
}

/// Where the chain that goes on with this belt or underground piece leads, at the least speed from there
/// on.
fn way_from(grid: &Grid, pairs: &Pairs, labels: &Labels, first: usize) -> Way
    requires link { IsLink grid.now first }
    requires within { first < length grid.now }
    requires partners { ArePartners grid.now pairs.now }
    requires clean { IsClean grid.now }
    requires count { length labels.now.numbers.items ≡ length grid.now }
    ensures { LeadsTo grid.now labels.now.numbers.items first result }
{
    let mut last = first;
    let mut speed = speed_at(grid, first);
    for _steps in 0..grid.parts().len() {
        let Some(next) = taker(grid, pairs, last) else {
            return Way {
                target: Target::Output(labels.numbers[last]),
                sink_half: None,
                speed,
            };
        };
        speed = slowed_by(grid, speed, next);
        if is_kind(grid.part(next), Kind::Splitter) {
            return Way {
                target: Target::Split(labels.numbers[next]),
                sink_half: Some(front_of(grid, last)),
                speed,
            };
        }
        last = next;
    }
    unreachable!()
}

/// Where the chain from this half of the splitter `s` leads, at the chain's speed. None where no part is in front of
/// the half.
fn way_from_half(grid: &Grid, pairs: &Pairs, labels: &Labels, s: usize, half: Cell) -> Option<Way>
    requires splitter { IsSplitter grid.now s }
    requires half { IsAt grid.now s half }
    requires within { s < length grid.now }
    requires partners { ArePartners grid.now pairs.now }
    requires clean { IsClean grid.now }
    requires count { length labels.now.numbers.items ≡ length grid.now }
    ensures { LeadsIfAny grid.now labels.now.numbers.items (leaves s half) result }
{
    let ahead = front(grid.part(s), half);
    let Some(next) = grid.at(ahead) else {
        return None;
    };
    if is_kind(grid.part(next), Kind::Splitter) {
        return Some(Way {
            target: Target::Split(labels.numbers[next]),
            sink_half: Some(ahead),
            speed: slowed_by(grid, speed_at(grid, next), s),
        });
    }
    let way = way_from(grid, pairs, labels, next);
    Some(Way {
        target: way.target,
        sink_half: way.sink_half,
        speed: slowed_by(grid, way.speed, s),
    })
}

/// Adds the edge of the chain from this half, if there is one.
fn push_half(
    joints: &mut Vec<Joint>,
    grid: &Grid,
    pairs: &Pairs,
    labels: &Labels,
    start: Start,
    s: usize,
    half: Cell,
) -> Result<(), AllocError>
    requires splitter { IsSplitter grid.now s }
    requires half { IsAt grid.now s half }
    requires within { s < length grid.now }
    requires partners { ArePartners grid.now pairs.now }
    requires clean { IsClean grid.now }
    requires count { length labels.now.numbers.items ≡ length grid.now }
    ensures { OnOk result
        (AddsEdge grid.now labels.now (leaves s half) start joints.old.items joints.new.items) }
{
    let Some(way) = way_from_half(grid, pairs, labels, s, half) else {
        return Ok(());
    };
    joints.push(joint_of(labels, start, Some(half), way))?;
    Ok(())
}

/// Adds the edges of the chains from the splitter, that from the lesser half first.
fn push_halves(
    joints: &mut Vec<Joint>,
    grid: &Grid,
    pairs: &Pairs,
    labels: &Labels,
    start: Start,
    s: usize,
) -> Result<(), AllocError>
    requires splitter { IsSplitter grid.now s }
    requires within { s < length grid.now }
    requires partners { ArePartners grid.now pairs.now }
    requires clean { IsClean grid.now }
    requires count { length labels.now.numbers.items ≡ length grid.now }
    ensures { OnOk result (AddsHalves grid.now labels.now s start joints.old.items joints.new.items) }
{
    let (lesser, greater) = cells_of(grid.part(s));
    push_half(joints, grid, pairs, labels, start, s, lesser)?;
    match greater {
        Some(greater) => push_half(joints, grid, pairs, labels, start, s, greater),
        None => Ok(()),
    }
}

/// The edges of all chains, in the order of their starts: the inputs, then the splitters, and of a
/// splitter the lesser half first.
pub(crate) fn joints_of(
    alloc: Global,
    grid: &Grid,
    pairs: &Pairs,
    names: &Names,
) -> Result<Vec<Joint>, AllocError>
    requires partners { ArePartners grid.now pairs.now }
    requires clean { IsClean grid.now }
    requires names { AreNames grid.now (naming_of names.now) }
    requires few { HasMany (naming_of names.now) → ⊥ }
    ensures { IfOk result (λ joints.
        HasEdges grid.now (IsJoint grid.now (naming_of names.now)) AllDone joints.items) }
{
    let labels = labels_of(alloc, grid, names)?;
    let mut joints = Vec::new(alloc);
    for (k, i) in names.inputs.iter().enumerate() {
        let way = way_from(grid, pairs, &labels, *i);
        joints.push(joint_of(&labels, Start::Input(k as u32), None, way))?;
    }
    for (k, s) in names.splitters.iter().enumerate() {
        push_halves(
            &mut joints,
            grid,
            pairs,
            &labels,
            Start::Split(k as u32),
            *s,
        )?;
    }
    Ok(joints)
}

/// The edges without the halves that they join.
pub(crate) fn edges_in(alloc: Global, joints: &[Joint]) -> Result<Vec<Edge>, AllocError>
    ensures { IfOk result (λ edges. edges.items ≡ map (λ joint. joint.edge) joints.now) }
{
    joints.iter().map(|joint| joint.edge).collect(alloc)
}
