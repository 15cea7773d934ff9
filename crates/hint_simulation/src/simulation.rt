//! Simulating a network from empty, step by step, until nothing moves.
ghost use Rattle.std.specs.Prelude.{◌≡◌, IfOk, length};
ghost use Rattle.std.specs.List.{AllZip};
ghost use Rattle.hint_simulation.specs.Simulations.{IsSimulated, IsWithinCap};

use crate::belt::{BLOCK, Belt};
use crate::case::Case;
use crate::splitter::{Splitter, splitters_of};
use bt_net::{Edge, Net, Start, Target};
use std::alloc::{AllocError, Global};

/// The most blocks of steps of a simulation.
const MOST_BLOCKS: u32 = 32;

/// What a simulation shows of a network.
#[derive(Drop)]
pub struct Simulated {
    /// For each edge its mean flow in the last steps, in parts of `UNIT`, from 0 to its cap.
    pub flows: Vec<u32>,
    /// Whether each edge is nearly full at the end.
    pub backed: Vec<bool>,
    /// How many steps were taken.
    pub steps: u32,
    /// Whether nothing moved in the last steps.
    pub is_still: bool,
}

/// A simulation, and its loads and rooms.
#[derive(Drop)]
pub struct Found {
    pub case: Case,
    pub simulated: Simulated,
}

/// Simulates a network whose inputs are given these loads and whose outputs take these rooms, in parts of
/// `UNIT`; a load or room past the end of its list is 0.
pub fn simulate(
    alloc: Global,
    net: &Net,
    loads: &[u32],
    rooms: &[u32],
) -> Result<Simulated, AllocError>
    ensures { IfOk result (IsSimulated net.now) }
{
    let splitters = splitters_of(alloc, net)?;
    let mut belts = belts_of(alloc, net, loads, rooms)?;
    let mut steps: u32 = 0;
    let mut is_still = false;
    for _ in 0..MOST_BLOCKS {
        run_block(&mut belts, &splitters);
        steps = steps.saturating_add(BLOCK);
        is_still = are_still(&belts);
        if is_still {
            break;
        }
    }
    shown(alloc, net, &belts, steps, is_still)
}

/// What belts show of a network.
fn shown(
    alloc: Global,
    net: &Net,
    belts: &[Belt],
    steps: u32,
    is_still: bool,
) -> Result<Simulated, AllocError>
    requires { length belts.now ≡ length net.now.edges }
    ensures { IfOk result (IsSimulated net.now) }
{
    Ok(Simulated {
        flows: flows_of(alloc, net.edges(), belts)?,
        backed: marks_of(alloc, belts)?,
        steps,
        is_still,
    })
}

/// An empty belt for each edge.
fn belts_of(alloc: Global, net: &Net, loads: &[u32], rooms: &[u32]) -> Result<Vec<Belt>, AllocError>
    ensures { IfOk result (λ belts. length belts.items ≡ length net.now.edges) }
{
    let mut belts = Vec::new(alloc);
    for edge in net.edges() {
        let load = load_of(edge, loads);
        let room = room_of(edge, rooms);
        belts.push(Belt::new(edge.cap, load, room))?;
    }
    Ok(belts)
}

/// The load of the input where an edge starts, or 0.
fn load_of(edge: &Edge, loads: &[u32]) -> u32 {
    match edge.start {
        Start::Input(input) => number_at(loads, input),
        Start::Split(_) => 0,
    }
}

/// The room of the output where an edge ends, or 0.
fn room_of(edge: &Edge, rooms: &[u32]) -> u32 {
    match edge.target {
        Target::Output(output) => number_at(rooms, output),
        Target::Split(_) => 0,
    }
}

/// The number at a place, or 0 past the end.
fn number_at(numbers: &[u32], place: u32) -> u32 {
    match numbers.get(place as usize) {
        Some(number) => *number,
        None => 0,
    }
}

/// Runs a block of steps.
fn run_block(belts: &mut [Belt], splitters: &[Splitter]) {
    for belt in belts.iter_mut() {
        belt.begin();
    }
    for _ in 0..BLOCK {
        run_step(belts, splitters);
    }
}

/// Runs a step: the inputs give, each splitter passes on, and the outputs take.
fn run_step(belts: &mut [Belt], splitters: &[Splitter]) {
    for belt in belts.iter_mut() {
        belt.load();
    }
    for splitter in splitters {
        splitter.step(belts);
    }
    for belt in belts.iter_mut() {
        belt.unload();
    }
}

/// Whether nothing moved in the block.
fn are_still(belts: &[Belt]) -> bool {
    belts.iter().all(|belt| belt.is_still())
}

/// The mean flow of each edge.
fn flows_of(alloc: Global, edges: &[Edge], belts: &[Belt]) -> Result<Vec<u32>, AllocError>
    requires { length belts.now ≡ length edges.now }
    ensures { IfOk result (λ flows. AllZip IsWithinCap edges.now flows.items) }
{
    let mut flows = Vec::new(alloc);
    for place in 0..edges.len() {
        flows.push(belts[place].mean_flow(edges[place].cap))?;
    }
    Ok(flows)
}

/// Whether each belt is backed.
fn marks_of(alloc: Global, belts: &[Belt]) -> Result<Vec<bool>, AllocError>
    ensures { IfOk result (λ marks. length marks.items ≡ length belts.now) }
{
    let mut marks = Vec::new(alloc);
    for belt in belts {
        marks.push(belt.is_backed())?;
    }
    Ok(marks)
}
