//! Edges while they are read, with a tally of each end, so that each line costs the same.
ghost use Rattle.std.specs.Prelude.{◌≡◌, ◌<◌, ◌+◌, ◌↔◌, ℕ, [], ◌∷◌, ◌++◌, List, length, slice_index, slice_set, vec_len, IsTrue, IfOk, OnOk, OnErr, IsErrOf, All};
ghost use Rattle.bt_text.specs.Answers.{AnswersAlways};
ghost use Rattle.bt_net.specs.inner.Tallies.{IsBelow, IsFreeStart, IsFreeTarget, CountsStart, CountsTarget};

use crate::fault::NetFault;
use crate::net::Net;
use crate::network::{Edge, End, Priority, Start, Target};
use std::alloc::{AllocError, Global};
use std::marker::Model;

/// The edges of a network while they are read, and how many of them are at each input and each output, and leave and
/// enter each splitter.
#[derive(Drop)]
pub struct Wiring {
    inputs: Vec<u8>,
    outputs: Vec<u8>,
    leaving: Vec<u8>,
    entering: Vec<u8>,
    edges: Vec<Edge>,
}

impl Model for Wiring {
    ghost use Rattle.bt_net.specs.Network.{Network};
    ghost use Rattle.bt_net.specs.inner.Tallies.{AreTallied, tallied};

    ghost Value = { Network };

    ghost view = { λ w. tallied w.inputs.items w.outputs.items w.leaving.items w.edges.items };

    ghost invariant = { λ w.
        AreTallied w.inputs.items w.outputs.items w.leaving.items w.entering.items w.edges.items };
}

impl Wiring {
    ghost use Rattle.bt_net.specs.Network.{HasEnd, IsCap, IsWired, IsNetOf, network_of};
    ghost use Rattle.bt_net.specs.Priorities.{Owns};
    ghost use Rattle.bt_net.specs.Wiring.{IsPartlyWired, with_edge, HasSmallSizes};

    /// A network of so many inputs, outputs and splitters, which has no edges yet.
    pub fn new(
        alloc: Global,
        inputs: u32,
        outputs: u32,
        splitters: u32,
    ) -> Result<Wiring, AllocError>
        ensures { IfOk result (λ w. w ≡ network_of inputs outputs splitters []) }
    {
        let entering = vec![in alloc; 0u8; splitters as usize]?;
        Ok(Wiring {
            inputs: vec![in alloc; 0u8; inputs as usize]?,
            outputs: vec![in alloc; 0u8; outputs as usize]?,
            leaving: vec![in alloc; 0u8; splitters as usize]?,
            entering,
            edges: Vec::new(alloc),
        })
    }

    /// The number of edges so far.
    pub fn len(&self) -> usize
        ensures { result ≡ length self.now.edges }
    {
        self.edges.len()
    }

    /// Whether the network has this end.
    pub fn has_end(&self, end: End) -> bool
        ensures { IsTrue result ↔ HasEnd self.now end }
    {
        match end {
            End::Input(i) => has_place(&self.inputs, i),
            End::Output(o) => has_place(&self.outputs, o),
        }
    }

    /// The number of splitters.
    pub fn splitters(&self) -> usize
        ensures { result ≡ self.now.splitters }
    {
        self.leaving.len()
    }

    /// Whether the priority's edge is an out edge of its splitter, where the priority gives, or an in edge of it, where
    /// it takes, and there is the splitter. False where there is no such edge or splitter.
    pub fn owns(&self, priority: Priority) -> bool
        ensures { IsTrue result ↔ Owns self.now priority }
    {
        match priority {
            Priority::Give { splitter, edge } => match self.edges.get(edge as usize) {
                Some(found) => found.start == Start::Split(splitter),
                None => false,
            },
            Priority::Take { splitter, edge } => match self.edges.get(edge as usize) {
                Some(found) => found.target == Target::Split(splitter),
                None => false,
            },
            Priority::Any { splitter } => (splitter as usize) < self.leaving.len(),
        }
    }

    /// Whether this edge may be added: both its start and its target are there, and have room for an edge.
    pub fn admits(&self, edge: Edge) -> bool
        requires { IsCap edge.cap }
        ensures { IsTrue result ↔ IsPartlyWired (with_edge self.now edge) }
    {
        let start = starts_free(&self.inputs, &self.leaving, edge.start);
        let target = ends_free(&self.entering, &self.outputs, edge.target);
        start && target
    }

    /// Adds an edge that `admits` lets in. Where memory runs out nothing changes.
    pub fn push(&mut self, edge: Edge) -> Result<(), AllocError>
        requires { IsPartlyWired (with_edge self.old edge) }
        ensures ok { OnOk result (self.new ≡ with_edge self.old edge) }
        ensures err { OnErr result (self.new ≡ self.old) }
    {
        self.edges.push(edge)?;
        count_start(&mut self.inputs, &mut self.leaving, edge.start);
        count_target(&mut self.entering, &mut self.outputs, edge.target);
        Ok(())
    }

    /// The network of these edges, in which no splitter prefers an edge.
    pub fn into_net(self) -> Result<Net, NetFault>
        requires wired { IsWired self }
        requires small { HasSmallSizes self }
        ensures { AnswersAlways (IsNetOf self) result }
    {
        let inputs = self.inputs.len() as u32;
        let outputs = self.outputs.len() as u32;
        let splitters = self.leaving.len() as u32;
        Net::new(inputs, outputs, splitters, self.edges)
    }

    /// Whether each input and each output has its edge.
    pub fn is_complete(&self) -> bool
        ensures { IsTrue result ↔ IsWired self.now }
    {
        let inputs = each_is_one(&self.inputs);
        let outputs = each_is_one(&self.outputs);
        inputs && outputs
    }
}

/// Whether each place of the tally has one edge.
fn each_is_one(tally: &[u8]) -> bool
    ensures { IsTrue result ↔ All (λ count. count ≡ 1) tally.now }
{
    tally.iter().all(|count| *count == 1)
}

/// Whether an edge may start there: at an input without an edge, or at a splitter with fewer than two
/// out edges.
fn starts_free(inputs: &[u8], leaving: &[u8], start: Start) -> bool
    ensures { IsTrue result ↔ IsFreeStart inputs.now leaving.now start }
{
    match start {
        Start::Input(i) => is_below(inputs, i, 1),
        Start::Split(s) => is_below(leaving, s, 2),
    }
}

/// Whether an edge may end there: at an output without an edge, or at a splitter with fewer than two
/// in edges.
fn ends_free(entering: &[u8], outputs: &[u8], target: Target) -> bool
    ensures { IsTrue result ↔ IsFreeTarget entering.now outputs.now target }
{
    match target {
        Target::Split(s) => is_below(entering, s, 2),
        Target::Output(o) => is_below(outputs, o, 1),
    }
}

/// Whether the tally has this place.
fn has_place(tally: &[u8], place: u32) -> bool
    ensures { IsTrue result ↔ place < length tally.now }
{
    (place as usize) < tally.len()
}

/// Whether the tally has this place, and counts fewer than `most` edges there.
fn is_below(tally: &[u8], place: u32, most: u8) -> bool
    ensures { IsTrue result ↔ IsBelow tally.now place most }
{
    (place as usize) < tally.len() && tally[place as usize] < most
}

/// Counts one more edge with this start.
fn count_start(inputs: &mut Vec<u8>, leaving: &mut Vec<u8>, start: Start)
    requires { IsFreeStart inputs.old.items leaving.old.items start }
    ensures { CountsStart start inputs.old.items leaving.old.items inputs.new.items leaving.new.items }
{
    match start {
        Start::Input(i) => inputs[i as usize] += 1,
        Start::Split(s) => leaving[s as usize] += 1,
    }
}

/// Counts one more edge with this target.
fn count_target(entering: &mut Vec<u8>, outputs: &mut Vec<u8>, target: Target)
    requires { IsFreeTarget entering.old.items outputs.old.items target }
    ensures { CountsTarget target entering.old.items outputs.old.items entering.new.items outputs.new.items }
{
    match target {
        Target::Split(s) => entering[s as usize] += 1,
        Target::Output(o) => outputs[o as usize] += 1,
    }
}
