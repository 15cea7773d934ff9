//! Networks as values: what was checked once, each call above may rely on.
ghost use Rattle.std.specs.Prelude.{◌≡◌};
ghost use Rattle.bt_text.specs.Answers.{AnswersAlways};
ghost use Rattle.bt_net.specs.Network.{IsWired, IsNetOf, network_of};

use crate::fault::NetFault;
use crate::network::{Edge, MOST_OF_EACH};
use crate::priority::{PreferredEdges, edge_at, merges_at};
use std::marker::Model;

/// A network of splitters: each input and each output has one edge, and each splitter has at most
/// two in edges and two out edges. There are at most `MOST_OF_EACH` of each kind, at least one input
/// and at least one output, and every edge has a cap from 1 to `MOST_CAP`.
///
/// A splitter may prefer one of its out edges, which then gets all that fits, and one of its in edges, of
/// which it then takes all that it has; or it may prefer any in edge, or none, where what it prefers isn't known.
#[derive(Drop)]
pub struct Net {
    inputs: u32,
    outputs: u32,
    splitters: u32,
    edges: Vec<Edge>,
    preferred: Option<PreferredEdges>,
    merges: Option<Vec<bool>>,
}

impl Model for Net {
    ghost use Rattle.bt_net.specs.Network.{Network, IsNetwork, network_of};
    ghost use Rattle.bt_net.specs.inner.Preferred.{with_preferred, with_merges};

    ghost Value = { Network };

    ghost view = { λ n. with_merges n.merges (with_preferred n.preferred
        (network_of n.inputs n.outputs n.splitters n.edges.items)) };

    ghost invariant = { λ n. IsNetwork (with_merges n.merges (with_preferred n.preferred
        (network_of n.inputs n.outputs n.splitters n.edges.items))) };
}

impl Net {
    ghost use Rattle.bt_net.specs.Network.{HasNoPriorities, IsNetwork, IsPrioritised, give_of, merges_any, take_of};
    ghost use Rattle.bt_net.specs.NetText.{alone};
    ghost use Rattle.bt_net.specs.Priorities.{merging, preferring};

    /// The network of these counts and edges, in which the edges have their places as numbers, and no
    /// splitter prefers an edge.
    /// `TooLarge` comes before `NoEnds`, and no other fault comes.
    #[tactic(auto, using(crate::proofs::OneNet::net_answers))]
    pub fn new(inputs: u32, outputs: u32, splitters: u32, edges: Vec<Edge>) -> Result<Net, NetFault>
        requires { IsWired (network_of inputs outputs splitters edges.items) }
        ensures { AnswersAlways (IsNetOf (network_of inputs outputs splitters edges.items)) result }
    {
        if inputs as usize > MOST_OF_EACH
            || outputs as usize > MOST_OF_EACH
            || splitters as usize > MOST_OF_EACH
            || edges.len() > MOST_OF_EACH
        {
            return Err(NetFault::TooLarge);
        }
        if inputs == 0 || outputs == 0 {
            return Err(NetFault::NoEnds);
        }
        Ok(Net {
            inputs,
            outputs,
            splitters,
            edges,
            preferred: None,
            merges: None,
        })
    }

    /// The number of inputs, which is at least 1.
    pub fn inputs(&self) -> u32
        ensures { result ≡ self.now.inputs }
    {
        self.inputs
    }

    /// The number of outputs, which is at least 1.
    pub fn outputs(&self) -> u32
        ensures { result ≡ self.now.outputs }
    {
        self.outputs
    }

    /// The number of splitters.
    pub fn splitters(&self) -> u32
        ensures { result ≡ self.now.splitters }
    {
        self.splitters
    }

    /// The number of the out edge that a splitter prefers, where it prefers one; else None.
    pub fn give(&self, splitter: usize) -> Option<usize>
        ensures { result ≡ give_of self.now splitter }
    {
        match &self.preferred {
            Some(preferred) => edge_at(&preferred.gives, splitter),
            None => None,
        }
    }

    /// The number of the in edge that a splitter prefers, where it prefers one; else None.
    pub fn take(&self, splitter: usize) -> Option<usize>
        ensures { result ≡ take_of self.now splitter }
    {
        match &self.preferred {
            Some(preferred) => edge_at(&preferred.takes, splitter),
            None => None,
        }
    }

    /// Whether a splitter may prefer any of its in edges, or none: no law says how it takes from them.
    pub fn merges_any(&self, splitter: usize) -> bool
        ensures { result ≡ merges_any self.now splitter }
    {
        match &self.merges {
            Some(merges) => merges_at(merges, splitter),
            None => false,
        }
    }

    /// The same network, in which each splitter prefers the edges that the lists name at its number: one of its out
    /// edges or none, and one of its in edges or none.
    pub fn preferring(self, gives: Vec<Option<usize>>, takes: Vec<Option<usize>>) -> Net
        requires { IsPrioritised (preferring self gives.items takes.items) }
        ensures { result ≡ preferring self gives.items takes.items }
    {
        Net {
            inputs: self.inputs,
            outputs: self.outputs,
            splitters: self.splitters,
            edges: self.edges,
            preferred: Some(PreferredEdges { gives, takes }),
            merges: self.merges,
        }
    }

    /// The same network, in which each splitter may prefer any of its in edges, or none, where the list says so at its
    /// number.
    pub fn merging(self, merges: Vec<bool>) -> Net
        requires { IsPrioritised (merging self merges.items) }
        ensures { result ≡ merging self merges.items }
    {
        Net {
            inputs: self.inputs,
            outputs: self.outputs,
            splitters: self.splitters,
            edges: self.edges,
            preferred: self.preferred,
            merges: Some(merges),
        }
    }

    /// The same network, in which no splitter prefers an edge, and each is even.
    pub fn alone(self) -> Net
        ensures net { result ≡ alone self }
        ensures plain { HasNoPriorities result }
    {
        Net {
            inputs: self.inputs,
            outputs: self.outputs,
            splitters: self.splitters,
            edges: self.edges,
            preferred: None,
            merges: None,
        }
    }

    /// The edges, each at its number.
    pub fn edges(&self) -> &[Edge]
        ensures edges { result.now ≡ self.now.edges }
        ensures network { IsNetwork self.now }
    {
        &self.edges
    }
}
