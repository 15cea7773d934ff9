//! How flows run through a network whose loops are cut, and its centres.
use crate::cutting::cuts_of;
use crate::graph::Graph;
use crate::lists::is_set;
use crate::weighing::{is_joint, shared_edges, weigh};
use bt_net::Net;
use std::alloc::{AllocError, Global};

/// A network, or a part of it, whose loops are cut, with its centres: splitters from which all ends are reached evenly, on
/// either side.
#[derive(Drop)]
pub struct Flow<'a> {
    pub graph: Graph<'a>,
    /// For each edge whether it is cut.
    pub cut: Vec<bool>,
    /// The splitters, each behind those from which edges lead to it that aren't cut.
    pub order: Vec<usize>,
    pub centres: Vec<usize>,
    /// Whether joints share cut edges that come from them, and not those that lead to them.
    pub forks: bool,
}

impl<'a> Flow<'a> {
    /// Cuts the loops of the part of a network that lacks the splitters with a mark, and finds its centres: seen from the
    /// inputs, and where it has none so, from the outputs.
    pub fn of(alloc: Global, net: &'a Net, outside: &[bool]) -> Result<Flow<'a>, AllocError> {
        let flow = Flow::seen(alloc, net, outside, false)?;
        if flow.centres.is_empty() {
            Flow::seen(alloc, net, outside, true)
        } else {
            Ok(flow)
        }
    }

    /// Cuts the loops of a part of a network as it is seen, with all edges turned round or not, and finds its centres.
    fn seen(
        alloc: Global,
        net: &'a Net,
        outside: &[bool],
        is_turned: bool,
    ) -> Result<Flow<'a>, AllocError> {
        let graph = Graph::of_part(alloc, net, outside, is_turned)?;
        let cut = cuts_of(alloc, &graph)?;
        Flow::with_cuts(alloc, net, outside, cut, is_turned)
    }

    /// Finds the centres of a part of a network where the edges with a mark are cut, which joints share, with `forks` those
    /// of their out edges.
    pub fn with_cuts(
        alloc: Global,
        net: &'a Net,
        outside: &[bool],
        cut: Vec<bool>,
        forks: bool,
    ) -> Result<Flow<'a>, AllocError> {
        let graph = Graph::of_part(alloc, net, outside, false)?;
        let weighed = weigh(alloc, &graph, &cut, forks)?;
        let centres = weighed.centres(alloc, &graph, &cut)?;
        Ok(Flow {
            graph,
            cut,
            order: weighed.order,
            centres,
            forks,
        })
    }

    /// Whether a flow begins with an edge: where it enters, or is cut.
    pub fn begins(&self, edge: usize) -> bool {
        is_set(&self.cut, edge) || self.graph.enters(edge)
    }

    /// Whether a flow ends with an edge: where it leaves, or is cut.
    pub fn ends(&self, edge: usize) -> bool {
        is_set(&self.cut, edge) || self.graph.leaves(edge)
    }

    /// The joint that shares an edge; none where none does.
    pub fn joint(&self, edge: usize) -> Option<usize> {
        let splitter = if self.forks {
            self.graph.start(edge)?
        } else {
            self.graph.target(edge)?
        };
        if self.is_joint(splitter) {
            Some(splitter)
        } else {
            None
        }
    }

    /// Whether both edges to a splitter are cut, or with `forks` both edges from it.
    pub fn is_joint(&self, splitter: usize) -> bool {
        is_joint(&self.graph, &self.cut, splitter, self.forks)
    }

    /// The edges that a splitter shares, where it is a joint.
    pub fn shared(&self, splitter: usize) -> &[usize] {
        shared_edges(&self.graph, splitter, self.forks)
    }

    /// The splitter after so many in the order, or before so many from its end back; `usize::MAX` where the order is
    /// too short.
    pub fn splitter_at(&self, step: usize, from_end: bool) -> usize {
        let count = self.order.len();
        let place = if from_end {
            count.saturating_sub(1).saturating_sub(step)
        } else {
            step
        };
        self.order.get(place).copied().unwrap_or(usize::MAX)
    }

    /// The first of the centres, at which an argument ends; `usize::MAX` where there is none.
    pub fn centre(&self) -> usize {
        self.centres.first().copied().unwrap_or(usize::MAX)
    }
}
