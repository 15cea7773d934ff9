//! Which part of a network an argument is about: all of it, or what lies behind the splitters that merge lines.
use hint_graphs::{Graph, ends_of, is_set, mark};
use std::alloc::{AllocError, Global};

/// A part of a network that nothing enters but by its first edges, or, where all edges are backed, that nothing leaves.
#[derive(Drop)]
pub struct Part {
    pub backed: bool,
    /// For each splitter whether it lies outside.
    outside: Vec<bool>,
    /// The edges at which the part begins that come from a splitter outside.
    pub joined: Vec<usize>,
    /// Those that come from an end of the network.
    pub ends: Vec<usize>,
}

impl Part {
    /// The whole network.
    pub fn whole(alloc: Global, graph: &Graph, backed: bool) -> Result<Part, AllocError> {
        Ok(Part {
            backed,
            outside: vec![in alloc; false; graph.splitters()]?,
            joined: Vec::new(alloc),
            ends: ends_of(alloc, graph, backed)?,
        })
    }

    /// What lies behind all splitters that have more edges in than out, and behind those that lead to these.
    pub fn behind_merging(alloc: Global, graph: &Graph, backed: bool) -> Result<Part, AllocError> {
        let mut part = Part::whole(alloc, graph, backed)?;
        for _ in 0..graph.splitters() {
            if !part.leave_out(graph) {
                break;
            }
        }
        part.find_first(alloc, graph)?;
        Ok(part)
    }

    /// Leaves out splitters that merge lines, or lead to those that are left out. Tells whether there was one.
    fn leave_out(&mut self, graph: &Graph) -> bool {
        let mut changed = false;
        for splitter in 0..graph.splitters() {
            if !is_set(&self.outside, splitter) && self.is_before(graph, splitter) {
                mark(&mut self.outside, splitter, true);
                changed = true;
            }
        }
        changed
    }

    /// Whether a splitter merges lines, or leads to one that is left out.
    fn is_before(&self, graph: &Graph, splitter: usize) -> bool {
        let (ins, outs) = (graph.ins(splitter), graph.outs(splitter));
        let (far, near) = if self.backed {
            (outs, ins)
        } else {
            (ins, outs)
        };
        far.len() > near.len() || near.iter().any(|edge| self.leads_out(graph, *edge))
    }

    /// Finds the edges at which the part begins.
    fn find_first(&mut self, alloc: Global, graph: &Graph) -> Result<(), AllocError> {
        for edge in 0..graph.edges() {
            if self.comes_from_outside(graph, edge) && !self.leads_out(graph, edge) {
                self.joined.push(edge)?;
            }
        }
        let mut ends = Vec::new(alloc);
        for edge in &self.ends {
            if !self.leads_out(graph, *edge) {
                ends.push(*edge)?;
            }
        }
        self.ends = ends;
        Ok(())
    }

    /// The splitter of the part that divides what an edge carries.
    pub fn maker(&self, graph: &Graph, edge: usize) -> Option<usize> {
        self.start(graph, edge)
            .filter(|splitter| !is_set(&self.outside, *splitter))
    }

    /// The splitter from which an edge comes.
    fn start(&self, graph: &Graph, edge: usize) -> Option<usize> {
        if self.backed {
            graph.target(edge)
        } else {
            graph.start(edge)
        }
    }

    fn comes_from_outside(&self, graph: &Graph, edge: usize) -> bool {
        match self.start(graph, edge) {
            Some(splitter) => is_set(&self.outside, splitter),
            None => false,
        }
    }

    /// Whether an edge leads to a splitter that is left out.
    fn leads_out(&self, graph: &Graph, edge: usize) -> bool {
        let target = if self.backed {
            graph.start(edge)
        } else {
            graph.target(edge)
        };
        match target {
            Some(splitter) => is_set(&self.outside, splitter),
            None => false,
        }
    }

    /// Whether an edge lies in the part and carries there what another one does, or what comes at an end.
    pub fn counts(&self, graph: &Graph, edge: usize) -> bool {
        !self.comes_from_outside(graph, edge) && !self.leads_out(graph, edge)
    }

    /// The edges at which the part begins.
    pub fn first(&self, alloc: Global) -> Result<Vec<usize>, AllocError> {
        let mut first = Vec::from_slice(alloc, &self.joined)?;
        first.extend_from_slice(&self.ends)?;
        Ok(first)
    }
}
