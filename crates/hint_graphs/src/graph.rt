//! The splitters of a network, or of a part of it, with the edges at them.
use crate::lists::{add, empty_lists, is_set, list_at};
use bt_flow::Role;
use bt_net::{Edge, Net};
use std::alloc::{AllocError, Global};

/// A network, and for each of its splitters the edges that lead into it and out of it.
///
/// It may be of a part of the network alone, which has some of the splitters and the edges at these. Splitters and edges
/// keep their numbers there. An edge between a splitter of the part and another one begins or ends there, as at an end of
/// the network. And it may be turned round: then each edge leads the other way, from the outputs to the inputs.
#[derive(Drop)]
pub struct Graph<'a> {
    pub net: &'a Net,
    ins: Vec<Vec<usize>>,
    outs: Vec<Vec<usize>>,
    /// For each splitter whether the part lacks it; empty where nothing is left out.
    outside: Vec<bool>,
    /// Whether all edges are turned round.
    pub is_turned: bool,
}

impl<'a> Graph<'a> {
    /// The graph of a network.
    pub fn of(alloc: Global, net: &'a Net) -> Result<Graph<'a>, AllocError> {
        Graph::of_part(alloc, net, &[], false)
    }

    /// The graph of the part of a network that lacks the splitters with a mark, maybe with all edges turned round.
    pub fn of_part(
        alloc: Global,
        net: &'a Net,
        outside: &[bool],
        is_turned: bool,
    ) -> Result<Graph<'a>, AllocError> {
        Ok(Graph {
            net,
            ins: edges_at(alloc, net, target_role(is_turned))?,
            outs: edges_at(alloc, net, start_role(is_turned))?,
            outside: Vec::from_slice(alloc, outside)?,
            is_turned,
        })
    }

    /// The number of edges, of all the network.
    pub fn edges(&self) -> usize {
        self.net.edges().len()
    }

    /// The number of splitters, of all the network.
    pub fn splitters(&self) -> usize {
        self.ins.len()
    }

    /// The edges that lead into a splitter; none where the part lacks it.
    pub fn ins(&self, splitter: usize) -> &[usize] {
        if is_set(&self.outside, splitter) {
            &[]
        } else {
            list_at(&self.ins, splitter)
        }
    }

    /// The edges that lead out of a splitter; none where the part lacks it.
    pub fn outs(&self, splitter: usize) -> &[usize] {
        if is_set(&self.outside, splitter) {
            &[]
        } else {
            list_at(&self.outs, splitter)
        }
    }

    /// The edge with a number.
    fn edge(&self, number: usize) -> Option<&Edge> {
        self.net.edges().get(number)
    }

    /// The splitter out of which an edge leads; none where it begins at an end of the network, or outside of the part.
    pub fn start(&self, number: usize) -> Option<usize> {
        self.within(start_role(self.is_turned).number_in(self.edge(number)?)?)
    }

    /// The splitter into which an edge leads; none where it ends at an end of the network, or outside of the part.
    pub fn target(&self, number: usize) -> Option<usize> {
        self.within(target_role(self.is_turned).number_in(self.edge(number)?)?)
    }

    /// A splitter, where it isn't left out.
    fn within(&self, splitter: u32) -> Option<usize> {
        let splitter = splitter as usize;
        if is_set(&self.outside, splitter) {
            None
        } else {
            Some(splitter)
        }
    }

    /// Whether an edge isn't left out: one of all the network, or one at a splitter of the part.
    pub fn has(&self, number: usize) -> bool {
        self.outside.is_empty() || self.start(number).is_some() || self.target(number).is_some()
    }

    /// Whether an edge begins at an end of the network, or comes into the part.
    pub fn enters(&self, number: usize) -> bool {
        self.start(number).is_none() && self.has(number)
    }

    /// Whether an edge ends at an end of the network, or leads out of the part.
    pub fn leaves(&self, number: usize) -> bool {
        self.target(number).is_none() && self.has(number)
    }

    /// For each edge whether it has a mark, or doesn't lead from one splitter to another one.
    pub fn with_ends(&self, alloc: Global, marks: &[bool]) -> Result<Vec<bool>, AllocError> {
        let mut all = Vec::new(alloc);
        for edge in 0..self.edges() {
            let is_end = self.start(edge).is_none() || self.target(edge).is_none();
            all.push(is_end || is_set(marks, edge))?;
        }
        Ok(all)
    }

    /// The number of the output at which an edge ends, or of the input at which it begins; none where it has no such
    /// end.
    pub fn end(&self, number: usize, is_output: bool) -> Option<usize> {
        let role = if is_output {
            Role::ToOutput
        } else {
            Role::FromInput
        };
        Some(role.number_in(self.edge(number)?)? as usize)
    }

    /// The cap of an edge, 0 where there is no such edge.
    pub fn cap(&self, number: usize) -> u64 {
        match self.edge(number) {
            Some(edge) => u64::from(edge.cap),
            None => 0,
        }
    }
}

/// The role of an edge at the splitter out of which it leads, where it may be turned round.
fn start_role(is_turned: bool) -> Role {
    if is_turned { Role::Into } else { Role::OutOf }
}

/// The role of an edge at the splitter into which it leads, where it may be turned round.
fn target_role(is_turned: bool) -> Role {
    if is_turned { Role::OutOf } else { Role::Into }
}

/// For each splitter the edges that have this role at it, by their numbers.
pub fn edges_at(alloc: Global, net: &Net, role: Role) -> Result<Vec<Vec<usize>>, AllocError> {
    let mut lists = empty_lists(alloc, net.splitters())?;
    for (number, edge) in net.edges().iter().enumerate() {
        add(&mut lists, role.number_in(edge), number)?;
    }
    Ok(lists)
}

/// For each input the edge that begins there, or with `backed` for each output the edge that ends there, by the ends'
/// numbers.
pub fn ends_of(alloc: Global, graph: &Graph, backed: bool) -> Result<Vec<usize>, AllocError> {
    let count = if backed {
        graph.net.outputs()
    } else {
        graph.net.inputs()
    };
    let mut ends = vec![in alloc; 0; count as usize]?;
    for edge in 0..graph.edges() {
        if let Some(number) = graph.end(edge, backed) {
            if number < ends.len() {
                ends[number] = edge;
            }
        }
    }
    Ok(ends)
}

/// Whether each splitter is even: none prefers an edge, or may prefer any.
pub fn has_no_preference(net: &Net) -> bool {
    for splitter in 0..net.splitters() as usize {
        let is_preferring = net.give(splitter).is_some() || net.take(splitter).is_some();
        if is_preferring || net.merges_any(splitter) {
            return false;
        }
    }
    true
}
