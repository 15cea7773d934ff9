//! Two networks as one graph, whose nodes are the ends and splitters of both.
use bt_net::{Edge, Net, Start, Target};
use std::alloc::{AllocError, Global};

/// An edge by the nodes at its ends.
#[derive(Clone, Copy, PartialEq, Eq)]
pub struct Join {
    pub start: usize,
    pub target: usize,
}

/// The numbers of a network's nodes: of its inputs, behind them of its outputs, and behind them of its splitters.
#[derive(Clone, Copy)]
pub struct Nodes {
    /// The number of the first one.
    first: usize,
    pub inputs: usize,
    pub outputs: usize,
    pub splitters: usize,
}

impl Nodes {
    /// The nodes of a network, of which the first has this number.
    pub fn of(net: &Net, first: usize) -> Nodes {
        Nodes {
            first,
            inputs: net.inputs() as usize,
            outputs: net.outputs() as usize,
            splitters: net.splitters() as usize,
        }
    }

    /// The number behind the last one.
    pub fn end(self) -> usize {
        let ends = self.inputs.wrapping_add(self.outputs);
        self.first.wrapping_add(ends).wrapping_add(self.splitters)
    }

    /// The node of an input.
    pub fn input(self, input: usize) -> usize {
        self.first.wrapping_add(input)
    }

    /// The node of an output.
    pub fn output(self, output: usize) -> usize {
        self.first.wrapping_add(self.inputs).wrapping_add(output)
    }

    /// The node of a splitter.
    pub fn splitter(self, splitter: usize) -> usize {
        self.output(self.outputs).wrapping_add(splitter)
    }

    /// The edge by the nodes at its ends.
    fn join(self, edge: &Edge) -> Join {
        let start = match edge.start {
            Start::Input(input) => self.input(input as usize),
            Start::Split(splitter) => self.splitter(splitter as usize),
        };
        let target = match edge.target {
            Target::Output(output) => self.output(output as usize),
            Target::Split(splitter) => self.splitter(splitter as usize),
        };
        Join { start, target }
    }

    /// The edges of a network by the nodes at their ends.
    pub fn joins(self, alloc: Global, net: &Net) -> Result<Vec<Join>, AllocError> {
        let mut joins = Vec::new(alloc);
        for edge in net.edges() {
            joins.push(self.join(edge))?;
        }
        Ok(joins)
    }
}
