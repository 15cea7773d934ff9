//! Blocks: networks while they are put together, whose edges have a cap of 1.

use bt_net::{Edge, Start, Target};
use std::alloc::{AllocError, Global};

/// A network of these numbers and edges, which need not be wired rightly.
#[derive(Drop)]
pub struct Block {
    pub inputs: u32,
    pub outputs: u32,
    pub splitters: u32,
    pub edges: Vec<Edge>,
}

impl Block {
    /// A block of these inputs and outputs without splitters and edges yet.
    pub fn new(alloc: Global, inputs: u32, outputs: u32) -> Block {
        Block {
            inputs,
            outputs,
            splitters: 0,
            edges: Vec::new(alloc),
        }
    }

    /// Adds an edge with a cap of 1.
    pub fn lead(&mut self, start: Start, target: Target) -> Result<(), AllocError> {
        self.edges.push(Edge {
            start,
            target,
            cap: 1,
        })?;
        Ok(())
    }

    /// Adds a splitter to which these two lines lead, and gives its line.
    pub fn join(&mut self, first: Start, second: Start) -> Result<Start, AllocError> {
        let splitter = self.splitters;
        self.splitters = splitter.saturating_add(1);
        self.lead(first, Target::Split(splitter))?;
        self.lead(second, Target::Split(splitter))?;
        Ok(Start::Split(splitter))
    }

    /// Adds a splitter to which this line leads, and gives its line.
    pub fn part(&mut self, line: Start) -> Result<Start, AllocError> {
        let splitter = self.splitters;
        self.splitters = splitter.saturating_add(1);
        self.lead(line, Target::Split(splitter))?;
        Ok(Start::Split(splitter))
    }

    /// Adds another block, to whose inputs these lines lead, and gives the lines of its outputs.
    pub fn append(
        &mut self,
        alloc: Global,
        other: &Block,
        lines: &[Start],
    ) -> Result<Vec<Start>, AllocError> {
        let before = self.splitters;
        self.splitters = before.saturating_add(other.splitters);
        let mut ends = inputs_of(alloc, other.outputs)?;
        for edge in &other.edges {
            let start = start_behind(edge.start, before, lines);
            match edge.target {
                Target::Split(splitter) => {
                    self.lead(start, Target::Split(before.saturating_add(splitter)))?
                }
                Target::Output(output) => put(&mut ends, output as usize, start),
            }
        }
        Ok(ends)
    }

    /// Leads these lines to new outputs, behind those that there are.
    pub fn end(&mut self, lines: &[Start]) -> Result<(), AllocError> {
        for line in lines {
            self.lead(*line, Target::Output(self.outputs))?;
            self.outputs = self.outputs.saturating_add(1);
        }
        Ok(())
    }
}

/// The lines of so many inputs.
pub fn inputs_of(alloc: Global, count: u32) -> Result<Vec<Start>, AllocError> {
    let mut lines = Vec::new(alloc);
    for input in 0..count {
        lines.push(Start::Input(input))?;
    }
    Ok(lines)
}

/// Puts a line in the place of another one, where there is one.
pub fn put(lines: &mut [Start], place: usize, line: Start) {
    if let Some(there) = lines.get_mut(place) {
        *there = line;
    }
}

/// Where an edge of a block starts that is added to another one of `before` splitters, whose lines lead to its inputs.
fn start_behind(start: Start, before: u32, lines: &[Start]) -> Start {
    match start {
        Start::Split(splitter) => Start::Split(before.saturating_add(splitter)),
        Start::Input(input) => match lines.get(input as usize) {
            Some(line) => *line,
            None => start,
        },
    }
}
