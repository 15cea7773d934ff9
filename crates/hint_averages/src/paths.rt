//! Paths from the inputs of a network to its outputs, no two along one edge, where there are more inputs, or the network is
//! turned round. Where each output has a path, all that can be reached from the other inputs ends at lines of which each path
//! takes one.
use hint_graphs::{Graph, is_set, mark};
use std::alloc::{AllocError, Global};

/// Paths that share no edge.
#[derive(Drop)]
pub struct Paths<'a> {
    pub graph: &'a Graph<'a>,
    /// For each edge whether a path takes it.
    taken: Vec<bool>,
}

/// A walk from splitter to splitter.
#[derive(Drop)]
struct Walk {
    /// The splitters that were reached, in turn.
    reached: Vec<usize>,
    /// For each splitter the edge by which it was reached.
    edges: Vec<Option<usize>>,
}

impl Walk {
    /// A walk that has reached no splitter yet, of so many.
    fn new(alloc: Global, splitters: usize) -> Result<Walk, AllocError> {
        Ok(Walk {
            reached: Vec::new(alloc),
            edges: vec![in alloc; None; splitters]?,
        })
    }

    /// Reaches a splitter by an edge, where it wasn't reached before.
    fn reach(&mut self, splitter: usize, edge: usize) -> Result<(), AllocError> {
        if splitter < self.edges.len() && self.edges[splitter].is_none() {
            self.edges[splitter] = Some(edge);
            self.reached.push(splitter)?;
        }
        Ok(())
    }

    /// The edge by which a splitter was reached; none where it wasn't, or where there is no splitter.
    fn edge_to(&self, splitter: Option<usize>) -> Option<usize> {
        *self.edges.get(splitter?)?
    }
}

impl<'a> Paths<'a> {
    /// The paths of a graph, of which there are none yet.
    pub fn new(alloc: Global, graph: &'a Graph<'a>) -> Result<Paths<'a>, AllocError> {
        Ok(Paths {
            graph,
            taken: vec![in alloc; false; graph.edges()]?,
        })
    }

    /// Adds a path, and tells whether there was one more. Others may change for it, but for their number.
    pub fn add(&mut self, alloc: Global) -> Result<bool, AllocError> {
        let mut walk = Walk::new(alloc, self.graph.splitters())?;
        match self.end_of(&mut walk, false)? {
            Some(end) => {
                self.take(&walk, end);
                Ok(true)
            }
            None => Ok(false),
        }
    }

    /// For each splitter whether it lies before the first lines of which each path takes one and to which nothing leads
    /// back: it can be reached from an end at which no path begins, by edges that none takes, and back by any. None where
    /// there are no such lines.
    pub fn before_lines(&self, alloc: Global) -> Result<Option<Vec<bool>>, AllocError> {
        let splitters = self.graph.splitters();
        let mut walk = Walk::new(alloc, splitters)?;
        if self.end_of(&mut walk, true)?.is_some() {
            return Ok(None);
        }
        let mut before = vec![in alloc; false; splitters]?;
        for splitter in &walk.reached {
            mark(&mut before, *splitter, true);
        }
        Ok(Some(before))
    }

    /// Walks from the ends at which no path begins, by edges that none takes, and back by those that one takes, or with
    /// `freely` by any. Tells the edge of the first end to which that leads, where it does.
    fn end_of(&self, walk: &mut Walk, freely: bool) -> Result<Option<usize>, AllocError> {
        self.begin(walk)?;
        // Each splitter is reached once at most.
        for place in 0..self.graph.splitters() {
            let Some(splitter) = walk.reached.get(place).copied() else {
                return Ok(None);
            };
            self.go_back(walk, splitter, freely)?;
            let end = self.go_on(walk, splitter)?;
            if end.is_some() {
                return Ok(end);
            }
        }
        Ok(None)
    }

    /// Lets a walk begin at each end at which no path does.
    fn begin(&self, walk: &mut Walk) -> Result<(), AllocError> {
        for edge in 0..self.graph.edges() {
            if self.graph.start(edge).is_none() && !is_set(&self.taken, edge) {
                if let Some(splitter) = self.graph.target(edge) {
                    walk.reach(splitter, edge)?;
                }
            }
        }
        Ok(())
    }

    /// Walks from a splitter by the edges that no path takes. Tells one that leads to an end, where there is one.
    fn go_on(&self, walk: &mut Walk, splitter: usize) -> Result<Option<usize>, AllocError> {
        for edge in self.graph.outs(splitter) {
            if !is_set(&self.taken, *edge) {
                match self.graph.target(*edge) {
                    Some(next) => walk.reach(next, *edge)?,
                    None => return Ok(Some(*edge)),
                }
            }
        }
        Ok(None)
    }

    /// Walks from a splitter back by the edges that paths take, or with `freely` by any.
    fn go_back(&self, walk: &mut Walk, splitter: usize, freely: bool) -> Result<(), AllocError> {
        for edge in self.graph.ins(splitter) {
            if freely || is_set(&self.taken, *edge) {
                if let Some(before) = self.graph.start(*edge) {
                    walk.reach(before, *edge)?;
                }
            }
        }
        Ok(())
    }

    /// Takes the edges by which a walk came to an end, from that back. Those that paths took, which the walk went back,
    /// are left by them.
    fn take(&mut self, walk: &Walk, end: usize) {
        let mut edge = end;
        // A walk comes to no splitter twice.
        for _ in 0..self.graph.edges() {
            let is_new = !is_set(&self.taken, edge);
            mark(&mut self.taken, edge, is_new);
            let splitter = if is_new {
                self.graph.start(edge)
            } else {
                self.graph.target(edge)
            };
            match walk.edge_to(splitter) {
                Some(before) => edge = before,
                None => return,
            }
        }
    }
}
