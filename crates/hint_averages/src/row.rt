//! Networks that are two others in a row, each with centres of its own: as many lines lead from the first to the second as
//! there are ends on the side that has fewer.
//!
//! Lines that part a network so are mostly several, since behind the splitters that merge lines others may only mix these.
//! So from the first such lines on, seen from the ends of which there are more, they are moved behind splitters that mix
//! lines while what lies beyond keeps its centres.
use crate::paths::Paths;
use bt_net::Net;
use hint_graphs::{Flow, Graph, is_set, mark};
use std::alloc::{AllocError, Global};

/// A network that lines part.
#[derive(Drop)]
struct Row<'a> {
    net: &'a Net,
    /// For each splitter whether it lies before the lines, on the side of the ends of which there are more.
    near: Vec<bool>,
    /// For each edge beyond the lines whether it is cut.
    cut: Vec<bool>,
    /// Whether joints beyond the lines share edges that come from them.
    forks: bool,
}

/// Adds the flows of the two networks of which a network is a row, that at the outputs first. Adds nothing where it isn't
/// one.
pub fn add_in_row<'a>(
    alloc: Global,
    net: &'a Net,
    flows: &mut Vec<Flow<'a>>,
) -> Result<(), AllocError> {
    let graph = Graph::of_part(alloc, net, &[], net.inputs() < net.outputs())?;
    let mut paths = Paths::new(alloc, &graph)?;
    match first_lines(alloc, net, &mut paths)? {
        Some(near) => add_parted(alloc, net, &paths, near, flows),
        None => Ok(()),
    }
}

/// Adds the flows of two networks in a row, by which splitters lie before the first lines between them.
fn add_parted<'a>(
    alloc: Global,
    net: &'a Net,
    paths: &Paths,
    near: Vec<bool>,
    flows: &mut Vec<Flow<'a>>,
) -> Result<(), AllocError> {
    let mut row = Row {
        net,
        near,
        cut: Vec::new(alloc),
        forks: false,
    };
    if row.move_on(alloc, paths)? && row.has_as_many(paths) {
        row.add_flows(alloc, paths.graph.is_turned, flows)?;
    }
    Ok(())
}

/// For each splitter whether it lies before the first lines of which there are as many as there are ends on the side that
/// has fewer, so that as many paths lead along them. None where there are no such lines, or as many ends on both sides.
fn first_lines(
    alloc: Global,
    net: &Net,
    paths: &mut Paths,
) -> Result<Option<Vec<bool>>, AllocError> {
    if net.inputs() == net.outputs() {
        return Ok(None);
    }
    for _ in 0..net.inputs().min(net.outputs()) {
        if !paths.add(alloc)? {
            return Ok(None);
        }
    }
    paths.before_lines(alloc)
}

impl<'a> Row<'a> {
    /// Cuts the loops beyond the lines, and moves these behind splitters. Tells whether what lies beyond has centres.
    fn move_on(&mut self, alloc: Global, paths: &Paths) -> Result<bool, AllocError> {
        let far = Flow::of(alloc, self.net, &self.near)?;
        if far.centres.is_empty() {
            return Ok(false);
        }
        self.cut.extend_from_slice(&far.cut)?;
        self.forks = far.forks;
        for step in 0..far.order.len() {
            let splitter = far.splitter_at(step, paths.graph.is_turned);
            if self.can_pass(paths, splitter) {
                self.pass(alloc, splitter)?;
            }
        }
        Ok(true)
    }

    /// Whether a splitter mixes lines: all edges to it are lines, and as many lead on from it to splitters.
    fn can_pass(&self, paths: &Paths, splitter: usize) -> bool {
        let (ins, outs) = (paths.graph.ins(splitter), paths.graph.outs(splitter));
        ins.len() == outs.len()
            && !is_set(&self.near, splitter)
            && ins.iter().all(|edge| self.is_line(paths, *edge))
            && outs.iter().all(|edge| paths.graph.target(*edge).is_some())
    }

    /// Whether an edge leads from a splitter before the lines to one beyond.
    fn is_line(&self, paths: &Paths, edge: usize) -> bool {
        match (paths.graph.start(edge), paths.graph.target(edge)) {
            (Some(start), Some(target)) => {
                is_set(&self.near, start) && !is_set(&self.near, target)
            }
            _ => false,
        }
    }

    /// Moves the lines behind a splitter, unless what lies beyond has no centres then.
    fn pass(&mut self, alloc: Global, splitter: usize) -> Result<(), AllocError> {
        mark(&mut self.near, splitter, true);
        let far = self.far(alloc)?;
        mark(&mut self.near, splitter, !far.centres.is_empty());
        Ok(())
    }

    /// Whether as many lines lead from splitters to splitters as there are ends on the side that has fewer.
    fn has_as_many(&self, paths: &Paths) -> bool {
        let mut lines: usize = 0;
        for edge in 0..paths.graph.edges() {
            if self.is_line(paths, edge) {
                lines = lines.saturating_add(1);
            }
        }
        lines == self.net.inputs().min(self.net.outputs()) as usize
    }

    /// What lies beyond the lines.
    fn far(&self, alloc: Global) -> Result<Flow<'a>, AllocError> {
        let cut = Vec::from_slice(alloc, &self.cut)?;
        Flow::with_cuts(alloc, self.net, &self.near, cut, self.forks)
    }

    /// What lies before the lines.
    fn before(&self, alloc: Global) -> Result<Flow<'a>, AllocError> {
        let mut outside = Vec::new(alloc);
        for is_near in &self.near {
            outside.push(!*is_near)?;
        }
        Flow::of(alloc, self.net, &outside)
    }

    /// Adds the flows before the lines and beyond them, those at the outputs first, where both have centres.
    fn add_flows(
        &self,
        alloc: Global,
        is_turned: bool,
        flows: &mut Vec<Flow<'a>>,
    ) -> Result<(), AllocError> {
        if is_turned {
            flows.push(self.before(alloc)?)?;
            flows.push(self.far(alloc)?)?;
        } else {
            flows.push(self.far(alloc)?)?;
            flows.push(self.before(alloc)?)?;
        }
        if flows.iter().any(|flow| flow.centres.is_empty()) {
            flows.clear();
        }
        Ok(())
    }
}
