//! What lies to one side of the centres of a network: the splitters and edges below them or above them, with the means of the
//! ends that these reach.
use hint_graphs::{Flow, is_set, mark};
use hint_scopes::{Compared, Term, merged, shared, single};
use std::alloc::{AllocError, Global};

/// What lies to one side of the centres.
#[derive(Drop)]
pub struct Side {
    /// Whether it is the side of the outputs.
    pub is_below: bool,
    /// For each splitter whether it is a centre, or lies to this side of one.
    splitters: Vec<bool>,
    /// For each splitter whether it is the centre at which an argument ends, or lies to this side of it.
    chosen: Vec<bool>,
    /// For each splitter of these the mean of the ends that an edge reaches by it.
    means: Vec<Vec<Term>>,
    /// For each edge the comparison of its flow with the mean of the ends that it reaches.
    compared: Vec<Option<Compared>>,
    /// For each splitter, where it is a centre, the comparison of what goes through it with the ends that it reaches.
    sums: Vec<Option<Compared>>,
    /// For each splitter the place of its scope.
    at_splitters: Vec<usize>,
    /// For each splitter the place of the scope of its edges.
    at_edges: Vec<usize>,
    /// For each splitter the place of the scope of what ends with the edges that it shares, where it is a joint.
    at_joints: Vec<usize>,
}

impl Side {
    /// The side of the centres with nothing compared yet.
    pub fn of(alloc: Global, flow: &Flow, is_below: bool) -> Result<Side, AllocError> {
        let mut side = Side::empty(alloc, flow, is_below)?;
        for centre in &flow.centres {
            mark(&mut side.splitters, *centre, true);
        }
        mark(&mut side.chosen, flow.centre(), true);
        for step in 0..flow.order.len() {
            let splitter = flow.splitter_at(step, !is_below);
            side.reach(flow, splitter);
        }
        for step in 0..flow.order.len() {
            let splitter = flow.splitter_at(step, is_below);
            side.weigh(alloc, flow, splitter)?;
        }
        Ok(side)
    }

    /// The side with no splitter reached and no mean made yet.
    fn empty(alloc: Global, flow: &Flow, is_below: bool) -> Result<Side, AllocError> {
        let splitters = flow.graph.splitters();
        let edges = flow.graph.edges();
        Ok(Side {
            is_below,
            splitters: vec![in alloc; false; splitters]?,
            chosen: vec![in alloc; false; splitters]?,
            means: no_means(alloc, splitters)?,
            compared: vec![in alloc; None; edges]?,
            sums: vec![in alloc; None; splitters]?,
            at_splitters: vec![in alloc; usize::MAX; splitters]?,
            at_edges: vec![in alloc; usize::MAX; splitters]?,
            at_joints: vec![in alloc; usize::MAX; splitters]?,
        })
    }

    /// Whether a splitter is a centre, or lies to this side of one.
    pub fn has(&self, splitter: usize) -> bool {
        is_set(&self.splitters, splitter)
    }

    /// Whether a splitter is the centre at which an argument ends, or lies to this side of it.
    pub fn is_chosen(&self, splitter: usize) -> bool {
        is_set(&self.chosen, splitter)
    }

    /// Whether joints share what ends on this side.
    pub fn has_joints(&self, flow: &Flow) -> bool {
        self.is_below != flow.forks
    }

    /// The edges of a splitter that lead to this side.
    pub fn near<'a>(&self, flow: &'a Flow, splitter: usize) -> &'a [usize] {
        if self.is_below {
            flow.graph.outs(splitter)
        } else {
            flow.graph.ins(splitter)
        }
    }

    /// How many edges of a splitter lead to the other side.
    fn far_edges(&self, flow: &Flow, splitter: usize) -> usize {
        if self.is_below {
            flow.graph.ins(splitter).len()
        } else {
            flow.graph.outs(splitter).len()
        }
    }

    /// The splitter to which an edge leads on this side, where it isn't cut.
    pub fn beyond(&self, flow: &Flow, edge: usize) -> Option<usize> {
        if is_set(&flow.cut, edge) {
            None
        } else if self.is_below {
            flow.graph.target(edge)
        } else {
            flow.graph.start(edge)
        }
    }

    /// Reaches what lies to this side of a splitter that was reached.
    fn reach(&mut self, flow: &Flow, splitter: usize) {
        if self.has(splitter) {
            for edge in self.near(flow, splitter) {
                if let Some(next) = self.beyond(flow, *edge) {
                    mark(&mut self.splitters, next, true);
                    let chosen = self.is_chosen(splitter) || self.is_chosen(next);
                    mark(&mut self.chosen, next, chosen);
                }
            }
        }
    }

    /// Makes the mean at a splitter that was reached: what one edge of the other side has of all that the splitter's
    /// edges of this side reach.
    fn weigh(&mut self, alloc: Global, flow: &Flow, splitter: usize) -> Result<(), AllocError> {
        if self.has(splitter) && splitter < self.means.len() {
            let sum = self.sum_at(alloc, flow, splitter)?;
            let among = self.far_edges(flow, splitter);
            self.means[splitter] = shared(alloc, &sum, among)?;
        }
        Ok(())
    }

    /// The sum of the means of the ends that the edges of a splitter reach.
    pub fn sum_at(
        &self,
        alloc: Global,
        flow: &Flow,
        splitter: usize,
    ) -> Result<Vec<Term>, AllocError> {
        let mut terms = Vec::new(alloc);
        for edge in self.near(flow, splitter) {
            match self.mean_beyond(alloc, flow, *edge)? {
                Some(mean) => terms.extend_from_slice(&mean)?,
                None => terms.push(single(*edge))?,
            }
        }
        merged(alloc, &mut terms)
    }

    /// The mean of the ends that an edge reaches. None where it is such an end itself, unless on the side where joints
    /// share what ends it is one of two edges that a joint shares: then the mean of both.
    pub fn mean_beyond(
        &self,
        alloc: Global,
        flow: &Flow,
        edge: usize,
    ) -> Result<Option<Vec<Term>>, AllocError> {
        if let Some(next) = self.beyond(flow, edge) {
            return Ok(Some(Vec::from_slice(alloc, self.mean(next))?));
        }
        match flow.joint(edge) {
            Some(joint) if self.has_joints(flow) => Ok(Some(mean_at(alloc, flow, joint)?)),
            _ => Ok(None),
        }
    }

    /// The mean of the ends that an edge reaches by a splitter; no term where the splitter wasn't reached.
    pub fn mean(&self, splitter: usize) -> &[Term] {
        match self.means.get(splitter) {
            Some(mean) => mean,
            None => &[],
        }
    }

    /// How many terms the means have with which edges are compared.
    pub fn terms(&self) -> usize {
        let mut count: usize = 0;
        for mean in &self.means {
            count = count.saturating_add(mean.len());
        }
        count
    }

    /// Takes in the comparison of an edge.
    pub fn compare(&mut self, edge: usize, compared: Option<Compared>) {
        if edge < self.compared.len() {
            self.compared[edge] = compared;
        }
    }

    /// Takes in the comparison at a centre.
    pub fn compare_sum(&mut self, splitter: usize, compared: Option<Compared>) {
        if splitter < self.sums.len() {
            self.sums[splitter] = compared;
        }
    }

    /// The comparison of an edge's flow with the mean of the ends that it reaches, where there is one.
    pub fn compared(&self, edge: usize) -> Option<Compared> {
        *self.compared.get(edge)?
    }

    /// The comparison of what goes through a centre with the ends that it reaches, where there is one.
    pub fn sum(&self, splitter: usize) -> Option<Compared> {
        *self.sums.get(splitter)?
    }

    /// Takes in the places of the scopes of a splitter and of its edges.
    pub fn place(&mut self, splitter: usize, at_splitter: usize, at_edges: usize) {
        if splitter < self.at_splitters.len() && splitter < self.at_edges.len() {
            self.at_splitters[splitter] = at_splitter;
            self.at_edges[splitter] = at_edges;
        }
    }

    /// Takes in the place of the scope of what ends with the edges that a joint shares.
    pub fn place_joint(&mut self, splitter: usize, at_joint: usize) {
        if splitter < self.at_joints.len() {
            self.at_joints[splitter] = at_joint;
        }
    }

    /// The place of the scope of what ends with the edges that a joint shares, `usize::MAX` where it has none.
    pub fn at_joint(&self, splitter: usize) -> usize {
        self.at_joints.get(splitter).copied().unwrap_or(usize::MAX)
    }

    /// The place of the scope of a splitter, `usize::MAX` where it has none.
    pub fn at_splitter(&self, splitter: usize) -> usize {
        self.at_splitters
            .get(splitter)
            .copied()
            .unwrap_or(usize::MAX)
    }

    /// The place of the scope of the edges of a splitter, `usize::MAX` where it has none.
    pub fn at_edges(&self, splitter: usize) -> usize {
        self.at_edges.get(splitter).copied().unwrap_or(usize::MAX)
    }
}

/// The mean of the edges that a joint shares.
fn mean_at(alloc: Global, flow: &Flow, joint: usize) -> Result<Vec<Term>, AllocError> {
    let edges = flow.shared(joint);
    let mut terms = Vec::new(alloc);
    for edge in edges {
        terms.push(single(*edge))?;
    }
    let sum = merged(alloc, &mut terms)?;
    shared(alloc, &sum, edges.len())
}

/// So many empty lists: no splitter has a mean yet.
fn no_means(alloc: Global, count: usize) -> Result<Vec<Vec<Term>>, AllocError> {
    let mut means = Vec::new(alloc);
    for _ in 0..count {
        means.push(Vec::new(alloc))?;
    }
    Ok(means)
}
