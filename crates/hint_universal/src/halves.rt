//! Networks whose spare ends lead back: which edges are cut, and the means of what begins.
//!
//! Seen from one side, the inputs or the outputs, flows begin at the ends there and at the edges that are cut, and all that
//! begins is dealt evenly to the splitters of the last stage, behind which lie ends of the other side and cut edges alone.
use hint_graphs::{Graph, is_set, ordered};
use hint_scopes::{Term, merged, shared, single};
use std::alloc::{AllocError, Global};

/// A network with edges that are cut, seen from one side.
#[derive(Drop)]
pub struct Halves<'a> {
    pub graph: &'a Graph<'a>,
    /// Whether flows begin at the outputs, as what backs up does.
    pub from_outputs: bool,
    /// For each edge whether it is cut.
    is_cut: &'a [bool],
    /// The edges that are cut, in order.
    cut_edges: Vec<usize>,
    /// The column of what begins at the first of these. Those of the others follow.
    first: usize,
    /// For each edge the column of what begins there, where it is cut.
    columns: Vec<usize>,
    /// The splitters, each behind those before it.
    pub order: Vec<usize>,
    /// For each edge the mean of what it comes of.
    means: Vec<Vec<Term>>,
    /// The splitters of the last stage.
    pub last: Vec<usize>,
    /// What each of the last stage gets.
    pub share: Vec<Term>,
}

/// Which edges that lead from one splitter to another are cut.
#[derive(Clone, Copy)]
pub enum Spare {
    /// Those beside an edge that is given first.
    BesideGiven,
    /// Those beside an edge that is taken first.
    BesideTaken,
    /// Both of these, and those that are alone at both of their splitters: there the ends are left out that the splitters
    /// would prefer. Such an end carries nothing, as one that is blocked or has no load.
    BesideAny,
}

/// For each edge whether it is cut, as one that is spare in this sense.
pub fn spare_edges(alloc: Global, graph: &Graph, spare: Spare) -> Result<Vec<bool>, AllocError> {
    let mut cut = Vec::new(alloc);
    for edge in 0..graph.edges() {
        cut.push(is_spare(graph, edge, spare))?;
    }
    Ok(cut)
}

/// Whether an edge leads from one splitter to another and is cut.
fn is_spare(graph: &Graph, edge: usize, spare: Spare) -> bool {
    let (Some(start), Some(target)) = (graph.start(edge), graph.target(edge)) else {
        return false;
    };
    let is_beside_given = is_other(graph.net.give(start), edge);
    let is_beside_taken = is_other(graph.net.take(target), edge);
    let is_alone = graph.outs(start).len() == 1 && graph.ins(target).len() == 1;
    match spare {
        Spare::BesideGiven => is_beside_given,
        Spare::BesideTaken => is_beside_taken,
        Spare::BesideAny => is_beside_given || is_beside_taken || is_alone,
    }
}

/// Whether some edge is preferred, and it isn't this one.
fn is_other(preferred: Option<usize>, edge: usize) -> bool {
    match preferred {
        Some(preferred) => preferred != edge,
        None => false,
    }
}

/// The edges that are cut, in order.
fn edges_of(alloc: Global, cut: &[bool]) -> Result<Vec<usize>, AllocError> {
    let mut edges = Vec::new(alloc);
    for (edge, is_cut) in cut.iter().enumerate() {
        if *is_cut {
            edges.push(edge)?;
        }
    }
    Ok(edges)
}

/// For each edge that is cut a column of its own, from the first on. Those of other edges say nothing.
fn columns_from(alloc: Global, cut: &[bool], first: usize) -> Result<Vec<usize>, AllocError> {
    let mut columns = Vec::new(alloc);
    let mut next = first;
    for is_cut in cut {
        columns.push(next)?;
        if *is_cut {
            next = next.saturating_add(1);
        }
    }
    Ok(columns)
}

/// So many empty lists: no edge has a mean yet.
fn no_means(alloc: Global, count: usize) -> Result<Vec<Vec<Term>>, AllocError> {
    let mut means = Vec::new(alloc);
    for _ in 0..count {
        means.push(Vec::new(alloc))?;
    }
    Ok(means)
}

impl<'a> Halves<'a> {
    /// A network seen from one side, where these edges are cut. Columns that are defined begin with this one. None where not
    /// all that begins is dealt evenly to the splitters of the last stage, or one of these prefers no end of those behind it.
    pub fn of(
        alloc: Global,
        graph: &'a Graph<'a>,
        from_outputs: bool,
        is_cut: &'a [bool],
        column: usize,
    ) -> Result<Option<Halves<'a>>, AllocError> {
        let mut halves = Halves {
            graph,
            from_outputs,
            is_cut,
            cut_edges: edges_of(alloc, is_cut)?,
            first: column,
            columns: columns_from(alloc, is_cut, column)?,
            order: ordered(alloc, graph.net, !from_outputs, is_cut)?,
            means: no_means(alloc, graph.edges())?,
            last: Vec::new(alloc),
            share: Vec::new(alloc),
        };
        if halves.weigh(alloc)? {
            Ok(Some(halves))
        } else {
            Ok(None)
        }
    }

    /// The edges of a splitter through which flows come to it, seen from this side.
    pub fn before(&self, splitter: usize) -> &[usize] {
        if self.from_outputs {
            self.graph.outs(splitter)
        } else {
            self.graph.ins(splitter)
        }
    }

    /// The edges of a splitter through which flows leave it, seen from this side.
    pub fn behind(&self, splitter: usize) -> &[usize] {
        if self.from_outputs {
            self.graph.ins(splitter)
        } else {
            self.graph.outs(splitter)
        }
    }

    /// Whether an edge is cut.
    pub fn is_cut(&self, edge: usize) -> bool {
        is_set(self.is_cut, edge)
    }

    /// The number of the end on the other side at which an edge lies; none where it lies at none there.
    pub fn end(&self, edge: usize) -> Option<usize> {
        self.graph.end(edge, !self.from_outputs)
    }

    /// Whether each splitter of the last stage behind which an end lies prefers one.
    fn prefers_ends(&self) -> bool {
        self.last.iter().all(|splitter| self.has_no_end(*splitter) || self.prefers_end(*splitter))
    }

    /// Whether no end lies behind a splitter.
    fn has_no_end(&self, splitter: usize) -> bool {
        self.behind(splitter)
            .iter()
            .all(|edge| self.end(*edge).is_none())
    }

    /// Whether a splitter prefers an end behind it.
    fn prefers_end(&self, splitter: usize) -> bool {
        let first = if self.from_outputs {
            self.graph.net.take(splitter)
        } else {
            self.graph.net.give(splitter)
        };
        match first {
            Some(edge) => self.end(edge).is_some(),
            None => false,
        }
    }

    /// Whether an edge lies at an end of this side, where flows begin.
    pub fn begins(&self, edge: usize) -> bool {
        self.graph.end(edge, self.from_outputs).is_some()
    }

    /// Whether flows end with an edge.
    pub fn ends(&self, edge: usize) -> bool {
        self.is_cut(edge) || self.end(edge).is_some()
    }

    /// The column of what begins at a cut edge. For another edge it says nothing.
    pub fn column(&self, edge: usize) -> usize {
        self.columns.get(edge).copied().unwrap_or(usize::MAX)
    }

    /// The cut edge whose column this is; none where it is the flow of an edge or no such column.
    pub fn cut_of(&self, column: usize) -> Option<usize> {
        if column < self.graph.edges() {
            return None;
        }
        let place = column.saturating_sub(self.first);
        self.cut_edges.get(place).copied()
    }

    /// The first edge that is cut.
    pub fn first_cut(&self) -> Option<usize> {
        self.cut_edges.first().copied()
    }

    /// The splitter of the last stage at a place, `usize::MAX` where there is none.
    pub fn last_at(&self, place: usize) -> usize {
        self.last.get(place).copied().unwrap_or(usize::MAX)
    }

    /// The mean of what an edge comes of, where it lies between two splitters and isn't cut. Else it has no terms.
    pub fn mean(&self, edge: usize) -> &[Term] {
        match self.means.get(edge) {
            Some(mean) => mean,
            None => &[],
        }
    }

    /// Finds the means, and tells whether all that begins is dealt evenly to the splitters of the last stage, and these prefer
    /// ends.
    fn weigh(&mut self, alloc: Global) -> Result<bool, AllocError> {
        if self.order.len() < self.graph.splitters() {
            return Ok(false);
        }
        for step in 0..self.order.len() {
            if !self.weigh_at(alloc, step)? {
                return Ok(false);
            }
        }
        Ok(self.is_even() && self.prefers_ends())
    }

    /// Finds the means behind the splitter after `step` others in the order, or adds it to the last stage where flows
    /// end behind it. False where flows end with some of its edges alone, or it doesn't get what the others of the last
    /// stage do.
    fn weigh_at(&mut self, alloc: Global, step: usize) -> Result<bool, AllocError> {
        let splitter = self.order.get(step).copied().unwrap_or(usize::MAX);
        let sum = self.sum_into(alloc, splitter)?;
        let behind = Vec::from_slice(alloc, self.behind(splitter))?;
        let ends = behind.iter().filter(|edge| self.ends(**edge)).count();
        if ends == 0 && !behind.is_empty() {
            self.deal(alloc, &behind, &sum)?;
            return Ok(true);
        }
        self.last.push(splitter)?;
        Ok(ends == behind.len() && self.is_share(sum))
    }

    /// The sum of what comes into a splitter.
    fn sum_into(&self, alloc: Global, splitter: usize) -> Result<Vec<Term>, AllocError> {
        let mut terms = Vec::new(alloc);
        for edge in self.before(splitter) {
            if self.is_cut(*edge) {
                terms.push(single(self.column(*edge)))?;
            } else if self.begins(*edge) {
                terms.push(single(*edge))?;
            } else {
                terms.extend_from_slice(self.mean(*edge))?;
            }
        }
        merged(alloc, &mut terms)
    }

    /// Gives each of some edges its share of a sum as its mean.
    fn deal(&mut self, alloc: Global, edges: &[usize], sum: &[Term]) -> Result<(), AllocError> {
        for edge in edges {
            let mean = shared(alloc, sum, edges.len())?;
            if *edge < self.means.len() {
                self.means[*edge] = mean;
            }
        }
        Ok(())
    }

    /// Whether a splitter that was just added to the last stage gets what the first one there does: that is kept as the
    /// share.
    fn is_share(&mut self, sum: Vec<Term>) -> bool {
        if self.last.len() == 1 {
            self.share = sum;
            return true;
        }
        self.share == sum
    }

    /// Whether the share of the last stage is the same part of each thing that begins: one of as many as that stage has
    /// splitters.
    fn is_even(&self) -> bool {
        let parts = self.last.len() as u64;
        let all = self.share.iter().all(|term| term.is_part_of(parts));
        all && !self.share.is_empty() && self.share.len() == self.starts()
    }

    /// How many edges there are at which flows begin.
    fn starts(&self) -> usize {
        let mut count: usize = 0;
        for edge in 0..self.graph.edges() {
            if self.begins(edge) || self.is_cut(edge) {
                count = count.saturating_add(1);
            }
        }
        count
    }
}
