//! The argument for `balanced` and `drawn-evenly` of large networks without loops: which edges carry the same where each
//! splitter divides evenly. Edges are of one kind whose flows are the same sum of what begins. Each is compared with the first
//! of its kind, by the rows of both splitters and by the comparisons of what comes to these. So no step speaks of more than a
//! few edges, where the rows of all splitters together would have to be solved else.
use bt_cnf::{Formula, Lit};
use bt_net::Net;
use hint_graphs::{Graph, has_no_preference, list_at, loopless, places_of};
use hint_scopes::{
    Comparison, Line, Next, add_aim, add_opposites, add_scope, apart, in_order, opposite_of,
};
use std::alloc::{AllocError, Global};

/// Of fewer splitters than this nothing is defined: the logs are shorter so.
const LEAST_SPLITTERS: u32 = 96;

/// The prime modulo which numbers are taken that stand for flows.
const PRIME: u64 = 2_147_483_647;

/// What is half of one modulo the prime: twice this number is 1.
const HALF: u64 = 1_073_741_824;

/// By what the numbers of what begins are multiplied, one after another, so that they look like chance.
const MULTIPLIER: u64 = 48_271;

/// The comparisons of an edge with the first of its kind.
#[derive(Clone, Copy)]
struct Alike {
    at_least: Comparison,
    at_most: Comparison,
}

impl Alike {
    /// Adds the rows of both.
    fn add_rows(self, rows: &mut Vec<usize>) -> Result<(), AllocError> {
        self.at_least.add_rows(rows)?;
        self.at_most.add_rows(rows)
    }
}

/// The argument so far.
#[derive(Drop)]
struct Equalling<'a> {
    graph: &'a Graph<'a>,
    /// Whether flows are followed from the outputs back.
    backward: bool,
    /// The splitters, each behind those by which its flows are known.
    order: Vec<usize>,
    /// For each edge the number that stands for its flow.
    values: Vec<u64>,
    /// For each edge the first of its kind.
    firsts: Vec<usize>,
    alike: Vec<Option<Alike>>,
    /// For each splitter the place of its scope.
    places: Vec<usize>,
}

/// Whether no splitter prefers an edge, and all caps are equal: else what is full need not be even.
pub fn is_plain(net: &Net) -> bool {
    if !has_no_preference(net) {
        return false;
    }
    match net.edges().first() {
        Some(first) => net.edges().iter().all(|edge| edge.cap == first.cap),
        None => false,
    }
}

/// Whether the argument is one for a network: it has many splitters, no loops, no preferred edges and one cap.
pub fn is_equalled(alloc: Global, net: &Net) -> Result<bool, AllocError> {
    if net.splitters() < LEAST_SPLITTERS || !is_plain(net) {
        return Ok(false);
    }
    let order = loopless(alloc, net, true)?;
    Ok(order.len() == net.splitters() as usize)
}

/// Adds the argument for flows that are followed from the inputs on, or with `backward` from the outputs back.
pub fn add_equal(
    alloc: Global,
    net: &Net,
    formula: &Formula,
    line: &mut Line,
    backward: bool,
) -> Result<(), AllocError> {
    let graph = Graph::of(alloc, net)?;
    let mut equalling = Equalling::of(alloc, &graph, backward)?;
    equalling.begin();
    equalling.follow();
    equalling.find_firsts(alloc)?;
    equalling.define(alloc, formula, line)?;
    equalling.argue(alloc, line)?;
    equalling.conclude(alloc, formula, line)
}

impl<'a> Equalling<'a> {
    /// The argument that has given no flow a number yet.
    fn of(
        alloc: Global,
        graph: &'a Graph<'a>,
        backward: bool,
    ) -> Result<Equalling<'a>, AllocError> {
        let edges = graph.edges();
        Ok(Equalling {
            graph,
            backward,
            order: loopless(alloc, graph.net, !backward)?,
            values: vec![in alloc; 0; edges]?,
            firsts: vec![in alloc; usize::MAX; edges]?,
            alike: vec![in alloc; None; edges]?,
            places: places_of(alloc, graph.net, backward)?,
        })
    }

    /// The edges of a splitter that carry the same: those out of it, or followed backward those into it.
    fn even(&self, splitter: usize) -> &'a [usize] {
        if self.backward {
            self.graph.ins(splitter)
        } else {
            self.graph.outs(splitter)
        }
    }

    /// The other edges of a splitter, whose flows are known before.
    fn known(&self, splitter: usize) -> &'a [usize] {
        if self.backward {
            self.graph.outs(splitter)
        } else {
            self.graph.ins(splitter)
        }
    }

    /// The splitter that divides what an edge carries; none where a flow begins with the edge.
    fn maker(&self, edge: usize) -> Option<usize> {
        if self.backward {
            self.graph.target(edge)
        } else {
            self.graph.start(edge)
        }
    }

    /// The number that stands for an edge's flow, 0 where there is no such edge.
    fn value(&self, edge: usize) -> u64 {
        self.values.get(edge).copied().unwrap_or(0)
    }

    /// Gives an edge's flow a number, where there is such an edge.
    fn put(&mut self, edge: usize, value: u64) {
        if edge < self.values.len() {
            self.values[edge] = value;
        }
    }

    /// Gives numbers to the flows that begin at ends, which look like chance.
    fn begin(&mut self) {
        let mut chance: u64 = 1;
        for edge in 0..self.graph.edges() {
            if self.maker(edge).is_none() {
                chance = chance.wrapping_mul(MULTIPLIER) % PRIME;
                self.put(edge, chance);
            }
        }
    }

    /// Gives numbers to the flows that splitters divide, in the order of these.
    fn follow(&mut self) {
        for step in 0..self.order.len() {
            let splitter = self.splitter_at(step);
            let share = self.share(splitter);
            for edge in self.even(splitter) {
                self.put(*edge, share);
            }
        }
    }

    /// The splitter after `step` others in the order, `usize::MAX` where there is none.
    fn splitter_at(&self, step: usize) -> usize {
        self.order.get(step).copied().unwrap_or(usize::MAX)
    }

    /// The number that stands for what each of a splitter's edges carries that carry the same.
    fn share(&self, splitter: usize) -> u64 {
        let mut sum: u64 = 0;
        for edge in self.known(splitter) {
            sum = sum.wrapping_add(self.value(*edge)) % PRIME;
        }
        if self.even(splitter).len() == 2 {
            sum.wrapping_mul(HALF) % PRIME
        } else {
            sum
        }
    }

    /// Finds for each edge the first of its kind, in the order in which their flows are known.
    fn find_firsts(&mut self, alloc: Global) -> Result<(), AllocError> {
        let mut kinds = Vec::new(alloc);
        for edge in 0..self.graph.edges() {
            if self.maker(edge).is_none() {
                self.find_first(&mut kinds, edge)?;
            }
        }
        for step in 0..self.order.len() {
            for edge in self.even(self.splitter_at(step)) {
                self.find_first(&mut kinds, *edge)?;
            }
        }
        Ok(())
    }

    /// Finds the first edge of an edge's kind, among the first ones of all kinds so far. Where its kind is new it is
    /// added to these.
    fn find_first(&mut self, kinds: &mut Vec<usize>, edge: usize) -> Result<(), AllocError> {
        let known = self.first_among(kinds, self.value(edge));
        if known.is_none() {
            kinds.push(edge)?;
        }
        if edge < self.firsts.len() {
            self.firsts[edge] = known.unwrap_or(edge);
        }
        Ok(())
    }

    /// The first of some edges whose flow has this number; none where none has.
    fn first_among(&self, edges: &[usize], value: u64) -> Option<usize> {
        for edge in edges {
            if self.value(*edge) == value {
                return Some(*edge);
            }
        }
        None
    }

    /// The first edge of an edge's kind.
    fn first(&self, edge: usize) -> usize {
        self.firsts.get(edge).copied().unwrap_or(edge)
    }

    /// Defines the comparisons of all edges that aren't the first of their kind.
    fn define(
        &mut self,
        alloc: Global,
        formula: &Formula,
        line: &mut Line,
    ) -> Result<(), AllocError> {
        let mut next = Next::behind(formula);
        for edge in 0..self.graph.edges() {
            let first = self.first(edge);
            if first != edge && edge < self.alike.len() {
                self.alike[edge] = compared(alloc, line, &mut next, edge, first)?;
            }
        }
        Ok(())
    }

    /// Adds the rows by which an edge is compared, where it is.
    fn add_alike(&self, edge: usize, rows: &mut Vec<usize>) -> Result<(), AllocError> {
        match self.alike.get(edge) {
            Some(Some(alike)) => alike.add_rows(rows),
            _ => Ok(()),
        }
    }

    /// Adds the rows of a splitter, and those by which its edges are compared.
    fn add_splitter(
        &self,
        line: &Line,
        splitter: usize,
        rows: &mut Vec<usize>,
    ) -> Result<(), AllocError> {
        let place = self.places.get(splitter).copied().unwrap_or(usize::MAX);
        rows.extend_from_slice(list_at(&line.scopes, place))?;
        for edge in self.known(splitter) {
            self.add_alike(*edge, rows)?;
        }
        for edge in self.even(splitter) {
            self.add_alike(*edge, rows)?;
        }
        Ok(())
    }

    /// Adds that each edge carries what the first of its kind does.
    fn argue(&self, alloc: Global, line: &mut Line) -> Result<(), AllocError> {
        for step in 0..self.order.len() {
            self.argue_at(alloc, line, self.splitter_at(step))?;
        }
        Ok(())
    }

    /// Adds that each edge by which a splitter divides carries what the first of its kind does, by the rows of both
    /// splitters.
    fn argue_at(&self, alloc: Global, line: &mut Line, splitter: usize) -> Result<(), AllocError> {
        let mut rows = Vec::new(alloc);
        self.add_splitter(line, splitter, &mut rows)?;
        for edge in self.even(splitter) {
            if let Some(other) = self.maker(self.first(*edge)) {
                self.add_splitter(line, other, &mut rows)?;
            }
        }
        in_order(&mut rows)?;
        let place = add_scope(line, rows)?;
        for edge in self.even(splitter) {
            self.argue_edge(alloc, line, *edge, place)?;
        }
        Ok(())
    }

    /// Adds that an edge carries what the first of its kind does, by the scope at a place, where the two are compared.
    fn argue_edge(
        &self,
        alloc: Global,
        line: &mut Line,
        edge: usize,
        place: usize,
    ) -> Result<(), AllocError> {
        if let Some(Some(alike)) = self.alike.get(edge) {
            add_aim(alloc, &mut line.aims, &[alike.at_least.is_some()], place)?;
            add_aim(alloc, &mut line.aims, &[alike.at_most.is_some()], place)?;
        }
        Ok(())
    }

    /// Adds that the literals of the last clause are false, each by the comparisons of its edges, and where one isn't so by all
    /// rows that compare flows.
    fn conclude(
        &self,
        alloc: Global,
        formula: &Formula,
        line: &mut Line,
    ) -> Result<(), AllocError> {
        if let Some(last) = formula.clause_at(formula.clauses().saturating_sub(1)) {
            for lit in formula.clause(last) {
                self.refute(alloc, formula, line, *lit)?;
            }
        }
        // The scope of the rows that compare flows stands behind those of splitters.
        add_opposites(alloc, formula, &mut line.aims, self.places.len())
    }

    /// Adds that a literal is false, by the comparisons of the edges of which its row speaks.
    fn refute(
        &self,
        alloc: Global,
        formula: &Formula,
        line: &mut Line,
        lit: Lit,
    ) -> Result<(), AllocError> {
        let mut rows = Vec::new(alloc);
        if let Some(place) = formula.row_of(lit.var) {
            rows.push(place)?;
            if let Some(row) = formula.rows().get(place) {
                for (column, _) in row.terms() {
                    self.add_alike(*column, &mut rows)?;
                }
            }
        }
        in_order(&mut rows)?;
        let place = add_scope(line, rows)?;
        add_aim(alloc, &mut line.aims, &[opposite_of(lit)], place)
    }
}

/// Defines the comparisons of an edge with another one.
fn compared(
    alloc: Global,
    line: &mut Line,
    next: &mut Next,
    edge: usize,
    other: usize,
) -> Result<Option<Alike>, AllocError> {
    let over = apart(alloc, &[edge], &[other])?;
    let under = apart(alloc, &[other], &[edge])?;
    let at_least = next.compare_sum(line, over)?;
    let at_most = next.compare_sum(line, under)?;
    match (at_least, at_most) {
        (Some(at_least), Some(at_most)) => Ok(Some(Alike { at_least, at_most })),
        _ => Ok(None),
    }
}
