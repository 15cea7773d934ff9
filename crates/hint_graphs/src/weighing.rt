//! Which splitters reach the ends of a network evenly: by numbers that stand for the weights of all ends, so that whole
//! sums need not be made. Below a splitter is what lies towards the outputs, above it what lies towards the inputs.
//! Nothing rests on it.
use crate::colours::mixed;
use crate::graph::Graph;
use crate::lists::{is_set, mark};
use crate::order::ordered;
use std::alloc::{AllocError, Global};

/// The prime modulo which weights are added.
const PRIME: u64 = 2_147_483_647;

/// What is half of one modulo the prime: twice this number is 1.
const HALF: u64 = 1_073_741_824;

/// The parts of one in which sizes are told.
pub const UNIT: u64 = 1 << 56;

/// Weights of ends.
#[derive(Clone, Copy)]
struct Weight {
    /// How much flow it stands for at most, in parts of `UNIT`.
    size: u64,
    /// The sum of the weights, by the prime.
    count: u64,
    /// The sum of the weights times numbers of the ends that look like chance, by the prime.
    chance: u64,
}

impl Weight {
    const NONE: Weight = Weight {
        size: 0,
        count: 0,
        chance: 0,
    };

    /// The weight of the one end at an edge, through which as much flows as the cap at most.
    fn of(edge: usize, cap: u64) -> Weight {
        Weight {
            size: cap.saturating_mul(UNIT),
            count: 1,
            chance: mixed(edge as u64) % PRIME,
        }
    }

    /// The weights of both together.
    fn plus(self, other: Weight) -> Weight {
        Weight {
            size: self.size.saturating_add(other.size),
            count: self.count.wrapping_add(other.count) % PRIME,
            chance: self.chance.wrapping_add(other.chance) % PRIME,
        }
    }

    /// Each one's share of it among so many edges: all or half. None where they are neither one nor two, or half of the
    /// size isn't whole.
    fn shared(self, among: usize) -> Option<Weight> {
        match among {
            1 => Some(self),
            2 if self.size % 2 == 0 => Some(Weight {
                size: self.size / 2,
                count: self.count.wrapping_mul(HALF) % PRIME,
                chance: self.chance.wrapping_mul(HALF) % PRIME,
            }),
            _ => None,
        }
    }

    /// Whether it isn't nothing, and each end has the same part in it as in another weight.
    fn is_part_of(&self, all: &Weight) -> bool {
        self.count != 0 && are_alike(self.count, all.chance, self.chance, all.count)
    }
}

/// Whether two products are the same modulo the prime.
fn are_alike(first: u64, by: u64, second: u64, other: u64) -> bool {
    first.wrapping_mul(by) % PRIME == second.wrapping_mul(other) % PRIME
}

/// The weights of the ends that edges reach.
#[derive(Drop)]
pub struct Weighed {
    /// The splitters, each behind those from which edges lead to it that aren't cut.
    pub order: Vec<usize>,
    /// For each edge the weight of the ends below, one where it ends there.
    below: Vec<Option<Weight>>,
    /// For each edge the weight of the ends above, one where it begins there.
    above: Vec<Option<Weight>>,
    sinks: Weight,
    sources: Weight,
}

/// Weighs the ends that edges reach where some are cut, which joints share: with `forks` those of their out edges.
pub fn weigh(
    alloc: Global,
    graph: &Graph,
    cut: &[bool],
    forks: bool,
) -> Result<Weighed, AllocError> {
    let edges = graph.edges();
    let apart = graph.with_ends(alloc, cut)?;
    let mut weighed = Weighed {
        order: ordered(alloc, graph.net, !graph.is_turned, &apart)?,
        below: vec![in alloc; None; edges]?,
        above: vec![in alloc; None; edges]?,
        sinks: Weight::NONE,
        sources: Weight::NONE,
    };
    weighed.begin(graph, cut);
    weighed.join(graph, cut, forks);
    weighed.go_up(graph, cut);
    weighed.go_down(graph, cut);
    Ok(weighed)
}

/// The edges of a splitter that are shared where both are cut: those into it, or with `forks` those out of it.
pub fn shared_edges<'a>(graph: &'a Graph, splitter: usize, forks: bool) -> &'a [usize] {
    if forks {
        graph.outs(splitter)
    } else {
        graph.ins(splitter)
    }
}

/// Whether a splitter has two in edges, which are cut: it is the last one of what ends with these edges, and the first one of
/// what begins with them. With `forks` the same of its out edges.
pub fn is_joint(graph: &Graph, cut: &[bool], splitter: usize, forks: bool) -> bool {
    let edges = shared_edges(graph, splitter, forks);
    edges.len() == 2 && edges.iter().all(|edge| is_set(cut, *edge))
}

/// The sum of the weights of edges, where all have one.
fn sum(weights: &[Option<Weight>], edges: &[usize]) -> Option<Weight> {
    let mut sum = Weight::NONE;
    for edge in edges {
        sum = sum.plus((*weights.get(*edge)?)?);
    }
    Some(sum)
}

/// Gives an edge a weight, where there is such an edge.
fn put(weights: &mut [Option<Weight>], edge: usize, weight: Weight) {
    if edge < weights.len() {
        weights[edge] = Some(weight);
    }
}

/// Gives edges that aren't cut a weight, where their caps suffice for it.
fn give(
    graph: &Graph,
    cut: &[bool],
    weights: &mut [Option<Weight>],
    edges: &[usize],
    weight: Weight,
) {
    for edge in edges {
        if !is_set(cut, *edge) && weight.size <= graph.cap(*edge).saturating_mul(UNIT) {
            put(weights, *edge, weight);
        }
    }
}

/// Gives each of some edges its share of the weights of all of them, where that is whole.
fn join_at(weights: &mut [Option<Weight>], edges: &[usize]) {
    if let Some(all) = sum(weights, edges) {
        if let Some(weight) = all.shared(edges.len()) {
            for edge in edges {
                put(weights, *edge, weight);
            }
        }
    }
}

impl Weighed {
    /// Weighs the edges at ends and those that are cut.
    fn begin(&mut self, graph: &Graph, cut: &[bool]) {
        for edge in 0..graph.edges() {
            let weight = Weight::of(edge, graph.cap(edge));
            if is_set(cut, edge) || graph.leaves(edge) {
                put(&mut self.below, edge, weight);
                self.sinks = self.sinks.plus(weight);
            }
            if is_set(cut, edge) || graph.enters(edge) {
                put(&mut self.above, edge, weight);
                self.sources = self.sources.plus(weight);
            }
        }
    }

    /// Shares what ends with the in edges of joints between these: it doesn't matter which of them brings it. With `forks`
    /// what begins with their out edges.
    fn join(&mut self, graph: &Graph, cut: &[bool], forks: bool) {
        for splitter in 0..graph.splitters() {
            if is_joint(graph, cut, splitter, forks) {
                let edges = shared_edges(graph, splitter, forks);
                if forks {
                    join_at(&mut self.above, edges);
                } else {
                    join_at(&mut self.below, edges);
                }
            }
        }
    }

    /// Weighs what is above, from the inputs on.
    fn go_down(&mut self, graph: &Graph, cut: &[bool]) {
        for splitter in &self.order {
            let outs = graph.outs(*splitter);
            if let Some(all) = sum(&self.above, graph.ins(*splitter)) {
                if let Some(weight) = all.shared(outs.len()) {
                    give(graph, cut, &mut self.above, outs, weight);
                }
            }
        }
    }

    /// Weighs what is below, from the outputs back.
    fn go_up(&mut self, graph: &Graph, cut: &[bool]) {
        for splitter in self.order.iter().rev() {
            let ins = graph.ins(*splitter);
            if let Some(all) = sum(&self.below, graph.outs(*splitter)) {
                if let Some(weight) = all.shared(ins.len()) {
                    give(graph, cut, &mut self.below, ins, weight);
                }
            }
        }
    }

    /// The weight of the ends below a splitter, where all that flows end with have the same part in it; else none.
    fn even_below(&self, graph: &Graph, splitter: usize) -> Option<Weight> {
        let weight = sum(&self.below, graph.outs(splitter))?;
        if weight.is_part_of(&self.sinks) {
            Some(weight)
        } else {
            None
        }
    }

    /// The weight of the ends above a splitter, where all that flows begin with have the same part in it; else none.
    fn even_above(&self, graph: &Graph, splitter: usize) -> Option<Weight> {
        let weight = sum(&self.above, graph.ins(splitter))?;
        if weight.is_part_of(&self.sources) {
            Some(weight)
        } else {
            None
        }
    }

    /// How many splitters reach the ends evenly, and how many are reached so.
    pub fn score(&self, graph: &Graph) -> usize {
        let mut score: usize = 0;
        for splitter in 0..graph.splitters() {
            if self.even_below(graph, splitter).is_some() {
                score = score.saturating_add(1);
            }
            if self.even_above(graph, splitter).is_some() {
                score = score.saturating_add(1);
            }
        }
        score
    }

    /// Whether each end below a splitter has the same part there, and each above it too, and the two parts are the
    /// same.
    fn is_even(&self, graph: &Graph, splitter: usize) -> bool {
        match (
            self.even_below(graph, splitter),
            self.even_above(graph, splitter),
        ) {
            (Some(below), Some(above)) => {
                are_alike(
                    below.count,
                    self.sources.count,
                    above.count,
                    self.sinks.count,
                )
            }
            _ => false,
        }
    }

    /// The first splitters on the way from the inputs that are even, where all that flows goes through them and no loop
    /// is left; else none.
    pub fn centres(
        &self,
        alloc: Global,
        graph: &Graph,
        cut: &[bool],
    ) -> Result<Vec<usize>, AllocError> {
        let mut centres = Vec::new(alloc);
        let mut reached = vec![in alloc; false; graph.splitters()]?;
        let mut through: u64 = 0;
        for splitter in &self.order {
            let behind = follows(graph, cut, &reached, *splitter);
            let even = self.is_even(graph, *splitter);
            if even && !behind {
                centres.push(*splitter)?;
                through = through.wrapping_add(self.count_below(graph, *splitter)) % PRIME;
            }
            mark(&mut reached, *splitter, even || behind);
        }
        if through != self.sinks.count || self.order.len() < graph.splitters() {
            centres.clear();
        }
        Ok(centres)
    }

    /// The sum of the weights of the ends below a splitter modulo the prime, 0 where these aren't even.
    fn count_below(&self, graph: &Graph, splitter: usize) -> u64 {
        match self.even_below(graph, splitter) {
            Some(weight) => weight.count,
            None => 0,
        }
    }
}

/// Whether an edge that isn't cut leads to a splitter from one that was reached.
fn follows(graph: &Graph, cut: &[bool], reached: &[bool], splitter: usize) -> bool {
    for edge in graph.ins(splitter) {
        if let Some(start) = graph.start(*edge) {
            if !is_set(cut, *edge) && is_set(reached, start) {
                return true;
            }
        }
    }
    false
}
