//! Which edges of loops are cut: the flow of such an edge counts as one that ends there, and as one that begins there.
use crate::graph::Graph;
use crate::lists::is_set;
use crate::weighing::weigh;
use std::alloc::{AllocError, Global};

/// How many edges are looked at at most, all told, to find better cuts.
const MOST_LOOKS: usize = 1 << 21;

/// How often all splitters are tried.
const ROUNDS: usize = 64;

/// How many times all cuts are moved on.
const LEVELS: usize = 16;

/// For each edge whether it is cut, so that no loop is left: those that lead back in an order of the splitters in which
/// few do, or others to which these can be moved, where more splitters reach the ends evenly then.
pub fn cuts_of(alloc: Global, graph: &Graph) -> Result<Vec<bool>, AllocError> {
    let mut ranking = Ranking::new(alloc, graph)?;
    ranking.rank_all(graph);
    let cut = leading_back(alloc, graph, &ranking.ranks)?;
    if !cut.contains(&true) {
        return Ok(cut);
    }
    let mut search = Search {
        score: 0,
        looks: 0,
        best: Vec::from_slice(alloc, &cut)?,
    };
    search.move_on(alloc, graph, &cut, Side::Ins)?;
    search.move_on(alloc, graph, &cut, Side::Outs)?;
    Ok(search.best)
}

/// For each edge whether it leads back by the ranks of splitters.
fn leading_back(alloc: Global, graph: &Graph, ranks: &[usize]) -> Result<Vec<bool>, AllocError> {
    let mut cut = Vec::new(alloc);
    for edge in 0..graph.edges() {
        cut.push(leads_back(graph, ranks, edge))?;
    }
    Ok(cut)
}

/// Whether an edge leads from a splitter to itself or to one of lower rank.
fn leads_back(graph: &Graph, ranks: &[usize], edge: usize) -> bool {
    match (graph.start(edge), graph.target(edge)) {
        (Some(start), Some(target)) => { at(ranks, start) >= at(ranks, target) }
        _ => false,
    }
}

/// The number at a place, 0 where there is none.
fn at(numbers: &[usize], place: usize) -> usize {
    numbers.get(place).copied().unwrap_or(0)
}

/// A greedy order of the splitters, from both ends.
#[derive(Drop)]
struct Ranking {
    /// For each splitter whether it has a rank.
    ranked: Vec<bool>,
    /// For each splitter how many edges lead to it from those without a rank.
    ins: Vec<usize>,
    /// For each splitter how many edges lead from it to those without a rank.
    outs: Vec<usize>,
    ranks: Vec<usize>,
    /// The next rank from the front.
    front: usize,
    /// The next rank from the back.
    back: usize,
}

impl Ranking {
    /// An order in which no splitter has a rank yet.
    fn new(alloc: Global, graph: &Graph) -> Result<Ranking, AllocError> {
        let count = graph.splitters();
        let mut ranking = Ranking {
            ranked: vec![in alloc; false; count]?,
            ins: vec![in alloc; 0; count]?,
            outs: vec![in alloc; 0; count]?,
            ranks: vec![in alloc; 0; count]?,
            front: 0,
            back: count.saturating_mul(2),
        };
        for edge in 0..graph.edges() {
            ranking.count(graph, edge);
        }
        Ok(ranking)
    }

    /// Counts an edge between two splitters; one between a splitter and itself or an end isn't counted.
    fn count(&mut self, graph: &Graph, edge: usize) {
        if let (Some(start), Some(target)) = (graph.start(edge), graph.target(edge)) {
            if start != target {
                add_one(&mut self.outs, start);
                add_one(&mut self.ins, target);
            }
        }
    }

    /// Gives each splitter a rank.
    fn rank_all(&mut self, graph: &Graph) {
        for _ in 0..graph.splitters() {
            match self.next() {
                Some(splitter) => self.rank(graph, splitter),
                None => return,
            }
        }
    }

    /// The splitter that is ranked next: one of which no edge leads on, one to which none leads, or the one with the
    /// most edges out over those into it. None where all have a rank.
    fn next(&self) -> Option<usize> {
        let mut best = None;
        let mut most = 0;
        for splitter in 0..self.ranked.len() {
            if !self.ranked[splitter] {
                let worth = self.worth(splitter);
                if worth > most {
                    most = worth;
                    best = Some(splitter);
                }
            }
        }
        best
    }

    /// What tells which splitter is ranked next: the one with the greatest worth. The 8 keeps the difference above 0.
    fn worth(&self, splitter: usize) -> usize {
        let outs = at(&self.outs, splitter);
        let ins = at(&self.ins, splitter);
        if outs == 0 {
            usize::MAX
        } else if ins == 0 {
            usize::MAX - 1
        } else {
            outs.saturating_add(8).saturating_sub(ins)
        }
    }

    /// Gives a splitter its rank: the next from the back where no edge leads on from it, or else the next from the
    /// front.
    fn rank(&mut self, graph: &Graph, splitter: usize) {
        let rank = if at(&self.outs, splitter) == 0 {
            self.back = self.back.saturating_sub(1);
            self.back
        } else {
            self.front = self.front.saturating_add(1);
            self.front
        };
        if splitter < self.ranks.len() && splitter < self.ranked.len() {
            self.ranks[splitter] = rank;
            self.ranked[splitter] = true;
        }
        self.leave(graph, splitter);
    }

    /// Takes the edges at a splitter from the counts of the splitters at their other ends.
    fn leave(&mut self, graph: &Graph, splitter: usize) {
        for edge in graph.outs(splitter) {
            if let Some(target) = graph.target(*edge) {
                take_one(&mut self.ins, target);
            }
        }
        for edge in graph.ins(splitter) {
            if let Some(start) = graph.start(*edge) {
                take_one(&mut self.outs, start);
            }
        }
    }
}

fn add_one(numbers: &mut [usize], place: usize) {
    if place < numbers.len() {
        numbers[place] = numbers[place].saturating_add(1);
    }
}

fn take_one(numbers: &mut [usize], place: usize) {
    if place < numbers.len() {
        numbers[place] = numbers[place].saturating_sub(1);
    }
}

/// The side of a splitter to which cuts are moved.
#[derive(Clone, Copy, PartialEq, Eq)]
enum Side {
    Ins,
    Outs,
}

/// A search for better cuts.
#[derive(Drop)]
struct Search {
    /// How good the best ones are: how many splitters there are from which the flows that end are reached evenly, and how many
    /// that are reached so by those that begin.
    score: usize,
    /// How many edges were looked at.
    looks: usize,
    best: Vec<bool>,
}

impl Search {
    /// Climbs from cuts, moves all that can be moved to this side of their splitters, and does so again, `LEVELS` times
    /// in all.
    fn move_on(
        &mut self,
        alloc: Global,
        graph: &Graph,
        cut: &[bool],
        side: Side,
    ) -> Result<(), AllocError> {
        let mut level = Vec::from_slice(alloc, cut)?;
        for _ in 0..LEVELS {
            self.climb(alloc, graph, &level)?;
            let splitters = movable(alloc, graph, &level, side)?;
            for splitter in &splitters {
                exchange(graph, &mut level, *splitter);
            }
        }
        Ok(())
    }

    /// Moves cuts at single splitters while that makes them better, and keeps them where they are better than the best
    /// so far.
    fn climb(&mut self, alloc: Global, graph: &Graph, cut: &[bool]) -> Result<(), AllocError> {
        let mut here = Vec::from_slice(alloc, cut)?;
        let mut score = self.score_of(alloc, graph, &here)?;
        for _ in 0..ROUNDS {
            let better = self.climb_once(alloc, graph, &mut here, score)?;
            if better == score {
                break;
            }
            score = better;
        }
        if score > self.score {
            self.score = score;
            self.best = here;
        }
        Ok(())
    }

    /// Moves the cuts at each splitter, where that makes them better than `score`, and tells how good they are then.
    /// Nothing is moved any more once too many edges were looked at.
    fn climb_once(
        &mut self,
        alloc: Global,
        graph: &Graph,
        cut: &mut [bool],
        score: usize,
    ) -> Result<usize, AllocError> {
        let mut best = score;
        for splitter in 0..graph.splitters() {
            if self.looks < MOST_LOOKS && can_exchange(graph, cut, splitter) {
                exchange(graph, cut, splitter);
                let next = self.score_of(alloc, graph, cut)?;
                if next > best {
                    best = next;
                } else {
                    exchange(graph, cut, splitter);
                }
            }
        }
        Ok(best)
    }

    /// How good cuts are, as a score to be compared. Counts the edges as looked at.
    fn score_of(
        &mut self,
        alloc: Global,
        graph: &Graph,
        cut: &[bool],
    ) -> Result<usize, AllocError> {
        self.looks = self.looks.saturating_add(cut.len());
        let weighed = weigh(alloc, graph, cut, false)?;
        Ok(weighed.score(graph))
    }
}

/// The splitters at which cuts can be moved to this side, which has none.
fn movable(
    alloc: Global,
    graph: &Graph,
    cut: &[bool],
    side: Side,
) -> Result<Vec<usize>, AllocError> {
    let mut splitters = Vec::new(alloc);
    for splitter in 0..graph.splitters() {
        let edges = match side {
            Side::Ins => graph.ins(splitter),
            Side::Outs => graph.outs(splitter),
        };
        if can_exchange(graph, cut, splitter) && all_are(cut, edges, false) {
            splitters.push(splitter)?;
        }
    }
    Ok(splitters)
}

/// Whether cuts can be moved from one side of a splitter to the other: all edges at the one are cut and none at the
/// other, neither side is empty, and no edge is at an end of the network.
fn can_exchange(graph: &Graph, cut: &[bool], splitter: usize) -> bool {
    let ins = graph.ins(splitter);
    let outs = graph.outs(splitter);
    let between = ins.iter().all(|edge| graph.start(*edge).is_some())
        && outs.iter().all(|edge| graph.target(*edge).is_some());
    between && !ins.is_empty() && !outs.is_empty() && are_opposite(cut, ins, outs)
}

/// Whether all of some edges are cut and none of others, or the other way round.
fn are_opposite(cut: &[bool], ins: &[usize], outs: &[usize]) -> bool {
    (all_are(cut, ins, true) && all_are(cut, outs, false))
        || (all_are(cut, ins, false) && all_are(cut, outs, true))
}

/// Whether all of some edges are cut, or none of them is.
fn all_are(cut: &[bool], edges: &[usize], wanted: bool) -> bool {
    edges.iter().all(|edge| is_set(cut, *edge) == wanted)
}

/// Moves cuts at a splitter: an edge that is cut isn't any more, and one that isn't is.
fn exchange(graph: &Graph, cut: &mut [bool], splitter: usize) {
    turn(cut, graph.ins(splitter));
    turn(cut, graph.outs(splitter));
}

/// Cuts those of some edges that aren't cut, and the others no more.
fn turn(cut: &mut [bool], edges: &[usize]) {
    for edge in edges {
        if *edge < cut.len() {
            cut[*edge] = !cut[*edge];
        }
    }
}
