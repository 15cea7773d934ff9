//! The state in which all edges are free and each splitter divides evenly what comes, or all are backed and it draws evenly.
use crate::equations::Equations;
use crate::part::Part;
use bt_frac::Frac;
use hint_graphs::Graph;
use std::alloc::{AllocError, Global};

/// The most edges times ends for which the state is looked for.
const MOST_WORK: usize = 1 << 16;

/// A state of a part of a network as sums: for each edge the loads, or where all are backed the rooms, and what the edges
/// carry that come from outside, with their coefficients. The columns ascend.
#[derive(Drop)]
pub struct Dividing {
    sums: Vec<Vec<(usize, Frac)>>,
}

impl Dividing {
    /// The state of a part in which all edges are free, or all are backed. None where the network is too large, or the
    /// equations aren't solved.
    pub fn of(alloc: Global, graph: &Graph, part: &Part) -> Result<Option<Dividing>, AllocError> {
        let first = part.first(alloc)?;
        if first.len().saturating_mul(graph.edges()) > MOST_WORK {
            return Ok(None);
        }
        let mut dividing = Dividing {
            sums: no_sums(alloc, graph.edges())?,
        };
        if dividing.fill(alloc, graph, part, &first)? {
            Ok(Some(dividing))
        } else {
            Ok(None)
        }
    }

    /// Adds to each edge's sum what it carries of what comes at each first edge. False where that wasn't found.
    fn fill(
        &mut self,
        alloc: Global,
        graph: &Graph,
        part: &Part,
        first: &[usize],
    ) -> Result<bool, AllocError> {
        for edge in first {
            match numbers_of(alloc, graph, part, *edge)? {
                Some(numbers) => self.add_all(first_column(graph, part, *edge), &numbers)?,
                None => return Ok(false),
            }
        }
        Ok(true)
    }

    /// Adds a column to the sums of the edges, with these numbers as its coefficients; those that are 0 are left out.
    fn add_all(&mut self, column: usize, numbers: &[Frac]) -> Result<(), AllocError> {
        for edge in 0..self.sums.len() {
            if let Some(number) = numbers.get(edge) {
                if number.numerator() != 0 {
                    self.sums[edge].push((column, *number))?;
                }
            }
        }
        Ok(())
    }

    /// The sum of what an edge carries, with no term where there is no such edge.
    pub fn sum(&self, edge: usize) -> &[(usize, Frac)] {
        match self.sums.get(edge) {
            Some(sum) => sum,
            None => &[],
        }
    }

    /// Whether some edges have the same sum. False where there is no edge.
    pub fn are_even(&self, edges: &[usize]) -> bool {
        match edges.first() {
            Some(first) => edges
                .iter()
                .all(|edge| are_same(self.sum(*first), self.sum(*edge))),
            None => false,
        }
    }
}

/// So many empty sums.
fn no_sums(alloc: Global, count: usize) -> Result<Vec<Vec<(usize, Frac)>>, AllocError> {
    let mut sums = Vec::new(alloc);
    for _ in 0..count {
        sums.push(Vec::new(alloc))?;
    }
    Ok(sums)
}

/// Whether two sums are the same.
fn are_same(first: &[(usize, Frac)], second: &[(usize, Frac)]) -> bool {
    if first.len() != second.len() {
        return false;
    }
    for (one, other) in first.iter().zip(second) {
        if one.0 != other.0 || one.1 != other.1 {
            return false;
        }
    }
    true
}

/// The column of what comes at an edge: of the load, or of the room, or of its own flow where it comes from outside.
pub fn first_column(graph: &Graph, part: &Part, edge: usize) -> usize {
    let Some(number) = graph.end(edge, part.backed) else {
        return edge;
    };
    let before = if part.backed {
        graph.net.inputs() as usize
    } else {
        0
    };
    graph.edges().saturating_add(before).saturating_add(number)
}

/// What each edge carries where this one of the first edges carries 1, and the others nothing. None where the equations
/// aren't solved.
fn numbers_of(
    alloc: Global,
    graph: &Graph,
    part: &Part,
    first: usize,
) -> Result<Option<Vec<Frac>>, AllocError> {
    let edges = graph.edges();
    let mut equations = Equations::new(alloc, edges)?;
    for edge in 0..edges {
        let terms = terms_of(alloc, graph, part, first, edge)?;
        equations.add(alloc, &terms)?;
    }
    equations.solve(alloc, vec![in alloc; Frac::whole(0); edges]?)
}

/// The terms of an equation that says what an edge carries: its part of what comes to its splitter, or 1 or nothing at
/// an end.
fn terms_of(
    alloc: Global,
    graph: &Graph,
    part: &Part,
    first: usize,
    edge: usize,
) -> Result<Vec<(usize, Frac)>, AllocError> {
    let Some(splitter) = part.maker(graph, edge) else {
        return first_terms(alloc, graph.edges(), edge, edge == first);
    };
    let ins = graph.ins(splitter);
    let outs = graph.outs(splitter);
    if part.backed {
        shared_terms(alloc, edge, outs, ins.len())
    } else {
        shared_terms(alloc, edge, ins, outs.len())
    }
}

/// The terms that say that an edge carries its part of what others carry, where it is one of so many that divide it.
fn shared_terms(
    alloc: Global,
    edge: usize,
    others: &[usize],
    among: usize,
) -> Result<Vec<(usize, Frac)>, AllocError> {
    let mut terms = Vec::new(alloc);
    terms.push((edge, whole(among)))?;
    for other in others {
        terms.push((*other, Frac::whole(-1)))?;
    }
    Ok(terms)
}

/// The terms that say that an edge carries 1, which stands at the position past the columns, or nothing.
fn first_terms(
    alloc: Global,
    column: usize,
    edge: usize,
    carries: bool,
) -> Result<Vec<(usize, Frac)>, AllocError> {
    let mut terms = Vec::new(alloc);
    terms.push((edge, Frac::whole(1)))?;
    if carries {
        terms.push((column, Frac::whole(-1)))?;
    }
    Ok(terms)
}

/// Two where the count is two, or else one: so many times an edge's part is the whole.
fn whole(count: usize) -> Frac {
    if count == 2 {
        Frac::whole(2)
    } else {
        Frac::whole(1)
    }
}
