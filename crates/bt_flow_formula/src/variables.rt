//! The variables of the first rows of pairs, found before any clause is written.
ghost use Rattle.std.specs.Prelude.{◌≡◌, ◌<◌, ◌≤◌, ◌^◌, ℕ, IfOk, length, map, slice_index_or};
ghost use Rattle.bt_flow.specs.Ports.{ArePorts, numbers_of};
ghost use Rattle.bt_flow_formula.specs.Columns.{edges_at, preferred_at};
ghost use Rattle.bt_flow_formula.specs.Numbering.{rows_in};
ghost use Rattle.bt_flow_formula.specs.Pairs.{pair_clause, side_pairs};
ghost use Rattle.bt_flow_formula.specs.inner.Variables.{at_in, side_starts, AreVariables};

use crate::state_literal::{Pair, Side};
use bt_flow::{Port, Ports};
use bt_net::Net;
use std::alloc::{AllocError, Global};

/// The variables of the first rows of a network's pairs.
/// A pair's variable depends on how many splitters before it have two edges at the side, and prefer one: one pass
/// finds it for all families.
#[derive(Drop)]
pub struct PairVars {
    /// For each splitter that of the first pair of its out edges, and then the variable after the last pair.
    out: Vec<usize>,
    /// The same of in edges.
    into: Vec<usize>,
    /// That of the first edge's pair. Each edge after it has its own two variables later.
    full: usize,
    /// The same of inputs.
    loaded: usize,
    /// The same of outputs.
    filled: usize,
}

/// The number at a place, or 0 past the end.
fn start_at(starts: &[usize], place: usize) -> usize
    ensures { result ≡ slice_index_or starts.now place 0 }
{
    match starts.get(place) {
        Some(start) => *start,
        None => 0,
    }
}

/// How many rows the pairs of a port have, of whose two edges one may be preferred; none where there aren't two.
fn rows_at(port: Port, preferred: Option<usize>) -> usize
    ensures rows { (side : Side) (k : ℕ) → length
        (rows_in (map pair_clause (side_pairs preferred side k (numbers_of port)))) ≡ result }
    ensures few { result ≤ 4 }
{
    match (port, preferred) {
        (Port::Two(_, _), None) => 4,
        (Port::Two(_, _), Some(_)) => 2,
        _ => 0,
    }
}

/// The edges at a side of a splitter that share there as a law says: none, where it may prefer any in edge.
pub fn port_at(net: &Net, ports: &Ports, side: Side, splitter: usize) -> Port
    requires ports { ArePorts net.now ports.now }
    requires splitter { splitter < net.now.splitters }
    ensures { numbers_of result ≡ edges_at net.now side splitter }
{
    match side {
        Side::Out => ports.out_of[splitter],
        Side::In => {
            if net.merges_any(splitter) {
                Port::Unused
            } else {
                ports.into[splitter]
            }
        }
    }
}

/// The edge that a splitter prefers at a side, where it prefers one.
pub fn preferred_at(net: &Net, side: Side, splitter: usize) -> Option<usize>
    ensures { result ≡ preferred_at net.now side splitter }
{
    match side {
        Side::Out => net.give(splitter),
        Side::In => net.take(splitter),
    }
}

/// For each splitter the variable of the first pair at a side, from `first` on, and then the variable after the last.
fn starts(
    alloc: Global,
    net: &Net,
    ports: &Ports,
    side: Side,
    first: usize,
) -> Result<Vec<usize>, AllocError>
    requires ports { ArePorts net.now ports.now }
    requires small { first < 2 ^ 32 }
    ensures { IfOk result (λ starts. starts.items ≡ side_starts net.now side first) }
{
    let mut starts = Vec::new(alloc);
    let mut next = first;
    for splitter in 0..net.splitters() as usize {
        starts.push(next)?;
        let preferred = preferred_at(net, side, splitter);
        next += rows_at(port_at(net, ports, side, splitter), preferred);
    }
    starts.push(next)?;
    Ok(starts)
}

impl PairVars {
    /// The variables of a network's pairs, which come after the marks and the rows that no pair has.
    pub fn of(alloc: Global, net: &Net, ports: &Ports) -> Result<PairVars, AllocError>
        requires { ArePorts net.now ports.now }
        ensures { IfOk result (AreVariables net.now) }
    {
        let splitters = net.splitters() as usize;
        let edges = net.edges().len();
        let inputs = net.inputs() as usize;
        let first = 3 * edges + 2 * inputs + 2 * net.outputs() as usize + splitters;
        let out = starts(alloc, net, ports, Side::Out, first)?;
        let into = starts(alloc, net, ports, Side::In, start_at(&out, splitters))?;
        let full = start_at(&into, splitters);
        let loaded = full + 2 * edges;
        let filled = loaded + 2 * inputs;
        Ok(PairVars {
            out,
            into,
            full,
            loaded,
            filled,
        })
    }

    /// The variable of the first row of a pair.
    pub fn at(&self, pair: Pair) -> usize
        requires { at_in self.now pair < 2 ^ 64 }
        ensures { result ≡ at_in self.now pair }
    {
        match pair {
            Pair::Even {
                side,
                splitter,
                edge,
                other,
            } => {
                let starts = match side {
                    Side::Out => &self.out,
                    Side::In => &self.into,
                };
                let later = if edge < other { 0 } else { 2 };
                start_at(starts, splitter) + later
            }
            Pair::Empty { side, splitter, .. } => match side {
                Side::Out => start_at(&self.out, splitter),
                Side::In => start_at(&self.into, splitter),
            },
            Pair::Full { edge, .. } => self.full + 2 * edge,
            Pair::Loaded { input, .. } => self.loaded + 2 * input,
            Pair::Filled { output, .. } => self.filled + 2 * output,
        }
    }
}
