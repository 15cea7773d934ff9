//! From which splitters those of a network come, and to which they lead.
use bt_model::Request;
use bt_net::{Edge, Net, Start};
use hint_numbering::{from, joined, to};
use std::alloc::{AllocError, Global};

/// The splitters beside one, in the direction of its edges or against it.
#[derive(Clone, Copy, PartialEq, Eq)]
pub struct Beside {
    first: Option<usize>,
    second: Option<usize>,
}

/// No splitters.
const NONE: Beside = Beside {
    first: None,
    second: None,
};

impl Beside {
    /// These and one more. A third one takes the second's place.
    fn with(self, splitter: usize) -> Beside {
        match self.first {
            None => Beside {
                first: Some(splitter),
                second: None,
            },
            Some(_) => Beside {
                first: self.first,
                second: Some(splitter),
            },
        }
    }

    /// Both, in ascending order, where there are two.
    pub fn both(self) -> Option<(usize, usize)> {
        match (self.first, self.second) {
            (Some(one), Some(other)) => Some((one.min(other), one.max(other))),
            _ => None,
        }
    }
}

/// The splitters beside each one of a network, but for the edges that lead back.
#[derive(Drop)]
pub struct Wiring {
    /// Those that it comes from.
    pub before: Vec<Beside>,
    /// Those that it leads to.
    pub behind: Vec<Beside>,
    /// A splitter with an input.
    pub first: Option<usize>,
    /// The edges that lead back: all that don't lead from one rank to the next.
    pub loops: Vec<Edge>,
}

/// How far splitters that no end comes to are from the ends.
const NOWHERE: usize = usize::MAX;

/// Both splitters beside one, in ascending order, where there are two.
pub fn both_at(beside: &[Beside], splitter: usize) -> Option<(usize, usize)> {
    match beside.get(splitter) {
        Some(pair) => pair.both(),
        None => None,
    }
}

/// Adds a splitter to those beside another.
fn add(beside: &mut [Beside], splitter: usize, other: usize) {
    if let Some(pair) = beside.get_mut(splitter) {
        *pair = pair.with(other);
    }
}

/// To which ends distances are told.
#[derive(Clone, Copy)]
enum Toward {
    Inputs,
    Outputs,
}

impl Toward {
    /// The splitter of which an edge tells how far it is, and the next one on the way, or none where that is an end.
    /// None where the edge has no such splitter.
    fn step(self, edge: &Edge) -> Option<(usize, Option<usize>)> {
        match self {
            Toward::Inputs => Some((to(edge)?, from(edge))),
            Toward::Outputs => Some((from(edge)?, to(edge))),
        }
    }
}

/// What is known of the distance of a splitter; `NOWHERE` where nothing is.
fn distance(distances: &[usize], splitter: usize) -> usize {
    distances.get(splitter).copied().unwrap_or(NOWHERE)
}

/// Lowers the distance that is known of a splitter, where the way along this edge is shorter.
fn shorten(distances: &mut [usize], toward: Toward, edge: &Edge) {
    if let Some((splitter, next)) = toward.step(edge) {
        let over = match next {
            Some(other) => distance(distances, other).saturating_add(1),
            None => 0,
        };
        if let Some(least) = distances.get_mut(splitter) {
            *least = over.min(*least);
        }
    }
}

/// How many splitters lie between each splitter and the nearest end, where they are fewer than `most`; else at least
/// `most`.
fn distances_of(
    alloc: Global,
    net: &Net,
    toward: Toward,
    most: usize,
) -> Result<Vec<usize>, AllocError> {
    let mut distances = vec![in alloc; NOWHERE; net.splitters() as usize]?;
    for _ in 0..most {
        for edge in net.edges() {
            shorten(&mut distances, toward, edge);
        }
    }
    Ok(distances)
}

/// The rank of each splitter of a network with so many ranks, from the inputs on. A way to an end along an edge that leads
/// back is longer than all ranks, so a distance that is shorter is true; where neither is, the splitter has no rank.
fn ranks_of(alloc: Global, net: &Net, ranks: usize) -> Result<Vec<usize>, AllocError> {
    let mut found = distances_of(alloc, net, Toward::Inputs, ranks)?;
    let behind = distances_of(alloc, net, Toward::Outputs, ranks)?;
    for (rank, after) in found.iter_mut().zip(behind.iter()) {
        if *rank >= ranks {
            *rank = match ranks.checked_sub(1) {
                Some(last) => last.checked_sub(*after).unwrap_or(NOWHERE),
                None => NOWHERE,
            };
        }
    }
    Ok(found)
}

/// Notes an edge that joins two splitters: with them where it leads from one rank to the next, else as one that leads
/// back. The first edge from an input to a splitter tells the splitter that has one.
fn add_edge(wiring: &mut Wiring, ranks: &[usize], edge: &Edge) -> Result<(), AllocError> {
    if let Some((from, to)) = joined(edge) {
        if distance(ranks, from).saturating_add(1) == distance(ranks, to) {
            add(&mut wiring.behind, from, to);
            add(&mut wiring.before, to, from);
        } else {
            wiring.loops.push(*edge)?;
        }
    }
    if let (Start::Input(_), Some(splitter), None) = (edge.start, to(edge), wiring.first) {
        wiring.first = Some(splitter);
    }
    Ok(())
}

/// The splitters beside each one of a request's network that may have so many ranks.
pub fn wiring_of(alloc: Global, request: &Request, ranks: usize) -> Result<Wiring, AllocError> {
    let net = request.net();
    let count = net.splitters() as usize;
    let levels = ranks_of(alloc, net, ranks)?;
    let mut wiring = Wiring {
        before: vec![in alloc; NONE; count]?,
        behind: vec![in alloc; NONE; count]?,
        first: None,
        loops: Vec::new(alloc),
    };
    for edge in net.edges() {
        add_edge(&mut wiring, &levels, edge)?;
    }
    Ok(wiring)
}
