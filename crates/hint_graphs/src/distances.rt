//! How far the splitters of a network are from its outputs.
use crate::lists::{add, empty_lists};
use bt_flow::Role;
use bt_net::Net;
use std::alloc::{AllocError, Global};

/// How far a splitter is, and its number, by which those of one distance are told apart.
#[derive(Clone, Copy, PartialEq, Eq, PartialOrd, Ord)]
struct Ranked {
    rank: usize,
    splitter: usize,
}

/// The splitters from the nearest to the outputs to the farthest or the other way round, and those of one distance by
/// their numbers. A splitter from which no output is reached counts as the farthest.
pub fn ranked_splitters(
    alloc: Global,
    net: &Net,
    farthest_first: bool,
) -> Result<Vec<usize>, AllocError> {
    let distances = distances_of(alloc, net)?;
    let mut ranked = Vec::new(alloc);
    for (splitter, distance) in distances.iter().enumerate() {
        let rank = if farthest_first {
            distances.len().saturating_sub(*distance)
        } else {
            *distance
        };
        ranked.push(Ranked { rank, splitter })?;
    }
    ranked.sort()?;
    let mut splitters = Vec::new(alloc);
    for entry in &ranked {
        splitters.push(entry.splitter)?;
    }
    Ok(splitters)
}

/// For each splitter the number of splitters between it and the nearest output, or that of all splitters where it
/// reaches none.
fn distances_of(alloc: Global, net: &Net) -> Result<Vec<usize>, AllocError> {
    let mut walk = Walk::new(alloc, net)?;
    let feeders = feeders_of(alloc, net)?;
    // Each splitter is reached once at most.
    for place in 0..net.splitters() as usize {
        match walk.reached.get(place).copied() {
            Some(splitter) => walk.go_on(&feeders, splitter)?,
            None => break,
        }
    }
    Ok(walk.distances)
}

/// For each splitter those from which an edge leads to it.
fn feeders_of(alloc: Global, net: &Net) -> Result<Vec<Vec<usize>>, AllocError> {
    let mut feeders = empty_lists(alloc, net.splitters())?;
    for edge in net.edges() {
        if let Some(start) = Role::OutOf.number_in(edge) {
            add(&mut feeders, Role::Into.number_in(edge), start as usize)?;
        }
    }
    Ok(feeders)
}

/// A walk back from the outputs, breadth first.
#[derive(Drop)]
struct Walk {
    /// The splitters that were reached, in turn.
    reached: Vec<usize>,
    /// For each splitter its distance, or the number of all splitters where it wasn't reached.
    distances: Vec<usize>,
}

impl Walk {
    /// The walk that has reached the splitters with an edge to an output.
    fn new(alloc: Global, net: &Net) -> Result<Walk, AllocError> {
        let count = net.splitters() as usize;
        let mut walk = Walk {
            reached: Vec::new(alloc),
            distances: vec![in alloc; count; count]?,
        };
        for edge in net.edges() {
            if let (Some(start), Some(_)) = (
                Role::OutOf.number_in(edge),
                Role::ToOutput.number_in(edge),
            ) {
                walk.reach(start as usize, 0)?;
            }
        }
        Ok(walk)
    }

    /// Reaches a splitter at a distance, where it wasn't reached before.
    fn reach(&mut self, splitter: usize, distance: usize) -> Result<(), AllocError> {
        if splitter < self.distances.len() && distance < self.distances[splitter] {
            self.distances[splitter] = distance;
            self.reached.push(splitter)?;
        }
        Ok(())
    }

    /// Reaches the splitters that feed one which was reached, one step farther away.
    fn go_on(&mut self, feeders: &[Vec<usize>], splitter: usize) -> Result<(), AllocError> {
        if splitter < self.distances.len() && splitter < feeders.len() {
            let distance = self.distances[splitter].saturating_add(1);
            for feeder in &feeders[splitter] {
                self.reach(*feeder, distance)?;
            }
        }
        Ok(())
    }
}

/// For each splitter its place in the order of [`ranked_splitters`], in which the scopes of a search stand.
pub fn places_of(alloc: Global, net: &Net, from_inputs: bool) -> Result<Vec<usize>, AllocError> {
    let mut places = vec![in alloc; 0; net.splitters() as usize]?;
    let order = ranked_splitters(alloc, net, from_inputs)?;
    for (place, splitter) in order.iter().enumerate() {
        if *splitter < places.len() {
            places[*splitter] = place;
        }
    }
    Ok(places)
}
