//! How much a simulation convinces that a network lacks a property.
use crate::belt::UNIT;
use crate::case::Case;
use crate::simulation::Found;
use bt_flow::Property;
use bt_net::{Edge, Net, Start, Target};

/// The least that a conclusion has to fail by, in parts of `UNIT`.
pub const LEAST_FAILURE: u64 = UNIT as u64 / 256;

/// What tells which of two simulations convinces more.
#[derive(Clone, Copy)]
pub struct Rank {
    /// How many loads and rooms are neither 0 nor their caps.
    others: usize,
    /// By how much the conclusion of the property fails, in parts of `UNIT`.
    failure: u64,
}

impl Rank {
    /// That of a simulation which shows nothing.
    pub const NOTHING: Rank = Rank {
        others: 0,
        failure: 0,
    };

    /// Whether fewer loads and rooms are others, or as many and the conclusion fails by more.
    pub fn convinces_more(self, other: Rank) -> bool {
        self.others < other.others || (self.others == other.others && self.failure > other.failure)
    }

    /// Whether the conclusion fails clearly.
    pub fn is_clear(self) -> bool {
        self.failure > LEAST_FAILURE
    }
}

/// The rank of a simulation, where these are the full loads and rooms.
pub fn rank_of(net: &Net, property: Property, full: &Case, found: &Found) -> Rank {
    let loads = count_others(&found.case.loads, &full.loads);
    let rooms = count_others(&found.case.rooms, &full.rooms);
    Rank {
        others: loads.saturating_add(rooms),
        failure: failure_of(net.edges(), property, found),
    }
}

/// How many numbers are neither 0 nor full.
fn count_others(numbers: &[u32], full: &[u32]) -> usize {
    let mut count: usize = 0;
    for (number, most) in numbers.iter().zip(full) {
        if *number != 0 && *number != *most {
            count = count.saturating_add(1);
        }
    }
    count
}

/// By how much flows fail the conclusion of a property.
fn failure_of(edges: &[Edge], property: Property, found: &Found) -> u64 {
    let flows = &found.simulated.flows;
    match property {
        Property::Balanced => output_spread(edges, flows),
        Property::DrawnEvenly => input_spread(edges, flows),
        Property::Unlimited | Property::Full => shortfall(edges, &found.case, flows),
        Property::Fair => output_lag(edges, flows, &found.case.rooms),
        Property::DrawnFairly => input_lag(edges, flows, &found.case.loads),
    }
}

/// How far apart the flows of the edges that end at outputs are.
fn output_spread(edges: &[Edge], flows: &[u32]) -> u64 {
    let mut span = Span::new();
    for (edge, flow) in edges.iter().zip(flows) {
        if let Target::Output(_) = edge.target {
            span.add(*flow);
        }
    }
    span.width()
}

/// How far apart the flows of the edges that start at inputs are.
fn input_spread(edges: &[Edge], flows: &[u32]) -> u64 {
    let mut span = Span::new();
    for (edge, flow) in edges.iter().zip(flows) {
        if let Start::Input(_) = edge.start {
            span.add(*flow);
        }
    }
    span.width()
}

/// The most by which an output is both short of its room and below the greatest flow to an output.
fn output_lag(edges: &[Edge], flows: &[u32], rooms: &[u32]) -> u64 {
    let mut lag = Lag::new();
    for (edge, flow) in edges.iter().zip(flows) {
        if let Target::Output(_) = edge.target {
            lag.reach(*flow);
        }
    }
    for (edge, flow) in edges.iter().zip(flows) {
        if let Target::Output(output) = edge.target {
            lag.add(*flow, rooms.get(output as usize).copied().unwrap_or(0));
        }
    }
    lag.most
}

/// The most by which an input is both short of its load and below the greatest flow from an input.
fn input_lag(edges: &[Edge], flows: &[u32], loads: &[u32]) -> u64 {
    let mut lag = Lag::new();
    for (edge, flow) in edges.iter().zip(flows) {
        if let Start::Input(_) = edge.start {
            lag.reach(*flow);
        }
    }
    for (edge, flow) in edges.iter().zip(flows) {
        if let Start::Input(input) = edge.start {
            lag.add(*flow, loads.get(input as usize).copied().unwrap_or(0));
        }
    }
    lag.most
}

/// How clearly an end is short and carries less than the greatest flow among the ends.
#[derive(Clone, Copy)]
struct Lag {
    greatest: u32,
    most: u64,
}

impl Lag {
    /// That of no end.
    fn new() -> Lag {
        Lag {
            greatest: 0,
            most: 0,
        }
    }

    /// Takes the flow of one more end.
    fn reach(&mut self, flow: u32) {
        self.greatest = self.greatest.max(flow);
    }

    /// Takes in an end whose load or room is `limit`. What counts is the lesser of its gaps to that and to the greatest
    /// flow, as both have to be clear.
    fn add(&mut self, flow: u32, limit: u32) {
        let short = limit.saturating_sub(flow);
        let behind = self.greatest.saturating_sub(flow);
        self.most = self.most.max(u64::from(short.min(behind)));
    }
}

/// The least and the greatest of some numbers.
#[derive(Clone, Copy)]
struct Span {
    least: u32,
    greatest: u32,
}

impl Span {
    /// That of no number.
    fn new() -> Span {
        Span {
            least: u32::MAX,
            greatest: 0,
        }
    }

    /// Takes one more number.
    fn add(&mut self, number: u32) {
        self.least = self.least.min(number);
        self.greatest = self.greatest.max(number);
    }

    /// How far the greatest is above the least.
    fn width(&self) -> u64 {
        u64::from(self.greatest.saturating_sub(self.least))
    }
}

/// How much less flows to outputs than is loaded and taken.
fn shortfall(edges: &[Edge], case: &Case, flows: &[u32]) -> u64 {
    let mut sum: u64 = 0;
    for (edge, flow) in edges.iter().zip(flows) {
        if let Target::Output(_) = edge.target {
            sum = sum.saturating_add(u64::from(*flow));
        }
    }
    sum_of(&case.loads)
        .min(sum_of(&case.rooms))
        .saturating_sub(sum)
}

/// The sum of numbers.
fn sum_of(numbers: &[u32]) -> u64 {
    let mut sum: u64 = 0;
    for number in numbers {
        sum = sum.saturating_add(u64::from(*number));
    }
    sum
}
