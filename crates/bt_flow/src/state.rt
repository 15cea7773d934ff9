//! A state of a network in fractions: what a certificate writes and the tests read.
ghost use Rattle.std.specs.Prelude.{◌≡◌};
ghost use Rattle.bt_flow.specs.States.{AreLowest};

use bt_frac::Frac;
use std::marker::Model;

/// A state of a network: a flow and a mark for each edge, a load for each input and a room for each
/// output, by their numbers. A marked edge is backed, any other is free. One is the most that a belt
/// of the slowest tier carries.
#[derive(Drop)]
pub struct State {
    flows: Vec<Frac>,
    backed: Vec<bool>,
    loads: Vec<Frac>,
    rooms: Vec<Frac>,
}

impl Model for State {
    ghost use Rattle.bt_flow.specs.States.{Fractions, AreLowest};

    ghost Value = { Fractions };

    ghost view = { λ t. record {
      flows = t.flows.items;
      backed = t.backed.items;
      loads = t.loads.items;
      rooms = t.rooms.items;
    } };

    ghost invariant = { λ t. AreLowest (record {
      flows = t.flows.items;
      backed = t.backed.items;
      loads = t.loads.items;
      rooms = t.rooms.items;
    }) };
}

impl State {
    /// The state of these flows, marks, loads and rooms, each in the order of the numbers.
    pub fn new(flows: Vec<Frac>, backed: Vec<bool>, loads: Vec<Frac>, rooms: Vec<Frac>) -> State
        ensures state { result ≡ record {
          flows = flows.items;
          backed = backed.items;
          loads = loads.items;
          rooms = rooms.items;
        } }
        ensures lowest { AreLowest result }
    {
        // A fraction is in lowest terms by its type, and a list of them by this call.
        Frac::all_known(&flows);
        Frac::all_known(&loads);
        Frac::all_known(&rooms);
        State {
            flows,
            backed,
            loads,
            rooms,
        }
    }

    /// The flow of each edge.
    pub fn flows(&self) -> &[Frac]
        ensures flows { result.now ≡ self.now.flows }
        ensures lowest { AreLowest self.now }
    {
        &self.flows
    }

    /// Whether each edge is backed.
    pub fn backed(&self) -> &[bool]
        ensures { result.now ≡ self.now.backed }
    {
        &self.backed
    }

    /// The load of each input: what it is given.
    pub fn loads(&self) -> &[Frac]
        ensures { result.now ≡ self.now.loads }
    {
        &self.loads
    }

    /// The room of each output: what it takes.
    pub fn rooms(&self) -> &[Frac]
        ensures { result.now ≡ self.now.rooms }
    {
        &self.rooms
    }
}
