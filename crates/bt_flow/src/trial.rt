//! A state on trial: whether it passes each test at each place, and where it first fails one. What is asked of edges at
//! splitters, every other edge passes.
ghost use Rattle.std.specs.Prelude.{◌≡◌, ◌<◌, IfOk, IfErr, length};
ghost use Rattle.bt_flow.specs.Tests.{places};
ghost use Rattle.bt_flow.specs.inner.Trials.{IsTested, IsTestedAt, Decides, IsSearched};

use crate::at_ports::{admits, comes_first_at, keeps_range, meets, shares_at, stops};
use crate::compare::is_same;
use crate::conclusion::concludes;
use crate::judgement::{Test, WideSum};
use crate::ports::Ports;
use crate::property::Property;
use crate::state::State;
use crate::sums::{Wide, port_sum};
use bt_frac::Frac;
use bt_net::{Net, Start, Target};
use std::marker::Model;

/// A state of a network that is tested for a property.
#[derive(Drop)]
pub struct Trial<'a> {
    net: &'a Net,
    ports: Ports,
    property: Property,
    state: &'a State,
    flows: &'a [Frac],
}

impl<'a> Model for Trial<'a> {
    ghost use Rattle.bt_flow.specs.inner.Trials.{Subject, IsReady};

    ghost Value = { Subject };

    ghost view = { λ t. record { network = t.net.now; property = t.property; state = t.state.now } };

    ghost invariant = { λ t. IsReady t.net.now t.ports t.state.now t.flows.now };
}

impl<'a> Trial<'a> {
    ghost use Rattle.bt_flow.specs.States.{Fits, AreLowest};

    /// The trial of a state for a property.
    pub fn new(net: &'a Net, property: Property, state: &'a State) -> Trial<'a>
        requires { Fits net.now state.now }
        ensures subject { result ≡ record { network = net.now; property = property; state = state.now } }
        ensures lowest { AreLowest state.now }
    {
        Trial {
            net,
            ports: Ports::of(net),
            property,
            state,
            flows: state.flows(),
        }
    }

    /// The first place at which the state fails a test. None where it passes at each. Or the sum before that which
    /// leaves 128 bits.
    pub fn failed_place(&self, test: Test) -> Result<Option<usize>, WideSum>
        ensures { IsSearched self.now test result }
    {
        for place in 0..self.places(test) {
            let passed = self.passes(test, place)?;
            if !passed {
                return Ok(Some(place));
            }
        }
        Ok(None)
    }

    /// How many places a test has: inputs, outputs, splitters or edges, or one for the conclusion.
    fn places(&self, test: Test) -> usize
        ensures { result ≡ places self.now.network test }
    {
        match test {
            Test::Load | Test::Input => self.net.inputs() as usize,
            Test::Room | Test::Output => self.net.outputs() as usize,
            Test::Conserve => self.net.splitters() as usize,
            Test::Range
            | Test::EvenOut
            | Test::EvenIn
            | Test::PriorOut
            | Test::PriorIn
            | Test::Backing => self.net.edges().len(),
            Test::Conclusion => 1,
        }
    }

    /// Whether the state passes a test at a place.
    fn passes(&self, test: Test, place: usize) -> Result<bool, WideSum>
        requires { place < places self.now.network test }
        ensures { IsTestedAt self.now test place result }
    {
        match test {
            Test::Conserve => named(test, place, self.conserves(place)),
            Test::Conclusion => named(test, place, self.fails_conclusion()),
            Test::Load => Ok(self.passes_load(place)),
            Test::Room => Ok(self.passes_room(place)),
            Test::Range => Ok(keeps_range(self.net, self.state, place)),
            Test::EvenOut => Ok(self.passes_even_out(place)),
            Test::EvenIn => Ok(self.passes_even_in(place)),
            Test::PriorOut => Ok(self.passes_prior_out(place)),
            Test::PriorIn => Ok(self.passes_prior_in(place)),
            Test::Backing => Ok(self.passes_backing(place)),
            Test::Input => Ok(self.passes_input(place)),
            Test::Output => Ok(self.passes_output(place)),
        }
    }

    /// Whether an input's load is from 0 to its cap, and equals it where the property asks that.
    fn passes_load(&self, input: usize) -> bool
        requires { input < self.now.network.inputs }
        ensures { Decides self.now Test.Load input result }
    {
        admits(
            self.net,
            self.ports.inputs[input],
            &self.state.loads()[input],
            self.property.asks_loads(),
        )
    }

    /// Whether an output's room is from 0 to its cap, and equals it where the property asks that.
    fn passes_room(&self, output: usize) -> bool
        requires { output < self.now.network.outputs }
        ensures { Decides self.now Test.Room output result }
    {
        admits(
            self.net,
            self.ports.outputs[output],
            &self.state.rooms()[output],
            self.property.asks_rooms(),
        )
    }

    /// Whether what enters a splitter leaves it; or the addition that leaves 128 bits.
    fn conserves(&self, splitter: usize) -> Result<bool, Wide>
        requires { splitter < self.now.network.splitters }
        ensures { IsTested self.now Test.Conserve splitter result }
    {
        let entering = port_sum(self.flows, self.ports.into[splitter])?;
        let leaving = port_sum(self.flows, self.ports.out_of[splitter])?;
        Ok(is_same(&entering, &leaving))
    }

    /// Whether an edge out of a splitter that prefers none is backed, full or of the greatest flow there.
    fn passes_even_out(&self, edge: usize) -> bool
        requires { edge < length self.now.network.edges }
        ensures { Decides self.now Test.EvenOut edge result }
    {
        match self.net.edges()[edge].start {
            Start::Split(splitter) => shares_at(
                self.net,
                self.state,
                self.ports.out_of[splitter as usize],
                self.net.give(splitter as usize),
                edge,
                true,
            ),
            Start::Input(_) => true,
        }
    }

    /// Whether an edge into a splitter that takes evenly is free, full or of the greatest flow there.
    fn passes_even_in(&self, edge: usize) -> bool
        requires { edge < length self.now.network.edges }
        ensures { Decides self.now Test.EvenIn edge result }
    {
        match self.net.edges()[edge].target {
            Target::Split(splitter) => {
                self.net.merges_any(splitter as usize)
                    || shares_at(
                        self.net,
                        self.state,
                        self.ports.into[splitter as usize],
                        self.net.take(splitter as usize),
                        edge,
                        false,
                    )
            }
            Target::Output(_) => true,
        }
    }

    /// Whether an edge to which its splitter gives first is backed or full, or the other one is empty.
    fn passes_prior_out(&self, edge: usize) -> bool
        requires { edge < length self.now.network.edges }
        ensures { Decides self.now Test.PriorOut edge result }
    {
        match self.net.edges()[edge].start {
            Start::Split(splitter) => comes_first_at(
                self.net,
                self.state,
                self.ports.out_of[splitter as usize],
                self.net.give(splitter as usize),
                edge,
                true,
            ),
            Start::Input(_) => true,
        }
    }

    /// Whether an edge from which its splitter takes first is free or full, or the other one is empty.
    fn passes_prior_in(&self, edge: usize) -> bool
        requires { edge < length self.now.network.edges }
        ensures { Decides self.now Test.PriorIn edge result }
    {
        match self.net.edges()[edge].target {
            Target::Split(splitter) => comes_first_at(
                self.net,
                self.state,
                self.ports.into[splitter as usize],
                self.net.take(splitter as usize),
                edge,
                false,
            ),
            Target::Output(_) => true,
        }
    }

    /// Whether an edge into a splitter is free, or each edge out of that is backed or full.
    fn passes_backing(&self, edge: usize) -> bool
        requires { edge < length self.now.network.edges }
        ensures { Decides self.now Test.Backing edge result }
    {
        match self.net.edges()[edge].target {
            Target::Split(splitter) => !self.state.backed()[edge]
                || stops(self.net, self.state, self.ports.out_of[splitter as usize]),
            Target::Output(_) => true,
        }
    }

    /// Whether an input's flow is at most its load, and equals it where the edge is free.
    fn passes_input(&self, input: usize) -> bool
        requires { input < self.now.network.inputs }
        ensures { Decides self.now Test.Input input result }
    {
        meets(
            self.state,
            self.ports.inputs[input],
            &self.state.loads()[input],
            false,
        )
    }

    /// Whether an output's flow is at most its room, and equals it where the edge is backed.
    fn passes_output(&self, output: usize) -> bool
        requires { output < self.now.network.outputs }
        ensures { Decides self.now Test.Output output result }
    {
        meets(
            self.state,
            self.ports.outputs[output],
            &self.state.rooms()[output],
            true,
        )
    }

    /// Whether the property's conclusion is false of the state; or the addition that leaves 128 bits.
    fn fails_conclusion(&self) -> Result<bool, Wide>
        ensures { IsTested self.now Test.Conclusion 0 result }
    {
        let concluded = concludes(self.net, self.property, self.state)?;
        Ok(!concluded)
    }
}

/// The outcome of a test at a place. A wide sum is told with the test and the place.
fn named(test: Test, place: usize, outcome: Result<bool, Wide>) -> Result<bool, WideSum>
    ensures ok { IfOk result (λ b. outcome ≡ Ok b) }
    ensures wide { IfErr result (λ w. (w.test ≡ test) × (w.place ≡ place)
        × (outcome ≡ Err (record { left = w.left; right = w.right }))) }
{
    match outcome {
        Ok(passed) => Ok(passed),
        Err(wide) => Err(WideSum {
            test,
            place,
            left: wide.left,
            right: wide.right,
        }),
    }
}
