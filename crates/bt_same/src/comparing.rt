//! Whether loads, rooms and flows of two states are equal.
ghost use Rattle.std.specs.Prelude.{◌≡◌, ◌↔◌, ◌<◌, ℕ, IsTrue, slice_index_or};
ghost use Rattle.bt_frac.specs.Values.{nothing};
ghost use Rattle.bt_net.specs.Network.{IsNetwork};
ghost use Rattle.bt_flow.specs.States.{AreLowest};
ghost use Rattle.bt_same.specs.Pairs.{AreAlike};
ghost use Rattle.bt_same.specs.inner.Comparing.{OutputsAlike};

use bt_flow::{Ports, State, output_edge};
use bt_frac::Frac;
use bt_net::Net;
use std::cmp::Ordering;

/// Whether two numbers are equal.
fn is_same(left: &Frac, right: &Frac) -> bool
    ensures { IsTrue result ↔ (left.now ≡ right.now) }
{
    match left.compare(right) {
        Ordering::Equal => true,
        Ordering::Less | Ordering::Greater => false,
    }
}

/// Whether two lists of numbers are equal.
fn are_same(left: &[Frac], right: &[Frac]) -> bool
    ensures { IsTrue result ↔ (left.now ≡ right.now) }
{
    if left.len() != right.len() {
        return false;
    }
    for place in 0..left.len() {
        if !is_same(&left[place], &right[place]) {
            return false;
        }
    }
    true
}

/// The flow of the edge with a number, or 0 where there is none.
fn flow_of(flows: &[Frac], edge: usize) -> Frac
    ensures { result ≡ slice_index_or flows.now edge nothing }
{
    match flows.get(edge) {
        Some(flow) => *flow,
        None => Frac::whole(0),
    }
}

/// Whether the flow of each output's edge is equal in both states.
fn give_alike(first: &Net, second: &Net, of_first: &State, of_second: &State) -> bool
    requires { first.now.outputs ≡ second.now.outputs }
    ensures { IsTrue result ↔ OutputsAlike first.now second.now of_first.now of_second.now }
{
    let first_ports = Ports::of(first);
    let second_ports = Ports::of(second);
    for output in 0..first.outputs() as usize {
        let one = flow_of(of_first.flows(), output_edge(first, &first_ports, output));
        let other = flow_of(
            of_second.flows(),
            output_edge(second, &second_ports, output),
        );
        if !is_same(&one, &other) {
            return false;
        }
    }
    true
}

/// What is known of two networks and two states by their types.
pub fn are_known(first: &Net, second: &Net, of_first: &State, of_second: &State)
    ensures networks { IsNetwork first.now × IsNetwork second.now }
    ensures lowest { AreLowest of_first.now × AreLowest of_second.now }
{
    let _edges = first.edges();
    let _others = second.edges();
    let _flows = of_first.flows();
    let _others = of_second.flows();
}

/// Whether two states have equal loads and rooms, and the flow of some output differs.
pub fn differ(first: &Net, second: &Net, of_first: &State, of_second: &State) -> bool
    requires { first.now.outputs ≡ second.now.outputs }
    ensures { IsTrue result ↔ (AreAlike of_first.now of_second.now
        × (OutputsAlike first.now second.now of_first.now of_second.now → ⊥)) }
{
    are_same(of_first.loads(), of_second.loads())
        && are_same(of_first.rooms(), of_second.rooms())
        && !give_alike(first, second, of_first, of_second)
}
