//! What is asked of a state at single edges, and at the edges of a port: no comparison of the laws of steady states
//! stands anywhere else. An edge has a mark, which is true where it is backed and false where it is free.
ghost use Rattle.std.specs.Prelude.{◌<◌, length, true};
ghost use Rattle.bt_net.specs.Network.{Network};
ghost use Rattle.bt_flow.specs.States.{Fits};
ghost use Rattle.bt_flow.specs.Steady.{KeepsRange};
ghost use Rattle.bt_flow.specs.inner.AtPorts.{Tells, TellsOfNumber, TellsWith};
ghost use Rattle.bt_flow.specs.inner.AtPorts.{AtEach, AdmitsAt, MeetsAt, FlowsAtMost, RestsAt};
ghost use Rattle.bt_flow.specs.inner.AtPorts.{IsEmptyBeside, SharesAt, ComesFirstAt};

use crate::compare::{is_at_most, is_full, is_nothing, is_same, is_within};
use crate::ports::Port;
use crate::state::State;
use bt_frac::Frac;
use bt_net::Net;

/// Whether a number is from 0 to the cap of an edge, and equals the cap where `full` is set.
fn admits_at(net: &Net, place: usize, number: &Frac, full: bool) -> bool
    requires { place < length net.now.edges }
    ensures { TellsOfNumber number.now (λ s x. AdmitsAt net.now s x full place) result }
{
    let cap = net.edges()[place].cap;
    is_within(number, cap) && (!full || is_full(number, cap))
}

/// Whether a number is from 0 to the cap of each edge of a port, and equals the caps where `full` is set.
pub fn admits(net: &Net, port: Port, number: &Frac, full: bool) -> bool
    requires { AtEach port (λ a. a < length net.now.edges) }
    ensures { TellsOfNumber number.now (λ s x. AtEach port (AdmitsAt net.now s x full)) result }
{
    match port {
        Port::Unused => true,
        Port::One(only) => admits_at(net, only as usize, number, full),
        Port::Two(first, second) => admits_at(net, first as usize, number, full)
            && admits_at(net, second as usize, number, full),
    }
}

/// Whether the flow of an edge is at most a limit, and equals it where the edge has the mark.
fn meets_at(state: &State, place: usize, limit: &Frac, mark: bool) -> bool
    requires flow { place < length state.now.flows }
    requires backed { place < length state.now.backed }
    ensures { TellsWith state.now limit.now (λ s l. MeetsAt s l mark place) result }
{
    let flow = &state.flows()[place];
    is_at_most(flow, limit) && (state.backed()[place] != mark || is_same(flow, limit))
}

/// Whether the flow of each edge of a port is at most a limit, and equals it where the edge has the mark.
pub fn meets(state: &State, port: Port, limit: &Frac, mark: bool) -> bool
    requires flow { AtEach port (λ a. a < length state.now.flows) }
    requires backed { AtEach port (λ a. a < length state.now.backed) }
    ensures { TellsWith state.now limit.now (λ s l. AtEach port (MeetsAt s l mark)) result }
{
    match port {
        Port::Unused => true,
        Port::One(only) => meets_at(state, only as usize, limit, mark),
        Port::Two(first, second) => meets_at(state, first as usize, limit, mark)
            && meets_at(state, second as usize, limit, mark),
    }
}

/// Whether no edge of a port has a flow above that of an edge.
fn is_greatest(state: &State, port: Port, place: usize) -> bool
    requires place { place < length state.now.flows }
    requires port { AtEach port (λ a. a < length state.now.flows) }
    ensures { (n : Network) → Tells n state.now (λ s. AtEach port (FlowsAtMost s place)) result }
{
    let flow = &state.flows()[place];
    match port {
        Port::Unused => true,
        Port::One(only) => is_at_most(&state.flows()[only as usize], flow),
        Port::Two(first, second) => is_at_most(&state.flows()[first as usize], flow)
            && is_at_most(&state.flows()[second as usize], flow),
    }
}

/// Whether an edge has a mark or is full.
fn rests_at(net: &Net, state: &State, place: usize, mark: bool) -> bool
    requires fits { Fits net.now state.now }
    requires place { place < length net.now.edges }
    ensures { Tells net.now state.now (λ s. RestsAt net.now s mark place) result }
{
    state.backed()[place] == mark || is_full(&state.flows()[place], net.edges()[place].cap)
}

/// Whether an edge is another one, or is empty.
fn is_empty_beside(state: &State, edge: usize, place: usize) -> bool
    requires { edge < length state.now.flows }
    ensures { (n : Network) → Tells n state.now (λ s. IsEmptyBeside s place edge) result }
{
    edge == place || is_nothing(&state.flows()[edge])
}

/// Whether each edge of a port other than the one at `place` is empty.
fn is_only(state: &State, port: Port, place: usize) -> bool
    requires { AtEach port (λ a. a < length state.now.flows) }
    ensures { (n : Network) → Tells n state.now (λ s. AtEach port (IsEmptyBeside s place)) result }
{
    match port {
        Port::Unused => true,
        Port::One(only) => is_empty_beside(state, only as usize, place),
        Port::Two(first, second) => is_empty_beside(state, first as usize, place)
            && is_empty_beside(state, second as usize, place),
    }
}

/// Whether an edge of a port has this mark or is full, or has the greatest flow there. True where an edge of the port
/// is preferred.
pub fn shares_at(
    net: &Net,
    state: &State,
    port: Port,
    preferred: Option<usize>,
    place: usize,
    mark: bool,
) -> bool
    requires fits { Fits net.now state.now }
    requires place { place < length net.now.edges }
    requires port { AtEach port (λ a. a < length net.now.edges) }
    ensures { Tells net.now state.now (λ s. SharesAt net.now s port preferred mark place) result }
{
    match preferred {
        Some(_) => true,
        None => rests_at(net, state, place, mark) || is_greatest(state, port, place),
    }
}

/// Whether an edge of a port has this mark or is full, or the others there are empty. True where the edge isn't the
/// preferred one of the port.
pub fn comes_first_at(
    net: &Net,
    state: &State,
    port: Port,
    preferred: Option<usize>,
    place: usize,
    mark: bool,
) -> bool
    requires fits { Fits net.now state.now }
    requires place { place < length net.now.edges }
    requires port { AtEach port (λ a. a < length net.now.edges) }
    ensures { Tells net.now state.now (λ s. ComesFirstAt net.now s port preferred mark place) result }
{
    match preferred {
        Some(edge) => edge != place
            || rests_at(net, state, place, mark)
            || is_only(state, port, place),
        None => true,
    }
}

/// Whether each edge of a port is backed or full.
pub fn stops(net: &Net, state: &State, port: Port) -> bool
    requires fits { Fits net.now state.now }
    requires port { AtEach port (λ a. a < length net.now.edges) }
    ensures { Tells net.now state.now (λ s. AtEach port (RestsAt net.now s true)) result }
{
    match port {
        Port::Unused => true,
        Port::One(only) => rests_at(net, state, only as usize, true),
        Port::Two(first, second) => rests_at(net, state, first as usize, true)
            && rests_at(net, state, second as usize, true),
    }
}

/// Whether the flow of an edge is from 0 to its cap.
pub fn keeps_range(net: &Net, state: &State, place: usize) -> bool
    requires fits { Fits net.now state.now }
    requires place { place < length net.now.edges }
    ensures { Tells net.now state.now (λ s. KeepsRange net.now s place) result }
{
    is_within(&state.flows()[place], net.edges()[place].cap)
}
