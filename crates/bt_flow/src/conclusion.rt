//! Whether a state fulfils the conclusion of a property.
ghost use Rattle.bt_flow.specs.States.{Fits};
ghost use Rattle.bt_flow.specs.Properties.{Concludes, PassesAll};
ghost use Rattle.bt_flow.specs.Sums.{concluding_sums};
ghost use Rattle.std.specs.Prelude.{◌≡◌, length};
ghost use Rattle.bt_flow.specs.inner.AtPorts.{Tells, TellsBySums, Agree};
ghost use Rattle.bt_flow.specs.inner.Shares.{IsGreatest, Shares, limits_of};

use crate::compare::{is_at_most, is_lesser, is_same, reaches_one};
use crate::ports::{End, Role};
use crate::property::Property;
use crate::state::State;
use crate::sums::{Wide, output_sum, sum_of};
use bt_frac::Frac;
use bt_net::Net;

/// Whether the conclusion of a property holds of a state; or the addition that leaves 128 bits.
pub fn concludes(net: &Net, property: Property, state: &State) -> Result<bool, Wide>
    requires { Fits net.now state.now }
    ensures { TellsBySums net.now state.now (Concludes property net.now)
        (concluding_sums property net.now state.now) result }
{
    match property {
        Property::Balanced => Ok(agree(net, state, Role::ToOutput)),
        Property::DrawnEvenly => Ok(agree(net, state, Role::FromInput)),
        Property::Unlimited | Property::Full => passes_all(net, state),
        Property::Fair => Ok(shares(net, state, End::Output)),
        Property::DrawnFairly => Ok(shares(net, state, End::Input)),
    }
}

/// Whether the flows of all edges with a role are equal.
fn agree(net: &Net, state: &State, role: Role) -> bool
    requires { Fits net.now state.now }
    ensures { Tells net.now state.now (Agree net.now role) result }
{
    let flows = state.flows();
    let mut first: Option<usize> = None;
    for (place, edge) in net.edges().iter().enumerate() {
        if let Some(_) = role.number_in(edge) {
            match first {
                None => first = Some(place),
                Some(earlier) => {
                    if !is_same(&flows[earlier], &flows[place]) {
                        return false;
                    }
                }
            }
        }
    }
    true
}

/// The number of an edge of greatest flow among those with a role. None where no edge has the role.
fn greatest(net: &Net, state: &State, role: Role) -> Option<usize>
    requires { Fits net.now state.now }
    ensures { IsGreatest net.now state.now role (length net.now.edges) result }
{
    let flows = state.flows();
    let mut most: Option<usize> = None;
    for (place, edge) in net.edges().iter().enumerate() {
        if let Some(_) = role.number_in(edge) {
            match most {
                None => most = Some(place),
                Some(earlier) => {
                    if !is_at_most(&flows[place], &flows[earlier]) {
                        most = Some(place);
                    }
                }
            }
        }
    }
    most
}

/// Whether each end of this kind that is short of what it may carry carries at least as much as each other. The
/// greatest flow stands for all of them, so a network takes no longer than its edges are many.
fn shares(net: &Net, state: &State, end: End) -> bool
    requires { Fits net.now state.now }
    ensures { Tells net.now state.now (Shares net.now end) result }
{
    let role = end.role();
    let Some(most) = greatest(net, state, role) else {
        return true;
    };
    let limits = limits(state, end);
    let flows = state.flows();
    for (place, edge) in net.edges().iter().enumerate() {
        if let Some(number) = role.number_in(edge) {
            if !reaches_one(&flows[place], &limits[number as usize], &flows[most]) {
                return false;
            }
        }
    }
    true
}

/// What ends of this kind may carry: the loads of the inputs, or the rooms of the outputs.
fn limits(state: &State, end: End) -> &[Frac]
    ensures { result.now ≡ limits_of end state.now }
{
    match end {
        End::Input => state.loads(),
        End::Output => state.rooms(),
    }
}

/// Whether the sum of output flows is the lesser of the sum of loads and the sum of rooms. All three
/// are formed first, so one that leaves 128 bits is told in any case.
fn passes_all(net: &Net, state: &State) -> Result<bool, Wide>
    requires { Fits net.now state.now }
    ensures { TellsBySums net.now state.now (PassesAll net.now)
        (concluding_sums Property.Unlimited net.now state.now) result }
{
    let outputs = output_sum(net.edges(), state.flows())?;
    let loads = sum_of(state.loads())?;
    let rooms = sum_of(state.rooms())?;
    Ok(is_lesser(&outputs, &loads, &rooms))
}
