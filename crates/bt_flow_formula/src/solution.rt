//! The state of an assignment with values.
ghost use Rattle.std.specs.Prelude.{◌≡◌, ◌+◌, ◌<◌, ◌^◌, IfOk, map};
ghost use Rattle.std.specs.List.{range_with_len};
ghost use Rattle.bt_frac.specs.Values.{value_in};
ghost use Rattle.bt_cnf.specs.Assignments.{truth_in};
ghost use Rattle.bt_net.specs.Network.{IsNetwork};
ghost use Rattle.bt_flow.specs.States.{AreLowest};
ghost use Rattle.bt_flow_formula.specs.Solutions.{state_at, BreaksWhatIsMet};

use bt_cnf::is_true;
use bt_flow::{State, load_column, room_column};
use bt_frac::Frac;
use bt_net::Net;
use std::alloc::{AllocError, Global};

/// The value of a column, or 0 past the end of the values.
fn value_of(values: &[Frac], column: usize) -> Frac
    ensures { result ≡ value_in values.now column }
{
    match values.get(column) {
        Some(value) => *value,
        None => Frac::whole(0),
    }
}

/// The values of the `count` columns from `first` on, 0 past the end of the values.
fn values_from(
    alloc: Global,
    values: &[Frac],
    first: usize,
    count: usize,
) -> Result<Vec<Frac>, AllocError>
    requires { first + count < 2 ^ 64 }
    ensures { IfOk result (λ found. found.items ≡ map (value_in values.now) (range_with_len first count)) }
{
    let mut found = Vec::new(alloc);
    for place in 0..count {
        found.push(value_of(values, first + place))?;
    }
    Ok(found)
}

/// The marks of so many edges, which are the first variables: true where an edge is backed.
fn marks_of(alloc: Global, assignment: &[bool], count: usize) -> Result<Vec<bool>, AllocError>
    ensures { IfOk result (λ marks. marks.items ≡ map (truth_in assignment.now) (range_with_len 0 count)) }
{
    let mut marks = Vec::new(alloc);
    for edge in 0..count {
        marks.push(is_true(assignment, edge))?;
    }
    Ok(marks)
}

/// The state of an assignment with values: the marks are its first variables, and the flows, loads and rooms
/// the values of their columns. A variable past the end of the assignment is false, a value past the end
/// is 0. The state breaks each property whose flow formula the assignment and the values meet.
pub fn state_of(
    alloc: Global,
    net: &Net,
    values: &[Frac],
    assignment: &[bool],
) -> Result<State, AllocError>
    ensures state { IfOk result (λ state. state
        ≡ state_at net.now (truth_in assignment.now) (value_in values.now)) }
    ensures breaks { IfOk result
        (BreaksWhatIsMet net.now (truth_in assignment.now) (value_in values.now)) }
    ensures lowest { IfOk result AreLowest }
{
    // A fraction is in lowest terms by its type, and a list of them by this call.
    Frac::all_known(values);
    let edges = net.edges().len();
    let flows = values_from(alloc, values, 0, edges)?;
    let backed = marks_of(alloc, assignment, edges)?;
    let loads = values_from(alloc, values, load_column(net, 0), net.inputs() as usize)?;
    let rooms = values_from(alloc, values, room_column(net, 0), net.outputs() as usize)?;
    Ok(State::new(flows, backed, loads, rooms))
}
