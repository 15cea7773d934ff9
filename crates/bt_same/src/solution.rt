//! The pair of states of an assignment with values.
ghost use Rattle.std.specs.Prelude.{◌≡◌, IfOk, map};
ghost use Rattle.std.specs.List.{range_with_len};
ghost use Rattle.bt_frac.specs.Values.{value_in};
ghost use Rattle.bt_cnf.specs.Assignments.{truth_in};
ghost use Rattle.bt_flow.specs.States.{AreLowest};
ghost use Rattle.bt_flow_formula.specs.Solutions.{state_at};
ghost use Rattle.bt_same.specs.Sameness.{HaveEqualEnds};
ghost use Rattle.bt_same.specs.SameFormula.{shifted};
ghost use Rattle.bt_same.specs.Solutions.{ShowsWhereMet};

use crate::comparing::are_known;
use crate::pair::Pair;
use crate::shift::Shift;
use bt_cnf::is_true;
use bt_flow::State;
use bt_flow_formula::state_of;
use bt_frac::Frac;
use bt_net::Net;
use std::alloc::{AllocError, Global};

/// The value of a column, or 0 past the end of the values.
fn value_of(values: &[Frac], column: usize) -> Frac
    ensures { result ≡ value_in values.now column }
{
    match values.get(column) {
        Some(value) => *value,
        None => Frac::whole(0),
    }
}

/// The values of the first `count` columns of one network's formula, taken from where these go.
fn part_values(
    alloc: Global,
    values: &[Frac],
    columns: Shift,
    count: usize,
) -> Result<Vec<Frac>, AllocError>
    ensures { IfOk result (λ found. found.items
        ≡ map (λ c. value_in values.now (shifted columns c)) (range_with_len 0 count)) }
{
    let mut found = Vec::new(alloc);
    for column in 0..count {
        found.push(value_of(values, columns.put(column)?))?;
    }
    Ok(found)
}

/// The marks of the first `count` edges of one network, taken from where these go: true where an edge is backed.
fn part_marks(
    alloc: Global,
    assignment: &[bool],
    vars: Shift,
    count: usize,
) -> Result<Vec<bool>, AllocError>
    ensures { IfOk result (λ marks. marks.items
        ≡ map (λ k. truth_in assignment.now (shifted vars k)) (range_with_len 0 count)) }
{
    let mut marks = Vec::new(alloc);
    for edge in 0..count {
        marks.push(is_true(assignment, vars.put(edge)?))?;
    }
    Ok(marks)
}

/// The state of one of the networks, with its marks, flows, loads and rooms taken from where the shift puts them.
fn part_state(
    alloc: Global,
    net: &Net,
    values: &[Frac],
    assignment: &[bool],
    shift: Shift,
) -> Result<State, AllocError>
    ensures state { IfOk result (λ state. state
        ≡ state_at net.now (λ k. truth_in assignment.now (shifted shift k))
        (λ c. value_in values.now (shifted shift c))) }
    ensures lowest { IfOk result AreLowest }
{
    let edges = net.edges().len();
    let count = edges + net.inputs() as usize + net.outputs() as usize;
    let values = part_values(alloc, values, shift, count)?;
    let marks = part_marks(alloc, assignment, shift, edges)?;
    let state = state_of(alloc, net, &values, &marks)?;
    Ok(state)
}

/// The pair of states of an assignment with values: each has its marks, its flows, and the loads and rooms. It shows a
/// difference where these meet the formula of the two networks.
pub fn pair_of(
    alloc: Global,
    first: &Net,
    second: &Net,
    values: &[Frac],
    assignment: &[bool],
) -> Result<Pair, AllocError>
    requires { HaveEqualEnds first.now second.now }
    ensures shows { IfOk result (λ pair. ShowsWhereMet first.now second.now
        (truth_in assignment.now) (value_in values.now) pair.first pair.second) }
    ensures lowest { IfOk result (λ pair. AreLowest pair.first × AreLowest pair.second) }
{
    // A fraction is in lowest terms by its type, and a list of them by this call.
    Frac::all_known(values);
    let of_first = Shift::of_first(first, second);
    let of_second = Shift::of_second(first, second);
    let one = part_state(alloc, first, values, assignment, of_first)?;
    let other = part_state(alloc, second, values, assignment, of_second)?;
    are_known(first, second, &one, &other);
    Ok(Pair {
        first: one,
        second: other,
    })
}
