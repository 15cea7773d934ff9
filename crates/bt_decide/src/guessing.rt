//! Guesses: assignments of the formula of two networks from simulations in which they behave otherwise. They are tried
//! before the search, and nothing rests on them.
ghost use Rattle.std.specs.Prelude.{◌≡◌, IfOk, All, length};

use bt_cnf::Formula;
use bt_frac::{Frac, Relation, Row};
use bt_net::Net;
use hint_simulation::{Case, Found, UNIT, differing};
use std::alloc::{AllocError, Global};

/// By how much the sides of a row may differ that a simulation shows as equal, in parts of `UNIT`.
const TOLERANCE: i128 = 1024;

/// Assignments that are likely to meet the formula of two networks, by simulations in which these behave otherwise;
/// those first that were found first. A mark is that of the simulation, and an atom is true where its row holds there
/// but for little: of a row and its strict opposite one is true.
pub fn guesses_of_both(
    alloc: Global,
    first: &Net,
    second: &Net,
    formula: &Formula,
) -> Result<Vec<Vec<bool>>, AllocError>
    ensures { IfOk result (λ guesses. All (λ guess. length guess.items ≡ formula.now.vars) guesses.items) }
{
    let mut guesses = Vec::new(alloc);
    let shown = differing(alloc, first, second)?;
    for found in &shown {
        guesses.push(guess_of(alloc, formula, found)?)?;
    }
    Ok(guesses)
}

/// The assignment that a simulation shows: whether each variable of the formula is true.
fn guess_of(alloc: Global, formula: &Formula, found: &Found) -> Result<Vec<bool>, AllocError>
    ensures { IfOk result (λ guess. length guess.items ≡ formula.now.vars) }
{
    let mut guess = Vec::new(alloc);
    for place in 0..formula.vars() {
        guess.push(truth_of(formula, found, place))?;
    }
    Ok(guess)
}

/// Whether the variable at a place is true: an atom by its row, any other by the mark of the edge of the same number.
fn truth_of(formula: &Formula, found: &Found, place: usize) -> bool {
    match row_at(formula, place) {
        Some(row) => holds(row, found),
        None => is_backed(found, place),
    }
}

/// The row of the variable at a place. None where the variable is no atom.
fn row_at(formula: &Formula, place: usize) -> Option<&Row> {
    let var = formula.var_at(place)?;
    let row = formula.row_of(var)?;
    formula.rows().get(row)
}

/// Whether the edge with a number is backed in a simulation. False where there is no such edge.
fn is_backed(found: &Found, edge: usize) -> bool {
    match found.simulated.backed.get(edge) {
        Some(backed) => *backed,
        None => false,
    }
}

/// Whether a row holds in a simulation, but for little: a strict row only by more than that, so that of it and its
/// opposite one holds.
fn holds(row: &Row, found: &Found) -> bool {
    let excess = excess(row, found);
    match row.relation() {
        Relation::AtLeast => excess >= -TOLERANCE,
        Relation::Above => excess > TOLERANCE,
        Relation::Equal => excess >= -TOLERANCE && excess <= TOLERANCE,
    }
}

/// By how much the sum of a row is above its bound in a simulation, in parts of `UNIT`.
fn excess(row: &Row, found: &Found) -> i128 {
    let mut sum: i128 = 0;
    for (column, coefficient) in row.terms() {
        sum = sum.saturating_add(product(coefficient, value_at(found, *column)));
    }
    sum.saturating_sub(product(&row.bound(), UNIT))
}

/// A fraction of an amount, cut to a whole number, and to one of 128 bits where it doesn't fit.
fn product(fraction: &Frac, amount: u32) -> i128 {
    fraction.numerator().saturating_mul(i128::from(amount)) / fraction.denominator()
}

/// The value of a column in a simulation, in parts of `UNIT`: a flow, and behind these a load or a room.
fn value_at(found: &Found, column: usize) -> u32 {
    let flows = &found.simulated.flows;
    if column < flows.len() {
        flows[column]
    } else {
        end_value_at(&found.case, column - flows.len())
    }
}

/// The load of an input or, in the numbers behind these, the room of an output, in parts of `UNIT`; 0 past the end.
fn end_value_at(case: &Case, end: usize) -> u32 {
    if end < case.loads.len() {
        case.loads[end]
    } else {
        room_at(&case.rooms, end - case.loads.len())
    }
}

/// The room of the output with a number, or 0 past the end.
fn room_at(rooms: &[u32], output: usize) -> u32 {
    match rooms.get(output) {
        Some(room) => *room,
        None => 0,
    }
}
