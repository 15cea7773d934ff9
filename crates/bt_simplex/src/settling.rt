//! Values of the columns at a basis at which nothing fails: a small number takes the place of the
//! infinitesimal.
ghost use Rattle.std.specs.Prelude.{◌≡◌, ◌<◌, pos, IfOk, IfErr, IsTrue, ◌↔◌, Some};
ghost use Rattle.bt_frac.specs.Rows.{IsRow};
ghost use Rattle.bt_simplex.specs.Causes.{IsCause, IsEpsilon};
ghost use Rattle.bt_simplex.specs.Checks.{MeetsBoundRows};
ghost use Rattle.bt_pivot.specs.Points.{bound_row};
ghost use Rattle.bt_pivot.specs.Tableaus.{IsTableau, with_slots};
ghost use Rattle.bt_simplex.specs.Pivots.{IsMet};
ghost use Rattle.bt_simplex.specs.inner.Settling.{IsLesser, IsFallingFrom, IsRoom, IsRoomAt, IsUnfitRoom, IsSettled};

use crate::points::point;
use bt_frac::{Delta, Frac, Row};
use bt_linear_forms::Operation;
use bt_pivot::{Basis, Cause, Table, WidePlace};
use std::alloc::{AllocError, Global};
use std::cmp::Ordering;

/// What tells that this operation, for a number asked for at a position, leaves 128 bits.
fn settle_cause(position: usize, operation: Operation, left: Frac, right: Frac) -> Cause
    ensures { result ≡ record {
      place = WidePlace.Settle;
      row = position;
      column = 0;
      operation = operation;
      left = left;
      right = right;
    } }
{
    Cause {
        place: WidePlace::Settle,
        row: position,
        column: 0,
        operation,
        left,
        right,
    }
}

/// The number 1/2.
fn half() -> Frac
    ensures { result ≡ record { over = pos 1; under = 2 } }
{
    match Frac::new(1, 2) {
        Some(half) => half,
        None => unreachable!(),
    }
}

/// Whether a row stands above its bound, but the lower the greater the infinitesimal is, so that this may not be any
/// number.
fn is_falling(row: &Row, point: &Delta) -> bool
    ensures told { IsTrue result ↔ IsFallingFrom row.now point.now }
    ensures known { IsRow row.now }
{
    let bound = row.bound();
    point.tiny.numerator() < 0 && bound.compare(&point.value) == Ordering::Less
}

/// Half of the number that takes a falling row down to its bound, where it stands in for the infinitesimal; or the
/// operation whose result leaves 128 bits.
fn room(position: usize, row: &Row, point: &Delta) -> Result<Frac, Cause>
    requires { IsFallingFrom row.now point.now }
    ensures room { IfOk result (IsRoom row.now point.now) }
    ensures unfit { IfErr result (IsUnfitRoom position row.now point.now) }
{
    // This tells a proof that the fraction is in lowest terms.
    let _ = point.tiny.denominator();
    let (left, right) = (point.value, row.bound().negate());
    let Some(gap) = left.add(&right) else {
        return Err(settle_cause(position, Operation::Add, left, right));
    };
    let fall = point.tiny.negate();
    let Some(quotient) = gap.div(&fall) else {
        return Err(settle_cause(position, Operation::Div, gap, fall));
    };
    let half = half();
    let Some(room) = quotient.mul(&half) else {
        return Err(settle_cause(position, Operation::Mul, quotient, half));
    };
    Ok(room)
}

/// Half of the number that takes the row of a position down to its bound, where it stands in for the infinitesimal.
/// None where the position is no bound row that falls. Or the operation whose result leaves 128 bits.
fn room_at(tableau: &Table, basis: &Basis, position: usize) -> Result<Option<Frac>, Cause>
    requires { IsMet (with_slots tableau.now basis.now) }
    ensures room { IfOk result (IsRoomAt (with_slots tableau.now basis.now) position) }
    ensures unfit { IfErr result (IsCause (with_slots tableau.now basis.now)) }
{
    let Some(row) = tableau.bound_row(position) else {
        return Ok(None);
    };
    let point = point(tableau, basis, position)?;
    if !is_falling(row, &point) {
        return Ok(None);
    }
    let room = room(position, row, &point)?;
    Ok(Some(room))
}

/// The number that takes the place of the infinitesimal: the least of 1 and of half of what each bound row lets it be.
/// Or the operation whose result leaves 128 bits.
fn epsilon(tableau: &Table, basis: &Basis) -> Result<Frac, Cause>
    requires tableau { IsTableau (with_slots tableau.now basis.now) }
    requires met { IsMet (with_slots tableau.now basis.now) }
    ensures epsilon { IfOk result (IsEpsilon (with_slots tableau.now basis.now)) }
    ensures unfit { IfErr result (IsCause (with_slots tableau.now basis.now)) }
{
    let mut epsilon = Frac::whole(1);
    for position in 0..basis.len() {
        match room_at(tableau, basis, position)? {
            Some(room) => epsilon = lesser(epsilon, room),
            None => {}
        }
    }
    Ok(epsilon)
}

/// The lesser of two numbers.
fn lesser(first: Frac, second: Frac) -> Frac
    ensures { IsLesser first second result }
{
    match second.compare(&first) {
        Ordering::Less => second,
        Ordering::Equal | Ordering::Greater => first,
    }
}

/// The value of a column, with `epsilon` in place of the infinitesimal; or the operation whose result leaves 128 bits.
fn column_value(
    tableau: &Table,
    basis: &Basis,
    epsilon: &Frac,
    column: usize,
) -> Result<Frac, Cause>
    requires met { IsMet (with_slots tableau.now basis.now) }
    requires epsilon { IsEpsilon (with_slots tableau.now basis.now) epsilon.now }
    requires column { column < tableau.now.columns }
    ensures settled { IfOk result (IsSettled (with_slots tableau.now basis.now) epsilon.now column) }
    ensures unfit { IfErr result (IsCause (with_slots tableau.now basis.now)) }
{
    let point = point(tableau, basis, column)?;
    let Some(product) = epsilon.mul(&point.tiny) else {
        return Err(settle_cause(column, Operation::Mul, *epsilon, point.tiny));
    };
    let Some(value) = point.value.add(&product) else {
        return Err(settle_cause(column, Operation::Add, point.value, product));
    };
    Ok(value)
}

/// Values of the columns that meet every bound row, where nothing fails; or the operation for them whose result leaves
/// 128 bits.
pub fn settled(
    tableau: &Table,
    alloc: Global,
    basis: &Basis,
) -> Result<Result<Vec<Frac>, Cause>, AllocError>
    requires tableau { IsTableau (with_slots tableau.now basis.now) }
    requires met { IsMet (with_slots tableau.now basis.now) }
    ensures meets { IfOk result
        (λ o. IfOk o (λ v. MeetsBoundRows (with_slots tableau.now basis.now) v.items)) }
    ensures unfit { IfOk result (λ o. IfErr o (IsCause (with_slots tableau.now basis.now))) }
{
    let epsilon = match epsilon(tableau, basis) {
        Ok(epsilon) => epsilon,
        Err(cause) => return Ok(Err(cause)),
    };
    let mut values = Vec::with_capacity(alloc, tableau.columns())?;
    for column in 0..tableau.columns() {
        match column_value(tableau, basis, &epsilon, column) {
            Ok(value) => values.push(value)?,
            Err(cause) => return Ok(Err(cause)),
        }
    }
    Ok(Ok(values))
}
