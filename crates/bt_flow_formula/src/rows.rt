//! Rows over the columns of the flow formula.
ghost use Rattle.std.specs.Prelude.{◌≡◌, ◌<◌, ◌-◌, ◌^◌, IfOk};
ghost use Rattle.bt_frac.specs.Rows.{HaveColumns};
ghost use Rattle.bt_flow_formula.specs.Columns as columns;
ghost use Rattle.bt_flow_formula.specs.Pairs as pairs;
ghost use Rattle.bt_flow_formula.specs.inner.Variables as variables;

use crate::state_literal::Pair;
use bt_frac::{Frac, Relation, Row};
use std::alloc::{AllocError, Global};

/// The row of terms whose columns ascend.
pub fn row_of(
    alloc: Global,
    terms: &[(usize, Frac)],
    relation: Relation,
    bound: Frac,
) -> Result<Row, AllocError>
    requires { HaveColumns terms.now }
    ensures { IfOk result (λ row. row ≡ record { terms = terms.now; relation = relation; bound = bound }) }
{
    match Row::new(alloc, terms, relation, bound)? {
        Some(row) => Ok(row),
        None => unreachable!(),
    }
}

/// The row of the terms in a vector, whose columns ascend. The row keeps the vector.
pub fn row_of_vec(terms: Vec<(usize, Frac)>, relation: Relation, bound: Frac) -> Row
    requires { HaveColumns terms.items }
    ensures { result ≡ record { terms = terms.items; relation = relation; bound = bound } }
{
    match Row::from_vec(terms, relation, bound) {
        Some(row) => row,
        None => unreachable!(),
    }
}

/// The term that adds a column.
pub fn plus(column: usize) -> (usize, Frac)
    ensures { result ≡ columns.plus column }
{
    (column, Frac::whole(1))
}

/// The term that subtracts a column.
pub fn minus(column: usize) -> (usize, Frac)
    ensures { result ≡ columns.minus column }
{
    (column, Frac::whole(1).negate())
}

/// The row that a column is at least a whole number.
pub fn at_least(alloc: Global, column: usize, least: u32) -> Result<Row, AllocError>
    requires { column < 2 ^ 64 - 1 }
    ensures { IfOk result (λ row. row ≡ columns.at_least column least) }
{
    let bound = Frac::whole(i64::from(least));
    row_of(alloc, &[plus(column)], Relation::AtLeast, bound)
}

/// The row that a column is at most a whole number.
pub fn at_most(alloc: Global, column: usize, most: u32) -> Result<Row, AllocError>
    requires { column < 2 ^ 64 - 1 }
    ensures { IfOk result (λ row. row ≡ columns.at_most column most) }
{
    let bound = Frac::whole(i64::from(most)).negate();
    row_of(alloc, &[minus(column)], Relation::AtLeast, bound)
}

/// The row that a column is below a whole number.
fn below(alloc: Global, column: usize, end: u32) -> Result<Row, AllocError>
    requires { column < 2 ^ 64 - 1 }
    ensures { IfOk result (λ row. row ≡ columns.below column end) }
{
    let bound = Frac::whole(i64::from(end)).negate();
    row_of(alloc, &[minus(column)], Relation::Above, bound)
}

/// The row that a column is above a whole number.
fn beyond(alloc: Global, column: usize, start: u32) -> Result<Row, AllocError>
    requires { column < 2 ^ 64 - 1 }
    ensures { IfOk result (λ row. row ≡ columns.beyond column start) }
{
    let bound = Frac::whole(i64::from(start));
    row_of(alloc, &[plus(column)], Relation::Above, bound)
}

/// The row that one column less another is at least 0, or above 0, as the relation says.
fn less(alloc: Global, a: usize, b: usize, relation: Relation) -> Result<Row, AllocError>
    requires a { a < 2 ^ 64 - 1 }
    requires b { b < 2 ^ 64 - 1 }
    ensures { IfOk result (λ row. row ≡ columns.zero_row (columns.less a b) relation) }
{
    let zero = Frac::whole(0);
    if a < b {
        row_of(alloc, &[plus(a), minus(b)], relation, zero)
    } else if b < a {
        row_of(alloc, &[minus(b), plus(a)], relation, zero)
    } else {
        row_of(alloc, &[], relation, zero)
    }
}

/// The row that a column is at least another.
pub fn not_below(alloc: Global, a: usize, b: usize) -> Result<Row, AllocError>
    requires a { a < 2 ^ 64 - 1 }
    requires b { b < 2 ^ 64 - 1 }
    ensures { IfOk result (λ row. row ≡ columns.not_below a b) }
{
    less(alloc, a, b, Relation::AtLeast)
}

/// The row that a column is above another.
pub fn above(alloc: Global, a: usize, b: usize) -> Result<Row, AllocError>
    requires a { a < 2 ^ 64 - 1 }
    requires b { b < 2 ^ 64 - 1 }
    ensures { IfOk result (λ row. row ≡ columns.above a b) }
{
    less(alloc, a, b, Relation::Above)
}

/// The first row of a pair.
pub fn first_row(alloc: Global, pair: Pair) -> Result<Row, AllocError>
    requires { variables.HasColumns pair }
    ensures { IfOk result (λ row. row ≡ pairs.first_row pair) }
{
    match pair {
        Pair::Even { edge, other, .. } => not_below(alloc, edge, other),
        Pair::Empty { edge, .. } => at_most(alloc, edge, 0),
        Pair::Full { edge, cap } => at_least(alloc, edge, cap),
        Pair::Loaded { edge, column, .. } | Pair::Filled { edge, column, .. } => {
            not_below(alloc, edge, column)
        }
    }
}

/// The opposite of the first row of a pair.
pub fn opposite_row(alloc: Global, pair: Pair) -> Result<Row, AllocError>
    requires { variables.HasColumns pair }
    ensures { IfOk result (λ row. row ≡ pairs.opposite_row pair) }
{
    match pair {
        Pair::Even { edge, other, .. } => above(alloc, other, edge),
        Pair::Empty { edge, .. } => beyond(alloc, edge, 0),
        Pair::Full { edge, cap } => below(alloc, edge, cap),
        Pair::Loaded { edge, column, .. } | Pair::Filled { edge, column, .. } => {
            above(alloc, column, edge)
        }
    }
}
