//! The first basis of a tableau: the rows, whose terms are their lines as they are given.
ghost use Rattle.std.specs.Prelude.{◌≡◌, ◌↔◌, ◌<◌, IfOk, IsTrue, replicate, None, false};
ghost use Rattle.std.specs.List.{All};
ghost use Rattle.bt_frac.specs.Rows.{IsRow};
ghost use Rattle.bt_linear_forms.specs.Lines.{IsLine};
ghost use Rattle.bt_pivot.specs.Tableaus.{AreOverColumns};
ghost use Rattle.bt_pivot.specs.inner.Starts.{kept, start_slots};

use crate::basis::Basis;
use bt_frac::Row;
use bt_linear_forms::{Term, is_zero};
use std::alloc::{AllocError, Global};

/// The terms of a row's line: those whose numbers aren't 0.
pub fn row_line(alloc: Global, row: &Row) -> Result<Vec<Term>, AllocError>
    ensures terms { IfOk result (λ v. v.items ≡ kept row.now.terms) }
    ensures line { IfOk result (λ v. IsLine v.items) }
    ensures known { IsRow row.now }
{
    let terms = kept_terms(alloc, row.terms())?;
    Ok(terms)
}

/// The terms whose numbers aren't 0.
fn kept_terms(alloc: Global, terms: &[Term]) -> Result<Vec<Term>, AllocError>
    ensures { IfOk result (λ v. v.items ≡ kept terms.now) }
{
    let mut left = Vec::new(alloc);
    for (position, number) in terms {
        if !is_zero(number) {
            left.push((*position, *number))?;
        }
    }
    Ok(left)
}

/// The first basis: each column is outside it, and each row's line has the row's own terms.
pub fn first_basis(alloc: Global, rows: &[Row], columns: usize) -> Result<Basis, AllocError>
    ensures { IfOk result (λ basis. basis ≡ start_slots rows.now columns) }
{
    let mut basis = column_slots(alloc, columns)?;
    let mut classes = first_classes(alloc, columns)?;
    for row in rows {
        let terms = row_line(alloc, row)?;
        let class = likely_class(&mut classes, basis.classes(), &terms);
        basis = basis.with_line(alloc, terms, class)?;
    }
    Ok(basis)
}

/// The basis of columns alone, of which each is outside and in a class of its own.
fn column_slots(alloc: Global, columns: usize) -> Result<Basis, AllocError>
    ensures { IfOk result (λ basis. basis ≡ replicate columns None) }
{
    let mut basis = Basis::empty(alloc);
    for _ in 0..columns {
        basis = basis.with_class(None)?;
    }
    Ok(basis)
}

/// For each column its class, which has the column's number.
fn first_classes(alloc: Global, columns: usize) -> Result<Vec<usize>, AllocError> {
    let mut classes = Vec::new(alloc);
    for column in 0..columns {
        classes.push(column)?;
    }
    Ok(classes)
}

/// The class to try for a line of these terms: of a single column that column's, and else the one noted in `classes`
/// for the line's first column, in place of which `next` is noted, the class that is made next. A line that is in
/// neither gets a class of its own, so a wrong guess costs but time. No terms are tried with `next`, which isn't there
/// yet.
fn likely_class(classes: &mut [usize], next: usize, terms: &[Term]) -> usize {
    match terms {
        [] => next,
        [(column, _)] => *column,
        [(column, _), ..] => match classes.get_mut(*column) {
            Some(latest) => std::mem::replace(latest, next),
            None => next,
        },
    }
}

/// Tells a proof that each row of a list is a row. It does nothing when it runs.
pub fn all_known(rows: &[Row])
    ensures { All IsRow rows.now }
{
    for row in rows {
        let _ = row.bound();
    }
}

/// The same rows.
pub fn copied(alloc: Global, rows: &[Row]) -> Result<Vec<Row>, AllocError>
    ensures { IfOk result (λ v. v.items ≡ rows.now) }
{
    let mut copies = Vec::new(alloc);
    for row in rows {
        if let Some(copy) = Row::new(alloc, row.terms(), row.relation(), row.bound())? {
            copies.push(copy)?;
        }
    }
    Ok(copies)
}

/// For each of `count` rows that it isn't bound.
pub fn unbound(alloc: Global, count: usize) -> Result<Vec<bool>, AllocError>
    ensures { IfOk result (λ v. v.items ≡ replicate count false) }
{
    let mut bound = Vec::new(alloc);
    for _ in 0..count {
        bound.push(false)?;
    }
    Ok(bound)
}

/// Whether the rows name only columns below this number.
pub fn are_over(rows: &[Row], columns: usize) -> bool
    ensures { IsTrue result ↔ AreOverColumns columns rows.now }
{
    rows.iter().all(|row| terms_are_over(row.terms(), columns))
}

/// Whether the terms name only columns below this number.
fn terms_are_over(terms: &[Term], columns: usize) -> bool
    ensures { IsTrue result ↔ All (λ t. t.0 < columns) terms.now }
{
    terms.iter().all(|(column, _)| *column < columns)
}
