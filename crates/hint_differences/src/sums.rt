//! Sums of lines, and of the numbers of a line times what its positions have.
use bt_frac::Frac;
use bt_linear_forms::{Line, Term, combined, is_zero, lone_line};
use std::alloc::{AllocError, Global};

/// The most positions that a sum may name.
const MOST_POSITIONS: usize = 1 << 32;

/// The line of the sum of these terms, of which several may name the same position. None where a number doesn't fit, or
/// a position is `MOST_POSITIONS` or more.
pub fn sum_of(alloc: Global, terms: &[Term]) -> Result<Option<Line>, AllocError> {
    let mut sum = Line::of(alloc, Vec::new(alloc))?;
    for (position, number) in terms {
        match with_term(alloc, &sum, *position, number)? {
            Some(more) => sum = more,
            None => return Ok(None),
        }
    }
    Ok(Some(sum))
}

/// The sum of a line and a number times a position. None where a number doesn't fit, or the position is too large.
fn with_term(
    alloc: Global,
    line: &Line,
    position: usize,
    number: &Frac,
) -> Result<Option<Line>, AllocError> {
    if position >= MOST_POSITIONS {
        return Ok(None);
    }
    let lone = lone_line(alloc, Vec::new(alloc), position, false)?;
    added(alloc, line, number, &lone)
}

/// The sum of a line and a number times another line; where the number is 0, the first line alone. None where a number
/// doesn't fit.
fn added(
    alloc: Global,
    left: &Line,
    factor: &Frac,
    right: &Line,
) -> Result<Option<Line>, AllocError> {
    let left = left.terms(alloc)?;
    if is_zero(factor) {
        return Ok(Some(Line::of(alloc, left)?));
    }
    let _ = factor.denominator();
    let right = right.terms(alloc)?;
    match combined(alloc, &left, factor, &right)? {
        Ok(sum) => Ok(Some(sum)),
        Err(_) => Ok(None),
    }
}

/// The line times the number that makes its number at a position -1. None where it has none there, or one doesn't fit.
pub fn scaled(alloc: Global, line: &Line, position: usize) -> Result<Option<Line>, AllocError> {
    let Some(number) = line.number_at(position) else {
        return Ok(None);
    };
    let Some(factor) = Frac::whole(-1).div(&number) else {
        return Ok(None);
    };
    let none = Line::of(alloc, Vec::new(alloc))?;
    added(alloc, &none, &factor, line)
}

/// The line with what a position is, by a line that is 0 and has -1 there, in place of it. None where the line doesn't
/// name the position, or a number doesn't fit.
pub fn substituted(
    alloc: Global,
    line: &Line,
    position: usize,
    zero: &Line,
) -> Result<Option<Line>, AllocError> {
    if !line.names(position) {
        return Ok(None);
    }
    match line.substituted_long(alloc, position, zero)? {
        Ok(sum) => Ok(Some(sum)),
        Err(_) => Ok(None),
    }
}

/// The sum of a line's numbers times the values of their columns, but for one column. None where a number doesn't fit.
pub fn value_of(line: &Line, but: usize, values: &[Frac]) -> Option<Frac> {
    let mut sum = Frac::whole(0);
    for index in 0..line.len() {
        let (column, number) = line.term_at(index);
        if column != but {
            let product = number.mul(&value_at(values, column))?;
            sum = sum.add(&product)?;
        }
    }
    Some(sum)
}

/// The value of a column, or 1 past the columns.
fn value_at(values: &[Frac], column: usize) -> Frac {
    match values.get(column) {
        Some(value) => *value,
        None => Frac::whole(1),
    }
}
