//! Sums of a line and a number times another, formed by one walk over both.
ghost use Rattle.std.specs.Prelude.{◌≡◌, ◌≢◌, pos, IfOk, IfErr, IfSome, IfNone, None, Some, [], ◌∷◌, IsTrue, ◌↔◌};
ghost use Rattle.bt_frac.specs.Ratio.{Ratio, IsLowest};
ghost use Rattle.bt_frac.specs.Products.{IsProduct};
ghost use Rattle.bt_linear_forms.specs.Lines.{IsLine, IsCombination};
ghost use Rattle.bt_linear_forms.specs.inner.Steps.{IsStep, AddsTo};
ghost use Rattle.bt_linear_forms.specs.Unfits.{IsUnfitHere, IsUnfit};

use crate::term::Term;
use crate::unfit::{Operation, Unfit};
use bt_frac::Frac;
use std::alloc::AllocError;
use std::cmp::Ordering;

/// The terms of the line `left` plus `factor`, which isn't 0, times the line `right`, in the room of a list whose terms
/// are dropped; or the first product or sum that leaves 128 bits.
pub fn merged(
    room: Vec<Term>,
    left: &[Term],
    factor: &Frac,
    right: &[Term],
) -> Result<Result<Vec<Term>, Unfit>, AllocError>
    requires factor { factor.now.over ≢ pos 0 }
    requires lowest { IsLowest factor.now }
    requires left { IsLine left.now }
    requires right { IsLine right.now }
    ensures line { IfOk result (λ o. IfOk o (λ v. IsLine v.items)) }
    ensures sum { IfOk result (λ o. IfOk o (λ v. IsCombination left.now factor.now right.now v.items)) }
    ensures unfit { IfOk result (λ o. IfErr o (IsUnfit left.now factor.now right.now)) }
{
    let mut terms = room;
    terms.clear();
    terms.reserve(left.len() + right.len())?;
    let mut first = left;
    let mut second = right;
    while !are_empty(first, second) {
        match first_term(first, factor, second) {
            Ok((term, first_rest, second_rest)) => {
                if let Some(term) = term {
                    terms.push(term)?;
                }
                first = first_rest;
                second = second_rest;
            }
            Err(unfit) => return Ok(Err(unfit)),
        }
    }
    Ok(Ok(terms))
}

/// The first term of the line `left` plus `factor` times the line `right`, where its number isn't 0, and what is left
/// of both lines; or the product or the sum that leaves 128 bits. One of the lines has a term.
fn first_term<'a>(
    left: &'a [Term],
    factor: &Frac,
    right: &'a [Term],
) -> Result<(Option<Term>, &'a [Term], &'a [Term]), Unfit>
    requires factor { factor.now.over ≢ pos 0 }
    requires some { (left.now ≡ []) × (right.now ≡ []) → ⊥ }
    ensures step { IfOk result (λ s. IsStep left.now factor.now right.now s.0 s.1.now s.2.now) }
    ensures unfit { IfErr result (IsUnfit left.now factor.now right.now) }
{
    // This tells a proof that the fraction is in lowest terms.
    let _ = factor.denominator();
    match (split(left), split(right)) {
        (Some((first, left_rest)), Some((second, right_rest))) => {
            match first.0.cmp(&second.0) {
                Ordering::Less => Ok((Some(first), left_rest, right)),
                Ordering::Equal => {
                    let term = added(first.0, &first.1, factor, &second.1)?;
                    Ok((term, left_rest, right_rest))
                }
                Ordering::Greater => {
                    let term = scaled(factor, second)?;
                    Ok((Some(term), left, right_rest))
                }
            }
        }
        (Some((first, left_rest)), None) => Ok((Some(first), left_rest, right)),
        (None, Some((second, right_rest))) => {
            let term = scaled(factor, second)?;
            Ok((Some(term), left, right_rest))
        }
        (None, None) => unreachable!(),
    }
}

/// Whether both lines have no terms left.
fn are_empty(first: &[Term], second: &[Term]) -> bool
    ensures { IsTrue result ↔ ((first.now ≡ []) × (second.now ≡ [])) }
{
    first.is_empty() && second.is_empty()
}

/// The first term of a line, and the terms after it. None where the line is empty.
fn split(line: &[Term]) -> Option<(Term, &[Term])>
    ensures some { IfSome result (λ s. line.now ≡ s.0 ∷ s.1.now) }
    ensures none { IfNone result (line.now ≡ []) }
{
    match line {
        [first, rest @ ..] => Some((*first, rest)),
        [] => None,
    }
}

/// The term of a position with the number `number` plus `factor` times `by`. None where that is 0; or the product or
/// the sum that leaves 128 bits.
fn added(position: usize, number: &Frac, factor: &Frac, by: &Frac) -> Result<Option<Term>, Unfit>
    ensures term { IfOk result (AddsTo position number.now factor.now by.now) }
    ensures unfit { IfErr result (IsUnfitHere position (Some number.now) factor.now by.now) }
{
    let Some(product) = product(factor, by) else {
        return Err(unfit_product(position, factor, by));
    };
    let Some(sum) = number.add(&product) else {
        return Err(Unfit {
            column: position,
            operation: Operation::Add,
            left: *number,
            right: product,
        });
    };
    if is_zero(&sum) {
        return Ok(None);
    }
    Ok(Some((position, sum)))
}

/// A term times a number; or the product that leaves 128 bits.
fn scaled(factor: &Frac, term: Term) -> Result<Term, Unfit>
    ensures term { IfOk result (λ t. (t.0 ≡ term.0) × IsLowest t.1 × IsProduct factor.now term.1 t.1) }
    ensures unfit { IfErr result (IsUnfitHere term.0 None factor.now term.1) }
{
    let Some(product) = product(factor, &term.1) else {
        return Err(unfit_product(term.0, factor, &term.1));
    };
    Ok((term.0, product))
}

/// The product of two numbers. None where it leaves 128 bits. Where `factor` is 1 or -1, nothing needs to be
/// multiplied.
fn product(factor: &Frac, by: &Frac) -> Option<Frac>
    ensures some { IfSome result (IsProduct factor.now by.now) }
    ensures lowest { IfSome result IsLowest }
    ensures none { IfNone result ((f : Ratio) → IsLowest f → IsProduct factor.now by.now f → ⊥) }
{
    // This tells a proof that the fraction is in lowest terms.
    let _ = by.denominator();
    if *factor == Frac::whole(1) {
        Some(*by)
    } else if *factor == Frac::whole(-1) {
        Some(by.negate())
    } else {
        factor.mul(by)
    }
}

/// What says that the product of these two numbers, formed for a position, leaves 128 bits.
fn unfit_product(position: usize, factor: &Frac, by: &Frac) -> Unfit
    ensures { result
        ≡ record { column = position; operation = Operation.Mul; left = factor.now; right = by.now } }
{
    Unfit {
        column: position,
        operation: Operation::Mul,
        left: *factor,
        right: *by,
    }
}

/// Whether the number is 0.
pub fn is_zero(number: &Frac) -> bool
    ensures { IsTrue result ↔ (number.now.over ≡ pos 0) }
{
    number.numerator() == 0
}
