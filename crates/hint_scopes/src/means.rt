//! Means of ends: sums of flows, each with a weight, and the forms that compare them.
use bt_extend::Form;
use bt_frac::Frac;
use hint_graphs::UNIT;
use std::alloc::{AllocError, Global};

/// A column with its weight, in parts of `UNIT`.
#[derive(Clone, Copy, PartialEq, Eq, PartialOrd, Ord)]
pub struct Term {
    pub column: usize,
    weight: u64,
}

/// A column with its coefficient, in parts of `UNIT`.
#[derive(Clone, Copy, PartialEq, Eq, PartialOrd, Ord)]
struct Amount {
    column: usize,
    amount: i128,
}

impl Term {
    /// Whether the weight is one of so many equal parts of the whole.
    pub fn is_part_of(self, parts: u64) -> bool {
        self.weight.saturating_mul(parts) == UNIT
    }
}

/// The term of a column with the weight 1.
pub fn single(column: usize) -> Term {
    Term {
        column,
        weight: UNIT,
    }
}

/// The terms in the order of their columns, where those of one column are added up to one term.
pub fn merged(alloc: Global, terms: &mut Vec<Term>) -> Result<Vec<Term>, AllocError> {
    terms.sort()?;
    let mut sums = Vec::new(alloc);
    for term in terms.iter() {
        add_term(&mut sums, *term)?;
    }
    Ok(sums)
}

/// Adds a term to a sum whose last column is not above its own.
fn add_term(sums: &mut Vec<Term>, term: Term) -> Result<(), AllocError> {
    let count = sums.len();
    if count > 0 && sums[count - 1].column == term.column {
        sums[count - 1].weight = sums[count - 1].weight.saturating_add(term.weight);
        return Ok(());
    }
    sums.push(term)?;
    Ok(())
}

/// The share of one of so many edges in a sum: all of it or half. Empty where they are neither one nor two, or where
/// half of a weight isn't whole.
pub fn shared(alloc: Global, terms: &[Term], among: usize) -> Result<Vec<Term>, AllocError> {
    let mut shares = Vec::new(alloc);
    if among == 1 {
        shares.extend_from_slice(terms)?;
    }
    if among == 2 && terms.iter().all(|term| term.weight % 2 == 0) {
        for term in terms {
            shares.push(Term {
                column: term.column,
                weight: term.weight / 2,
            })?;
        }
    }
    Ok(shares)
}

/// The form of a sum less another, times the least power of two that makes all coefficients whole. None where a column
/// is too large.
pub fn difference(
    alloc: Global,
    plus: &[Term],
    minus: &[Term],
) -> Result<Option<Form>, AllocError> {
    let mut amounts = Vec::new(alloc);
    let mut bits: u64 = 0;
    for term in plus {
        bits |= term.weight;
        amounts.push(amount_of(term, true))?;
    }
    for term in minus {
        bits |= term.weight;
        amounts.push(amount_of(term, false))?;
    }
    amounts.sort()?;
    form_of(alloc, &amounts, lowest_bit(bits))
}

/// A term as an amount, which is its weight or the negative of it.
fn amount_of(term: &Term, positive: bool) -> Amount {
    let weight = i128::from(term.weight);
    Amount {
        column: term.column,
        amount: if positive { weight } else { -weight },
    }
}

/// The largest power of two that divides a number, and 1 for 0.
fn lowest_bit(bits: u64) -> u64 {
    if bits == 0 {
        1
    } else {
        bits ^ (bits & bits.wrapping_sub(1))
    }
}

/// The form of amounts, whose columns ascend and are named twice at most, each divided by a number.
fn form_of(alloc: Global, amounts: &[Amount], by: u64) -> Result<Option<Form>, AllocError> {
    let mut terms: Vec<(usize, Frac)> = Vec::new(alloc);
    for place in 0..amounts.len() {
        if is_last_of(amounts, place) {
            let sum = sum_before(amounts, place);
            if let Some(coefficient) = coefficient_of(sum, by) {
                terms.push((amounts[place].column, coefficient))?;
            }
        }
    }
    Ok(Form::new(Frac::whole(0), terms))
}

/// Whether the next amount, where there is one, is of another column.
fn is_last_of(amounts: &[Amount], place: usize) -> bool {
    match (amounts.get(place), amounts.get(place.saturating_add(1))) {
        (Some(this), Some(next)) => this.column != next.column,
        _ => true,
    }
}

/// The sum of an amount and that before it, where both are of one column.
fn sum_before(amounts: &[Amount], place: usize) -> i128 {
    let Some(this) = amounts.get(place) else {
        return 0;
    };
    match amounts.get(place.wrapping_sub(1)) {
        Some(before) if before.column == this.column => this.amount.saturating_add(before.amount),
        _ => this.amount,
    }
}

/// An amount over a number, where it isn't 0.
fn coefficient_of(amount: i128, by: u64) -> Option<Frac> {
    if amount == 0 || by == 0 {
        None
    } else {
        Frac::new(amount, i128::from(by))
    }
}
