//! Lines whose numbers are small whole numbers over one small denominator, where small is below 2^31 in magnitude. Sums
//! of these need no fractions, and their products fit 64 bits.
ghost use Rattle.std.specs.Prelude.{◌≡◌, ◌≢◌, ◌<◌, ◌≤◌, ◌^◌, ◌*ℤ◌, IfOk, IfSome, None, true, false, IsTrue, ◌↔◌, length, slice_index_or, unsigned_abs};
ghost use Rattle.std.specs.Int.{IsGcd};
ghost use Rattle.std.specs.List.{All};
ghost use Rattle.bt_farkas.specs.WeightedRows.{coefficient_at};
ghost use Rattle.bt_linear_forms.specs.Lines.{IsLine, HasNumber, signed_terms};
ghost use Rattle.bt_linear_forms.specs.TermSigns.{IsSignedTerm};
ghost use Rattle.bt_linear_forms.specs.Shorts.{reduced, terms_over, IsSmall, IsShort, Ascend, whole_at, signed_numbers, Divides};

mod copying;
mod entry;
mod merging;
mod zero;

use crate::term::Term;
use bt_frac::Frac;
pub use copying::lone_short;
pub use entry::{Entry, Room};
pub use merging::{Change, Scales};
use std::alloc::{AllocError, Global};
use std::cmp::Ordering;
use std::marker::Model;
pub use zero::{entering_line, zero_line};

/// The least magnitude that no number of a short line has, 2^31.
const SMALL_LIMIT: u64 = 1 << 31;

/// A line of whole numbers over one denominator, which is positive. All are below 2^31, and positions fit
/// 32 bits. They may have common divisors.
#[derive(Drop)]
pub struct Short {
    terms: Vec<Entry>,
    under: u32,
}

impl Model for Short {
    ghost use Rattle.bt_linear_forms.specs.Lines.{Terms};
    ghost use Rattle.bt_linear_forms.specs.Shorts.{terms_over, IsShort};

    ghost Value = { Terms };

    ghost view = { λ s. terms_over s.under s.terms.items };

    ghost invariant = { λ s. IsShort s.under s.terms.items };
}

impl Short {
    /// The number of terms.
    pub fn len(&self) -> usize
        ensures { result ≡ length self.now }
    {
        self.terms.len()
    }

    /// Tells a proof that the terms are a line. It does nothing when it runs.
    pub fn known(&self)
        ensures { IsLine self.now }
    {
        let _ = &self.terms;
    }

    /// A term of the line.
    pub fn term_at(&self, index: usize) -> Term
        requires { index < length self.now }
        ensures { result ≡ slice_index_or self.now index result }
    {
        fraction(self.terms[index], self.under)
    }

    /// The same terms as fractions.
    pub fn long_terms(&self, alloc: Global) -> Result<Vec<Term>, AllocError>
        ensures same { IfOk result (λ v. v.items ≡ self.now) }
        ensures line { IfOk result (λ v. IsLine v.items) }
    {
        let terms = fractions(alloc, &self.terms, self.under)?;
        Ok(terms)
    }

    /// The number of a position, where it isn't 0.
    pub fn number_at(&self, position: usize) -> Option<Frac>
        ensures number { result ≡ coefficient_at position self.now }
        ensures known { IfSome result (λ n. HasNumber (position, n)) }
        ensures line { IsLine self.now }
    {
        match whole_at(&self.terms, position) {
            Some(over) => Some(number(over, self.under)),
            None => None,
        }
    }

    /// Whether the line names a position.
    pub fn names(&self, position: usize) -> bool
        ensures named { IsTrue result → coefficient_at position self.now ≢ None }
        ensures lacks { result ≡ false → coefficient_at position self.now ≡ None }
    {
        match whole_at(&self.terms, position) {
            Some(_) => true,
            None => false,
        }
    }

    /// The line, with all its numbers negated where `negated` is set.
    pub fn with_sign(self, negated: bool) -> Short
        ensures { result ≡ signed_terms negated self }
    {
        let Short { terms, under } = self;
        Short {
            terms: signed_numbers(terms, negated),
            under,
        }
    }

    /// The position of the term at a place, and how its number compares with 0.
    pub fn sign_at(&self, index: usize) -> (usize, Ordering)
        requires { index < length self.now }
        ensures { IsSignedTerm self.now index result }
    {
        let (position, number) = self.terms[index].parts();
        (position as usize, number.cmp(&0))
    }

    /// The positions with their whole numbers, and the denominator of these.
    pub fn parts(&self) -> (&[Entry], u32)
        ensures short { IsShort result.1 result.0.now }
        ensures same { terms_over result.1 result.0.now ≡ self.now }
    {
        (&self.terms, self.under)
    }

    /// The room of the terms, for those of another line.
    pub fn into_room(self) -> Vec<Entry> {
        let Short { terms, .. } = self;
        terms
    }
}

/// The whole number over the denominator, in lowest terms.
pub fn number(over: i64, under: u32) -> Frac
    requires { 0 < under }
    ensures { result ≡ reduced over under }
{
    match Frac::new(i128::from(over), i128::from(under)) {
        Some(number) => number,
        None => unreachable!(),
    }
}

/// The term of an entry over a denominator.
fn fraction(entry: Entry, under: u32) -> Term
    requires { 0 < under }
    ensures { result ≡ (entry.0, reduced entry.1 under) }
{
    (entry.position() as usize, number(entry.number(), under))
}

/// The numbers over a denominator, in lowest terms.
fn fractions(alloc: Global, terms: &[Entry], under: u32) -> Result<Vec<Term>, AllocError>
    requires { 0 < under }
    ensures { IfOk result (λ v. v.items ≡ terms_over under terms.now) }
{
    let mut fractions = Vec::with_capacity(alloc, terms.len())?;
    for entry in terms {
        fractions.push(fraction(*entry, under))?;
    }
    Ok(fractions)
}

/// The whole number of a position. None where the terms, whose positions ascend, don't name the position.
fn whole_at(terms: &[Entry], position: usize) -> Option<i64>
    requires { Ascend terms.now }
    ensures { result ≡ whole_at position terms.now }
{
    for entry in terms {
        let other = entry.position() as usize;
        if other == position {
            return Some(entry.number());
        }
        if other > position {
            return None;
        }
    }
    None
}

/// The entries, with their numbers negated where `negated` is set.
fn signed_numbers(terms: Vec<Entry>, negated: bool) -> Vec<Entry>
    requires { All (λ t. IsSmall t.1) terms.items }
    ensures { result.items ≡ signed_numbers negated terms.items }
{
    if negated {
        negated_numbers(terms)
    } else {
        terms
    }
}

/// The entries with their numbers negated.
fn negated_numbers(terms: Vec<Entry>) -> Vec<Entry>
    requires { All (λ t. IsSmall t.1) terms.items }
    ensures { result.items ≡ signed_numbers true terms.items }
{
    let mut others = terms;
    for entry in others.iter_mut() {
        *entry = Entry::of(entry.position(), -entry.number());
    }
    others
}

/// The line of these terms as small whole numbers over one small denominator. None where some number isn't such a one,
/// or a position doesn't fit 32 bits.
pub fn shortened(alloc: Global, terms: &[Term]) -> Result<Option<Short>, AllocError>
    requires { IsLine terms.now }
    ensures { IfOk result (λ o. IfSome o (λ line. line ≡ terms.now)) }
{
    match common_multiple_of(terms) {
        Some(under) => short_over(alloc, terms, under),
        None => Ok(None),
    }
}

/// The line of these terms over `under`, a common multiple of their denominators. None where a whole number isn't
/// small, or a position doesn't fit 32 bits.
fn short_over(alloc: Global, terms: &[Term], under: u32) -> Result<Option<Short>, AllocError>
    requires line { IsLine terms.now }
    requires some { 0 < under }
    requires fits { under < 2 ^ 31 }
    requires divides { All (λ t. Divides t.1.under under) terms.now }
    ensures { IfOk result (λ o. IfSome o (λ line. line ≡ terms.now)) }
{
    let mut numbers = Vec::with_capacity(alloc, terms.len())?;
    for term in terms {
        match entry_over(term, under) {
            Some(entry) => numbers.push(entry)?,
            None => return Ok(None),
        }
    }
    Ok(Some(Short {
        terms: numbers,
        under,
    }))
}

/// The entry of a term over a multiple of its denominator, where the number is small and the position fits.
fn entry_over(term: &Term, under: u32) -> Option<Entry>
    requires some { 0 < under }
    requires fits { under < 2 ^ 31 }
    requires divides { Divides term.now.1.under under }
    ensures position { IfSome result (λ entry. entry.0 ≡ term.now.0) }
    ensures number { IfSome result (λ entry. reduced entry.1 under ≡ term.now.1) }
    ensures small { IfSome result (λ entry. IsSmall entry.1) }
{
    let over = number_over(&term.1, under)?;
    let entry = Entry::fitting(term.0, over)?;
    Some(entry)
}

/// The whole number that a fraction is over a multiple of its denominator, where it's small.
fn number_over(number: &Frac, under: u32) -> Option<i64>
    requires some { 0 < under }
    requires fits { under < 2 ^ 31 }
    requires divides { Divides number.now.under under }
    ensures number { IfSome result (λ z. reduced z under ≡ number.now) }
    ensures small { IfSome result IsSmall }
{
    let over = small_part(number.numerator())?;
    let part = small_under(number)?;
    small_number(product(over, i64::from(under / part)))
}

/// The product of two small numbers, which fits 64 bits.
fn product(first: i64, second: i64) -> i64
    requires first { IsSmall first }
    requires second { IsSmall second }
    ensures { result ≡ first *ℤ second }
{
    first * second
}

/// The numerator of a fraction as a number of 64 bits. None where it isn't small.
fn small_part(part: i128) -> Option<i64>
    ensures part { IfSome result (λ z. z ≡ part) }
    ensures small { IfSome result IsSmall }
{
    small_number(i64::try_from(part).ok()?)
}

/// The number, where it's small.
fn small_number(number: i64) -> Option<i64>
    ensures number { IfSome result (λ z. z ≡ number) }
    ensures small { IfSome result IsSmall }
{
    if is_small(number) { Some(number) } else { None }
}

/// Whether the number's magnitude is below 2^31.
fn is_small(number: i64) -> bool
    ensures { IsTrue result ↔ IsSmall number }
{
    let limit = SMALL_LIMIT as i64;
    -limit < number && number < limit
}

/// The least common multiple of the terms' denominators. None where it isn't small.
fn common_multiple_of(terms: &[Term]) -> Option<u32>
    ensures some { IfSome result (λ under. 0 < under) }
    ensures fits { IfSome result (λ under. under < 2 ^ 31) }
    ensures divides { IfSome result (λ under. All (λ t. Divides t.1.under under) terms.now) }
{
    let mut under = 1;
    for term in terms {
        under = common_multiple(under, small_under(&term.1)?)?;
    }
    Some(under)
}

/// The denominator, where it fits 32 bits.
fn small_under(number: &Frac) -> Option<u32>
    ensures some { 0 < number.now.under }
    ensures same { IfSome result (λ under. under ≡ number.now.under) }
{
    u32::try_from(number.denominator()).ok()
}

/// The least common multiple of two numbers above 0. None where it isn't small.
fn common_multiple(first: u32, second: u32) -> Option<u32>
    requires first { 0 < first }
    requires second { 0 < second }
    ensures some { IfSome result (λ m. 0 < m) }
    ensures fits { IfSome result (λ m. m < 2 ^ 31) }
    ensures first { IfSome result (λ m. Divides first m) }
    ensures second { IfSome result (λ m. Divides second m) }
{
    let common = common_divisor(first, second);
    let multiple = u64::from(first) * u64::from(second / common);
    if multiple < SMALL_LIMIT {
        Some(multiple as u32)
    } else {
        None
    }
}

/// The greatest common divisor of two numbers: where one of them is 0, the other one.
fn common_divisor(first: u32, second: u32) -> u32
    ensures { IsGcd first second result }
{
    let mut greater = first;
    let mut lesser = second;
    while lesser > 1 {
        let rest = greater % lesser;
        greater = lesser;
        lesser = rest;
    }
    if lesser == 1 { 1 } else { greater }
}
