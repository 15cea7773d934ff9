//! Sums of a short line and a number times another, formed by one walk over both.
ghost use Rattle.std.specs.Prelude.{◌≡◌, ◌≢◌, ◌<◌, ◌≤◌, ◌^◌, ◌+◌, ◌*ℤ◌, ◌+ℤ◌, pos, ◌-◌, ◌∷◌, [], IfOk, IfSome, Some, length, drop, vec_len, vec_capacity, unsigned_abs};
ghost use Rattle.std.specs.List.{All};
ghost use Prim.Native.Nat.{◌∣◌};
ghost use Rattle.bt_linear_forms.specs.Shorts.{IsSmall, AreScales};
ghost use Rattle.bt_linear_forms.specs.Changes.{IsChange};
ghost use Rattle.bt_linear_forms.specs.inner.ShortSteps.{IsShortStep, IsShortSum, IsSmallTerm, AreNext};

use super::{Entry, SMALL_LIMIT, Short, common_divisor, is_small, product, whole_at};
use std::alloc::{AllocError, Global};

/// By what the numbers of two lines are multiplied, so that they are over one denominator.
#[derive(Clone, Copy)]
pub struct Scales {
    pub left: i64,
    pub right: i64,
    pub under: u32,
    /// The denominators of both lines.
    pub left_under: u32,
    pub right_under: u32,
}

/// A term of a sum of two lines, and the places at which what is left of them begins.
#[derive(Clone, Copy)]
struct Step {
    position: u32,
    number: i64,
    left: usize,
    right: usize,
}

/// What is done to a line where a position enters.
#[derive(Clone, Copy)]
pub enum Change {
    /// Nothing: the line lacks the position.
    Lacks,
    /// What the position stands for is put in place of it, by these scales.
    Made(Scales),
    /// Nothing yet: the line names the position, but small whole numbers don't hold what comes of it.
    Long,
}

impl Short {
    /// Puts what the position `enters` stands for in place of it, where the line names it: adds the multiple of `zero`,
    /// a line that is 0 and has -1 there, that removes it. Nothing is changed, and the answer says so, where a number
    /// of the sum isn't small. The new terms take the memory of `room`, which gets that of the old ones.
    pub fn substitute(
        &mut self,
        alloc: Global,
        room: &mut Vec<Entry>,
        enters: usize,
        zero: &Short,
    ) -> Result<Change, AllocError>
        ensures { IfOk result (IsChange enters zero.now (Some self.old) (Some self.new)) }
    {
        let Some(factor) = whole_at(&self.terms, enters) else {
            return Ok(Change::Lacks);
        };
        let Some(scales) = scales_of(self.under, factor, zero.under) else {
            return Ok(Change::Long);
        };
        let taken = std::mem::replace(room, Vec::new(alloc));
        match merged_in(taken, &self.terms, &zero.terms, &scales)? {
            Some(terms) => {
                *room = std::mem::replace(&mut self.terms, terms);
                self.under = scales.under;
                Ok(Change::Made(scales))
            }
            None => Ok(Change::Long),
        }
    }
}

/// The sum of two lines' numbers, each line's times its scale, in the room of a list whose terms are dropped. None
/// where a number of the sum isn't small.
pub(super) fn merged_in(
    room: Vec<Entry>,
    left: &[Entry],
    right: &[Entry],
    scales: &Scales,
) -> Result<Option<Vec<Entry>>, AllocError>
    requires left { All IsSmallTerm left.now }
    requires right { All IsSmallTerm right.now }
    requires left_by { IsSmall scales.now.left }
    requires right_by { IsSmall scales.now.right }
    ensures { IfOk result (λ o. IfSome o (λ v. IsShortSum left.now right.now scales.now.left scales.now.right
        scales.now.under v.items)) }
{
    let mut terms = room;
    terms.clear();
    terms.reserve(left.len() + right.len())?;
    Ok(merged(terms, left, right, scales))
}

/// The scales for the sum of a line over `left_under` and a number, which is `factor` over `left_under`, times a line
/// over `right_under`. None where the denominator of the sum isn't small.
pub(super) fn scales_of(left_under: u32, factor: i64, right_under: u32) -> Option<Scales>
    requires left_some { 0 < left_under }
    requires left_fits { left_under < 2 ^ 31 }
    requires right_some { 0 < right_under }
    requires right_fits { right_under < 2 ^ 31 }
    requires factor_some { factor ≢ pos 0 }
    requires factor_small { IsSmall factor }
    ensures scales { IfSome result (λ s. AreScales left_under factor right_under s.left s.right s.under) }
    ensures left { IfSome result (λ s. s.left_under ≡ left_under) }
    ensures right { IfSome result (λ s. s.right_under ≡ right_under) }
{
    let common = common_divisor(factor.unsigned_abs() as u32, right_under);
    let by = right_under / common;
    let under = u64::from(by) * u64::from(left_under);
    if under >= SMALL_LIMIT {
        return None;
    }
    Some(Scales {
        left: i64::from(by),
        right: quotient(factor, common),
        under: under as u32,
        left_under,
        right_under,
    })
}

/// The quotient of a small number by a divisor of it.
pub(super) fn quotient(number: i64, by: u32) -> i64
    requires small { IsSmall number }
    requires divides { by ∣ unsigned_abs number }
    requires some { 0 < by }
    ensures product { result *ℤ pos by ≡ number }
    ensures small { IsSmall result }
{
    let size = i64::from(number.unsigned_abs() as u32 / by);
    if number < 0 { -size } else { size }
}

/// The sum of two lines' numbers, each line's times its scale, in an empty list with places for all terms of both. None
/// where a number of the sum isn't small.
pub(super) fn merged(
    room: Vec<Entry>,
    left: &[Entry],
    right: &[Entry],
    scales: &Scales,
) -> Option<Vec<Entry>>
    requires empty { room.items ≡ [] }
    requires room { vec_len room + length left.now + length right.now ≤ vec_capacity room }
    requires left { All IsSmallTerm left.now }
    requires right { All IsSmallTerm right.now }
    requires left_by { IsSmall scales.now.left }
    requires right_by { IsSmall scales.now.right }
    ensures { IfSome result (λ v. IsShortSum left.now right.now scales.now.left scales.now.right
        scales.now.under v.items) }
{
    let mut terms = room;
    let mut first = 0;
    let mut second = 0;
    while first < left.len() && second < right.len() {
        let step = first_step(left, first, right, second, scales);
        first = step.left;
        second = step.right;
        if step.number != 0 {
            if !is_small(step.number) {
                return None;
            }
            terms.push_reserved(Entry::of(step.position, step.number));
        }
    }
    while first < left.len() {
        let (position, number) = term_at(left, first);
        let scaled = product(number, scales.left);
        first += 1;
        if scaled != 0 {
            if !is_small(scaled) {
                return None;
            }
            terms.push_reserved(Entry::of(position, scaled));
        }
    }
    while second < right.len() {
        let (other_position, other) = term_at(right, second);
        let other_scaled = product(scales.right, other);
        second += 1;
        if other_scaled != 0 {
            if !is_small(other_scaled) {
                return None;
            }
            terms.push_reserved(Entry::of(other_position, other_scaled));
        }
    }
    Some(terms)
}

/// The first term of the sum of what is left of two lines, from `first` on of the left and from `second` on of the
/// right, and the places from which on they are left after it. The term's number may be 0.
fn first_step(left: &[Entry], first: usize, right: &[Entry], second: usize, scales: &Scales) -> Step
    requires left_within { first < length left.now }
    requires right_within { second < length right.now }
    requires left { All IsSmallTerm left.now }
    requires right { All IsSmallTerm right.now }
    requires left_by { IsSmall scales.now.left }
    requires right_by { IsSmall scales.now.right }
    ensures step { IsShortStep (drop first left.now) (drop second right.now) scales.now.left scales.now.right
        scales.now.under result.position result.number
        (drop result.left left.now) (drop result.right right.now) }
    ensures moved { AreNext (length left.now) first (length right.now) second result.left result.right }
{
    let (position, number) = term_at(left, first);
    let (other_position, other) = term_at(right, second);
    if position < other_position {
        Step {
            position,
            number: product(number, scales.left),
            left: first + 1,
            right: second,
        }
    } else if other_position < position {
        Step {
            position: other_position,
            number: product(scales.right, other),
            left: first,
            right: second + 1,
        }
    } else {
        Step {
            position,
            number: sum_of_products(number, scales.left, scales.right, other),
            left: first + 1,
            right: second + 1,
        }
    }
}

/// The term at a place.
fn term_at(terms: &[Entry], place: usize) -> (u32, i64)
    requires inside { place < length terms.now }
    requires small { All IsSmallTerm terms.now }
    ensures rest { drop place terms.now ≡ result ∷ drop (place + 1) terms.now }
    ensures small { IsSmall result.1 }
{
    terms[place].parts()
}

/// The sum of two products of small numbers, which fits 64 bits.
fn sum_of_products(first: i64, by: i64, second: i64, times: i64) -> i64
    requires first { IsSmall first }
    requires by { IsSmall by }
    requires second { IsSmall second }
    requires times { IsSmall times }
    ensures { result ≡ first *ℤ by +ℤ second *ℤ times }
{
    product(first, by) + product(second, times)
}
