//! The lines that a pivot adds to the others and puts in for what enters, formed of short lines.
ghost use Rattle.std.specs.Prelude.{◌≡◌, ◌≢◌, ◌<◌, ◌^◌, ◌-◌, ◌*◌, ◌/◌, ◌*ℤ◌, ◌∷◌, [], pos, IfOk, IfSome, Some, unsigned_abs};
ghost use Rattle.std.specs.List.{All};
ghost use Prim.Native.Nat.{◌∣◌};
ghost use Rattle.bt_frac.specs.Ratio.{Ratio};
ghost use Rattle.bt_farkas.specs.WeightedRows.{coefficient_at};
ghost use Rattle.bt_linear_forms.specs.Lines.{IsLine, IsCombination};
ghost use Rattle.bt_linear_forms.specs.Shorts.{reduced, terms_over, IsSmall, IsShort};
ghost use Rattle.bt_linear_forms.specs.Substituting.{IsZeroLine, IsEntering};

use super::merging::{merged_in, quotient, scales_of};
use super::{Entry, Short, common_divisor, whole_at};
use std::alloc::AllocError;

/// The line that is 0 wherever a line gives what stands at `position`: 1 over the line's number at the position that
/// enters, times the position less the line. None where the line has no such number, a number of the result isn't
/// small, or the position doesn't fit 32 bits.
///
/// Its numbers and its denominator are divided by what all of them have in common: without this they grow with each
/// pivot. It is formed in the room of a list whose terms are dropped.
pub fn zero_line(
    room: Vec<Entry>,
    position: usize,
    line: &Short,
    enters: usize,
) -> Result<Option<Short>, AllocError>
    requires { position < 2 ^ 64 - 1 }
    ensures { (f : Ratio) → coefficient_at enters line.now ≡ Some f
        → IfOk result (λ o. IfSome o (IsZeroLine position line.now f)) }
{
    let Some(number) = whole_at(&line.terms, enters) else {
        return Ok(None);
    };
    let share = share_over(line.under, number);
    match lone_sum(room, position, share, magnitude(number), -share, line)? {
        Some(sum) => Ok(Some(lowered(sum))),
        None => Ok(None),
    }
}

/// The line that gives what stands at the position that enters: the position itself plus `zero`, a line that is 0 and
/// has the number -1 there. It is formed in the room of a list whose terms are dropped. None where a number or the
/// denominator of the sum isn't small, or the position doesn't fit 32 bits.
pub fn entering_line(
    room: Vec<Entry>,
    enters: usize,
    zero: &Short,
) -> Result<Option<Short>, AllocError>
    requires { enters < 2 ^ 64 - 1 }
    ensures { IfOk result (λ o. IfSome o (IsEntering enters zero.now)) }
{
    lone_sum(room, enters, 1, 1, 1, zero)
}

/// The sum of a position times `number` and a line times `factor`, where both of these are over `under`, in the room of
/// a list whose terms are dropped. None where a number or the denominator of the sum isn't small, or the position
/// doesn't fit 32 bits.
fn lone_sum(
    room: Vec<Entry>,
    position: usize,
    number: i64,
    under: u32,
    factor: i64,
    line: &Short,
) -> Result<Option<Short>, AllocError>
    requires position { position < 2 ^ 64 - 1 }
    requires number_some { number ≢ pos 0 }
    requires number_small { IsSmall number }
    requires some { 0 < under }
    requires fits { under < 2 ^ 31 }
    requires factor_some { factor ≢ pos 0 }
    requires factor_small { IsSmall factor }
    ensures line { IfOk result (λ o. IfSome o IsLine) }
    ensures sum { IfOk result (λ o. IfSome o
        (IsCombination ((position, reduced number under) ∷ []) (reduced factor under) line.now)) }
{
    let Some(scales) = scales_of(under, factor, line.under) else {
        return Ok(None);
    };
    let Some(entry) = Entry::fitting(position, number) else {
        return Ok(None);
    };
    match merged_in(room, &[entry], &line.terms, &scales)? {
        Some(terms) => Ok(Some(Short {
            terms,
            under: scales.under,
        })),
        None => Ok(None),
    }
}

/// The denominator as a number that has the sign of `number`.
fn share_over(under: u32, number: i64) -> i64
    requires { under < 2 ^ 31 }
    ensures size { unsigned_abs result ≡ under }
    ensures product { result *ℤ number ≡ pos (unsigned_abs number * under) }
{
    let size = i64::from(under);
    if number < 0 { -size } else { size }
}

/// The magnitude of a small number.
fn magnitude(number: i64) -> u32
    requires { IsSmall number }
    ensures { result ≡ unsigned_abs number }
{
    number.unsigned_abs() as u32
}

/// The same line, with its numbers and its denominator divided by what all of them have in common.
fn lowered(line: Short) -> Short
    ensures { result ≡ line }
{
    let Short { terms, under } = line;
    let common = common_divisor_of(&terms, under);
    if common == 1 {
        return Short { terms, under };
    }
    Short {
        terms: divided(terms, under, common),
        under: under / common,
    }
}

/// The greatest common divisor of a denominator and the numbers over it.
fn common_divisor_of(terms: &[Entry], under: u32) -> u32
    requires some { 0 < under }
    requires small { All (λ t. IsSmall t.1) terms.now }
    ensures some { 0 < result }
    ensures under { result ∣ under }
    ensures terms { All (λ t. result ∣ unsigned_abs t.1) terms.now }
{
    let mut common = under;
    for term in terms {
        common = common_divisor(magnitude(term.number()), common);
    }
    common
}

/// The numbers, divided by a divisor of all of them and of their denominator.
fn divided(terms: Vec<Entry>, under: u32, by: u32) -> Vec<Entry>
    requires short { IsShort under terms.items }
    requires some { 0 < by }
    requires under { by ∣ under }
    requires terms { All (λ t. by ∣ unsigned_abs t.1) terms.items }
    ensures short { IsShort (under / by) result.items }
    ensures same { terms_over (under / by) result.items ≡ terms_over under terms.items }
{
    let mut lesser = terms;
    for term in lesser.iter_mut() {
        *term = Entry::of(term.position(), quotient(term.number(), by));
    }
    lesser
}
