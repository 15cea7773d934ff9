//! Where positions stand by their short lines, in whole numbers: the sums of the lines' terms, where each position that
//! a line names rests. A sum has two parts, a value and how often the infinitesimal stands in it.
ghost use Rattle.std.specs.Prelude.{◌≡◌, ◌<◌, ◌^◌, ◌*ℤ◌, ◌+ℤ◌, IfSome, IsTrue, ◌↔◌, Some, neg_ℤ};
ghost use Rattle.bt_frac.specs.declared.relation.Relation.TheVariants.{Equal as AnEquation};
ghost use Rattle.bt_frac.specs.Deltas.{IsOrderOfDeltas};
ghost use Rattle.bt_pivot.specs.Points.{resting, standing, IsSamePoint, signed_point};
ghost use Rattle.bt_pivot.specs.inner.Carrying.{AreCarried};
ghost use Rattle.bt_pivot.specs.inner.Rests.{rest_point};
ghost use Rattle.bt_linear_forms.specs.Shorts.{IsSmall};
ghost use Rattle.bt_pivot.specs.inner.ShortPoints.{AddsWhole, TellsBreak, BreaksTiny};
ghost use Rattle.bt_pivot.specs.Sums.{delta_of};

use crate::rests::Rest;
use crate::table::Table;
use bt_frac::{Delta, Relation};
use bt_linear_forms::{Scales, Short, number};
use std::cmp::Ordering;

/// The sums of terms where their positions rest, over the denominator of their line.
#[derive(Clone, Copy)]
pub struct Sums {
    value: i64,
    /// How often the infinitesimal stands in it.
    tiny: i64,
    under: u32,
}

/// The sums of the line of a class's first position.
#[derive(Clone, Copy)]
pub struct ClassSums {
    pub first: usize,
    pub sums: Sums,
}

/// What a line adds up to where its positions rest. None where a bound isn't a small whole number or a sum
/// leaves 64 bits.
pub fn short_point(tableau: &Table, line: &Short) -> Option<Delta>
    ensures { IfSome result
        (λ d. IsSamePoint d (standing (resting tableau.now) 0 (Some line.now))) }
{
    let sums = short_sums(tableau, line)?;
    Some(Delta {
        value: number(sums.value, sums.under),
        tiny: number(sums.tiny, sums.under),
    })
}

/// The sums of a line's terms where their positions rest. None where a bound isn't a small whole number or a sum leaves
/// 64 bits.
pub fn short_sums(tableau: &Table, line: &Short) -> Option<Sums>
    ensures same { IfSome result
        (λ s. IsSamePoint (delta_of s) (standing (resting tableau.now) 0 (Some line.now))) }
    ensures fits { IfSome result (λ s. s.under < 2 ^ 31) }
{
    tableau.all_known();
    let (entries, under) = line.parts();
    let mut sums = Sums {
        value: 0,
        tiny: 0,
        under,
    };
    for entry in entries {
        let rest = tableau.whole_rest(entry.position() as usize)?;
        sums = added(sums, entry.number(), rest)?;
    }
    Some(sums)
}

/// Whether a row of this relation, whose bound is `rest`, doesn't hold where its sum is `sums`, or the opposite of that
/// where `negated` is set. None where a number leaves 64 bits. The sums' denominator is below 2^31.
pub fn breaks_by(relation: Relation, rest: Rest, sums: Sums, negated: bool) -> Option<bool>
    requires fits { sums.under < 2 ^ 31 }
    ensures { IfSome result
        (λ told. TellsBreak relation (rest_point rest) (signed_point negated (delta_of sums)) told) }
{
    let others = signed_sums(sums, negated)?;
    Some(sums_break(relation, rest, others))
}

/// How the bound value of a row, which is `rest`, compares with `sums`, or with the opposite of these where `negated`
/// is set. None where a number leaves 64 bits. The sums' denominator is below 2^31.
pub fn order_by(rest: Rest, sums: Sums, negated: bool) -> Option<Ordering>
    requires fits { sums.under < 2 ^ 31 }
    ensures { IfSome result
        (λ o. IsOrderOfDeltas o (rest_point rest) (signed_point negated (delta_of sums))) }
{
    let others = signed_sums(sums, negated)?;
    Some(sums_order(rest, others))
}

/// Whether a row of this relation, whose bound is `rest`, doesn't hold where its sum is where another position rests,
/// or the opposite of that where `negated` is set. None where a number leaves 64 bits.
pub fn breaks_at(relation: Relation, rest: Rest, other: Rest, negated: bool) -> Option<bool>
    ensures { IfSome result
        (λ told. TellsBreak relation (rest_point rest) (signed_point negated (rest_point other)) told) }
{
    let sums = rest_sums(other);
    let others = signed_sums(sums, negated)?;
    Some(sums_break(relation, rest, others))
}

/// The sums of the line of one position alone, with the number 1, where that position rests here.
fn rest_sums(rest: Rest) -> Sums
    ensures same { delta_of result ≡ rest_point rest }
    ensures under { result.under ≡ 1 }
{
    Sums {
        value: i64::from(rest.value),
        tiny: i64::from(rest.tiny),
        under: 1,
    }
}

/// The sums, with a number times the value where its position rests added. None where a sum leaves 64 bits.
fn added(sums: Sums, over: i64, rest: Rest) -> Option<Sums>
    requires { IsSmall over }
    ensures { IfSome result (AddsWhole (rest_point rest) sums over) }
{
    let value = sums.value.checked_add(multiple(over, rest.value))?;
    let tiny = sums.tiny.checked_add(multiple(over, rest.tiny))?;
    let under = sums.under;
    Some(Sums { value, tiny, under })
}

/// The sums of a line to which a number times another is added, by the sums of both and by their scales. None where the
/// sums have other denominators than the scales, or a sum leaves 64 bits.
pub fn carried(sums: Sums, others: Sums, scales: &Scales) -> Option<Sums>
    ensures { IfSome result (AreCarried scales.now sums others) }
{
    if sums.under != scales.left_under || others.under != scales.right_under {
        return None;
    }
    let value = scaled(sums.value, others.value, scales)?;
    let tiny = scaled(sums.tiny, others.tiny, scales)?;
    let under = scales.under;
    Some(Sums { value, tiny, under })
}

/// One number times the left scale plus the other times the right one. None where it or a product leaves 64 bits.
fn scaled(number: i64, other: i64, scales: &Scales) -> Option<i64>
    ensures { IfSome result (λ z. z ≡ number *ℤ scales.now.left +ℤ scales.now.right *ℤ other) }
{
    let first = number.checked_mul(scales.left)?;
    let second = scales.right.checked_mul(other)?;
    first.checked_add(second)
}

/// The product of two numbers, which fits 64 bits.
fn multiple(over: i64, by: i32) -> i64
    requires { IsSmall over }
    ensures { result ≡ over *ℤ by }
{
    over * i64::from(by)
}

/// The sums, negated where `negated` is set. None where one leaves 64 bits.
fn signed_sums(sums: Sums, negated: bool) -> Option<Sums>
    ensures same { IfSome result (λ s. delta_of s ≡ signed_point negated (delta_of sums)) }
    ensures under { IfSome result (λ s. s.under ≡ sums.under) }
{
    if !negated {
        return Some(sums);
    }
    let value = opposite(sums.value)?;
    let tiny = opposite(sums.tiny)?;
    let under = sums.under;
    Some(Sums { value, tiny, under })
}

/// The negated number. None where it leaves 64 bits.
fn opposite(number: i64) -> Option<i64>
    ensures { IfSome result (λ z. z ≡ neg_ℤ number) }
{
    number.checked_neg()
}

/// Whether a row of this relation, whose bound is `rest`, doesn't hold where its sum is `sums`, whose denominator is
/// below 2^31.
fn sums_break(relation: Relation, rest: Rest, sums: Sums) -> bool
    requires { sums.under < 2 ^ 31 }
    ensures { TellsBreak relation (rest_point rest) (delta_of sums) result }
{
    let level = multiple(i64::from(sums.under), rest.value);
    match sums.value.cmp(&level) {
        Ordering::Less => true,
        Ordering::Equal => breaks_tiny(relation, sums.tiny, sums.under),
        Ordering::Greater => is_equation(relation),
    }
}

/// How the bound value of a row, which is `rest`, compares with `sums`, whose denominator is below 2^31.
fn sums_order(rest: Rest, sums: Sums) -> Ordering
    requires { sums.under < 2 ^ 31 }
    ensures { IsOrderOfDeltas result (rest_point rest) (delta_of sums) }
{
    let level = multiple(i64::from(sums.under), rest.value);
    match level.cmp(&sums.value) {
        Ordering::Less => Ordering::Less,
        Ordering::Equal => {
            let tiny = multiple(i64::from(sums.under), rest.tiny);
            tiny.cmp(&sums.tiny)
        }
        Ordering::Greater => Ordering::Greater,
    }
}

/// Whether a row of this relation asks for its bound itself.
fn is_equation(relation: Relation) -> bool
    ensures { IsTrue result ↔ (relation ≡ AnEquation) }
{
    relation == Relation::Equal
}

/// Whether a row doesn't hold that stands at its bound but for `tiny` over `under` times the infinitesimal.
fn breaks_tiny(relation: Relation, tiny: i64, under: u32) -> bool
    ensures { IsTrue result ↔ BreaksTiny relation (record { over = tiny; under = under }) }
{
    match relation {
        Relation::AtLeast => tiny < 0,
        Relation::Above => tiny < i64::from(under),
        Relation::Equal => tiny != 0,
    }
}
