//! The operation at which a sum of weighted rows leaves 128 bits: the sum is wide there.
ghost use Rattle.std.specs.Prelude.{◌≡◌, ◌<◌, length};
ghost use Rattle.std.specs.List.{All};
ghost use Rattle.bt_farkas.specs.Farkas.{IsWidePlace, IsFirstWide};
ghost use Rattle.bt_farkas.specs.WeightedRows.{number_of};
ghost use Rattle.bt_simplex.specs.Weights.{weighted_rows};
ghost use Rattle.bt_simplex.specs.inner.Sums.{IsUnfitAt, IsUnfitSum, lemma_cause};

use crate::points::added_part;
use bt_farkas::{Place, WideAt, part};
use bt_frac::{Frac, Row};
use bt_linear_forms::{Term, Unfit};
use bt_pivot::{Cause, WidePlace};

/// The place at which the sum is wide: the column, where the row has it, and else the bound.
fn wide_place(rows: &[Row], weights: &[Term], at: WideAt) -> Place
    requires rows { All (λ w. w.0 < length rows.now) weights.now }
    requires first { IsFirstWide (weighted_rows rows.now weights.now) at }
    ensures wide { IsWidePlace (weighted_rows rows.now weights.now) at.row result }
    ensures column { at.column ≡ number_of (weighted_rows rows.now weights.now) result }
{
    let (row, _) = &weights[at.row];
    let place = Place::Column(at.column);
    match part(&rows[*row], place) {
        Some(_) => place,
        None => Place::Bound,
    }
}

/// The first product or sum that leaves 128 bits, where the sum at a place is wide at a row.
fn cause_at(rows: &[Row], weights: &[Term], at: WideAt, place: Place) -> Cause
    requires rows { All (λ w. w.0 < length rows.now) weights.now }
    requires wide { IsWidePlace (weighted_rows rows.now weights.now) at.row place }
    ensures { IsUnfitAt (weighted_rows rows.now weights.now) at place result }
{
    let mut sum = Frac::whole(0);
    for (row, weight) in weights {
        if let Some(part) = part(&rows[*row], place) {
            match added_part(&sum, at.column, weight, &part) {
                Ok(next) => sum = next,
                Err(unfit) => return lemma_cause(at.row, unfit),
            }
        }
    }
    unreachable!()
}

/// What tells that this operation, for the sum of weighted rows at the row's place, leaves 128 bits.
fn lemma_cause(row: usize, unfit: Unfit) -> Cause
    ensures { result ≡ lemma_cause row unfit }
{
    Cause {
        place: WidePlace::Lemma,
        row,
        column: unfit.column,
        operation: unfit.operation,
        left: unfit.left,
        right: unfit.right,
    }
}

/// The product or sum that leaves 128 bits, where the sum of weighted rows is first wide at this row and column.
pub fn sum_cause(rows: &[Row], weights: &[Term], at: WideAt) -> Cause
    requires rows { All (λ w. w.0 < length rows.now) weights.now }
    requires first { IsFirstWide (weighted_rows rows.now weights.now) at }
    ensures { IsUnfitSum (weighted_rows rows.now weights.now) at result }
{
    let place = wide_place(rows, weights, at);
    cause_at(rows, weights, at, place)
}
