//! Whether a weighted sum of rows is false: the test that Farkas' lemma gives for a set of rows that no
//! values meet.
ghost use Rattle.std.specs.Prelude.{◌≡◌, ◌<◌, length, IsTrue, ◌↔◌};
ghost use Rattle.std.specs.List.{All};
ghost use Rattle.bt_text.specs.Answers.{AnswersAlways};
ghost use Rattle.bt_farkas.specs.Farkas.{IsFarkas};
ghost use Rattle.bt_farkas.specs.FalseSums.{IsFalseBound, MayWeigh};
ghost use Rattle.bt_frac.specs.Rows.{columns_in};
ghost use Rattle.bt_farkas.specs.WeightedRows.{picked, weighted};
ghost use Rattle.bt_farkas.specs.inner.Totals.{ArePicks, AreColumns};

use crate::columns::{Columns, after_column, no_columns};
use crate::combining::{next_column, total};
use crate::places::Place;
use crate::signs::{has_strict, may_weigh};
use crate::wide::WideAt;
use bt_frac::{Frac, Row};

/// Whether the rows at the picked places, each times its weight, add up to a row that no values meet.
///
/// A negative weight of a row that is no equation gives false before any product is formed. Otherwise the error names
/// where the sum leaves 128 bits: the first row, by its place among the picks, at which a product or a running sum
/// does, and the first such column there. A row's bound comes behind its columns.
pub fn farkas(rows: &[Row], picks: &[usize], weights: &[Frac]) -> Result<bool, WideAt>
    requires picks { All (λ pick. pick < length rows.now) picks.now }
    requires weights { length weights.now ≡ length picks.now }
    ensures { AnswersAlways (IsFarkas (weighted rows.now picks.now weights.now)) result }
{
    if !may_weigh(rows, picks, weights) {
        return Ok(false);
    }
    let columns = sum_columns(rows, picks, weights);
    judged(rows, picks, weights, columns)
}

/// Whether rows that may have their weights add up to a row that no values meet: their columns, of which `columns`
/// tells what they add up to, cancel, and the sum of their bounds can't be met. The error names the first row at which
/// the sum leaves 128 bits, and its first such column.
pub(crate) fn judged(
    rows: &[Row],
    picks: &[usize],
    weights: &[Frac],
    columns: Columns,
) -> Result<bool, WideAt>
    requires picks { ArePicks rows.now picks.now }
    requires weights { length weights.now ≡ length picks.now }
    requires may_weigh { All MayWeigh (weighted rows.now picks.now weights.now) }
    requires columns { AreColumns (weighted rows.now picks.now weights.now)
        (columns_in (picked rows.now picks.now)) columns }
    ensures { IsFarkas (weighted rows.now picks.now weights.now) result }
{
    match total(rows, picks, weights, Place::Bound, columns.limit) {
        Err(row) => Err(WideAt {
            row,
            column: columns.end,
        }),
        Ok(bound) => match columns.wide {
            Some(column) => Err(WideAt {
                row: columns.limit,
                column,
            }),
            None => Ok(columns.cancel && is_false(&bound, has_strict(rows, picks, weights))),
        },
    }
}

/// What the columns of the picked rows, each times its weight, add up to. Once a column is wide at a row, later columns
/// are summed over the rows before that one alone, since the first row is to be named.
fn sum_columns(rows: &[Row], picks: &[usize], weights: &[Frac]) -> Columns
    requires picks { ArePicks rows.now picks.now }
    requires weights { length weights.now ≡ length picks.now }
    ensures { AreColumns (weighted rows.now picks.now weights.now)
        (columns_in (picked rows.now picks.now)) result }
{
    let mut columns = no_columns(picks.len());
    while let Some(column) = next_column(rows, picks, columns.end) {
        let sum = total(rows, picks, weights, Place::Column(column), columns.limit);
        columns = after_column(columns, column, sum);
    }
    columns
}

/// Whether no values meet a sum of rows whose columns cancel: 0 is below its bound, or equal to it where the sum is
/// strict.
fn is_false(bound: &Frac, strict: bool) -> bool
    ensures { IsTrue result ↔ IsFalseBound bound.now (IsTrue strict) }
{
    bound.numerator() > 0 || (bound.numerator() == 0 && strict)
}
