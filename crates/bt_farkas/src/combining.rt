//! The sum of weighted rows at one place, and the columns of the rows.
ghost use Rattle.std.specs.Prelude.{◌≡◌, ◌<◌, ◌≤◌, ◌-◌, ◌^◌, length, IfSome};
ghost use Rattle.bt_frac.specs.Rows.{columns_in};
ghost use Rattle.bt_farkas.specs.WeightedRows.{picked, weighted};
ghost use Rattle.bt_farkas.specs.inner.Totals.{ArePicks, IsTotal, IsLeastFrom, lesser_of};

use crate::places::{Place, least_column, part};
use crate::running::add_product;
use bt_frac::{Frac, Row};

/// The sum at a place over the first `limit` picked rows, each times its weight. The error is the first row, by its
/// place among the picks, whose product or running sum leaves 128 bits.
pub fn total(
    rows: &[Row],
    picks: &[usize],
    weights: &[Frac],
    place: Place,
    limit: usize,
) -> Result<Frac, usize>
    requires picks { ArePicks rows.now picks.now }
    requires weights { length weights.now ≡ length picks.now }
    requires within { limit ≤ length picks.now }
    ensures { IsTotal (weighted rows.now picks.now weights.now) place limit result }
{
    let mut sum = Frac::whole(0);
    for i in 0..limit {
        let row = &rows[picks[i]];
        if let Some(part) = part(row, place) {
            let Some(next) = add_product(&sum, &weights[i], &part) else {
                return Err(i);
            };
            sum = next;
        }
    }
    Ok(sum)
}

/// The least column of the picked rows that is at least `least`. None where they have no such column.
pub fn next_column(rows: &[Row], picks: &[usize], least: usize) -> Option<usize>
    requires { ArePicks rows.now picks.now }
    ensures least { IsLeastFrom least (columns_in (picked rows.now picks.now)) result }
    ensures below { IfSome result (λ column. column < 2 ^ 64 - 1) }
{
    let mut best = None;
    for pick in picks {
        let column = least_column(rows[*pick].terms(), least);
        best = lesser(best, column);
    }
    best
}

/// The lesser of two columns, or the only one where one is missing. None where both are.
fn lesser(first: Option<usize>, second: Option<usize>) -> Option<usize>
    ensures { result ≡ lesser_of first second }
{
    match (first, second) {
        (Some(first), Some(second)) => Some(first.min(second)),
        (Some(first), None) => Some(first),
        (None, second) => second,
    }
}
