//! The sums at all columns, from the terms in the order of their columns.
ghost use Rattle.std.specs.Prelude.{◌<◌, ◌-◌, ◌^◌, List, length, map};
ghost use Rattle.std.specs.List.{All};
ghost use Rattle.bt_frac.specs.Ratio.{Ratio};
ghost use Rattle.bt_frac.specs.Rows.{RowParts, columns_in};
ghost use Rattle.bt_farkas.specs.inner.Gathering.{AreEntriesOf, IsRunLength, IsRunTotal};
ghost use Rattle.bt_farkas.specs.inner.Totals.{AreColumns};

use crate::columns::{Columns, after_column, no_columns};
use crate::gathering::Entry;
use crate::running::add_product;
use bt_frac::Frac;

/// What the columns add up to of the rows whose terms these entries are, sorted by columns, with one weight for each
/// row. Once a column is wide at a row, later columns are summed over the rows before that one alone, since the first
/// row is to be named.
pub fn sum_runs(entries: &[Entry], weights: &[Frac]) -> Columns
    requires rows { All (λ e. e.row < length weights.now) entries.now }
    requires columns { All (λ e. e.column < 2 ^ 64 - 1) entries.now }
    ensures { (sum : List (RowParts × Ratio)) → AreEntriesOf sum weights.now entries.now
        → AreColumns sum (columns_in (map (λ r. r.0) sum)) result }
{
    let mut columns = no_columns(weights.len());
    let mut rest = entries;
    while let Some(first) = rest.first() {
        let column = first.column;
        let (run, later) = rest.split_at(run_length(rest, column));
        columns = after_column(columns, column, run_total(run, weights, columns.limit));
        rest = later;
    }
    columns
}

/// How many entries from the first on are of this column.
fn run_length(entries: &[Entry], column: usize) -> usize
    ensures { IsRunLength column entries.now result }
{
    for (i, entry) in entries.iter().enumerate() {
        if entry.column != column {
            return i;
        }
    }
    entries.len()
}

/// The sum of the entries of one column, each times its row's weight, over the rows before `limit`. The error is the
/// first of these rows at which the product or the running sum leaves 128 bits.
fn run_total(run: &[Entry], weights: &[Frac], limit: usize) -> Result<Frac, usize>
    requires { All (λ e. e.row < length weights.now) run.now }
    ensures { IsRunTotal weights.now run.now limit result }
{
    let mut sum = Frac::whole(0);
    for entry in run {
        if limit <= entry.row {
            return Ok(sum);
        }
        let Some(next) = add_product(&sum, &weights[entry.row], &entry.coefficient) else {
            return Err(entry.row);
        };
        sum = next;
    }
    Ok(sum)
}
