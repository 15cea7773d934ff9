//! The places of a row that a sum of rows adds up one by one.
ghost use Rattle.std.specs.Prelude.{◌≡◌, ◌<◌, ◌-◌, ◌^◌, IfSome};
ghost use Rattle.bt_frac.specs.Rows.{HaveColumns, columns_of};
ghost use Rattle.bt_farkas.specs.WeightedRows.{part_of, coefficient_at};
ghost use Rattle.bt_farkas.specs.inner.Totals.{IsLeastFrom};

use bt_frac::{Frac, Row};

/// A place of a row.
#[derive(Clone, Copy)]
pub enum Place {
    /// The coefficient of a column.
    Column(usize),
    /// The bound.
    Bound,
}

/// The number that stands in a row at a place. None where the row lacks the column.
pub fn part(row: &Row, place: Place) -> Option<Frac>
    ensures { result ≡ part_of place row.now }
{
    match place {
        Place::Column(column) => coefficient(row.terms(), column),
        Place::Bound => Some(row.bound()),
    }
}

/// The coefficient of a column. None where no term names the column.
fn coefficient(terms: &[(usize, Frac)], column: usize) -> Option<Frac>
    ensures { result ≡ coefficient_at column terms.now }
{
    for (other, coefficient) in terms {
        if *other == column {
            return Some(*coefficient);
        }
    }
    None
}

/// The least column that is at least `least` of terms in ascending order. None where all are below that.
pub fn least_column(terms: &[(usize, Frac)], least: usize) -> Option<usize>
    requires { HaveColumns terms.now }
    ensures least { IsLeastFrom least (columns_of terms.now) result }
    ensures below { IfSome result (λ column. column < 2 ^ 64 - 1) }
{
    for (column, _) in terms {
        if least <= *column {
            return Some(*column);
        }
    }
    None
}
