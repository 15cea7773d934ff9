//! The terms of the rows of a sum, in the order of their columns.
ghost use Rattle.std.specs.Prelude.{◌≡◌, ◌++◌, OnOk};
ghost use Rattle.bt_farkas.specs.WeightedRows.{picked};
ghost use Rattle.bt_farkas.specs.inner.Gathering.{AreGathered, entries_of};
ghost use Rattle.bt_farkas.specs.inner.Totals.{ArePicks};

use bt_frac::{Frac, Row};
use std::alloc::AllocError;

/// A term of a row of a sum.
#[derive(Clone, Copy)]
pub struct Entry {
    /// The column of the term.
    pub column: usize,
    /// The row's place among the rows of the sum.
    pub row: usize,
    /// The coefficient of the column.
    pub coefficient: Frac,
}

/// Puts the terms of the picked rows into `entries`, in place of what these were, sorted by columns, and those of a
/// column in the order of the picks.
pub fn gather(entries: &mut Vec<Entry>, rows: &[Row], picks: &[usize]) -> Result<(), AllocError>
    requires { ArePicks rows.now picks.now }
    ensures { OnOk result (AreGathered (picked rows.now picks.now) entries.new.items) }
{
    entries.clear();
    for (i, pick) in picks.iter().enumerate() {
        add_terms(entries, i, rows[*pick].terms())?;
    }
    entries.sort_by_key(|entry| entry.column)?;
    Ok(())
}

/// Adds the terms of a row, which has the place `row` among the rows of the sum.
fn add_terms(
    entries: &mut Vec<Entry>,
    row: usize,
    terms: &[(usize, Frac)],
) -> Result<(), AllocError>
    ensures { OnOk result (entries.new.items ≡ entries.old.items ++ entries_of row terms.now) }
{
    for (column, coefficient) in terms {
        entries.push(Entry {
            column: *column,
            row,
            coefficient: *coefficient,
        })?;
    }
    Ok(())
}
