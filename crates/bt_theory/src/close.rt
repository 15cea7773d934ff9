//! Tableaus of few of a formula's rows. Their columns are numbered anew, since a tableau takes room and time for each of
//! its columns, and few rows name few of the formula's.
use bt_cnf::Formula;
use bt_frac::Row;
use bt_simplex::Tableau;
use std::alloc::{AllocError, Global};
use std::collections::BTreeMap;

/// The tableau of rows over the columns that they name alone, in the order of these.
pub fn close_tableau(alloc: Global, rows: &[Row]) -> Result<Tableau, AllocError> {
    let numbers = numbers_of(alloc, rows)?;
    let mut close = Formula::new(alloc, 0)?;
    for row in rows {
        if let Some(row) = renumbered(alloc, row, &numbers)? {
            close.add_atom(row)?;
        }
    }
    Tableau::new(alloc, close.rows(), close.columns())
}

/// The number of each column that rows name, among all that they name.
fn numbers_of(alloc: Global, rows: &[Row]) -> Result<BTreeMap<usize, usize>, AllocError> {
    let mut numbers = BTreeMap::new(alloc);
    for row in rows {
        for (column, _) in row.terms() {
            numbers.insert(*column, 0)?;
        }
    }
    for (number, column) in numbers.values_mut().enumerate() {
        *column = number;
    }
    Ok(numbers)
}

/// The row with these numbers of its columns. None where that is no row.
fn renumbered(
    alloc: Global,
    row: &Row,
    numbers: &BTreeMap<usize, usize>,
) -> Result<Option<Row>, AllocError> {
    let mut terms = Vec::with_capacity(alloc, row.terms().len())?;
    for (column, factor) in row.terms() {
        if let Some(number) = numbers.get(column) {
            terms.push((*number, *factor))?;
        }
    }
    Row::new(alloc, &terms, row.relation(), row.bound())
}
