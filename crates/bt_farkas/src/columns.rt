//! What the columns of weighted rows add up to, told column by column. A column is wide at a row where the product or
//! the running sum there leaves 128 bits.
ghost use Rattle.std.specs.Prelude.{◌≡◌, ◌<◌, ◌-◌, ◌^◌, true, None};
ghost use Rattle.bt_farkas.specs.inner.Totals.{IsAfterColumn};

use bt_frac::Frac;

/// What the columns of weighted rows add up to.
#[derive(Clone, Copy)]
pub struct Columns {
    /// Whether each column adds up to 0, where none is wide.
    pub cancel: bool,
    /// The first column that is wide at the row `limit`, and none where no column is wide.
    pub wide: Option<usize>,
    /// The rows before this one are wide at no column.
    pub limit: usize,
    /// One more than the greatest column, or 0 where there is none.
    pub end: usize,
}

/// What is known of the columns of `rows` rows before the first one is summed.
pub fn no_columns(rows: usize) -> Columns
    ensures { result ≡ record { cancel = true; wide = None; limit = rows; end = 0 } }
{
    Columns {
        cancel: true,
        wide: None,
        limit: rows,
        end: 0,
    }
}

/// What is known of the columns with one more, which is greater than those before. `sum` is what this one adds up to
/// over the first `limit` rows, or the row at which it is wide.
pub fn after_column(columns: Columns, column: usize, sum: Result<Frac, usize>) -> Columns
    requires { column < 2 ^ 64 - 1 }
    ensures { IsAfterColumn columns column sum result }
{
    let end = column + 1;
    match sum {
        Ok(sum) => Columns {
            cancel: columns.cancel && sum.numerator() == 0,
            end,
            ..columns
        },
        Err(row) => Columns {
            wide: Some(column),
            limit: row,
            end,
            ..columns
        },
    }
}
