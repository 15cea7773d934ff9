//! The columns of terms, told to be those of a row.
ghost use Rattle.std.specs.Prelude.{IsTrue, ◌↔◌};
ghost use Rattle.std.specs.List.{All};
ghost use Rattle.bt_frac.specs.Ratio.{IsLowest};
ghost use Rattle.bt_frac.specs.Rows.{HaveColumns};

use crate::frac::Frac;

/// Whether the columns ascend strictly, and none is `usize::MAX`.
pub(crate) fn have_columns(terms: &[(usize, Frac)]) -> bool
    ensures columns { IsTrue result ↔ HaveColumns terms.now }
    ensures known { IsTrue result → All (λ t. IsLowest t.1) terms.now }
{
    let mut least = 0;
    for (column, coefficient) in terms {
        let _ = &coefficient.under;
        if *column < least || *column == usize::MAX {
            return false;
        }
        least = *column + 1;
    }
    true
}
