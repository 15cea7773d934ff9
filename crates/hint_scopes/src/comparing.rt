//! Comparisons of two sums, one way or both.
use crate::defining::{Comparison, Next};
use crate::line::Line;
use crate::means::{Term, difference};
use bt_extend::NamedLit;
use std::alloc::{AllocError, Global};

/// A comparison of two sums.
#[derive(Clone, Copy)]
pub struct Compared {
    /// Of the first sum less the second.
    first: Comparison,
    /// Of the second less the first, where they are compared both ways.
    second: Option<Comparison>,
}

impl Compared {
    /// The literal that says that the first sum is at least the second.
    pub fn at_least(self) -> NamedLit {
        self.first.is_some()
    }

    /// The literal that says that the first sum is at most the second; none where they are compared one way alone.
    pub fn at_most(self) -> Option<NamedLit> {
        Some(self.second?.is_some())
    }

    /// The literal that says that the first sum is less than the second.
    pub fn is_less(self) -> NamedLit {
        self.first.is_less()
    }

    /// Adds the places of the rows that define it, of both ways where both are compared.
    pub fn add_rows(self, rows: &mut Vec<usize>) -> Result<(), AllocError> {
        self.first.add_rows(rows)?;
        match self.second {
            Some(second) => second.add_rows(rows),
            None => Ok(()),
        }
    }
}

/// Adds the places of the rows that define a comparison, where there is one.
pub fn add_rows(rows: &mut Vec<usize>, compared: Option<Compared>) -> Result<(), AllocError> {
    match compared {
        Some(compared) => compared.add_rows(rows),
        None => Ok(()),
    }
}

/// Defines the comparison of two sums, both ways or that the first is at least the second alone. None where a column of
/// them is too large.
pub fn compare(
    alloc: Global,
    line: &mut Line,
    next: &mut Next,
    first: &[Term],
    second: &[Term],
    both: bool,
) -> Result<Option<Compared>, AllocError> {
    let Some(one) = compare_way(alloc, line, next, first, second)? else {
        return Ok(None);
    };
    let other = if both {
        compare_way(alloc, line, next, second, first)?
    } else {
        None
    };
    Ok(Some(Compared {
        first: one,
        second: other,
    }))
}

/// Defines the comparison of a sum less another with 0. None where a column of them is too large.
fn compare_way(
    alloc: Global,
    line: &mut Line,
    next: &mut Next,
    plus: &[Term],
    minus: &[Term],
) -> Result<Option<Comparison>, AllocError> {
    match difference(alloc, plus, minus)? {
        Some(form) => Ok(Some(next.compare(line, form)?)),
        None => Ok(None),
    }
}
