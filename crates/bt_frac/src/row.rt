//! Rows of linear constraints: a sum of columns, each times a fraction, that is at least, above or
//! equal to a bound.
ghost use Rattle.std.specs.Prelude.{◌≡◌, IfOk};
ghost use Rattle.bt_frac.specs.Rows.{RowParts, IsRow, IsRowOf};

use crate::frac::{Frac, have_columns};
use crate::relation::Relation;
use crate::stored_row::StoredRow;
use std::alloc::{AllocError, Global};
use std::marker::Model;

/// A sum of columns, each times its coefficient, and how it stands to a bound. The columns ascend
/// strictly and are below `usize::MAX`, so that there is a column after the last.
#[derive(Drop)]
pub struct Row {
    kept: StoredRow,
}

impl Model for Row {
    ghost use Rattle.bt_frac.specs.Rows.{RowParts, IsRow};
    ghost use Rattle.bt_frac.specs.inner.KeptRows.{parts_of};

    ghost Value = { RowParts };

    ghost view = { λ r. parts_of r.kept };

    ghost invariant = { λ r. IsRow (parts_of r.kept) };
}

impl Row {
    /// The row of these terms, each a column and its coefficient. None exactly where the columns
    /// don't ascend strictly, or the last of them is `usize::MAX`.
    pub fn new(
        alloc: Global,
        terms: &[(usize, Frac)],
        relation: Relation,
        bound: Frac,
    ) -> Result<Option<Row>, AllocError>
        ensures { IfOk result (IsRowOf (record { terms = terms.now; relation = relation; bound = bound })) }
    {
        if !have_columns(terms) {
            return Ok(None);
        }
        let _ = bound.denominator();
        Ok(Some(Row {
            kept: StoredRow::copied(alloc, terms, relation, bound)?,
        }))
    }

    /// The row of these terms, each a column and its coefficient, which keeps their vector and so takes no memory. None
    /// exactly where `new` gives None.
    pub fn from_vec(terms: Vec<(usize, Frac)>, relation: Relation, bound: Frac) -> Option<Row>
        ensures { IsRowOf (record { terms = terms.items; relation = relation; bound = bound }) result }
    {
        if !have_columns(&terms) {
            return None;
        }
        let _ = bound.denominator();
        Some(Row {
            kept: StoredRow::Many {
                relation,
                terms,
                bound,
            },
        })
    }

    /// The columns that have a coefficient, in ascending order, each with its coefficient.
    pub fn terms(&self) -> &[(usize, Frac)]
        ensures value { result.now ≡ self.now.terms }
        ensures known { IsRow self.now }
    {
        self.kept.terms()
    }

    /// How the sum stands to the bound.
    pub fn relation(&self) -> Relation
        ensures { result ≡ self.now.relation }
    {
        self.kept.relation()
    }

    /// What the sum is compared with.
    pub fn bound(&self) -> Frac
        ensures value { result ≡ self.now.bound }
        ensures known { IsRow self.now }
    {
        self.kept.bound()
    }
}
