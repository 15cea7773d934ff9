//! How the parts of a row are kept.
ghost use Rattle.std.specs.Prelude.{◌≡◌, IfOk};
ghost use Rattle.bt_frac.specs.inner.KeptRows.{parts_of};

use crate::frac::Frac;
use crate::relation::Relation;
use std::alloc::{AllocError, Global};

/// The parts of a row. Most rows have one or two terms and a whole number as their bound: these need no block of memory,
/// and their relation and bound lie in the room that the terms' alignment leaves.
#[derive(Drop)]
pub enum StoredRow {
    /// A row of one term.
    One {
        relation: Relation,
        bound: i64,
        terms: [(usize, Frac); 1],
    },
    /// A row of two terms.
    Two {
        relation: Relation,
        bound: i64,
        terms: [(usize, Frac); 2],
    },
    /// Any row.
    Many {
        relation: Relation,
        terms: Vec<(usize, Frac)>,
        bound: Frac,
    },
}

impl StoredRow {
    /// The parts of a row with these terms.
    pub fn copied(
        alloc: Global,
        terms: &[(usize, Frac)],
        relation: Relation,
        bound: Frac,
    ) -> Result<StoredRow, AllocError>
        ensures { IfOk result (λ kept. parts_of kept
            ≡ record { terms = terms.now; relation = relation; bound = bound }) }
    {
        if let Some(bound) = bound.as_whole() {
            match terms {
                [only] => {
                    return Ok(StoredRow::One {
                        relation,
                        bound,
                        terms: [*only],
                    });
                }
                [first, second] => {
                    return Ok(StoredRow::Two {
                        relation,
                        bound,
                        terms: [*first, *second],
                    });
                }
                _ => {}
            }
        }
        Ok(StoredRow::Many {
            relation,
            terms: Vec::from_slice(alloc, terms)?,
            bound,
        })
    }

    /// The terms.
    pub fn terms(&self) -> &[(usize, Frac)]
        ensures { result.now ≡ (parts_of self.now).terms }
    {
        match self {
            StoredRow::One { terms, .. } => terms,
            StoredRow::Two { terms, .. } => terms,
            StoredRow::Many { terms, .. } => terms,
        }
    }

    /// How the sum stands to the bound.
    pub fn relation(&self) -> Relation
        ensures { result ≡ (parts_of self.now).relation }
    {
        match self {
            StoredRow::One { relation, .. }
            | StoredRow::Two { relation, .. }
            | StoredRow::Many { relation, .. } => *relation,
        }
    }

    /// The bound.
    pub fn bound(&self) -> Frac
        ensures { result ≡ (parts_of self.now).bound }
    {
        match self {
            StoredRow::One { bound, .. } | StoredRow::Two { bound, .. } => Frac::whole(*bound),
            StoredRow::Many { bound, .. } => *bound,
        }
    }
}
