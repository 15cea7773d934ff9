//! Rows over columns, of which some are bound, and a basis with its solved form.
ghost use Rattle.std.specs.Prelude.{◌≡◌, ◌<◌, IfOk, IfSome, MatchOption, Some, None, length, true, false, slice_index_or};
ghost use Rattle.bt_pivot.specs.inner.Rests.{IsRestOf};
ghost use Rattle.bt_pivot.specs.Points.{bound_row, relation_of};
ghost use Rattle.bt_pivot.specs.Tableaus.{AreOverColumns, IsNew, IsBoundAs, IsTableau, with_slots};

use crate::basis::Basis;
use crate::rests::{Rest, all_free};
use crate::starting::{all_known, copied, first_basis, unbound};
use bt_frac::{Relation, Row};
use std::alloc::{AllocError, Global};
use std::marker::Model;

/// Rows over columns, of which some are bound, and a basis of positions with its solved form.
///
/// Position j below the number of columns is column j, and the positions from there on are the sums of
/// the rows.
#[derive(Drop)]
pub struct Table {
    rows: Vec<Row>,
    columns: usize,
    bound: Vec<bool>,
    /// For each position where it rests; None where that isn't told by small whole numbers.
    rests: Vec<Option<Rest>>,
    basis: Basis,
}

impl Model for Table {
    ghost use Rattle.bt_pivot.specs.Tableaus.{TableauParts, IsTableau};
    ghost use Rattle.bt_pivot.specs.inner.Rests.{AreRests};

    ghost Value = { TableauParts };

    ghost view = { λ t. record {
      rows = t.rows.items;
      columns = t.columns;
      bound = t.bound.items;
      slots = t.basis;
    } };

    ghost invariant = { λ t. IsTableau (record {
      rows = t.rows.items;
      columns = t.columns;
      bound = t.bound.items;
      slots = t.basis;
    }) × AreRests (record {
      rows = t.rows.items;
      columns = t.columns;
      bound = t.bound.items;
      slots = t.basis;
    }) t.rests.items };
}

impl Table {
    /// The table of rows over so many columns, whose basis is the rows. No row is bound. Each column of a row is below
    /// that number.
    pub fn new(alloc: Global, rows: &[Row], columns: usize) -> Result<Table, AllocError>
        requires { AreOverColumns columns rows.now }
        ensures { IfOk result (IsNew rows.now columns) }
    {
        all_known(rows);
        let bound = unbound(alloc, rows.len())?;
        let basis = first_basis(alloc, rows, columns)?;
        let rests = all_free(alloc, basis.len())?;
        Ok(Table {
            rows: copied(alloc, rows)?,
            columns,
            bound,
            rests,
            basis,
        })
    }

    /// Requires the row, which is one of the table's, from now on. The basis stays.
    pub fn set_bound(&mut self, row: usize)
        requires { row < length self.old.rows }
        ensures { IsBoundAs true row self.old self.new }
    {
        self.bound[row] = true;
        let rest = Rest::at_bound(&self.rows[row]);
        self.rests[self.columns + row] = rest;
    }

    /// Requires the row, which is one of the table's, no longer. The basis stays.
    pub fn clear_bound(&mut self, row: usize)
        requires { row < length self.old.rows }
        ensures { IsBoundAs false row self.old self.new }
    {
        self.bound[row] = false;
        self.rests[self.columns + row] = Some(Rest::free());
    }

    /// Moves another basis of the same rows in, with its solved form, and hands the one before out.
    pub fn replace_basis(&mut self, basis: Basis) -> Basis
        requires { IsTableau (with_slots self.old basis) }
        ensures table { self.new ≡ with_slots self.old basis }
        ensures before { result ≡ self.old.slots }
    {
        std::mem::replace(&mut self.basis, basis)
    }

    /// The rows.
    pub fn rows(&self) -> &[Row]
        ensures { result.now ≡ self.now.rows }
    {
        &self.rows
    }

    /// For each row whether it is bound.
    pub fn bound(&self) -> &[bool]
        ensures { result.now ≡ self.now.bound }
    {
        &self.bound
    }

    /// The basis.
    pub fn basis(&self) -> &Basis
        ensures { result.now ≡ self.now.slots }
    {
        &self.basis
    }

    /// The number of columns.
    pub fn columns(&self) -> usize
        ensures { result ≡ self.now.columns }
    {
        self.columns
    }

    /// The row of a position, where that is a row and bound.
    pub fn bound_row(&self, position: usize) -> Option<&Row>
        ensures { MatchOption result (bound_row self.now position ≡ None)
            (λ row. bound_row self.now position ≡ Some row.now) }
    {
        if position < self.columns {
            return None;
        }
        let row = position - self.columns;
        if !is_bound(&self.bound, row) {
            return None;
        }
        self.rows.get(row)
    }

    /// Where a position rests and whether it is a bound row. None where small whole numbers don't tell that, or there
    /// is no such position.
    pub(crate) fn whole_rest(&self, position: usize) -> Option<Rest>
        ensures { IfSome result (IsRestOf (bound_row self.now position)) }
    {
        if position < self.rests.len() {
            self.rests[position]
        } else {
            None
        }
    }

    /// The relation of the row of a position, where that is a row and bound.
    pub fn bound_relation(&self, position: usize) -> Option<Relation>
        ensures { result ≡ relation_of (bound_row self.now position) }
    {
        match self.whole_rest(position) {
            Some(rest) => rest.relation,
            None => Some(self.bound_row(position)?.relation()),
        }
    }

    /// Tells a proof that the tableau is one. It does nothing when it runs.
    pub fn all_known(&self)
        ensures { IsTableau self.now }
    {
        let _ = &self.rows;
    }
}

/// Whether a row is bound. False where there is no such row.
fn is_bound(bound: &[bool], row: usize) -> bool
    ensures { result ≡ slice_index_or bound.now row false }
{
    row < bound.len() && bound[row]
}
