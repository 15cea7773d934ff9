//! Tableaus: rows over columns, of which some are bound, and a basis with its solved form.
ghost use Rattle.std.specs.Prelude.{◌≡◌, ◌<◌, IfOk, OnErr, MatchOption, Some, None, length, true, false};
ghost use Rattle.bt_pivot.specs.Points.{bound_row};
ghost use Rattle.bt_pivot.specs.Tableaus.{AreOverColumns, IsNew, IsBoundAs, IsTableau, with_slots};
ghost use Rattle.bt_simplex.specs.Checks.{IsCheck};
ghost use Rattle.bt_simplex.specs.inner.Checking.{Concludes, slots_after};

use crate::answers::Check;
use crate::concluding::checked;
use bt_frac::Row;
use bt_pivot::{Table, Workspace};
use std::alloc::{AllocError, Global};
use std::marker::Model;

/// Rows over columns, of which some are bound, and a basis of positions with its solved form: the line of
/// each position of the basis gives what stands there by what stands outside the basis.
///
/// Position j below the number of columns is column j, and the positions from there on are the sums of
/// the rows.
#[derive(Drop)]
pub struct Tableau {
    table: Table,
    /// The memory of the basis before the last one, for the next check.
    spare: Workspace,
}

impl Model for Tableau {
    ghost use Rattle.bt_pivot.specs.Tableaus.{TableauParts};

    ghost Value = { TableauParts };

    ghost view = { λ t. t.table };
}

impl Tableau {
    /// The tableau of rows over so many columns, whose basis is the rows. No row is bound.
    pub fn new(alloc: Global, rows: &[Row], columns: usize) -> Result<Tableau, AllocError>
        requires { AreOverColumns columns rows.now }
        ensures { IfOk result (IsNew rows.now columns) }
    {
        Ok(Tableau {
            table: Table::new(alloc, rows, columns)?,
            spare: Workspace::none(alloc),
        })
    }

    /// Requires the row from now on. The basis stays.
    pub fn set_bound(&mut self, row: usize)
        requires { row < length self.old.rows }
        ensures { IsBoundAs true row self.old self.new }
    {
        self.table.set_bound(row);
    }

    /// Requires the row no longer. The basis stays.
    pub fn clear_bound(&mut self, row: usize)
        requires { row < length self.old.rows }
        ensures { IsBoundAs false row self.old self.new }
    {
        self.table.clear_bound(row);
    }

    /// Makes Bland's pivots from the basis on, at most `pivots`, to a final one, and answers with values
    /// that meet every bound row, or with bound rows and weights that show that no values do.
    ///
    /// Bland's pivot: the least position of the basis that fails its bound leaves, and the least that
    /// can move it towards its bound enters. `Pivots` comes only after exactly `pivots` pivots, at a basis
    /// that isn't final. `Wide` names an operation whose result leaves 128 bits, and its two numbers. After
    /// both of them and after a want of memory the tableau is as before.
    pub fn check(&mut self, alloc: Global, pivots: u64) -> Result<Check, AllocError>
        ensures checked { IfOk result (IsCheck pivots self.old self.new) }
        ensures memory { OnErr result (self.new ≡ self.old) }
    {
        let mut work = self.workspace(alloc)?;
        let check = self.check_in(alloc, pivots, &mut work)?;
        self.keep(work, &check);
        Ok(check)
    }

    /// A copy of the basis, in the memory that the last check left.
    fn workspace(&mut self, alloc: Global) -> Result<Workspace, AllocError>
        ensures copy { IfOk result (λ work. work.basis ≡ self.old.slots) }
        ensures same { self.new ≡ self.old }
    {
        let spare = std::mem::replace(&mut self.spare, Workspace::none(alloc));
        spare.copy_of(alloc, self.table.basis())
    }

    /// The check on a copy of the basis, which `work` holds and on which the pivots are made.
    fn check_in(
        &self,
        alloc: Global,
        pivots: u64,
        work: &mut Workspace,
    ) -> Result<Check, AllocError>
        requires { work.old.basis ≡ self.now.slots }
        ensures { IfOk result (Concludes pivots self.now work.new.basis) }
    {
        checked(&self.table, alloc, pivots, work)
    }

    /// Takes in the basis that the pivots of a check lead to, where that is final, and keeps the other one's memory for
    /// the next check. After any other answer the tableau is as before.
    fn keep(&mut self, work: Workspace, check: &Check)
        requires { IsTableau (with_slots self.old (slots_after self.old.slots work.basis check.now)) }
        ensures { self.new ≡ with_slots self.old (slots_after self.old.slots work.basis check.now) }
    {
        match check {
            Check::Sat(_) | Check::Unsat(_) => self.take_in(work),
            Check::Pivots(_) | Check::Wide(_) => self.spare = work,
        }
    }

    /// Moves a basis in, and keeps the memory of the one before for the next check.
    fn take_in(&mut self, work: Workspace)
        requires { IsTableau (with_slots self.old work.basis) }
        ensures { self.new ≡ with_slots self.old work.basis }
    {
        let Workspace { basis, rooms, kept } = work;
        let before = self.table.replace_basis(basis);
        self.spare = Workspace {
            basis: before,
            rooms,
            kept,
        };
    }

    /// The rows.
    pub fn rows(&self) -> &[Row]
        ensures { result.now ≡ self.now.rows }
    {
        self.table.rows()
    }

    /// The number of columns.
    pub fn columns(&self) -> usize
        ensures { result ≡ self.now.columns }
    {
        self.table.columns()
    }

    /// The row of a position, where that is a row and bound.
    pub fn bound_row(&self, position: usize) -> Option<&Row>
        ensures { MatchOption result (bound_row self.now position ≡ None)
            (λ row. bound_row self.now position ≡ Some row.now) }
    {
        self.table.bound_row(position)
    }

    /// Tells a proof that the tableau is one. It does nothing when it runs.
    pub fn all_known(&self)
        ensures { IsTableau self.now }
    {
        self.table.all_known();
    }
}
