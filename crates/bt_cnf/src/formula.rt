//! Formulas, with constant-time access to the row of a variable.
ghost use Rattle.std.specs.Prelude.{◌≡◌, ◌<◌, ◌≤◌, length, map, slice_get, Some, IfSome, IsNone, ◌↔◌, IfOk, []};
ghost use Rattle.bt_frac.specs.Rows.{IsRow, columns_of, columns_in, end_of};
ghost use Rattle.bt_cnf.specs.Formulas.{LitsBelow, IsFormula, IsNextAtom, AddsClause, AddsAtom, AppendsAtom};
ghost use Rattle.bt_cnf.specs.Formulas.{AppendsVariable};
ghost use Rattle.bt_cnf.specs.Places.{IsPlaceOf};

use crate::literal::{Clause, ClauseId, Lit, Var, Variable};
use crate::row_place::RowPlace;
use bt_arena::{Arena, Pool};
use bt_frac::Row;
use std::alloc::{AllocError, Global};
use std::marker::Model;

/// Clauses over a number of variables, some of which are atoms and have a row.
#[derive(Drop)]
pub struct Formula {
    /// For each variable, the place of its row, where it is an atom.
    places: Arena<RowPlace, Variable>,
    clauses: Pool<Lit, Clause>,
    /// The rows of the atoms, in the order of their variables.
    rows: Vec<Row>,
    /// One more than the greatest column of the rows, or 0.
    columns: usize,
}

impl Model for Formula {
    ghost use Rattle.bt_cnf.specs.Formulas.{FormulaParts};
    ghost use Rattle.bt_cnf.specs.Places.{atoms_in, parts_of, IsStored};

    ghost Value = { FormulaParts };

    ghost view = { λ f. parts_of f.places f.clauses (atoms_in f.places) f.rows.items };

    ghost invariant = { λ f. IsStored f.places f.clauses (atoms_in f.places) f.rows.items f.columns };
}

impl Formula {
    /// A formula over so many variables, without clauses and atoms.
    pub fn new(alloc: Global, vars: usize) -> Result<Formula, AllocError>
        ensures { IfOk result (λ f. f ≡ record { vars = vars; clauses = []; atoms = [] }) }
    {
        let mut places = Arena::new(alloc)?;
        for _ in 0..vars {
            places.add(RowPlace::none())?;
        }
        Ok(Formula {
            places,
            clauses: Pool::new(alloc)?,
            rows: Vec::new(alloc),
            columns: 0,
        })
    }

    /// Appends a clause, and gives its id.
    pub fn add_clause(&mut self, lits: &[Lit]) -> Result<ClauseId, AllocError>
        requires { LitsBelow self.old.vars lits.now }
        ensures { AddsClause self.old lits.now self.new result }
    {
        self.clauses.add_slice(lits)
    }

    /// Makes a variable an atom with this row. The variable is to come behind every atom so far.
    pub fn set_atom(&mut self, var: Var, row: Row) -> Result<(), AllocError>
        requires { IsNextAtom self.old var }
        ensures { AddsAtom self.old var row self.new result }
    {
        // The room is made first, so that a refusal leaves the formula as it was.
        self.rows.reserve(1)?;
        let place = RowPlace::of(self.rows.len())?;
        self.columns = self.columns.max(end_column(&row));
        self.rows.push(row).unwrap();
        *self.places.get_mut(var) = place;
        Ok(())
    }

    /// Appends a variable that is an atom with this row, and gives the variable.
    pub fn add_atom(&mut self, row: Row) -> Result<Var, AllocError>
        ensures { AppendsAtom self.old row self.new result }
    {
        // The room is made first, so that a refusal leaves the formula as it was.
        self.rows.reserve(1)?;
        let place = RowPlace::of(self.rows.len())?;
        let var = self.places.add(place)?;
        self.columns = self.columns.max(end_column(&row));
        self.rows.push(row).unwrap();
        Ok(var)
    }

    /// Appends a variable that is no atom, and gives the variable.
    pub fn add_variable(&mut self) -> Result<Var, AllocError>
        ensures { AppendsVariable self.old self.new result }
    {
        let var = self.places.add(RowPlace::none())?;
        Ok(var)
    }

    /// The number of variables.
    pub fn vars(&self) -> usize
        ensures value { result ≡ self.now.vars }
        ensures known { IsFormula self.now }
    {
        self.places.len()
    }

    /// The number of clauses.
    pub fn clauses(&self) -> usize
        ensures { result ≡ length self.now.clauses }
    {
        self.clauses.len()
    }

    /// The literals of a clause.
    pub fn clause(&self, id: ClauseId) -> &[Lit]
        requires { id < length self.now.clauses }
        ensures value { slice_get self.now.clauses id ≡ Some result.now }
        ensures known { IsFormula self.now }
    {
        self.clauses.slice(id)
    }

    /// The id of the clause at a place, from 0. None where there are no more than so many clauses.
    pub fn clause_at(&self, place: usize) -> Option<ClauseId>
        ensures none { IsNone result ↔ (length self.now.clauses ≤ place) }
        ensures some { IfSome result (λ id. id ≡ place) }
    {
        self.clauses.id_at(place)
    }

    /// The variable at a place, from 0. None where there are no more than so many variables.
    pub fn var_at(&self, place: usize) -> Option<Var>
        ensures none { IsNone result ↔ (self.now.vars ≤ place) }
        ensures some { IfSome result (λ var. var ≡ place) }
    {
        self.places.id_at(place)
    }

    /// The rows of the atoms, in the order of their variables.
    pub fn rows(&self) -> &[Row]
        ensures value { result.now ≡ map (λ a. a.1) self.now.atoms }
        ensures known { IsFormula self.now }
    {
        &self.rows
    }

    /// The place of a variable's row among the rows. None exactly where the variable is no atom.
    pub fn row_of(&self, var: Var) -> Option<usize>
        ensures { IsPlaceOf (map (λ a. a.0) self.now.atoms) var result }
    {
        match self.places.id_at(var.place()) {
            Some(id) => self.places.get(id).row(),
            None => None,
        }
    }

    /// One more than the greatest column of the rows, or 0 where no row has a term.
    pub fn columns(&self) -> usize
        ensures { result ≡ end_of (columns_in (map (λ a. a.1) self.now.atoms)) }
    {
        self.columns
    }
}

/// One more than the greatest column of a row, or 0 where it has no term.
fn end_column(row: &Row) -> usize
    ensures end { result ≡ end_of (columns_of row.now.terms) }
    ensures known { IsRow row.now }
{
    match row.terms().last() {
        Some((column, _)) => *column + 1,
        None => 0,
    }
}
