//! Scopes: tableaus of some of a formula's rows. Of a model they are asked before the tableau of all rows.
ghost use Rattle.std.specs.Prelude.{◌≡◌, ◌<◌, length, map, IfOk, IfSome};
ghost use Rattle.std.specs.List.{All, Any};
ghost use Rattle.bt_theory.specs.Reaching.{atom_vars};
ghost use Rattle.bt_theory.specs.Outcomes.{AreRowsOf};
ghost use Rattle.bt_theory.specs.inner.Scopes.{AreAtoms, IsConflictIn, IsScopeOf, IsShown, parts_of, IsPaired};

use crate::binding::bind;
use crate::close::close_tableau;
use crate::lemma::{Conflict, conflict_of};
use bt_cnf::{Formula, Var, is_true};
use bt_farkas::{SumFault, Weigher};
use bt_frac::{Frac, Row};
use bt_simplex::{Check, Tableau};
use std::alloc::{AllocError, Global};

/// Some of a formula's rows, and their tableau over the columns that they name alone.
#[derive(Drop)]
pub struct Scope {
    /// The variables of the rows, in their order.
    atoms: Vec<Var>,
    rows: Vec<Row>,
    /// The tableau of the rows with other numbers of their columns. What it weighs is weighed again by the rows.
    tableau: Tableau,
    /// For each row whether it was bound when values were found last.
    passed: Vec<bool>,
}

/// Some of a formula's rows, with their variables.
#[derive(Drop)]
struct Picked {
    atoms: Vec<Var>,
    rows: Vec<Row>,
}

/// The scopes of lists of rows, which are named by their places among the formula's rows. A place of none is passed over.
pub fn scopes_of(
    alloc: Global,
    formula: &Formula,
    atoms: &[Var],
    lists: &[Vec<usize>],
) -> Result<Vec<Scope>, AllocError>
    requires { atoms.now ≡ atom_vars formula.now }
    ensures { IfOk result (λ scopes. All (IsScopeOf formula.now) (map parts_of scopes.items)) }
{
    let mut scopes = Vec::new(alloc);
    for list in lists {
        let rows = rows_of(alloc, formula, list)?;
        scopes.push(scope_of(alloc, formula, atoms, &rows)?)?;
    }
    Ok(scopes)
}

/// The places of a list at which the formula has a row.
fn rows_of(alloc: Global, formula: &Formula, list: &[usize]) -> Result<Vec<usize>, AllocError>
    ensures { IfOk result (λ rows. AreRowsOf formula.now rows.items) }
{
    let count = formula.rows().len();
    let mut rows = Vec::new(alloc);
    for place in list {
        if *place < count {
            rows.push(*place)?;
        }
    }
    Ok(rows)
}

/// The scope of the rows at these places among the formula's rows. `atoms` are the variables of the formula's rows.
fn scope_of(
    alloc: Global,
    formula: &Formula,
    atoms: &[Var],
    list: &[usize],
) -> Result<Scope, AllocError>
    requires atoms { atoms.now ≡ atom_vars formula.now }
    requires rows { AreRowsOf formula.now list.now }
    ensures { IfOk result (λ scope. IsScopeOf formula.now (parts_of scope)) }
{
    let Picked { atoms, rows } = rows_at(alloc, formula, atoms, list)?;
    let tableau = close_tableau(alloc, &rows)?;
    let passed = vec![in alloc; false; rows.len()]?;
    Ok(Scope {
        atoms,
        rows,
        tableau,
        passed,
    })
}

/// The rows of a list of places, with their variables.
fn rows_at(
    alloc: Global,
    formula: &Formula,
    atoms: &[Var],
    list: &[usize],
) -> Result<Picked, AllocError>
    requires atoms { atoms.now ≡ atom_vars formula.now }
    requires rows { AreRowsOf formula.now list.now }
    ensures { IfOk result (λ picked. AreAtoms formula.now picked.atoms.items picked.rows.items) }
{
    let mut vars = Vec::new(alloc);
    let mut rows = Vec::new(alloc);
    let all = formula.rows();
    for place in list {
        let row = &all[*place];
        if let Some(copy) = Row::new(alloc, row.terms(), row.relation(), row.bound())? {
            vars.push(atoms[*place])?;
            rows.push(copy)?;
        }
    }
    Ok(Picked { atoms: vars, rows })
}

/// The conflict of the first scope that has one with an assignment, where one is found within so many
/// pivots.
pub fn first_conflict(
    alloc: Global,
    scopes: &mut [Scope],
    assignment: &[bool],
    pivots: u64,
) -> Result<Option<Conflict>, AllocError>
    requires { All IsPaired (map parts_of scopes.old) }
    ensures same { IfOk result (λ found. map parts_of scopes.new ≡ map parts_of scopes.old) }
    ensures found { IfOk result (λ found. IfSome found (λ conflict.
        Any (IsConflictIn assignment.now conflict) (map parts_of scopes.old))) }
{
    for place in 0..scopes.len() {
        let found = conflict_at(alloc, scopes, place, assignment, pivots)?;
        if found.is_some() {
            return Ok(found);
        }
    }
    Ok(None)
}

/// The conflict of the first scope at these places that has one with an assignment, where one is found within so many
/// pivots. A place of no scope is passed over.
pub fn conflict_among(
    alloc: Global,
    scopes: &mut [Scope],
    places: &[usize],
    assignment: &[bool],
    pivots: u64,
) -> Result<Option<Conflict>, AllocError>
    requires { All IsPaired (map parts_of scopes.old) }
    ensures same { IfOk result (λ found. map parts_of scopes.new ≡ map parts_of scopes.old) }
    ensures found { IfOk result (λ found. IfSome found (λ conflict.
        Any (IsConflictIn assignment.now conflict) (map parts_of scopes.old))) }
{
    for place in places {
        let found = conflict_at(alloc, scopes, *place, assignment, pivots)?;
        if found.is_some() {
            return Ok(found);
        }
    }
    Ok(None)
}

/// The conflict of the scope at a place, where there is one, and one is found within so many pivots.
fn conflict_at(
    alloc: Global,
    scopes: &mut [Scope],
    place: usize,
    assignment: &[bool],
    pivots: u64,
) -> Result<Option<Conflict>, AllocError>
    requires { All IsPaired (map parts_of scopes.old) }
    ensures same { IfOk result (λ found. map parts_of scopes.new ≡ map parts_of scopes.old) }
    ensures found { IfOk result (λ found. IfSome found (λ conflict.
        Any (IsConflictIn assignment.now conflict) (map parts_of scopes.old))) }
{
    if place >= scopes.len() {
        return Ok(None);
    }
    let found = scopes[place].conflict(alloc, assignment, pivots)?;
    Ok(found)
}

impl Scope {
    /// The conflict of the rows whose atoms are true, where one is found within so many pivots. None too
    /// where all of these were bound when values were found last.
    fn conflict(
        &mut self,
        alloc: Global,
        assignment: &[bool],
        pivots: u64,
    ) -> Result<Option<Conflict>, AllocError>
        requires { IsPaired (parts_of self.old) }
        ensures same { IfOk result (λ found. parts_of self.new ≡ parts_of self.old) }
        ensures found { IfOk result (λ found. IfSome found (λ conflict.
            IsConflictIn assignment.now conflict (parts_of self.old))) }
    {
        if self.has_passed(assignment) || self.tableau.rows().len() != self.atoms.len() {
            return Ok(None);
        }
        bind(&mut self.tableau, &self.atoms, assignment);
        match self.tableau.check(alloc, pivots)? {
            Check::Unsat(weighed) => shown(alloc, &self.atoms, &self.rows, &weighed),
            Check::Sat(_) => {
                note(&mut self.passed, &self.atoms, assignment);
                Ok(None)
            }
            Check::Pivots(_) | Check::Wide(_) => Ok(None),
        }
    }

    /// Whether all rows whose atoms are true were bound when values were found last.
    fn has_passed(&self, assignment: &[bool]) -> bool {
        self.atoms.iter().zip(&self.passed).all(|(var, passed)| *passed
            || !is_true(assignment, var.place()))
    }
}

/// The conflict of weighed rows, of these with their variables, where they add up to one that no values meet. None too
/// where the sum leaves 128 bits.
fn shown(
    alloc: Global,
    atoms: &[Var],
    rows: &[Row],
    weighed: &[(usize, Frac)],
) -> Result<Option<Conflict>, AllocError>
    requires paired { length atoms.now ≡ length rows.now }
    requires below { All (λ w. w.0 < length atoms.now) weighed.now }
    ensures { IfOk result (λ found. IfSome found (IsShown atoms.now rows.now weighed.now)) }
{
    let conflict = conflict_of(alloc, atoms, weighed)?;
    let picks = picks_of(alloc, weighed)?;
    match Weigher::new(alloc).farkas(rows, &picks, &conflict.weights) {
        Ok(true) => Ok(Some(conflict)),
        Err(SumFault::Memory) => Err(AllocError),
        _ => Ok(None),
    }
}

/// The places of the rows that are weighed.
fn picks_of(alloc: Global, weighed: &[(usize, Frac)]) -> Result<Vec<usize>, AllocError>
    ensures { IfOk result (λ picks. picks.items ≡ map (λ w. w.0) weighed.now) }
{
    let mut picks = Vec::with_capacity(alloc, weighed.len())?;
    for (row, _) in weighed {
        picks.push(*row)?;
    }
    Ok(picks)
}

/// Notes for each row whether it is bound, as where its atom is true.
fn note(passed: &mut [bool], atoms: &[Var], assignment: &[bool]) {
    for (row, var) in atoms.iter().enumerate() {
        if row < passed.len() {
            passed[row] = is_true(assignment, var.place());
        }
    }
}
