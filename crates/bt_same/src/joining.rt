//! The formula of one network, added to that of two.
ghost use Rattle.std.specs.Prelude.{◌≡◌, ◌<◌, OnOk, IfOk, Some, length, map, slice_get};
ghost use Rattle.bt_cnf.specs.Formulas.{LitsBelow};
ghost use Rattle.bt_same.specs.SameFormula as same;
ghost use Rattle.bt_same.specs.inner.Joining.{rows_of, with_rows, with_lits};

use crate::shift::Shift;
use bt_cnf::{Formula, Lit, Var};
use bt_frac::Row;
use std::alloc::{AllocError, Global};

/// A row with each of its columns where it goes in the formula of two networks. One whose columns leave 64 bits, as no
/// network's do, is want of memory.
fn moved_row(alloc: Global, row: &Row, columns: Shift) -> Result<Row, AllocError>
    ensures { IfOk result (λ moved. moved ≡ same.moved_row columns row.now) }
{
    let mut terms = Vec::new(alloc);
    for (column, coefficient) in row.terms() {
        terms.push((columns.put(*column)?, *coefficient))?;
    }
    Row::from_vec(terms, row.relation(), row.bound()).ok_or(AllocError)
}

/// Adds the rows of a network's formula, with their columns where they go, each as a variable of its own.
pub fn add_rows(
    alloc: Global,
    formula: &mut Formula,
    part: &Formula,
    columns: Shift,
) -> Result<(), AllocError>
    ensures { OnOk result (formula.new
        ≡ with_rows formula.old (map (same.moved_row columns) (rows_of part.now))) }
{
    for row in part.rows() {
        let moved = moved_row(alloc, row, columns)?;
        formula.add_atom(moved)?;
    }
    Ok(())
}

/// The variable at a place. Where there is none, which is so of no network's formula, that is want of memory.
fn var_at(formula: &Formula, place: usize) -> Result<Var, AllocError>
    ensures place { IfOk result (λ var. var ≡ place) }
    ensures below { IfOk result (λ var. var < formula.now.vars) }
{
    formula.var_at(place).ok_or(AllocError)
}

/// The literals of a clause, each with the variable to which its own goes.
fn moved_lits(
    alloc: Global,
    formula: &Formula,
    lits: &[Lit],
    vars: Shift,
) -> Result<Vec<Lit>, AllocError>
    ensures moved { IfOk result (λ moved. moved.items ≡ same.moved_lits vars lits.now) }
    ensures below { IfOk result (λ moved. LitsBelow formula.now.vars moved.items) }
{
    let mut moved = Vec::new(alloc);
    for lit in lits {
        let var = var_at(formula, vars.put(lit.var.place())?)?;
        moved.push(Lit {
            var,
            positive: lit.positive,
        })?;
    }
    Ok(moved)
}

/// The literals of the clause at a place.
fn clause_at(formula: &Formula, place: usize) -> &[Lit]
    requires { place < length formula.now.clauses }
    ensures { slice_get formula.now.clauses place ≡ Some result.now }
{
    match formula.clause_at(place) {
        Some(id) => formula.clause(id),
        None => &[],
    }
}

/// Adds the clauses of a network's formula, with their variables where they go.
pub fn add_clauses(
    alloc: Global,
    formula: &mut Formula,
    part: &Formula,
    vars: Shift,
) -> Result<(), AllocError>
    ensures { OnOk result (formula.new
        ≡ with_lits formula.old (map (same.moved_lits vars) part.now.clauses)) }
{
    for place in 0..part.clauses() {
        let lits = moved_lits(alloc, formula, clause_at(part, place), vars)?;
        formula.add_clause(&lits)?;
    }
    Ok(())
}
