//! A line of argument, as it grows: definitions, scopes and aims.
use bt_cnf::{Formula, Lit};
use bt_extend::{Definition, Literals, NamedLit};
use std::alloc::{AllocError, Global};

/// A clause that is likely to follow, and the place of the scope that shows it. Its variables may be such as definitions add.
#[derive(Drop)]
pub struct Aim {
    pub lits: Vec<NamedLit>,
    /// The place of a scope of the line. At a place of none there is nothing to show: the clause follows by propagation.
    pub scope: usize,
}

/// A line of argument: definitions that extend a formula, and scopes and aims over the extended formula.
#[derive(Drop)]
pub struct Line {
    pub definitions: Vec<Definition>,
    /// Lists of rows, by their places.
    pub scopes: Vec<Vec<usize>>,
    pub aims: Vec<Aim>,
}

/// The literal of a variable by its place.
pub fn named(var: usize, positive: bool) -> NamedLit {
    NamedLit { var, positive }
}

/// A literal of a formula by the place of its variable.
pub fn named_as(lit: Lit) -> NamedLit {
    named(lit.var.place(), lit.positive)
}

/// The opposite of a literal of a formula, by the place of its variable.
pub fn opposite_of(lit: Lit) -> NamedLit {
    named(lit.var.place(), !lit.positive)
}

/// Adds an aim with the scope at a place.
pub fn add_aim(
    alloc: Global,
    aims: &mut Vec<Aim>,
    lits: &[NamedLit],
    place: usize,
) -> Result<(), AllocError> {
    aims.push(Aim {
        lits: Vec::from_slice(alloc, lits)?,
        scope: place,
    })?;
    Ok(())
}

/// Adds the aim of two literals, in both orders.
pub fn add_both(
    alloc: Global,
    aims: &mut Vec<Aim>,
    one: NamedLit,
    other: NamedLit,
    place: usize,
) -> Result<(), AllocError> {
    add_aim(alloc, aims, &[one, other], place)?;
    add_aim(alloc, aims, &[other, one], place)
}

/// Adds a scope, and tells its place.
pub fn add_scope(line: &mut Line, rows: Vec<usize>) -> Result<usize, AllocError> {
    let place = line.scopes.len();
    line.scopes.push(rows)?;
    Ok(place)
}

/// Adds the places of so many rows, from the first on.
pub fn add_rows(rows: &mut Vec<usize>, first: usize, count: usize) -> Result<(), AllocError> {
    for step in 0..count {
        rows.push(first.saturating_add(step))?;
    }
    Ok(())
}

/// Adds the definition of a variable that is true just where one of the literals is.
pub fn add_disjunction(
    alloc: Global,
    line: &mut Line,
    lits: &[NamedLit],
) -> Result<(), AllocError> {
    let lits = Literals::new(Vec::from_slice(alloc, lits)?);
    line.definitions.push(Definition::Disjunction(lits))?;
    Ok(())
}

/// Adds the scope of some rows and of those of the last clause's literals, and the aims that these literals are false
/// by it. Adds nothing where the formula has no clause.
pub fn conclude(
    alloc: Global,
    formula: &Formula,
    line: &mut Line,
    rows: Vec<usize>,
) -> Result<(), AllocError> {
    if formula.clauses() == 0 {
        return Ok(());
    }
    let rows = with_last(formula, rows)?;
    let place = add_scope(line, rows)?;
    add_opposites(alloc, formula, &mut line.aims, place)
}

/// Some rows, and behind them those of the last clause's literals.
fn with_last(formula: &Formula, rows: Vec<usize>) -> Result<Vec<usize>, AllocError> {
    let mut rows = rows;
    if let Some(last) = formula.clause_at(formula.clauses().saturating_sub(1)) {
        for lit in formula.clause(last) {
            if let Some(row) = formula.row_of(lit.var) {
                rows.push(row)?;
            }
        }
    }
    Ok(rows)
}

/// Adds that the literals of the last clause are false, by the scope at a place.
pub fn add_opposites(
    alloc: Global,
    formula: &Formula,
    aims: &mut Vec<Aim>,
    place: usize,
) -> Result<(), AllocError> {
    if let Some(last) = formula.clause_at(formula.clauses().saturating_sub(1)) {
        for lit in formula.clause(last) {
            add_aim(alloc, aims, &[opposite_of(*lit)], place)?;
        }
    }
    Ok(())
}
