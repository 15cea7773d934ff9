//! One file for each subject. A row of a table is one text, whose fields stand between bars: a table of structs or tuples
//! takes far longer to prove. What judges a row lacks memory at most, since an error of its own is dear too.
mod choosers;
mod claims;
mod plans;
mod sat;
mod seeking;

use bt_cnf::{Chooser, Formula, Lit};
use bt_frac::{Frac, Relation, Row};
use bt_sat::{Answer, Solver};
use std::alloc::{AllocError, Global};

/// The first five fields of a row, between which this mark stands; those that it lacks are empty.
fn fields(row: &str, mark: char) -> [&str; 5] {
    let mut fields = [""; 5];
    for (place, text) in row.split(mark).enumerate() {
        if place < 5 {
            fields[place] = text;
        }
    }
    fields
}

/// The number that a field spells, and 0 where it spells none.
fn number_of(field: &str) -> usize {
    field.parse::<usize>().unwrap_or(0)
}

/// The fraction that a field spells, and 0 where it spells none.
fn fraction_of(field: &str) -> Frac {
    Frac::read(field.as_bytes()).unwrap_or(Frac::whole(0))
}

/// The relation that a sign stands for: `>` or `=`, and any other for at least.
fn relation_named(name: &str) -> Relation {
    match name {
        ">" => Relation::Above,
        "=" => Relation::Equal,
        _ => Relation::AtLeast,
    }
}

/// The terms of the coefficients of the first columns, of which 0 is none.
fn terms_of(alloc: Global, words: &[&str]) -> Result<Vec<(usize, Frac)>, AllocError> {
    let mut terms = Vec::new(alloc);
    for (column, word) in words.iter().enumerate() {
        let coefficient = fraction_of(word);
        if coefficient.numerator() != 0 {
            terms.push((column, coefficient))?;
        }
    }
    Ok(terms)
}

/// The row of a text: its relation, its bound and the coefficients of the first three columns. None where these make
/// none.
fn row_of(alloc: Global, field: &str) -> Result<Option<Row>, AllocError> {
    let [relation, bound, first, second, third] = fields(field, ' ');
    let terms = terms_of(alloc, &[first, second, third])?;
    Ok(Row::from_vec(terms, relation_named(relation), fraction_of(bound)))
}

/// The literal of a word: its variable's place plus 1, and a sign. None where the formula lacks the variable.
fn literal_of(formula: &Formula, word: &str) -> Option<Lit> {
    let number = word.parse::<i64>().unwrap_or(0);
    let place = (number.unsigned_abs() as usize).wrapping_sub(1);
    let var = formula.var_at(place)?;
    Some(Lit {
        var,
        positive: number > 0,
    })
}

/// The literals of a text, as far as they are of variables.
fn literals_of(alloc: Global, formula: &Formula, clause: &str) -> Result<Vec<Lit>, AllocError> {
    let mut lits = Vec::new(alloc);
    for word in clause.split(' ') {
        if let Some(lit) = literal_of(formula, word) {
            lits.push(lit)?;
        }
    }
    Ok(lits)
}

/// Adds the clause of a text of literals, as far as they are of variables.
fn add_clause(alloc: Global, formula: &mut Formula, clause: &str) -> Result<(), AllocError> {
    let lits = literals_of(alloc, formula, clause)?;
    if lits.iter().all(|lit| lit.var.place() < formula.vars()) {
        formula.add_clause(&lits)?;
    }
    Ok(())
}

/// Adds the clauses of a text, between which commas stand.
fn add_clauses(alloc: Global, formula: &mut Formula, clauses: &str) -> Result<(), AllocError> {
    for clause in clauses.split(',') {
        if !clause.is_empty() {
            add_clause(alloc, formula, clause)?;
        }
    }
    Ok(())
}

/// Adds an atom with the row of each of these texts.
fn add_atoms(alloc: Global, formula: &mut Formula, rows: &[&str]) -> Result<(), AllocError> {
    for row in rows {
        if let Some(row) = row_of(alloc, row)? {
            formula.add_atom(row)?;
        }
    }
    Ok(())
}

/// A formula of so many variables, and of an atom with the row of each of these texts, with the clauses of a text.
fn formula_of(
    alloc: Global,
    vars: usize,
    rows: &[&str],
    clauses: &str,
) -> Result<Formula, AllocError> {
    let mut formula = Formula::new(alloc, vars)?;
    add_atoms(alloc, &mut formula, rows)?;
    add_clauses(alloc, &mut formula, clauses)?;
    Ok(formula)
}

/// Whether these are the values of a text, in which `t` is true.
fn are_values(values: &[bool], letters: &str) -> bool {
    let same = values
        .iter()
        .zip(letters.as_bytes())
        .all(|(value, letter)| *value == (*letter == b't'));
    same && values.len() == letters.len()
}

/// Whether the next model of a search has the values of a text.
fn is_modelled<C: Chooser>(solver: &mut Solver<C>, letters: &str) -> Result<bool, AllocError> {
    match solver.next_model()? {
        Answer::Model(model) => Ok(are_values(&model, letters)),
        Answer::Refuted | Answer::Spent => Ok(false),
    }
}
