//! Guesses: assignments that are tried before a search, which hears nothing of them.
ghost use Rattle.std.specs.Prelude.{◌≡◌, length, IfOk, IfSome};
ghost use Rattle.std.specs.List.{All};
ghost use Rattle.bt_cnf.specs.Assignments.{truth_in};
ghost use Rattle.bt_cnf.specs.Meeting.{MeetsClause};
ghost use Rattle.bt_simplex.specs.Checks.{MeetsBoundRows};
ghost use Rattle.bt_theory.specs.Outcomes.{IsSolution, Solves};
ghost use Rattle.bt_theory.specs.inner.Bases.{IsBase, base_in};

use crate::base::{Base, base_of};
use crate::binding::{bind, tableau_of};
use crate::choosing::{choose, meets_clauses};
use crate::outcome::Solution;
use bt_cnf::{Formula, is_true};
use bt_frac::Frac;
use bt_simplex::{Check, Tableau};
use std::alloc::{AllocError, Global};

/// The first solution that a guess gives.
///
/// Each guess is an assignment of the formula: a truth value for each variable, and false past its end. It gives a
/// solution where it gives every clause a true literal, and values are found within so many pivots for the rows that this
/// needs. None of the others decides anything: neither pivots that don't suffice for one nor a number that is too wide.
pub fn first_solution(
    alloc: Global,
    formula: &Formula,
    guesses: &[Vec<bool>],
    pivots: u64,
) -> Result<Option<Solution>, AllocError>
    ensures { IfOk result (λ found. IfSome found (Solves formula.now)) }
{
    let base = base_of(alloc, formula)?;
    first_of(alloc, formula, &base, guesses, pivots)
}

/// The first solution that a guess gives of what stands in a formula before its definitions.
fn first_of(
    alloc: Global,
    formula: &Formula,
    base: &Base,
    guesses: &[Vec<bool>],
    pivots: u64,
) -> Result<Option<Solution>, AllocError>
    requires { IsBase base.now formula.now }
    ensures { IfOk result (λ found. IfSome found (Solves (base_in base.now formula.now))) }
{
    for guess in guesses {
        let found = solution_of(alloc, formula, base, guess, pivots)?;
        if found.is_some() {
            return Ok(found);
        }
    }
    Ok(None)
}

/// The solution that a guess gives: where it gives every clause before the definitions a true literal, and values are
/// found for the rows of the atoms that are chosen within it.
fn solution_of(
    alloc: Global,
    formula: &Formula,
    base: &Base,
    guess: &[bool],
    pivots: u64,
) -> Result<Option<Solution>, AllocError>
    requires { IsBase base.now formula.now }
    ensures { IfOk result (λ found. IfSome found (Solves (base_in base.now formula.now))) }
{
    let model = assignment_of(alloc, guess, base.vars)?;
    if meets_clauses(formula, base.clauses, &model) {
        let chosen = choose(alloc, formula, base, &model)?;
        valued(alloc, formula, base, chosen, pivots)
    } else {
        Ok(None)
    }
}

/// A truth value for each of so many variables: that of the guess, and false past its end.
fn assignment_of(alloc: Global, guess: &[bool], vars: usize) -> Result<Vec<bool>, AllocError>
    ensures { IfOk result (λ assignment. length assignment.items ≡ vars) }
{
    let mut assignment = Vec::new(alloc);
    for var in 0..vars {
        assignment.push(is_true(guess, var))?;
    }
    Ok(assignment)
}

/// The assignment with values for the rows of the atoms that it makes true, where they are found.
fn valued(
    alloc: Global,
    formula: &Formula,
    base: &Base,
    assignment: Vec<bool>,
    pivots: u64,
) -> Result<Option<Solution>, AllocError>
    requires base { IsBase base.now formula.now }
    requires size { length assignment.items ≡ base.now.vars }
    requires met { All (MeetsClause (truth_in assignment.items))
        (base_in base.now formula.now).clauses }
    ensures { IfOk result (λ found. IfSome found (Solves (base_in base.now formula.now))) }
{
    match values_of(alloc, formula, base, &assignment, pivots)? {
        Some(values) => Ok(Some(Solution { values, assignment })),
        None => Ok(None),
    }
}

/// Values for the rows of the atoms that an assignment makes true, where they are found.
fn values_of(
    alloc: Global,
    formula: &Formula,
    base: &Base,
    assignment: &[bool],
    pivots: u64,
) -> Result<Option<Vec<Frac>>, AllocError>
    requires base { IsBase base.now formula.now }
    requires size { length assignment.now ≡ base.now.vars }
    requires met { All (MeetsClause (truth_in assignment.now))
        (base_in base.now formula.now).clauses }
    ensures { IfOk result (λ found. IfSome found
        (λ values. IsSolution (base_in base.now formula.now) values.items assignment.now)) }
{
    let mut tableau = tableau_of(alloc, formula, base)?;
    bind(&mut tableau, base.atoms(), assignment);
    bound_values(alloc, &mut tableau, pivots)
}

/// Values for the rows that are bound, where they are found.
fn bound_values(
    alloc: Global,
    tableau: &mut Tableau,
    pivots: u64,
) -> Result<Option<Vec<Frac>>, AllocError>
    ensures { IfOk result (λ found. IfSome found (λ values. MeetsBoundRows tableau.old values.items)) }
{
    match tableau.check(alloc, pivots)? {
        Check::Sat(values) => Ok(Some(values)),
        Check::Unsat(_) | Check::Pivots(_) | Check::Wide(_) => Ok(None),
    }
}
