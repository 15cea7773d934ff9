//! Choosing, within a model, an assignment with few atoms that still gives every clause a true literal.
//!
//! Each true atom is one more row that the tableau has to meet, so the atoms start as false, and one is
//! chosen only where a clause has no other true literal.
ghost use Rattle.std.specs.Prelude.{◌≡◌, ◌↔◌, ◌<◌, ◌≤◌, true, IsTrue, length, take, IfOk};
ghost use Rattle.std.specs.List.{All};
ghost use Rattle.bt_cnf.specs.Assignments.{truth_in};
ghost use Rattle.bt_cnf.specs.Meeting.{IsTrueUnder, MeetsClause};
ghost use Rattle.bt_theory.specs.inner.Bases.{IsBase, base_in};
ghost use Rattle.bt_theory.specs.inner.Choosing.{IsWithin, StaysTrue, HasSettled, Settles, IsChosen};

use crate::base::Base;
use bt_cnf::{Formula, Lit, Var, is_true};
use std::alloc::{AllocError, Global};

/// Whether a literal is true in a model.
fn holds(lit: Lit, model: &[bool]) -> bool
    ensures { IsTrue result ↔ IsTrueUnder (truth_in model.now) lit }
{
    is_true(model, lit.var.place()) == lit.positive
}

/// Whether a literal that is true in a model stays so however more of the model is chosen.
fn is_settled(lit: Lit, chosen: &[bool]) -> bool
    ensures { IsTrue result ↔ StaysTrue chosen.now lit }
{
    !lit.positive || is_true(chosen, lit.var.place())
}

/// The variable to choose for a clause: that of the last literal which is true in the model. None where a literal is
/// settled already, or none is true in the model.
fn choice(lits: &[Lit], model: &[bool], chosen: &[bool]) -> Option<usize>
    requires { MeetsClause (truth_in model.now) lits.now }
    ensures { Settles model.now chosen.now lits.now result }
{
    let mut last = None;
    for lit in lits {
        if holds(*lit, model) {
            if is_settled(*lit, chosen) {
                return None;
            }
            last = Some(lit.var.place());
        }
    }
    last
}

/// Makes the atoms false.
fn clear(chosen: &mut [bool], atoms: &[Var])
    ensures size { length chosen.new ≡ length chosen.old }
    ensures within { IsWithin chosen.old chosen.new }
{
    for var in atoms {
        let place = var.place();
        if place < chosen.len() {
            chosen[place] = false;
        }
    }
}

/// The model's values of the variables that are no atoms, and false for the atoms.
fn without_atoms(alloc: Global, atoms: &[Var], model: &[bool]) -> Result<Vec<bool>, AllocError>
    ensures size { IfOk result (λ chosen. length chosen.items ≡ length model.now) }
    ensures within { IfOk result (λ chosen. IsWithin model.now chosen.items) }
{
    let mut chosen = Vec::from_slice(alloc, model)?;
    clear(&mut chosen, atoms);
    Ok(chosen)
}

/// Chooses an atom of the model for a clause, where no literal of the clause is settled yet.
fn settle(lits: &[Lit], model: &[bool], chosen: &mut [bool])
    requires met { MeetsClause (truth_in model.now) lits.now }
    requires size { length chosen.old ≡ length model.now }
    requires within { IsWithin model.now chosen.old }
    ensures within { IsWithin model.now chosen.new }
    ensures grows { IsWithin chosen.new chosen.old }
    ensures settled { HasSettled model.now chosen.new lits.now }
{
    if let Some(var) = choice(lits, model, chosen) {
        chosen[var] = true;
    }
}

/// Whether an assignment gives a clause a true literal.
fn is_met(lits: &[Lit], assignment: &[bool]) -> bool
    ensures { IsTrue result → MeetsClause (truth_in assignment.now) lits.now }
{
    for lit in lits {
        if holds(*lit, assignment) {
            return true;
        }
    }
    false
}

/// Whether an assignment gives each of the first so many clauses of the formula a true literal.
pub fn meets_clauses(formula: &Formula, clauses: usize, assignment: &[bool]) -> bool
    requires { clauses ≤ length formula.now.clauses }
    ensures { IsTrue result
        → All (MeetsClause (truth_in assignment.now)) (take clauses formula.now.clauses) }
{
    for place in 0..clauses {
        let Some(id) = formula.clause_at(place) else {
            unreachable!()
        };
        if !is_met(formula.clause(id), assignment) {
            return false;
        }
    }
    true
}

/// An assignment within a model that gives each clause before the definitions a true literal: what isn't among the
/// atoms is as in the model, and of the atoms those are true that some clause needs.
pub fn choose(
    alloc: Global,
    formula: &Formula,
    base: &Base,
    model: &[bool],
) -> Result<Vec<bool>, AllocError>
    requires base { IsBase base.now formula.now }
    requires met { All (MeetsClause (truth_in model.now)) (base_in base.now formula.now).clauses }
    ensures { IfOk result
        (λ chosen. IsChosen model.now chosen.items (base_in base.now formula.now).clauses) }
{
    let mut chosen = without_atoms(alloc, base.atoms(), model)?;
    for place in 0..base.clauses {
        let Some(id) = formula.clause_at(place) else {
            unreachable!()
        };
        settle(formula.clause(id), model, &mut chosen);
    }
    Ok(chosen)
}
