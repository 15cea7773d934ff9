//! The clauses that are known before a step: those of the formula, and those of the steps so far.
ghost use Rattle.std.specs.Prelude.{◌≡◌, ◌≤◌, length, IfOk, IfSome, IfNone, OnErr};
ghost use Rattle.bt_cnf.specs.Formulas.{IsFormula, LitsBelow};
ghost use Rattle.bt_cert.specs.inner.Checking.{start_of};
ghost use Rattle.bt_cert.specs.inner.Knowing.{AddsClause, IsClauseAt};
ghost use Rattle.bt_cert.specs.inner.Refuting.{IsSound};

use bt_arena::Pool;
use bt_cnf::{Formula, Lit};
use std::alloc::{AllocError, Global};
use std::marker::Model;

/// The kind of the clauses that steps added.
pub struct Added;

/// A formula, and the clauses that steps added.
#[derive(Drop)]
pub struct ClauseDatabase<'a> {
    formula: &'a Formula,
    added: Pool<Lit, Added>,
}

impl<'a> Model for ClauseDatabase<'a> {
    ghost use Rattle.bt_cert.specs.inner.Checking.{Checking};
    ghost use Rattle.bt_cert.specs.inner.Knowing.{known_of, IsKnown};

    ghost Value = { Checking };

    ghost view = { λ k. known_of k.formula.now k.added };

    ghost invariant = { λ k. IsKnown k.formula.now k.added };
}

impl<'a> ClauseDatabase<'a> {
    /// The clauses of a formula.
    pub fn new(alloc: Global, formula: &'a Formula) -> Result<ClauseDatabase<'a>, AllocError>
        requires { IsFormula formula.now }
        ensures { IfOk result (λ known. known ≡ start_of formula.now) }
    {
        Ok(ClauseDatabase {
            formula,
            added: Pool::new(alloc)?,
        })
    }

    /// The formula.
    pub fn formula(&self) -> &'a Formula
        ensures value { result.now ≡ self.now.formula }
        ensures sound { IsSound self.now }
    {
        self.formula
    }

    /// The clause at a place, from 0, where there is one: those of the formula come first, then those of the steps.
    pub fn get(&self, place: usize) -> Option<&[Lit]>
        ensures some { IfSome result (λ clause. IsClauseAt self.now place clause.now) }
        ensures none { IfNone result (length self.now.clauses ≤ place) }
    {
        match self.formula.clause_at(place) {
            Some(id) => Some(self.formula.clause(id)),
            None => {
                let Some(id) = self.added.id_at(place - self.formula.clauses()) else {
                    return None;
                };
                Some(self.added.slice(id))
            }
        }
    }

    /// Adds the clause of a step, and tells whether it is empty.
    pub fn add(&mut self, lits: &[Lit]) -> Result<bool, AllocError>
        requires { LitsBelow self.old.formula.vars lits.now }
        ensures added { IfOk result (AddsClause self.old lits.now self.new) }
        ensures same { OnErr result (self.new ≡ self.old) }
    {
        self.added.add_slice(lits)?;
        Ok(lits.is_empty())
    }
}
