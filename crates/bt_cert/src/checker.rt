//! The judging of steps, one after another.
ghost use Rattle.std.specs.Prelude.{◌≡◌, length, map, IfOk, IsTrue, ◌↔◌};
ghost use Rattle.std.specs.List.{All};
ghost use Rattle.bt_cnf.specs.Formulas.{IsFormula};
ghost use Rattle.bt_frac.specs.Ratio.{IsLowest};
ghost use Rattle.bt_cert.specs.inner.Checking.{JudgesStep, start_of};
ghost use Rattle.bt_cert.specs.StepLines.{Lemma, Learnt};
ghost use Rattle.bt_cert.specs.inner.Reading.{AreRead};

use crate::assumptions::Assumptions;
use crate::clause_database::ClauseDatabase;
use crate::fault::{Cause, StepFault};
use crate::learnt::judge_learnt;
use crate::lemma::{LemmaRoom, judge_lemma};
use crate::step_line::StepLine;
use crate::written::WrittenView;
use bt_cnf::{Formula, Lit};
use bt_extend::{WrittenLit, place_of};
use bt_frac::Frac;
use std::alloc::{AllocError, Global};
use std::marker::Model;

/// A formula, and the clauses of the steps so far, of which the next step may make use.
///
/// Of a step only its clause is kept. What is judged in between lies in room that serves each step anew.
#[derive(Drop)]
pub struct Checker<'a> {
    known: ClauseDatabase<'a>,
    /// Nothing, between two steps.
    assumed: Assumptions,
    /// The literals of the step.
    lits: Vec<Lit>,
    room: LemmaRoom,
}

impl<'a> Model for Checker<'a> {
    ghost use Rattle.bt_cert.specs.inner.Checking.{Checking};
    ghost use Rattle.bt_cert.specs.inner.Reading.{AssumesNothing};

    ghost Value = { Checking };

    ghost view = { λ c. c.known };

    ghost invariant = { λ c. AssumesNothing c.known.formula.vars c.assumed };
}

impl<'a> Checker<'a> {
    /// A checker before the first step.
    pub fn new(alloc: Global, formula: &'a Formula) -> Result<Checker<'a>, AllocError>
        ensures start { IfOk result (λ checker. checker ≡ start_of formula.now) }
        ensures known { IfOk result (λ _. IsFormula formula.now) }
    {
        let assumed = Assumptions::new(alloc, formula.vars())?;
        Ok(Checker {
            known: ClauseDatabase::new(alloc, formula)?,
            assumed,
            lits: Vec::new(alloc),
            room: LemmaRoom::new(alloc),
        })
    }

    /// Judges a step, keeps its clause where it is valid, and tells whether that is empty. The cost is
    /// that of the step's own lists, of the hinted clauses and of sorting the terms of a lemma's rows.
    pub fn judge(&mut self, step: &StepLine) -> Result<bool, StepFault>
        ensures { JudgesStep self.old step.now self.new result }
    {
        match step.view() {
            WrittenView::Lemma { lits, weights } => self.judge_lemma(lits, weights),
            WrittenView::Learnt { lits, hints } => self.judge_learnt(lits, hints),
        }
    }

    /// Judges a lemma, keeps its clause where it is valid, and tells whether that is empty.
    fn judge_lemma(&mut self, lits: &[WrittenLit], weights: &[Frac]) -> Result<bool, StepFault>
        requires { All IsLowest weights.now }
        ensures { JudgesStep self.old (Lemma lits.now weights.now) self.new result }
    {
        let formula = self.known.formula();
        if !read_lits(formula, lits, &mut self.lits)? {
            return Err(StepFault::Fails(Cause::Literal));
        }
        if let Err(fault) = judge_lemma(formula, &self.lits, weights, &mut self.room) {
            return Err(fault);
        }
        Ok(self.known.add(&self.lits)?)
    }

    /// Judges a learnt clause, keeps it where it is valid, and tells whether it is empty.
    fn judge_learnt(&mut self, lits: &[WrittenLit], hints: &[u64]) -> Result<bool, StepFault>
        ensures { JudgesStep self.old (Learnt lits.now hints.now) self.new result }
    {
        if !read_lits(self.known.formula(), lits, &mut self.lits)? {
            return Err(StepFault::Fails(Cause::Literal));
        }
        let judged = judge_learnt(&self.known, &self.lits, hints, &mut self.assumed);
        self.assumed.clear();
        if let Err(fault) = judged {
            return Err(fault);
        }
        Ok(self.known.add(&self.lits)?)
    }
}

/// Puts the literals of a formula that are written into `lits`, and tells whether the formula has the variable of each.
/// Where it lacks one, those before it are put there.
pub fn read_lits(
    formula: &Formula,
    written: &[WrittenLit],
    lits: &mut Vec<Lit>,
) -> Result<bool, AllocError>
    ensures { IfOk result (AreRead formula.now.vars written.now lits.new.items) }
{
    lits.clear();
    for lit in written {
        let Some(var) = formula.var_at(place_of(lit.number)) else {
            return Ok(false);
        };
        lits.push(Lit {
            var,
            positive: lit.positive,
        })?;
    }
    Ok(true)
}
