//! What a search holds beside its choosers.
ghost use Rattle.std.specs.Prelude.{◌≡◌, map, IfOk, OnErr};
ghost use Rattle.bt_sat.specs.Answering.{Assumes, GivesNext, IsAdded, MayAnswer};
ghost use Rattle.bt_sat.specs.Solving.{begun, log_of, IsLemmaOf, LacksMemory};
ghost use Rattle.bt_sat.specs.inner.Kernels.{MayGoOn, stage_after, stage_assumed};

use crate::answer::{Added, Answer, Assumed};
use crate::loading::load;
use crate::progress::Progress;
use crate::turns::{add, answer, supposed};
use bt_choosers::Plan;
use bt_cnf::{Chooser, Formula, Lit};
use bt_frac::Frac;
use bt_log::Log;
use std::alloc::{AllocError, Global};
use std::marker::Model;

/// How far a search has come.
#[derive(Clone, Copy)]
pub enum Stage {
    /// It goes on.
    Running,
    /// All variables have a value, which is the model that was answered.
    Complete,
    /// The log refutes the formula.
    Refuted,
    /// The log has no room for one more step.
    Spent,
    /// Memory ran out.
    Lost,
}

/// A search, without its choosers.
#[derive(Drop)]
pub struct Kernel {
    progress: Progress,
    stage: Stage,
}

impl Model for Kernel {
    ghost use Rattle.bt_sat.specs.Solving.{SolverParts};

    ghost Value = { SolverParts };

    ghost use Rattle.bt_sat.specs.inner.Kernels.{IsSound, parts_of};

    ghost view = { λ k. parts_of k.progress k.stage };

    ghost invariant = { λ k. IsSound k.progress k.stage };
}

/// The stage to which an answer leads.
fn stage_of(answer: &Answer) -> Stage
    ensures { result ≡ stage_after answer.now }
{
    match answer {
        Answer::Model(_) => Stage::Complete,
        Answer::Refuted => Stage::Refuted,
        Answer::Spent => Stage::Spent,
    }
}

/// The stage to which making literals false leads.
fn stage_supposed(assumed: &Assumed) -> Stage
    ensures { result ≡ stage_assumed assumed.now }
{
    match assumed {
        Assumed::Open(_) | Assumed::Follows => Stage::Running,
        Assumed::Refuted => Stage::Refuted,
        Assumed::Spent => Stage::Spent,
    }
}

impl Kernel {
    /// A search by a plan that begins, with an empty log, which may have at most `limit` steps.
    pub fn new(
        alloc: Global,
        formula: Formula,
        limit: u64,
        plan: Plan,
    ) -> Result<Kernel, AllocError>
        ensures { IfOk result (λ k. k ≡ begun formula limit) }
    {
        Ok(Kernel {
            progress: load(alloc, formula, limit, plan)?,
            stage: Stage::Running,
        })
    }

    /// Searches on for the next model. Where memory runs out, the search is lost.
    fn go_on<C: Chooser>(&mut self, choosers: &mut Vec<C>) -> Result<Answer, AllocError>
        requires { MayGoOn self.old.status }
        ensures given { IfOk result (GivesNext self.old (map C.told_clauses choosers.old.items)
            self.new (map C.told_clauses choosers.new.items)) }
        ensures memory { OnErr result (self.new.status ≡ LacksMemory) }
    {
        match answer(&mut self.progress, choosers) {
            Ok(answer) => {
                self.stage = stage_of(&answer);
                Ok(answer)
            }
            Err(error) => {
                self.stage = Stage::Lost;
                Err(error)
            }
        }
    }

    /// Searches for the next model. Where the search has come to its end, it answers that again.
    pub fn next_model<C: Chooser>(&mut self, choosers: &mut Vec<C>) -> Result<Answer, AllocError>
        ensures given { IfOk result (GivesNext self.old (map C.told_clauses choosers.old.items)
            self.new (map C.told_clauses choosers.new.items)) }
        ensures may { MayAnswer self.old result }
        ensures memory { OnErr result (self.new.status ≡ LacksMemory) }
    {
        match self.stage {
            Stage::Running | Stage::Complete => self.go_on(choosers),
            Stage::Refuted => Ok(Answer::Refuted),
            Stage::Spent => Ok(Answer::Spent),
            Stage::Lost => Err(AllocError),
        }
    }

    /// Makes literals false in turn, where the search may go on. Where memory runs out, the search is lost.
    fn suppose<C: Chooser>(
        &mut self,
        choosers: &mut Vec<C>,
        lits: &[Lit],
    ) -> Result<Assumed, AllocError>
        requires { MayGoOn self.old.status }
        ensures given { IfOk result (Assumes self.old (map C.told_clauses choosers.old.items)
            self.new (map C.told_clauses choosers.new.items)) }
        ensures memory { OnErr result (self.new.status ≡ LacksMemory) }
    {
        match supposed(&mut self.progress, choosers, lits) {
            Ok(assumed) => {
                self.stage = stage_supposed(&assumed);
                Ok(assumed)
            }
            Err(error) => {
                self.stage = Stage::Lost;
                Err(error)
            }
        }
    }

    /// Makes literals false in turn. Where the search has come to its end, it answers that again.
    pub fn assume<C: Chooser>(
        &mut self,
        choosers: &mut Vec<C>,
        lits: &[Lit],
    ) -> Result<Assumed, AllocError>
        ensures given { IfOk result (Assumes self.old (map C.told_clauses choosers.old.items)
            self.new (map C.told_clauses choosers.new.items)) }
        ensures may { MayAnswer self.old result }
        ensures memory { OnErr result (self.new.status ≡ LacksMemory) }
    {
        match self.stage {
            Stage::Running | Stage::Complete => self.suppose(choosers, lits),
            Stage::Refuted => Ok(Assumed::Refuted),
            Stage::Spent => Ok(Assumed::Spent),
            Stage::Lost => Err(AllocError),
        }
    }

    /// Adds a lemma, with a weight for each literal, where the log has room for a step.
    pub fn add_lemma<C: Chooser>(
        &mut self,
        choosers: &mut Vec<C>,
        lits: &[Lit],
        weights: &[Frac],
    ) -> Result<Added, AllocError>
        requires { IsLemmaOf self.old lits.now weights.now }
        ensures { IsAdded self.old (map C.told_clauses choosers.old.items) lits.now weights.now
            self.new (map C.told_clauses choosers.new.items) result }
    {
        if self.progress.known.log.len() as u64 == self.progress.limit {
            return Ok(Added::Spent);
        }
        match add(&mut self.progress, choosers, lits, weights) {
            Ok(()) => {
                self.stage = Stage::Running;
                Ok(Added::Kept)
            }
            Err(error) => {
                self.stage = Stage::Lost;
                Err(error)
            }
        }
    }

    /// The steps so far.
    pub fn log(&self) -> &Log
        ensures { result.now ≡ log_of self.now }
    {
        &self.progress.known.log
    }

    /// The formula.
    pub fn formula(&self) -> &Formula
        ensures { result.now ≡ self.now.formula }
    {
        &self.progress.known.formula
    }

    /// Gives the steps so far.
    pub fn into_log(self) -> Log
        ensures { result ≡ log_of self }
    {
        self.progress.known.log
    }
}
