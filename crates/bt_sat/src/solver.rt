//! A search for models that learns clauses.
ghost use Rattle.std.specs.Prelude.{◌≡◌, map, IfOk, OnErr};
ghost use Rattle.bt_sat.specs.Answering.{Assumes, GivesNext, IsAdded, MayAnswer};
ghost use Rattle.bt_sat.specs.Solving.{begun, log_of, IsLemmaOf, LacksMemory};

use crate::answer::{Added, Answer, Assumed};
use crate::kernel::Kernel;
use bt_choosers::Plan;
use bt_cnf::{Chooser, Formula, Lit};
use bt_frac::Frac;
use bt_log::Log;
use std::alloc::{AllocError, Global};

/// A search for models of a formula, whose log may have a limited number of steps, and which is steered by
/// choosers: each in turn for an epoch of 128 steps of the log, of which it is told, and the last one for all that
/// follow. The choosers are of one type, which may be `Box<dyn Chooser>`.
#[derive(Drop)]
pub struct Solver<C> {
    kernel: Kernel,
    choosers: Vec<C>,
}

impl<C: Chooser> Solver<C> {
    /// A search that begins, with an empty log. Without choosers the lowest unset variable is set to false.
    pub fn new(
        alloc: Global,
        formula: Formula,
        choosers: Vec<C>,
        limit: u64,
    ) -> Result<Solver<C>, AllocError>
        ensures kernel { IfOk result (λ s. s.kernel ≡ begun formula limit) }
        ensures choosers { IfOk result
            (λ s. map C.told_clauses s.choosers.items ≡ map C.told_clauses choosers.items) }
    {
        Solver::by_plan(alloc, formula, choosers, limit, Plan::new(alloc, 0))
    }

    /// A search that begins, with an empty log. Where a choice is due, the plan makes it where it can, and the choosers
    /// are asked else. What is answered is right by any plan.
    pub fn by_plan(
        alloc: Global,
        formula: Formula,
        choosers: Vec<C>,
        limit: u64,
        plan: Plan,
    ) -> Result<Solver<C>, AllocError>
        ensures kernel { IfOk result (λ s. s.kernel ≡ begun formula limit) }
        ensures choosers { IfOk result
            (λ s. map C.told_clauses s.choosers.items ≡ map C.told_clauses choosers.items) }
    {
        Ok(Solver {
            kernel: Kernel::new(alloc, formula, limit, plan)?,
            choosers,
        })
    }

    /// Searches for a model, and learns clauses. After `Refuted` and `Spent` each later call answers the
    /// same. After want of memory, here or in `add_lemma`, each later call lacks memory.
    pub fn next_model(&mut self) -> Result<Answer, AllocError>
        ensures given { IfOk result (GivesNext self.old.kernel (map C.told_clauses self.old.choosers.items)
            self.new.kernel (map C.told_clauses self.new.choosers.items)) }
        ensures may { MayAnswer self.old.kernel result }
        ensures memory { OnErr result (self.new.kernel.status ≡ LacksMemory) }
    {
        self.kernel.next_model(&mut self.choosers)
    }

    /// Makes literals false in turn, from what is true before the first decision on, and learns clauses from conflicts, until
    /// there is none. Literals of variables that the formula doesn't have are passed over. A model that is asked for next
    /// is looked for from there on. After `Refuted` and `Spent`, and after want of memory, each later call answers the
    /// same.
    pub fn assume(&mut self, lits: &[Lit]) -> Result<Assumed, AllocError>
        ensures given { IfOk result (Assumes self.old.kernel (map C.told_clauses self.old.choosers.items)
            self.new.kernel (map C.told_clauses self.new.choosers.items)) }
        ensures may { MayAnswer self.old.kernel result }
        ensures memory { OnErr result (self.new.kernel.status ≡ LacksMemory) }
    {
        self.kernel.assume(&mut self.choosers, lits)
    }

    /// Adds a lemma: a clause whose literals are all false under the model that was answered last.
    pub fn add_lemma(&mut self, lits: &[Lit], weights: &[Frac]) -> Result<Added, AllocError>
        requires { IsLemmaOf self.old.kernel lits.now weights.now }
        ensures { IsAdded self.old.kernel (map C.told_clauses self.old.choosers.items) lits.now weights.now
            self.new.kernel (map C.told_clauses self.new.choosers.items) result }
    {
        self.kernel.add_lemma(&mut self.choosers, lits, weights)
    }

    /// The steps so far.
    pub fn log(&self) -> &Log
        ensures { result.now ≡ log_of self.now.kernel }
    {
        self.kernel.log()
    }

    /// The formula.
    pub fn formula(&self) -> &Formula
        ensures { result.now ≡ self.now.kernel.formula }
    {
        self.kernel.formula()
    }

    /// Gives the steps so far, and drops the rest.
    pub fn into_log(self) -> Log
        ensures { result ≡ log_of self.kernel }
    {
        self.kernel.into_log()
    }
}
