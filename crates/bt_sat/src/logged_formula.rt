//! The clauses that are known: those of the formula, and those of the log.
ghost use Rattle.std.specs.Prelude.{◌≡◌, ◌<◌, length, IfOk};
ghost use Rattle.bt_log.specs.Logs.{clause_of};
ghost use Rattle.bt_log.specs.Views.{step_of};
ghost use Rattle.bt_cnf.specs.Units.{clause_at};
ghost use Rattle.bt_sat.specs.inner.KnownLits.{lits_in};
ghost use Rattle.bt_sat.specs.inner.LoggedFormula.{clauses_in};
ghost use Rattle.bt_watch.specs.Reasons.{lit_at};

use bt_cnf::{Formula, Lit, Packed};
use bt_log::{Log, StepView};
use std::alloc::AllocError;

/// A formula, and the log of the steps that follow it.
#[derive(Drop)]
pub struct LoggedFormula {
    pub formula: Formula,
    pub log: Log,
}

/// The literals of a clause that is known, as the formula has them, or as the log keeps those of a step.
#[derive(Clone, Copy)]
pub enum KnownLits<'a> {
    Given(&'a [Lit]),
    Logged(&'a [Packed]),
}

impl KnownLits<'_> {
    /// How many literals the clause has.
    pub fn len(&self) -> usize
        ensures { result ≡ length (lits_in self.now) }
    {
        match self {
            KnownLits::Given(lits) => lits.len(),
            KnownLits::Logged(lits) => lits.len(),
        }
    }

    /// The number of the variable of the literal at a place.
    pub fn variable(&self, place: usize) -> usize
        requires { place < length (lits_in self.now) }
        ensures { result ≡ (lit_at (lits_in self.now) place).var }
    {
        // Each list has a name of its own, since no bound of an index is found behind two references.
        match self {
            KnownLits::Given(lits) => {
                let lits: &[Lit] = lits;
                lits[place].var.place()
            }
            KnownLits::Logged(lits) => {
                let lits: &[Packed] = lits;
                lits[place].place()
            }
        }
    }
}

impl LoggedFormula {
    /// The number of the clause that comes next. Memory counts as run out where it is 2^64 or more.
    pub fn next(&self) -> Result<usize, AllocError>
        ensures { IfOk result (λ number. number ≡ length (clauses_in self.now)) }
    {
        match self.formula.clauses().checked_add(self.log.len()) {
            Some(number) => Ok(number),
            None => Err(AllocError),
        }
    }

    /// The clause with a number, from 0, where there is one.
    pub fn find(&self, number: usize) -> Option<KnownLits<'_>> {
        match self.next() {
            Ok(end) if number < end => Some(self.clause(number)),
            _ => None,
        }
    }

    /// The clause with a number, from 0: those of the formula come first, then those of the steps.
    pub fn clause(&self, number: usize) -> KnownLits<'_>
        requires { number < length (clauses_in self.now) }
        ensures { lits_in result ≡ clause_at (clauses_in self.now) number }
    {
        match self.formula.clause_at(number) {
            Some(id) => KnownLits::Given(self.formula.clause(id)),
            None => KnownLits::Logged(step_lits(self.log.step(number - self.formula.clauses()))),
        }
    }
}

/// The clause that a step adds.
fn step_lits<'a>(step: StepView<'a>) -> &'a [Packed]
    ensures { result.now ≡ clause_of (step_of step.entry) }
{
    match step {
        StepView::Lemma { lits, .. } => lits,
        StepView::Learnt { lits, .. } => lits,
    }
}
