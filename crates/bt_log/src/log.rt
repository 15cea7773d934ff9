//! Logs, whose lists lie in pools.
ghost use Rattle.std.specs.Prelude.{◌≡◌, ◌<◌, length, slice_get, Some, IfOk, []};
ghost use Rattle.bt_io.specs.Bytes.{WritesText};
ghost use Rattle.bt_io.specs.Passages.{passage};
ghost use Rattle.bt_log.specs.LogText.{log_text};
ghost use Rattle.bt_log.specs.Logs.{Lemma, Learnt, AddsStep};
ghost use Rattle.bt_log.specs.Views.{step_of};
ghost use Rattle.bt_log.specs.inner.Keeping.{Grows, IsAt};

use crate::pooled_step::{Hints, Literals, PooledStep, Weights};
use crate::printing::print_step;
use crate::step::StepView;
use bt_arena::{Id, Pool};
use bt_cnf::{Lit, Packed, pack_all};
use bt_frac::Frac;
use bt_io::{Sink, WriteFault, write_all_of};
use std::alloc::{AllocError, Global};
use std::marker::Model;

/// Steps, each of which adds a clause. The formula's clauses have the numbers below `first`, and those
/// of the steps follow. A literal and a hint take four bytes each; a variable's number from 2^31 on, and a hint from
/// 2^32 on, is want of memory.
#[derive(Drop)]
pub struct Log {
    first: usize,
    steps: Vec<PooledStep>,
    lits: Pool<Packed, Literals>,
    weights: Pool<Frac, Weights>,
    hints: Pool<u32, Hints>,
}

impl Model for Log {
    ghost use Rattle.bt_log.specs.Logs.{LogParts};
    ghost use Rattle.bt_log.specs.inner.Keeping.{kept_steps, AreKept};

    ghost Value = { LogParts };

    ghost view = { λ l. record {
      first = l.first;
      steps = kept_steps l.lits l.weights l.hints l.steps.items;
    } };

    ghost invariant = { λ l. AreKept l.lits l.weights l.hints l.steps.items };
}

impl Log {
    /// A log without steps over a formula of so many clauses.
    pub fn new(alloc: Global, first: usize) -> Result<Log, AllocError>
        ensures { IfOk result (λ l. l ≡ record { first = first; steps = [] }) }
    {
        Ok(Log {
            first,
            steps: Vec::new(alloc),
            lits: Pool::new(alloc)?,
            weights: Pool::new(alloc)?,
            hints: Pool::new(alloc)?,
        })
    }

    /// The number of clauses before the first step.
    pub fn first(&self) -> usize
        ensures { result ≡ self.now.first }
    {
        self.first
    }

    /// Appends a lemma: a clause, and a weight for each of its literals.
    pub fn add_lemma(&mut self, lits: &[Lit], weights: &[Frac]) -> Result<(), AllocError>
        ensures { AddsStep self.old (Lemma lits.now weights.now) self.new result }
    {
        let packed = pack_all(self.steps.allocator().clone()?, lits)?;
        self.add_packed_lemma(&packed, weights)
    }

    /// Appends a learnt clause, and the numbers of the clauses from which it follows.
    pub fn add_learnt(&mut self, lits: &[Lit], hints: &[usize]) -> Result<(), AllocError>
        ensures { AddsStep self.old (Learnt lits.now hints.now) self.new result }
    {
        let packed = pack_all(self.steps.allocator().clone()?, lits)?;
        let narrow = narrow_all(self.steps.allocator().clone()?, hints)?;
        self.add_packed_learnt(&packed, &narrow)
    }

    /// Appends a lemma whose literals are packed, as those of another log's step are.
    pub fn add_packed_lemma(&mut self, lits: &[Packed], weights: &[Frac]) -> Result<(), AllocError>
        ensures { AddsStep self.old (Lemma lits.now weights.now) self.new result }
    {
        let ids = keep_both(&mut self.lits, &mut self.weights, lits, weights)?;
        self.steps.push(PooledStep::Lemma {
            lits: ids.0,
            weights: ids.1,
        })?;
        Ok(())
    }

    /// Appends a learnt clause whose literals and hints are packed, as those of another log's step are.
    pub fn add_packed_learnt(&mut self, lits: &[Packed], hints: &[u32]) -> Result<(), AllocError>
        ensures { AddsStep self.old (Learnt lits.now hints.now) self.new result }
    {
        let ids = keep_both(&mut self.lits, &mut self.hints, lits, hints)?;
        self.steps.push(PooledStep::Learnt {
            lits: ids.0,
            hints: ids.1,
        })?;
        Ok(())
    }

    /// The number of steps.
    pub fn len(&self) -> usize
        ensures { result ≡ length self.now.steps }
    {
        self.steps.len()
    }

    /// The step at a place, from 0.
    pub fn step(&self, n: usize) -> StepView<'_>
        requires { n < length self.now.steps }
        ensures { slice_get self.now.steps n ≡ Some (step_of result) }
    {
        match self.steps[n] {
            PooledStep::Lemma { lits, weights } => StepView::Lemma {
                lits: self.lits.slice(lits),
                weights: self.weights.slice(weights),
            },
            PooledStep::Learnt { lits, hints } => StepView::Learnt {
                lits: self.lits.slice(lits),
                hints: self.hints.slice(hints),
            },
        }
    }
}

impl Log {
    /// Writes the one text of the log: a line for each step, and `end`.
    ///
    /// Where the sink fails, which its count of faults shows, a proper prefix of the text was written.
    pub fn print<K: Sink>(&self, sink: &mut K) -> Result<(), WriteFault>
        ensures { WritesText (passage K.held K.faults sink.old sink.new) (log_text self.now.steps) result }
    {
        for n in 0..self.len() {
            print_step(self.step(n), sink)?;
        }
        write_all_of(sink, b"end\n")
    }
}

/// Keeps the lists of a step. Where memory runs out, the pools may hold a list that no step names.
fn keep_both<T: Copy, K>(
    all_lits: &mut Pool<Packed, Literals>,
    all_items: &mut Pool<T, K>,
    lits: &[Packed],
    items: &[T],
) -> Result<(Id<Literals>, Id<K>), AllocError>
    ensures lits_grow { Grows all_lits.old all_lits.new }
    ensures items_grow { Grows all_items.old all_items.new }
    ensures kept { IfOk result
        (λ ids. IsAt all_lits.new lits.now ids.0 × IsAt all_items.new items.now ids.1) }
{
    let lits = all_lits.add_slice(lits)?;
    let items = all_items.add_slice(items)?;
    Ok((lits, items))
}

/// The same numbers in four bytes each. Memory counts as run out where one is 2^32 or more.
fn narrow_all(alloc: Global, numbers: &[usize]) -> Result<Vec<u32>, AllocError>
    ensures { IfOk result (λ narrow. narrow.items ≡ numbers.now) }
{
    let mut narrow = Vec::with_capacity(alloc, numbers.len())?;
    for number in numbers {
        narrow.push(narrowed(*number)?)?;
    }
    Ok(narrow)
}

/// The same number in four bytes. Memory counts as run out where it is 2^32 or more.
fn narrowed(number: usize) -> Result<u32, AllocError>
    ensures { IfOk result (λ narrow. narrow ≡ number) }
{
    match u32::try_from(number) {
        Ok(narrow) => Ok(narrow),
        Err(_) => Err(AllocError),
    }
}
