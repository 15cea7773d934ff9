//! A log with the steps alone that its last one needs.
ghost use Rattle.std.specs.Prelude.{◌≡◌, ◌<◌, ◌+◌, ◌≤◌, Contains, IfOk, OnOk, Ok, [], length, ℕ};
ghost use Rattle.std.specs.List.{AllZip};
ghost use Rattle.bt_log.specs.Views.{step_of};
ghost use Rattle.bt_log.specs.Trimming.{hints_of, IsLeft, IsRenamed, IsTrimmed};
ghost use Rattle.bt_log.specs.inner.Needed.{AddsAgain, IsKept, IsNumbered};

use crate::log::Log;
use crate::needed::{Kept, kept_of};
use crate::step::StepView;
use std::alloc::{AllocError, Global};

/// The steps that the last one needs: it itself, and each that a needed learnt clause names by a hint. They keep
/// their order, their clauses and the weights of their lemmas, and hints name them by their new numbers.
///
/// It takes time by the length of the log. Nothing is asked of the log: a hint of no clause before its step stays.
pub fn trimmed(alloc: Global, log: &Log) -> Result<Log, AllocError>
    ensures { IfOk result (IsTrimmed log.now) }
{
    let kept = kept_of(alloc, log)?;
    let mut left = Log::new(alloc, log.first())?;
    add_all(alloc, log, &kept, &mut left)?;
    Ok(left)
}

/// Adds the steps that are left to a log without steps.
fn add_all(alloc: Global, log: &Log, kept: &Kept, left: &mut Log) -> Result<(), AllocError>
    requires kept { IsKept log.now kept.now }
    requires empty { left.old.steps ≡ [] }
    requires first { left.old.first ≡ log.now.first }
    ensures first { OnOk result (left.new.first ≡ log.now.first) }
    ensures left { OnOk result
        (AllZip (IsLeft log.now kept.now.places.items) kept.now.places.items left.new.steps) }
{
    for number in 0..kept.places.len() {
        let place = kept.places[number];
        add_again(alloc, log.step(place), kept, place, left)?;
    }
    Ok(())
}

/// Adds the step at a place of the log, with its hints renumbered.
fn add_again(
    alloc: Global,
    step: StepView<'_>,
    kept: &Kept,
    place: usize,
    left: &mut Log,
) -> Result<(), AllocError>
    requires numbered { IsNumbered kept.now }
    requires named { (k : ℕ) → k < place → Contains (hints_of (step_of step)) (left.old.first + k)
        → Contains kept.now.places.items k }
    ensures { AddsAgain left.old.first kept.now.places.items place (step_of step.entry)
        left.old left.new result }
{
    match step {
        StepView::Lemma { lits, weights } => left.add_packed_lemma(lits, weights),
        StepView::Learnt { lits, hints } => {
            let again = renamed_all(alloc, left.first(), kept, place, hints)?;
            left.add_packed_learnt(lits, &again)
        }
    }
}

/// The hints of the step at a place, renumbered. The clause of the first step has the number `first`.
fn renamed_all(
    alloc: Global,
    first: usize,
    kept: &Kept,
    place: usize,
    hints: &[u32],
) -> Result<Vec<u32>, AllocError>
    requires numbered { IsNumbered kept.now }
    requires named { (k : ℕ) → k < place → Contains hints.now (first + k) → Contains kept.now.places.items k }
    ensures { IfOk result (λ again.
        AllZip (IsRenamed first kept.now.places.items place) hints.now again.items) }
{
    let mut again = Vec::with_capacity(alloc, hints.len())?;
    for hint in hints {
        again.push(renamed(first, kept, place, *hint))?;
    }
    Ok(again)
}

/// A hint of the step at a place, renumbered. It stays where it names a clause of the formula, or none before the step.
/// The clause of the first step has the number `first`.
fn renamed(first: usize, kept: &Kept, place: usize, hint: u32) -> u32
    requires numbered { IsNumbered kept.now }
    requires named { (k : ℕ) → k < place → hint ≡ first + k → Contains kept.now.places.items k }
    ensures { IsRenamed first kept.now.places.items place hint result }
{
    let number = hint as usize;
    if first <= number && number - first < place {
        (first + kept.numbers[number - first]) as u32
    } else {
        hint
    }
}
