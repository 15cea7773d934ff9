//! One turn of a search: for the next model, or with one more lemma.
ghost use Rattle.std.specs.Prelude.{◌≡◌, ◌<◌, length, map, slice_index_or, IfOk, OnOk, None};
ghost use Rattle.std.specs.List.{All};
ghost use Rattle.bt_log.specs.Logs.{Lemma};
ghost use Rattle.bt_sat.specs.inner.Choices.{IsComplete};
ghost use Rattle.bt_sat.specs.inner.Kernels.{AddsTo, AnswersBy, AssumesBy, IsOpen, model_of, value_of};
ghost use Rattle.bt_sat.specs.inner.Progressing.{HasRoom, IsNextStep, IsRunning, KeepsFormula};
ghost use Rattle.bt_cnf.specs.Truths.{IsFalseIn};

use crate::answer::{Answer, Assumed};
use crate::assuming::{assume, has_true};
use crate::cdcl::{Found, find_model, restart};
use crate::lemmas::take_lemma;
use crate::progress::Progress;
use crate::serving::{begins_epoch, tell};
use bt_cnf::{Chooser, Lit, Values};
use bt_frac::Frac;
use std::alloc::{AllocError, Global};

/// The value of the variable at a place, which is false where it has none.
fn value_at(values: &Values, place: usize) -> bool
    requires { place < length values.now }
    ensures { result ≡ value_of (slice_index_or values.now place None) }
{
    values.get(values.id_of(place)).is(true)
}

/// The values of the variables.
fn list_model(alloc: Global, values: &Values) -> Result<Vec<bool>, AllocError>
    ensures { IfOk result (λ model. model.items ≡ model_of values.now) }
{
    let mut model = Vec::with_capacity(alloc, values.len())?;
    for place in 0..values.len() {
        model.push(value_at(values, place))?;
    }
    Ok(model)
}

/// Searches until there is a model, or the log refutes the formula, or has no room for one more step.
pub fn answer<C: Chooser>(progress: &mut Progress, choosers: &mut [C]) -> Result<Answer, AllocError>
    requires { IsRunning progress.old }
    ensures kept { KeepsFormula progress.old progress.new }
    ensures answers { IfOk result (AnswersBy progress.old (map C.told_clauses choosers.old)
        progress.new (map C.told_clauses choosers.new)) }
{
    match find_model(progress, choosers)? {
        Found::Model => {
            let alloc = progress.learnt_clause.lits.allocator().clone()?;
            let model = list_model(alloc, &progress.search.assignment.values)?;
            Ok(Answer::Model(model))
        }
        Found::Refuted => Ok(Answer::Refuted),
        Found::Spent => Ok(Answer::Spent),
    }
}

/// Makes literals false in turn, and tells what is true then, or that one of them is true, or how the search ended.
pub fn supposed<C: Chooser>(
    progress: &mut Progress,
    choosers: &mut [C],
    lits: &[Lit],
) -> Result<Assumed, AllocError>
    requires { IsRunning progress.old }
    ensures kept { KeepsFormula progress.old progress.new }
    ensures assumes { IfOk result (AssumesBy progress.old (map C.told_clauses choosers.old)
        progress.new (map C.told_clauses choosers.new)) }
{
    match assume(progress, choosers, lits)? {
        None => {
            let alloc = progress.learnt_clause.lits.allocator().clone()?;
            judge_assumed(alloc, &progress.search.assignment.values, lits)
        }
        Some(Found::Model) => Ok(Assumed::Follows),
        Some(Found::Refuted) => Ok(Assumed::Refuted),
        Some(Found::Spent) => Ok(Assumed::Spent),
    }
}

/// That one of the literals follows, where one is true, or else which variables are true.
fn judge_assumed(alloc: Global, values: &Values, lits: &[Lit]) -> Result<Assumed, AllocError>
    ensures { IfOk result IsOpen }
{
    if has_true(values, lits) {
        return Ok(Assumed::Follows);
    }
    let truths = list_model(alloc, values)?;
    Ok(Assumed::Open(truths))
}

/// Adds a lemma whose literals are all false, tells the chooser that serves, and restarts where its epoch
/// ends.
pub fn add<C: Chooser>(
    progress: &mut Progress,
    choosers: &mut [C],
    lits: &[Lit],
    weights: &[Frac],
) -> Result<(), AllocError>
    requires complete { IsComplete progress.old }
    requires falses { All (IsFalseIn progress.old.search.assignment.values) lits.now }
    requires next { IsNextStep progress.old.known (Lemma lits.now weights.now) }
    requires room { HasRoom progress.old }
    ensures kept { KeepsFormula progress.old progress.new }
    ensures adds { OnOk result (AddsTo progress.old (map C.told_clauses choosers.old)
        lits.now weights.now progress.new (map C.told_clauses choosers.new)) }
{
    let steps = progress.known.log.len() as u64;
    take_lemma(progress, lits, weights)?;
    tell(choosers, steps, lits)?;
    if begins_epoch(choosers.len(), progress.known.log.len() as u64) {
        restart(progress);
    }
    Ok(())
}
