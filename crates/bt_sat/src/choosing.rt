//! Choosing what to set next.
ghost use Rattle.std.specs.Prelude.{◌≡◌, length, map, OnOk, IfOk, None, true};
ghost use Rattle.bt_sat.specs.inner.Choices.{Decides, ListsUnset};
ghost use Rattle.bt_choosers.specs.Orders.{HasUnset, IsNext};
ghost use Rattle.bt_sat.specs.inner.Progressing.{IsRunning, KeepsFormula};
ghost use Rattle.bt_cnf.specs.Truths.{LacksValue};

use crate::progress::Progress;
use crate::serving::serving_place;
use bt_choosers::{Order, Plan};
use bt_cnf::{Chooser, Lit, Values};
use bt_watch::begin_level;
use std::alloc::AllocError;

/// A literal without a value, where there is one: the plan's after so many steps, else the chooser's that serves then.
fn next<C: Chooser>(
    plan: &mut Plan,
    steps: u64,
    order: &mut Order,
    values: &Values,
    choosers: &mut [C],
) -> Result<Option<Lit>, AllocError>
    requires { HasUnset values.now order.old }
    ensures next { IfOk result (IsNext values.now) }
    ensures left { HasUnset values.now order.new }
    ensures same { map C.told_clauses choosers.new ≡ map C.told_clauses choosers.old }
{
    match plan.pick(steps, values) {
        Some(lit) => Ok(Some(lit)),
        None => {
            let serving = serving_place(choosers.len(), steps);
            order.next(values, &mut choosers[serving..])
        }
    }
}

/// Begins a level with a literal whose variable has no value.
pub fn begin_with(progress: &mut Progress, lit: &Lit) -> Result<(), AllocError>
    requires running { IsRunning progress.old }
    requires none { progress.old.conflict ≡ None }
    requires propagated { progress.old.propagated ≡ length progress.old.search.assignment.trail.items }
    requires listed { ListsUnset progress.old }
    requires lacks { LacksValue progress.old.search.assignment.values lit.now.var }
    ensures decides { OnOk result (Decides progress.old progress.new true) }
    ensures kept { KeepsFormula progress.old progress.new }
{
    begin_level(&mut progress.search, lit)?;
    Ok(())
}

/// Begins a level with a literal of a variable that has no value. Tells false where every variable has one.
pub fn decide<C: Chooser>(progress: &mut Progress, choosers: &mut [C]) -> Result<bool, AllocError>
    requires running { IsRunning progress.old }
    requires none { progress.old.conflict ≡ None }
    requires propagated { progress.old.propagated ≡ length progress.old.search.assignment.trail.items }
    requires listed { ListsUnset progress.old }
    ensures decides { IfOk result (Decides progress.old progress.new) }
    ensures kept { KeepsFormula progress.old progress.new }
    ensures same { map C.told_clauses choosers.new ≡ map C.told_clauses choosers.old }
{
    let steps = progress.known.log.len() as u64;
    let next = next(
        &mut progress.plan,
        steps,
        &mut progress.order,
        &progress.search.assignment.values,
        choosers,
    )?;
    let Some(lit) = next else {
        return Ok(false);
    };
    begin_with(progress, &lit)?;
    Ok(true)
}
