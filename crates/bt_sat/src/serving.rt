//! Which chooser serves, and what it is told.
ghost use Rattle.std.specs.Prelude.{◌≡◌, ◌<◌, ◌≤◌, length, map, IfErr, IfOk, OnOk};
ghost use Rattle.bt_sat.specs.inner.Telling.{IsServing, TellsOne};

use bt_cnf::{Chooser, Lit};
use std::alloc::AllocError;

/// The number of steps of an epoch, after which the next chooser serves. The last one serves on.
pub const EPOCH_STEPS: u64 = 128;

/// The place of the chooser that serves where the log has so many steps, or 0 where there is none.
pub fn serving_place(choosers: usize, steps: u64) -> usize
    ensures inside { result ≤ choosers }
    ensures serves { 0 < choosers → IsServing choosers steps result }
{
    if choosers == 0 {
        return 0;
    }
    let last = choosers - 1;
    (steps / EPOCH_STEPS).min(last as u64) as usize
}

/// Whether another chooser serves for the next step than for the last one.
pub fn begins_epoch(choosers: usize, steps: u64) -> bool {
    steps % EPOCH_STEPS == 0 && steps / EPOCH_STEPS < choosers as u64
}

/// Tells the chooser that serves, where there is one, of the clause of a step that was logged behind so many.
pub fn tell<C: Chooser>(choosers: &mut [C], steps: u64, clause: &[Lit]) -> Result<(), AllocError>
    ensures { OnOk result (TellsOne steps (map C.told_clauses choosers.old) clause.now
        (map C.told_clauses choosers.new)) }
{
    if choosers.is_empty() {
        return Ok(());
    }
    let place = serving_place(choosers.len(), steps);
    choosers[place].told(clause)?;
    Ok(())
}
