//! What a check answers: the run of Bland's pivots on a copy of a table's basis, and what its end comes to.
ghost use Rattle.std.specs.Prelude.{◌≡◌, ℕ, IfOk};
ghost use Rattle.bt_pivot.specs.Tableaus.{IsTableau};
ghost use Rattle.bt_simplex.specs.Checks.{StartsAt};
ghost use Rattle.bt_simplex.specs.inner.Checking.{Concludes, IsWideFor};
ghost use Rattle.bt_simplex.specs.inner.Runs.{IsRun};

use crate::answers::{Check, PivotTrace, Wide};
use crate::lemmas::lemma;
use crate::running::{End, pivoted_from};
use crate::settling::settled;
use crate::traces::{bound_rows, positions};
use bt_pivot::{Basis, Cause, Pivot, Table, Workspace};
use std::alloc::{AllocError, Global};

/// Makes Bland's pivots on a copy of a table's basis, which `work` holds, at most `pivots`, and answers by where they
/// end.
pub fn checked(
    table: &Table,
    alloc: Global,
    pivots: u64,
    work: &mut Workspace,
) -> Result<Check, AllocError>
    requires { work.old.basis ≡ table.now.slots }
    ensures { IfOk result (Concludes pivots table.now work.new.basis) }
{
    table.all_known();
    let mut steps = Vec::new(alloc);
    let end = pivoted_from(table, alloc, work, &mut steps, pivots)?;
    answer(table, alloc, steps, &work.basis, end)
}

/// The answer where these pivots from the table's basis on lead to this basis, and end as `end` says.
fn answer(
    table: &Table,
    alloc: Global,
    steps: Vec<Pivot>,
    basis: &Basis,
    end: End,
) -> Result<Check, AllocError>
    requires tableau { IsTableau table.now }
    requires run { (pivots : ℕ) × IsRun pivots table.now steps.items basis.now end }
    ensures { (pivots : ℕ) → IsRun pivots table.now steps.items basis.now end
        → IfOk result (Concludes pivots table.now basis.now) }
{
    match end {
        End::Met => match settled(table, alloc, basis)? {
            Ok(values) => Ok(Check::Sat(values)),
            Err(cause) => Ok(Check::Wide(wide(table, alloc, steps, basis, cause)?)),
        },
        End::Stuck(position) => match lemma(table, alloc, basis, position)? {
            Ok(weights) => Ok(Check::Unsat(weights)),
            Err(cause) => Ok(Check::Wide(wide(table, alloc, steps, basis, cause)?)),
        },
        End::Pivots => Ok(Check::Pivots(trace(table, alloc, steps)?)),
        End::Wide(cause) => Ok(Check::Wide(wide(table, alloc, steps, basis, cause)?)),
    }
}

/// The trace of these pivots from the tableau's basis on.
fn trace(table: &Table, alloc: Global, steps: Vec<Pivot>) -> Result<PivotTrace, AllocError>
    ensures { IfOk result (λ trace. StartsAt table.now trace × (trace.steps ≡ steps)) }
{
    Ok(PivotTrace {
        start: positions(alloc, table.basis())?,
        bound: bound_rows(alloc, table.bound())?,
        steps,
    })
}

/// The answer that this operation leaves 128 bits, after these pivots, which lead to this basis.
fn wide(
    table: &Table,
    alloc: Global,
    steps: Vec<Pivot>,
    basis: &Basis,
    cause: Cause,
) -> Result<Wide, AllocError>
    ensures { IfOk result (IsWideFor table.now steps.items basis.now cause) }
{
    Ok(Wide {
        trace: trace(table, alloc, steps)?,
        place: cause.place,
        basis: positions(alloc, basis)?,
        row: cause.row,
        column: cause.column,
        operation: cause.operation,
        left: cause.left,
        right: cause.right,
    })
}
