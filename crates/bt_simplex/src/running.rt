//! Runs of Bland's pivots from a basis on, to a final one or to a limit of pivots.
ghost use Rattle.std.specs.Prelude.{◌≡◌, [], IfOk, IfErr};
ghost use Rattle.bt_pivot.specs.Tableaus.{IsTableau, with_slots};
ghost use Rattle.bt_simplex.specs.Pivots.{IsBlandPivot};
ghost use Rattle.bt_pivot.specs.Sums.{AreKept};
ghost use Rattle.bt_simplex.specs.inner.Runs.{IsMade, IsRun};
ghost use Rattle.bt_pivot.specs.PivotedSlots.{IsUnfitPivot};

use crate::bland::{Next, blands_next};
use bt_pivot::{Basis, Cause, Pivot, Rooms, SumCache, Table, Workspace, pivot};
use std::alloc::{AllocError, Global};

/// Where a run of pivots ends.
#[derive(Clone, Copy)]
pub enum End {
    /// At a basis at which nothing fails.
    Met,
    /// At a basis at which this position fails, and none can enter for it.
    Stuck(usize),
    /// After as many pivots as it may make, at a basis that isn't final.
    Pivots,
    /// At an operation whose result leaves 128 bits.
    Wide(Cause),
}

/// Makes Bland's pivot; or tells an operation whose result leaves 128 bits.
fn make_pivot(
    tableau: &Table,
    alloc: Global,
    basis: &mut Basis,
    rooms: &mut Rooms,
    kept: &mut SumCache,
    made: Pivot,
) -> Result<Result<(), Cause>, AllocError>
    requires tableau { IsTableau (with_slots tableau.now basis.old) }
    requires bland { IsBlandPivot (with_slots tableau.now basis.old) made }
    requires kept { AreKept tableau.now basis.old kept.old.sums.items }
    ensures done { IfOk result (λ o. IfOk o (λ _. IsMade tableau.now made basis.old basis.new)) }
    ensures unfit { IfOk result (λ o. IfErr o (IsUnfitPivot basis.old made.leaves made.enters basis.new)) }
    ensures kept { IfOk result
        (λ o. IfOk o (λ _. AreKept tableau.now basis.new kept.new.sums.items)) }
{
    pivot(tableau, alloc, rooms, basis, kept, made.leaves, made.enters)
}

/// Makes Bland's pivots from the memory's basis on, at most so many, and adds them to the list. The basis that they
/// lead to has the lines of the solved form, but where the run ends in the midst of a pivot.
pub fn pivoted_from(
    tableau: &Table,
    alloc: Global,
    work: &mut Workspace,
    steps: &mut Vec<Pivot>,
    pivots: u64,
) -> Result<End, AllocError>
    requires tableau { IsTableau (with_slots tableau.now work.old.basis) }
    requires none { steps.old.items ≡ [] }
    ensures { IfOk result
        (IsRun pivots (with_slots tableau.now work.old.basis) steps.new.items work.new.basis) }
{
    work.kept.restart(work.basis.classes())?;
    'steps: loop {
        match blands_next(tableau, &work.basis, &mut work.kept) {
            Next::Pivot(pivot) => {
                if steps.len() as u64 >= pivots {
                    return Ok(End::Pivots);
                }
                let made = make_pivot(
                    tableau,
                    alloc,
                    &mut work.basis,
                    &mut work.rooms,
                    &mut work.kept,
                    pivot,
                )?;
                if let Err(cause) = made {
                    return Ok(End::Wide(cause));
                }
                steps.push(pivot)?;
            }
            Next::Met => return Ok(End::Met),
            Next::Stuck(position) => return Ok(End::Stuck(position)),
            Next::Wide(cause) => return Ok(End::Wide(cause)),
        }
    }
}
