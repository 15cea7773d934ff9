//! The judging of a learnt clause.
ghost use Rattle.std.specs.Prelude.{◌≡◌, length, IfOk};
ghost use Rattle.bt_cnf.specs.Formulas.{LitsBelow};
ghost use Rattle.bt_cert.specs.inner.Assuming.{AreUnset};
ghost use Rattle.bt_cert.specs.inner.Refuting.{IsAssumed, IsSound, JudgesLearnt, places_of};

use crate::assumptions::Assumptions;
use crate::clause_database::ClauseDatabase;
use crate::fault::{Cause, StepFault};
use crate::units::{are_hints, refute};
use bt_cnf::Lit;
use std::alloc::AllocError;

/// Whether a learnt clause follows from the hinted clauses, and if not, why. `assumed` may hold assumptions afterwards.
pub fn judge_learnt(
    known: &ClauseDatabase,
    lits: &[Lit],
    hints: &[u64],
    assumed: &mut Assumptions,
) -> Result<(), StepFault>
    requires lits { LitsBelow known.now.formula.vars lits.now }
    requires sound { IsSound known.now }
    requires size { length assumed.old ≡ known.now.formula.vars }
    requires unset { AreUnset assumed.old }
    ensures size { length assumed.new ≡ length assumed.old }
    ensures judged { JudgesLearnt known.now lits.now (places_of hints.now) result }
{
    if !assume_false(lits, assumed)? {
        return Err(StepFault::Fails(Cause::Literal));
    }
    if !are_hints(known, hints) {
        return Err(StepFault::Fails(Cause::Hint));
    }
    if !refute(known, hints, assumed)? {
        return Err(StepFault::Fails(Cause::Unit));
    }
    Ok(())
}

/// Assumes that literals are false, and tells whether no variable stands there with both signs. Where
/// one does, not all are assumed.
fn assume_false(lits: &[Lit], assumed: &mut Assumptions) -> Result<bool, AllocError>
    requires lits { LitsBelow (length assumed.old) lits.now }
    requires unset { AreUnset assumed.old }
    ensures size { length assumed.new ≡ length assumed.old }
    ensures assumed { IfOk result (IsAssumed lits.now assumed.new) }
{
    for lit in lits {
        if assumed.is_true(*lit) {
            return Ok(false);
        }
        assumed.assume(lit.var, !lit.positive)?;
    }
    Ok(true)
}
