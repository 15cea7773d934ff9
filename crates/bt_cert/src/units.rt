//! Whether clauses refute in turn that some literals are false.
ghost use Rattle.std.specs.Prelude.{◌≡◌, ◌<◌, ◌-◌, length, IfOk, IfSome, IfNone, IsTrue, ◌↔◌};
ghost use Rattle.std.specs.List.{All};
ghost use Rattle.bt_cnf.specs.Formulas.{LitsBelow};
ghost use Rattle.bt_cnf.specs.Units.{clause_at};
ghost use Rattle.bt_cert.specs.Judging.{AreHints};
ghost use Rattle.bt_cert.specs.inner.Assuming.{IsFalseIn, IsUnitIn, HasNoUnit};
ghost use Rattle.bt_cert.specs.inner.Refuting.{IsSound, IsPropagated, IsRefuted, hinted, places_of};

use crate::assumptions::Assumptions;
use crate::clause_database::ClauseDatabase;
use bt_cnf::{Lbool, Lit};
use bt_extend::place_of;
use std::alloc::AllocError;

/// Whether each hint is the number of a known clause.
pub fn are_hints(known: &ClauseDatabase, hints: &[u64]) -> bool
    ensures { IsTrue result ↔ AreHints known.now.clauses (places_of hints.now) }
{
    for hint in hints {
        let Some(_) = known.get(place_of(*hint)) else {
            return false;
        };
    }
    true
}

/// Whether the hinted clauses are units in turn, but for the last, of which all literals are false. The
/// literal of each unit is true from its turn on.
pub fn refute(
    known: &ClauseDatabase,
    hints: &[u64],
    assumed: &mut Assumptions,
) -> Result<bool, AllocError>
    requires hints { AreHints known.now.clauses (places_of hints.now) }
    requires size { length assumed.old ≡ known.now.formula.vars }
    requires sound { IsSound known.now }
    ensures size { length assumed.new ≡ length assumed.old }
    ensures refuted { IfOk result (IsRefuted assumed.old (hinted known.now hints.now)) }
{
    let Some((last, units)) = hints.split_last() else {
        return Ok(false);
    };
    for hint in units {
        if !propagate(known, *hint, assumed)? {
            return Ok(false);
        }
    }
    let Some(clause) = known.get(place_of(*last)) else {
        return Ok(false);
    };
    Ok(are_false(clause, assumed))
}

/// Makes the literal of a hinted clause true, where the clause is a unit, and tells whether it is.
fn propagate(
    known: &ClauseDatabase,
    hint: u64,
    assumed: &mut Assumptions,
) -> Result<bool, AllocError>
    requires inside { hint - 1 < length known.now.clauses }
    requires size { length assumed.old ≡ known.now.formula.vars }
    ensures size { length assumed.new ≡ length assumed.old }
    ensures unit { IfOk result
        (IsPropagated assumed.old (clause_at known.now.clauses (hint - 1)) assumed.new) }
{
    let Some(clause) = known.get(place_of(hint)) else {
        return Ok(false);
    };
    let Some(lit) = unit_of(clause, assumed) else {
        return Ok(false);
    };
    assumed.assume(lit.var, lit.positive)?;
    Ok(true)
}

/// The literal of a clause that isn't false, where it is the only one, and its variable has no value.
fn unit_of(clause: &[Lit], assumed: &Assumptions) -> Option<Lit>
    requires { LitsBelow (length assumed.now) clause.now }
    ensures some { IfSome result (IsUnitIn assumed.now clause.now) }
    ensures none { IfNone result (HasNoUnit assumed.now clause.now) }
{
    let mut unit = None;
    for lit in clause {
        match assumed.truth_of(*lit) {
            Lbool::False => {}
            Lbool::True => return None,
            Lbool::Unset => {
                if let Some(other) = unit {
                    if other != *lit {
                        return None;
                    }
                }
                unit = Some(*lit);
            }
        }
    }
    unit
}

/// Whether all literals of a clause are false.
fn are_false(clause: &[Lit], assumed: &Assumptions) -> bool
    requires { LitsBelow (length assumed.now) clause.now }
    ensures { IsTrue result ↔ All (IsFalseIn assumed.now) clause.now }
{
    for lit in clause {
        if !assumed.is_false(*lit) {
            return false;
        }
    }
    true
}
