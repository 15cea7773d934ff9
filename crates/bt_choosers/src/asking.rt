//! Asking the chooser that serves.
ghost use Rattle.std.specs.Prelude.{◌≡◌, ◌<◌, length, map};
ghost use Rattle.bt_cnf.specs.Choosing.{Ascends};
ghost use Rattle.bt_choosers.specs.Picks.{AsksFirst};

use bt_cnf::{Chooser, Pick, Var};

/// Asks which of the unset variables is set next, and how, of the first chooser, which is the one that serves. Where
/// there is no chooser, the lowest variable is set to false.
pub fn ask<C: Chooser>(choosers: &mut [C], unset: &[Var]) -> Pick
    requires some { 0 < length unset.now }
    requires ascending { Ascends unset.now }
    ensures in_range { result.place < length unset.now }
    ensures asks { AsksFirst C.may_pick choosers.old unset.now result }
    ensures same { map C.told_clauses choosers.new ≡ map C.told_clauses choosers.old }
{
    if choosers.is_empty() {
        return Pick {
            place: 0,
            positive: false,
        };
    }
    choosers[0].pick(unset)
}
