//! Laws of what the commands answer, as contracts of functions that do nothing.
ghost use Rattle.std.specs.Prelude.{◌≡◌};
ghost use Rattle.bt_top.specs.Answering.{OneRightAnswer};
ghost use Rattle.bt_top.specs.Budgets.{AmpleIsNeverSpent, AmpleNeverEndsSpent};
ghost use Rattle.bt_top.specs.Budgets.{AmplePivotsAreNeverMade, AmplePivotsNeverEndMade};
ghost use Rattle.bt_designs.specs.Longer.{DesignStays, RefusalStays};
ghost use Rattle.bt_top.specs.NoneCertificates.{NoneIsAccepted};
ghost use Rattle.bt_top.specs.Rechecking.{ProofIsChecked, StateIsChecked};
ghost use Rattle.bt_top.specs.RecheckingLayouts.{NoneIsChecked};
ghost use Rattle.bt_top.specs.RecheckingLeast.{LeastIsChecked};
ghost use Rattle.bt_top.specs.RecheckingPairs.{SameIsChecked, DifferenceIsChecked};

use crate::input::{MOST_OF_DESIGN, MOST_OF_TWO};
use crate::program::{NO_MEMORY, READ_FAULT, WRITE_FAULT};
use bt_designs::MOST_CHECKED;

/// What is read of the design at the front of bytes is read of longer ones that begin with them, where it
/// doesn't rest on where the bytes end.
pub fn longer_is_read()
    ensures design { DesignStays }
    ensures refused { RefusalStays }
{}

/// A command has one right answer to each input, but `decide`, `make` of a chain, `layout`, `smallest` and `same`, where others
/// may be right, with other evidence; and what they refuse has no other answer either.
pub fn one_right_answer()
    ensures { OneRightAnswer }
{}

/// `check` says yes to a design with the proof that `decide` writes of it, and no to a design with the
/// state that `decide` writes, but where a sum leaves 128 bits.
pub fn decided_is_checked()
    ensures proved { ProofIsChecked }
    ensures state { StateIsChecked }
{}

/// `check-layout` accepts a request with the certificate that `layout` writes where it has no layout.
pub fn laid_out_is_checked()
    ensures { NoneIsChecked }
{}

/// What `layout` writes of a request that has no layout is accepted behind that request, where the log has
/// fewer than 10 ^ 17 steps.
pub fn none_is_accepted()
    ensures { NoneIsAccepted }
{}

/// What `smallest` writes begins with the line of the grid with which it begins, where one is named, and then the line and
/// the certificate of each grid before the one that it names, and behind the network text `check-layout` accepts each certificate with that grid.
pub fn least_is_checked()
    ensures { LeastIsChecked }
{}

/// `check-same` accepts two designs with the certificate that `same` writes where they behave the same, and with the pair
/// of states that it writes where they don't, but where a sum leaves 128 bits.
pub fn compared_is_checked()
    ensures same { SameIsChecked }
    ensures pair { DifferenceIsChecked }
{}

/// Where `--learnt` is 3 ^ v or more, for the v variables of the formula that `decide`, `make`, `same` or `layout` decides, or
/// of each that `smallest` does, no right answer is that the steps are used up, and the program doesn't end with that
/// status. Of `decide`, `make` and `same` the variables are those of the formula that whatever is defined for it extends.
pub fn ample_is_never_spent()
    ensures answers { AmpleIsNeverSpent }
    ensures endings { AmpleNeverEndsSpent }
{}

/// Where `--pivots` is at least the number of bases of the formula that `decide`, `make` or `same` decides, no right answer
/// is that the turns are as many as they may be, and the program doesn't end with that status.
pub fn ample_pivots_are_never_made()
    ensures answers { AmplePivotsAreNeverMade }
    ensures endings { AmplePivotsNeverEndMade }
{}

/// The statuses of faults, and the most bytes that commands read, as numbers.
pub fn numbers_are()
    ensures read_fault { READ_FAULT ≡ 6 }
    ensures write_fault { WRITE_FAULT ≡ 7 }
    ensures no_memory { NO_MEMORY ≡ 8 }
    ensures checked { MOST_CHECKED ≡ 1073741824 }
    ensures of_design { MOST_OF_DESIGN ≡ 16777216 }
    ensures of_two { MOST_OF_TWO ≡ 33554432 }
{}
