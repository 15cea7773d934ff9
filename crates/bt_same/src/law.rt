//! Laws of the formula of two networks, as contracts of functions that do nothing.
ghost use Rattle.bt_same.specs.Laws.{ShowingMeets, MeetingShows, SameExactly, UnmetAreSame, RefutedAreSame};
ghost use Rattle.bt_same.specs.Judging.{ShownPairHolds};
ghost use Rattle.bt_same.specs.PairReading.{PrintedPairIsRead, ShownPairIsRead};
ghost use Rattle.bt_same.specs.Sizes.{SameFormulasAreFormulas, SameFormulasAreSmall};

/// Each pair of states that shows a difference meets the formula of the two networks. So nothing is lost by it.
pub fn showing_meets()
    ensures { ShowingMeets }
{}

/// Each pair of states whose marks and values are those of an assignment that meets the formula of two networks shows a
/// difference. So the formula is met by nothing but such pairs.
pub fn meeting_shows()
    ensures { MeetingShows }
{}

/// Two networks behave the same exactly where no pair of states shows a difference.
pub fn same_exactly()
    ensures { SameExactly }
{}

/// Where nothing meets the formula of two networks, no pair shows a difference: they behave the same.
pub fn unmet_are_same()
    ensures { UnmetAreSame }
{}

/// Where a log, whoever wrote it, refutes the formula of two networks, no pair shows a difference: they behave the same.
pub fn refuted_are_same()
    ensures { RefutedAreSame }
{}

/// The formula of two networks is a formula: its literals are of its variables, and its rows are rows.
pub fn same_formulas_are_formulas()
    ensures { SameFormulasAreFormulas }
{}

/// The formula of two networks has fewer than 2 ^ 22 variables, and fewer clauses than that. So its numbers are short in
/// a text.
pub fn same_formulas_are_small()
    ensures { SameFormulasAreSmall }
{}

/// What is written of a pair with equal loads and rooms is read as that pair.
pub fn printed_pair_is_read()
    ensures { PrintedPairIsRead }
{}

/// What is written of a pair that shows a difference is read as that pair.
pub fn shown_pair_is_read()
    ensures { ShownPairIsRead }
{}

/// A pair that shows a difference is judged so, unless a sum leaves 128 bits.
pub fn shown_pair_holds()
    ensures { ShownPairHolds }
{}
