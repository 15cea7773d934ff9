//! Laws of solved forms and of pivots, as contracts of functions that do nothing.
ghost use Rattle.bt_simplex.specs.Laws.{OneSolvedForm, NoBasisComesBack, AscendingListsAreFew};

/// Rows have at most one solved form at a basis, so that a basis settles the lines and the point.
pub fn one_solved_form()
    ensures { OneSolvedForm }
{}

/// No run of Bland's pivots comes back to a basis, so that the bases of a run are pairwise different.
pub fn no_basis_comes_back()
    ensures { NoBasisComesBack }
{}

/// Pairwise different ascending lists of so many numbers below a limit, as bases are, are at most as many as
/// there are.
pub fn ascending_lists_are_few()
    ensures { AscendingListsAreFew }
{}
