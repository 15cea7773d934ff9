//! Laws of logs of which steps are left out, as the contracts of functions that do nothing.
ghost use Rattle.bt_log.specs.TrimmingLaws.{TrimmedIsShort, TrimmedRefutes};

/// Where a log over the clauses of a formula refutes it, whoever wrote it, what is left of it does.
pub fn trimmed_refutes()
    ensures { TrimmedRefutes }
{}

/// No more steps are left than there were.
pub fn trimmed_is_short()
    ensures { TrimmedIsShort }
{}
