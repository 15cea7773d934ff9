//! A law of logs, as the contract of a function that does nothing.
ghost use Rattle.bt_log.specs.Laws.{RefutedIsUnmet};

/// A formula that a log refutes is met by no assignment with values, whoever wrote the log. The values
/// are any fractions, also such as leave 128 bits.
pub fn refuted_is_unmet()
    ensures { RefutedIsUnmet }
{}
