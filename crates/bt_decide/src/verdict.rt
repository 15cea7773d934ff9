//! What deciding a property of a network, or two networks, comes to.
use bt_extend::Definition;
use bt_flow::State;
use bt_log::Log;
use bt_same::Pair;
use bt_theory::GaveUp;

/// What deciding a property of a network comes to.
#[derive(Drop)]
pub enum Verdict {
    /// The network has the property: the log refutes that a state breaks it, over the formula that the definitions
    /// extend.
    Yes {
        definitions: Vec<Definition>,
        log: Log,
    },
    /// The state breaks the property.
    No(State),
    /// Neither is found within the limits and 128 bits. A log is over the formula that the definitions extend.
    GaveUp {
        definitions: Vec<Definition>,
        cause: GaveUp,
    },
}

/// What deciding whether two networks behave the same comes to.
#[derive(Drop)]
pub enum SameVerdict {
    /// They do: the log refutes that a pair of states shows a difference, over the formula that the definitions extend.
    Yes {
        definitions: Vec<Definition>,
        log: Log,
    },
    /// The pair of states shows a difference.
    No(Pair),
    /// Neither is found within the limits and 128 bits. A log is over the formula that the definitions extend.
    GaveUp {
        definitions: Vec<Definition>,
        cause: GaveUp,
    },
}
