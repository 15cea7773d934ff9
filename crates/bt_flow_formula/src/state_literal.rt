//! What the literals of the flow formula say.
use bt_frac::Row;

/// A side of a splitter.
#[derive(Clone, Copy)]
pub enum Side {
    /// Its out edges.
    Out,
    /// Its in edges.
    In,
}

/// A pair: a row that has its opposite beside it, so that one of the two holds of every state. The first row
/// of a pair is one variable wherever it is mentioned.
#[derive(Clone, Copy)]
pub enum Pair {
    /// Of the two edges at a side of a splitter, an edge has at least the flow of the other.
    Even {
        side: Side,
        splitter: usize,
        edge: usize,
        other: usize,
    },
    /// Of the two edges at a side of a splitter, the one beside the preferred one is empty.
    Empty {
        side: Side,
        splitter: usize,
        edge: usize,
    },
    /// An edge has at least the flow of its cap.
    Full {
        edge: usize,
        cap: u32,
    },
    /// The edge of an input has at least the flow of the load, which has this column.
    Loaded {
        input: usize,
        edge: usize,
        column: usize,
    },
    /// The edge of an output has at least the flow of the room, which has this column.
    Filled {
        output: usize,
        edge: usize,
        column: usize,
    },
}

/// What a literal says of a state.
#[derive(Drop)]
pub enum StateLiteral {
    /// An edge is backed, or it isn't.
    Mark { edge: usize, backed: bool },
    /// A row holds of the flows, loads and rooms. It becomes a variable of its own.
    Says(Row),
    /// The first row of a pair holds.
    First(Pair),
}
