//! What a search for a layout comes to: of a request, of one of several, on the least grid, and on small ones.
use bt_log::Log;
use bt_parts::{Part, Rect};

/// What a search for a layout of a request comes to.
#[derive(Drop)]
pub enum Layout {
    /// The parts lay the request. They come in ascending order of y and then x of their cells.
    Found(Vec<Part>),
    /// No parts lay the request: the log refutes its placement formula, and each of its steps but the last is a hint of
    /// a later one.
    Nowhere(Log),
    /// The log has as many steps as it may, and one more is needed.
    Spent(Log),
}

/// A grid on which no parts show the network: the log refutes the placement formula.
#[derive(Drop)]
pub struct RuledOut {
    pub grid: Rect,
    pub log: Log,
}

/// What a search for the least grid comes to, of the grids that it doesn't pass by. `earlier` are those that were
/// searched before it, in the order of grids.
#[derive(Drop)]
pub enum Smallest {
    /// The parts show the network on this grid, and on no grid before it do any. They come in ascending
    /// order of y and then x of their cells.
    Found {
        earlier: Vec<RuledOut>,
        grid: Rect,
        parts: Vec<Part>,
    },
    /// On no grid do any parts show the network.
    Nowhere(Vec<RuledOut>),
    /// On no grid before this one do any parts show the network. The log of its search has as many steps
    /// as it may, and one more is needed.
    Spent {
        earlier: Vec<RuledOut>,
        grid: Rect,
        log: Log,
    },
}

/// What looking for a layout of one of several requests comes to.
#[derive(Drop)]
pub enum Early {
    /// The parts lay the request at this place. They come in ascending order of y and then x of their cells.
    Laid { place: usize, parts: Vec<Part> },
    /// None was found in so many steps. Where they are fewer than may be taken, no parts lay any request.
    Spent(u64),
}

/// What looking for small layouts of a network comes to.
#[derive(Drop)]
pub enum Small {
    /// The parts show the network on this grid. They come in ascending order of y and then x of their cells.
    Found { grid: Rect, parts: Vec<Part> },
    /// None was found in so many steps. Where they are fewer than may be taken, on no grid do any parts show the
    /// network.
    Spent(u64),
}
