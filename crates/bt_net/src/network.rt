//! What a network of splitters is made of: ends and edges between them; and where its ends are to stand.

use bt_parts::Dir;

/// The most inputs, outputs, splitters and edges that a network has, of each kind.
pub const MOST_OF_EACH: usize = 2048;

/// The largest cap of an edge: four belts of the slowest tier, which is one of the fastest. The
/// smallest is 1.
pub const MOST_CAP: u32 = 4;

/// The least number that is too long for a coordinate in a text, which has at most nine digits.
pub const NO_COORDINATE: u32 = 1_000_000_000;

/// Where an edge starts: at an input or at a splitter, by its number from 0.
#[derive(Clone, Copy, PartialEq, Eq)]
pub enum Start {
    Input(u32),
    Split(u32),
}

/// Where an edge ends: at a splitter or at an output, by its number from 0.
#[derive(Clone, Copy, PartialEq, Eq)]
pub enum Target {
    Split(u32),
    Output(u32),
}

/// A belt between two ends of a network. `cap` is the most that it carries, from 1 to `MOST_CAP`,
/// where 1 is one belt of the slowest tier.
#[derive(Clone, Copy, PartialEq, Eq)]
pub struct Edge {
    pub start: Start,
    pub target: Target,
    pub cap: u32,
}

/// What a splitter prefers, by the numbers of the splitter and of the edge; or that it may prefer any in edge.
#[derive(Clone, Copy, PartialEq, Eq)]
pub enum Priority {
    /// It gives this out edge all that fits before the other gets anything.
    Give { splitter: u32, edge: u32 },
    /// It takes all of this in edge before anything of the other.
    Take { splitter: u32, edge: u32 },
    /// It may prefer any of its in edges, or none: no law says how it takes from them.
    Any { splitter: u32 },
}

/// An input or an output, by its number from 0.
#[derive(Clone, Copy, PartialEq, Eq)]
pub enum End {
    Input(u32),
    Output(u32),
}

/// A cell on which the first part of an input or the last part of an output stands, which points in the
/// direction where one is named; and the line of the text, from 1, that says so.
#[derive(Clone, Copy, PartialEq, Eq)]
pub struct Pin {
    pub end: End,
    pub x: u32,
    pub y: u32,
    pub dir: Option<Dir>,
    pub line: usize,
}

/// The ends that a line of a side names: one, or each of a kind.
#[derive(Clone, Copy, PartialEq, Eq)]
pub enum Ends {
    One(End),
    Inputs,
    Outputs,
}

/// A side of the rectangle, which lies in the direction: the first parts of inputs stand there and come in
/// across it, and the last parts of outputs stand there and leave across it; and the line of the text, from 1,
/// that says so.
#[derive(Clone, Copy, PartialEq, Eq)]
pub struct Side {
    pub ends: Ends,
    pub dir: Dir,
    pub line: usize,
}

/// Inputs, or outputs.
#[derive(Clone, Copy, PartialEq, Eq)]
pub enum EndKind {
    Inputs,
    Outputs,
}

/// That the first parts of all inputs, or the last parts of all outputs, stand on consecutive cells of one row or
/// one column, in any order; and the line of the text, from 1, that says so.
#[derive(Clone, Copy, PartialEq, Eq)]
pub struct Row {
    pub kind: EndKind,
    pub line: usize,
}

/// Where ends are to stand, as a line of the text says it: one on a cell, some at a side, or all of a kind in a row.
#[derive(Clone, Copy, PartialEq, Eq)]
pub enum Demand {
    Pin(Pin),
    Side(Side),
    Row(Row),
}

/// A cell on which no part stands, and the line of the text, from 1, that says so.
#[derive(Clone, Copy, PartialEq, Eq)]
pub struct Block {
    pub x: u32,
    pub y: u32,
    pub line: usize,
}

/// Which lines may stand behind those of the edges in the text of a network.
#[derive(Clone, Copy, PartialEq, Eq)]
pub enum Admitted {
    /// None.
    Nothing,
    /// Those of priorities.
    Priorities,
    /// Those of priorities, and behind them those of sides and rows.
    Sides,
    /// Those of priorities, behind them those of pins, sides and rows, and behind them those of blocks.
    All,
}
