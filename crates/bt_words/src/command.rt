//! The commands of the program, what each is given, and what it takes where the words don't say.
use bt_cnf::Limits;
use bt_flow::Property;
use bt_gen::Wish;
use bt_parts::{Rect, Tier};

/// The most steps of a log, where the words don't say.
pub const USUAL_LEARNT: u64 = 100_000;

/// The most turns of one call, where the words don't say.
pub const USUAL_PIVOTS: u64 = 100_000;

/// The most cells each way of grids that are searched, where the words don't say.
pub const USUAL_ACROSS: u32 = 16;

/// The kinds of networks that are made.
#[derive(Clone, Copy, PartialEq, Eq)]
pub enum NetworkFamily {
    Butterfly,
    Chain,
}

/// The sides at which `smallest --found` asks the ends of a blueprint to stand.
#[derive(Clone, Copy, PartialEq, Eq)]
pub enum AskedSides {
    /// Any.
    Any,
    /// Those at which they stand in the design.
    Kept,
}

/// The most inputs and the most outputs of a network that is built.
pub const MOST_LINES: u32 = 64;

/// As what a network that is built is written.
#[derive(Clone, Copy, PartialEq, Eq)]
pub enum BuiltText {
    /// As a network.
    Network,
    /// As a request for a layout, with its inputs side by side in the south and its outputs in the north.
    Request,
}

/// A command of the program.
#[derive(Clone, Copy, PartialEq, Eq)]
pub enum Command {
    /// `flow-check`: does the written state of a design break the property?
    FlowCheck(Property),
    /// `recover`: which network has the design?
    Recover,
    /// `check`: does the certificate show that the design has the property, or that it hasn't?
    Check(Property),
    /// `decide`: has the design the property?
    Decide(Property, Limits),
    /// `make`: is the network of this kind and order balanced?
    Make(NetworkFamily, u32, Limits),
    /// `layout`: how do parts of this tier, or of the request's own, on this grid show the network that is asked for,
    /// found in at most so many steps of a log?
    Layout(Rect, Option<Tier>, u64),
    /// `check-layout`: does the certificate show that no parts of this tier, or of the request's own, on this grid do?
    CheckLayout(Rect, Option<Tier>),
    /// `smallest`: what is the least grid, from the first on where one is named, and of at most so many cells each way,
    /// on which parts of this tier, or of basic ones, show the network, found in at most so many steps of a log for
    /// each grid?
    Smallest(Option<Rect>, Rect, Option<Tier>, u64),
    /// `smallest --found`: on which small grids, of at most so many cells each way where that is said, and within the
    /// design's own cells, do parts of this tier, or of the design's own, show the design's network, with its ends at
    /// these sides, found in at most so many steps of all searches?
    FindSmall(Option<Rect>, Option<Tier>, AskedSides, u64),
    /// `formula`: which formula do the states meet in which the design hasn't the property?
    FlowFormula(Property),
    /// `formula`: which formula do the layouts meet of parts of this tier, or of the request's own, on this grid?
    PlaceFormula(Rect, Option<Tier>),
    /// `same`: do the networks of two designs behave the same?
    Same(Limits),
    /// `check-same`: does the certificate show that they do, or that they don't?
    CheckSame,
    /// `build`: which network of so many inputs and so many outputs, from 1 to `MOST_LINES` each, has each wished
    /// property?
    Build(Wish, u32, u32, Limits, BuiltText),
}
