//! What may be so of a layout of a request.
use bt_parts::{Cell, Dir};

/// One of the two cells of a splitter.
#[derive(Clone, Copy)]
pub enum Half {
    /// The one further to the west or the north.
    Lesser,
    /// The other one.
    Greater,
}

/// What stands on a cell, whichever way it is turned.
#[derive(Clone, Copy)]
pub enum Shape {
    Belt,
    Entrance,
    Exit,
    /// This half of a splitter.
    Half(Half),
}

/// What a cell holds.
#[derive(Clone, Copy)]
pub enum Content {
    /// No part.
    Empty,
    /// A part of this shape, turned this way.
    Turned(Shape, Dir),
}

/// From where edges of the request's network come: two edges of one class may change places in a layout.
/// Splitters and inputs are those of the network, by their numbers.
#[derive(Clone, Copy)]
pub enum Class {
    /// The edges that leave this splitter.
    Split(usize),
    /// The edges that go into this splitter from inputs that aren't pinned and are to stand at this side, or
    /// of which nothing is said.
    Shared(usize, Option<Dir>),
    /// The edge of this input, which is pinned or leads to an output.
    Input(usize),
}

/// Ends of one kind in a row that runs one way.
#[derive(Clone, Copy)]
pub enum Line {
    /// Inputs, from a cell on to the east.
    InputsEast,
    /// Inputs, from a cell on to the south.
    InputsSouth,
    /// Outputs, from a cell on to the east.
    OutputsEast,
    /// Outputs, from a cell on to the south.
    OutputsSouth,
}

/// What may be so. Splitters and inputs are those of the request's network, by their numbers.
#[derive(Clone, Copy)]
pub enum Fact {
    /// The cell holds this.
    Kind(Cell, Content),
    /// The belt or underground piece on the cell lies on the chain of an edge of this class, or a half of
    /// the splitter that edges of this class leave stands there.
    Carries(Cell, Class),
    /// A half stands on the cell.
    HalfOn(Cell),
    /// A belt stands on the cell.
    BeltOn(Cell),
    /// The first part of some input stands on the cell.
    Begins(Cell),
    /// The first part of this input, which leads to an output, stands on the cell.
    Starts(Cell, usize),
    /// The last part of this output, which is to stand at a side, stands on the cell.
    Stops(Cell, usize),
    /// All ends of a kind, which are to stand in a row, stand on consecutive cells from this one on.
    Lies(Cell, Line),
    /// The entrance on the cell, turned this way, pairs with the exit so far ahead, from 1.
    Pair(Cell, Dir, usize),
    /// An underground pair of this direction runs from the cell to the next one.
    Tunnel(Cell, Dir),
    /// The belt, exit or half on the cell hands to the next cell in this direction.
    Goes(Cell, Dir),
    /// This splitter stands with its lesser half on the cell and is turned this way.
    At(usize, Cell, Dir),
    /// The lesser half of this splitter has this x.
    Column(usize, usize),
    /// The lesser half of this splitter has this y.
    Row(usize, usize),
    /// This splitter is turned this way.
    Points(usize, Dir),
    /// The first of the edges into this splitter comes in by its lesser half.
    EntersLesser(usize),
    /// The first of the edges from this splitter leaves by its lesser half.
    LeavesLesser(usize),
    /// Of the cells up to the one whose number is the sum of both numbers, row by row from 0, more than the
    /// second number hold halves: so at most the first number of them hold none.
    Held(usize, usize),
}
