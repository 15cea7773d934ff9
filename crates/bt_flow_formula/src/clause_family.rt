//! The families of the clauses that say that a state is admissible and steady.

/// A family of clauses: pairs of a row and its opposite, a law, or what makes a load or a room admissible.
#[derive(Clone, Copy)]
pub enum ClauseFamily {
    /// The flow of each edge is from 0 to its cap.
    Flows,
    /// The load of each input is from 0 to the cap of its edge.
    Loads,
    /// The room of each output is from 0 to the cap of its edge.
    Rooms,
    /// At each splitter as much flows in as out.
    Conserve,
    /// At each splitter an out edge has at least the flow of the other, or less.
    OutPairs,
    /// At each splitter an in edge has at least the flow of the other, or less.
    InPairs,
    /// Each edge is full, or isn't.
    FullPairs,
    /// At each input the edge has at least the flow of the load, or less.
    LoadPairs,
    /// At each output the edge has at least the flow of the room, or less.
    RoomPairs,
    /// At each splitter a free out edge is even or full.
    EvenOut,
    /// At each splitter a backed in edge is even or full.
    EvenIn,
    /// At each splitter a backed in edge has the out edges backed or full.
    Backing,
    /// At each input the flow is at most the load, and equals it where the edge is free.
    Inputs,
    /// At each output the flow is at most the room, and equals it where the edge is backed.
    Outputs,
}

/// The families that mention no pair by its name, in the order of their clauses.
pub const NAMELESS: [ClauseFamily; 9] = [
    ClauseFamily::Flows,
    ClauseFamily::Loads,
    ClauseFamily::Rooms,
    ClauseFamily::Conserve,
    ClauseFamily::OutPairs,
    ClauseFamily::InPairs,
    ClauseFamily::FullPairs,
    ClauseFamily::LoadPairs,
    ClauseFamily::RoomPairs,
];

/// The families after these, which name pairs.
/// The pairs themselves stand before them by kind, comparisons first, then full edges, then ends: with others before
/// them a search took five times the steps.
pub const LAWS: [ClauseFamily; 5] = [
    ClauseFamily::EvenOut,
    ClauseFamily::EvenIn,
    ClauseFamily::Backing,
    ClauseFamily::Inputs,
    ClauseFamily::Outputs,
];
