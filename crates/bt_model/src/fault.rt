//! Why there is no request.

/// Why there is no request. An earlier cause comes before a later one.
#[derive(Clone, Copy, Debug, PartialEq, Eq)]
pub enum RequestFault {
    /// The network has more than `MOST_EDGES` edges or more than `MOST_SPLITTERS` splitters.
    TooLarge,
    /// The edge with this number, the least such, has another cap than 1.
    Cap(usize),
    /// The pin, the side or the row of this line, the least such, names an end that the network doesn't have, a cell
    /// outside the rectangle, or an end that a pin or a side of an earlier line names; or it is the second row of
    /// inputs, or of outputs.
    Pin(usize),
    /// The block of this line, the least such, names a cell outside the rectangle, the cell of a pin, or
    /// that of a block of an earlier line.
    Block(usize),
}
