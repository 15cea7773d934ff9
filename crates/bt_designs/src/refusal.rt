//! Why a design, a request or an order is refused: one list over the faults of all layers below.
use bt_entities::Member;

/// Why a design, a request or an order is refused. The numbers are offsets of bytes, indices of entities or
/// of edges, and lines from 1.
#[derive(Clone, Copy)]
pub enum Refusal {
    /// The byte at this offset can't go on JSON text, or the text ends there; or something else than
    /// blanks begins there, after the JSON of a design.
    Json(usize),
    /// The 65th open list or object begins at this offset.
    Deep(usize),
    /// The name that begins at this offset is in its object already.
    DuplicateKey(usize),
    /// The JSON is no blueprint.
    NotBlueprint,
    /// The JSON is a book of blueprints.
    Book,
    /// The blueprint has more entities than `bt_entities::MOST_ENTITIES`.
    TooMany,
    /// The entity's name is of no part.
    Unsupported(usize),
    /// The entity's first member that is wrong.
    BadMember(usize, Member),
    /// The entity isn't on the grid of entity 0.
    OffGrid(usize),
    /// The entity's first member that no balancer has.
    Special(usize, Member),
    /// The second entity shares a cell with the first one.
    Overlap(usize, usize),
    /// The underground piece is in no pair.
    Unpaired(usize),
    /// The belt has two or more feeders, or a part looks at the underground piece from a side.
    SideLoad(usize),
    /// The part looks at a part that takes nothing from there.
    Blocked(usize),
    /// The part is on a ring of belts and underground pieces.
    Ring(usize),
    /// This line, from 1, may not stand in the network text; or something else than blanks begins on
    /// it, after the network text of a design.
    NetLine(usize),
    /// The network has more inputs, outputs, splitters or edges than `bt_net::MOST_OF_EACH`, or that of a
    /// request more edges than `bt_model::MOST_EDGES` or more splitters than `bt_model::MOST_SPLITTERS`.
    TooLarge,
    /// The network has no input or no output.
    NoEnds,
    /// No network that is made has this order.
    Order(u32),
    /// The pin of this line, from 1, names a cell outside the grid, or the end of a pin of an earlier line.
    Pin(usize),
    /// The edge with this number has another cap than 1, which no request asks for.
    Cap(usize),
    /// The block of this line, from 1, names a cell outside the grid, the cell of a pin, or that of a block
    /// of an earlier line.
    Block(usize),
    /// Two networks that are to be compared have other numbers of inputs or of outputs, or other caps at ends of one
    /// number.
    Ends,
}
