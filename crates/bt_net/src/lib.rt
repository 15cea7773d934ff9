//! Networks of splitters and their text, which may also say where ends are to stand, and where no parts.
#![tactic(auto)]

mod demands;
mod fault;
mod header;
mod law;
mod net;
mod network;
mod pins;
mod priority;
mod reading;
mod rows;
mod sides;
mod wiring;
mod words;

pub use fault::NetFault;
pub use law::{limits_are, longer_is_read, one_net, printed_is_read, read_alike};
pub use net::Net;
pub use network::{
    Admitted, Block, Demand, Edge, End, EndKind, Ends, MOST_CAP, MOST_OF_EACH, NO_COORDINATE, Pin,
    Priority, Row, Side, Start, Target,
};
pub use reading::{NetRead, read};
pub use std::alloc::AllocError as Memory;
