//! What a layout of belts means: which part hands to which, the network that it shows, and the requests that it meets,
//! in its own rectangle and in greater ones.
#![tactic(auto)]

mod demanding;
mod extending;
mod fault;
mod giving;
mod laws;
mod plain;
mod refusing;
mod request;
mod ringing;

pub use demanding::{ends_of, names};
pub use extending::{extends, is_exchanged, none_inside};
pub use fault::RequestFault;
pub use giving::{hands, pair};
pub use laws::{limits_are, numbered_shows, one_network};
pub use plain::is_kind;
pub use request::{MOST_ACROSS, MOST_CELLS, MOST_EDGES, MOST_ENCODED, MOST_SPLITTERS, Request};
pub use ringing::ring;
