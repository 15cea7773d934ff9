//! Which of two edges a splitter prefers.
use bt_flow::Port;

/// Which edge of a port comes first.
#[derive(Clone, Copy)]
pub enum Preference {
    Neither,
    First,
    Second,
}

/// Which edge of a port is the preferred one, which is told by its number: the second where it isn't the first, and
/// neither where none is preferred or the port has no two edges.
pub fn preferred_at(port: Port, preferred: Option<usize>) -> Preference {
    match (port, preferred) {
        (Port::Two(first, _), Some(edge)) => {
            if edge == first as usize {
                Preference::First
            } else {
                Preference::Second
            }
        }
        _ => Preference::Neither,
    }
}
