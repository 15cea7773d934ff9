//! Deciding with a source and a chooser of one's own.
ghost use Rattle.std.specs.Prelude.{◌++◌, IfOk};
ghost use Rattle.library_chooser.specs.Deciding.{IsDecided, IsDecidedOf};

use crate::chooser::Middle;
use crate::source::Joined;
use bt_decide::{Limits, Verdict, decide};
use bt_designs::{DesignFault, read_alone};
use bt_flow::Property;
use bt_io::{ReadAll, SliceSource, read_all};
use bt_net::Net;
use std::alloc::{AllocError, Global};

/// The most bytes of a design.
pub const MOST: usize = 1 << 24;

/// What is said of a property of a design.
#[derive(Clone, Copy, PartialEq, Eq)]
pub enum Answer {
    /// Every steady state of its network has it.
    Holds,
    /// Some steady state fails it.
    Fails,
    /// Neither was found within the limits.
    Open,
    /// The texts have more bytes than a design may have, or are none.
    NoDesign,
}

/// Says whether the network of the design that two texts are, one behind the other, has a property.
pub fn decided(
    alloc: Global,
    first: &[u8],
    second: &[u8],
    property: Property,
) -> Result<Answer, AllocError>
    ensures { IfOk result (IsDecided (first.now ++ second.now) property) }
{
    let mut source = Joined {
        first: SliceSource::new(first),
        second: SliceSource::new(second),
    };
    match read_all(alloc, &mut source, MOST) {
        Ok(bytes) => answer_to(alloc, &bytes, property),
        Err(ReadAll::Memory) => Err(AllocError),
        // A source of this kind never fails, so the texts are too long.
        Err(_) => Ok(Answer::NoDesign),
    }
}

/// Says whether the network of the design that a text is has a property.
fn answer_to(alloc: Global, text: &[u8], property: Property) -> Result<Answer, AllocError>
    ensures { IfOk result (IsDecided text.now property) }
{
    match read_alone(alloc, text) {
        Ok(net) => answer_of(alloc, &net, property),
        Err(DesignFault::Refused(_)) => Ok(Answer::NoDesign),
        Err(DesignFault::Memory) => Err(AllocError),
    }
}

/// Says whether a network has a property.
fn answer_of(alloc: Global, net: &Net, property: Property) -> Result<Answer, AllocError>
    ensures { IfOk result (IsDecidedOf net.now property) }
{
    let limits = Limits {
        learnt: 100_000,
        pivots: 100_000,
    };
    let choosers = vec![in alloc; Middle]?;
    match decide(alloc, net, property, limits, choosers)? {
        Verdict::Yes { .. } => Ok(Answer::Holds),
        Verdict::No(_) => Ok(Answer::Fails),
        Verdict::GaveUp { .. } => Ok(Answer::Open),
    }
}
