//! What a property of a design is judged to be.
ghost use Rattle.std.specs.Prelude.{IfOk};
ghost use Rattle.library_verdict.specs.Judging.{IsJudged, IsJudgedOf};

use bt_choosers::Active;
use bt_decide::{Limits, Verdict, decide};
use bt_designs::{DesignFault, Refusal, read_alone};
use bt_extend::Definition;
use bt_flow::{Property, State};
use bt_log::Log;
use bt_net::Net;
use std::alloc::{AllocError, Global};

/// The limits of the command line where no others are given.
const LIMITS: Limits = Limits {
    learnt: 100_000,
    pivots: 100_000,
};

/// What a property of a design is judged to be.
#[derive(Drop)]
pub enum Judged {
    /// Every steady state has it. The log refutes the flow formula as the definitions extend it, which any checker can see.
    Holds {
        definitions: Vec<Definition>,
        log: Log,
    },
    /// It fails in this state.
    Fails(State),
    /// The bytes are no design.
    Refused(Refusal),
    /// Neither was found within the limits.
    Open,
}

/// Judges whether the network of the design that these bytes are has a property.
pub fn judge(alloc: Global, bytes: &[u8], property: Property) -> Result<Judged, AllocError>
    ensures { IfOk result (IsJudged bytes.now property) }
{
    match read_alone(alloc, bytes) {
        Ok(net) => judged_network(alloc, &net, property),
        Err(DesignFault::Refused(refusal)) => Ok(Judged::Refused(refusal)),
        Err(DesignFault::Memory) => Err(AllocError),
    }
}

/// Judges whether a network has a property.
fn judged_network(alloc: Global, net: &Net, property: Property) -> Result<Judged, AllocError>
    ensures { IfOk result (IsJudgedOf net.now property) }
{
    let choosers = vec![in alloc; Active::new(alloc)?]?;
    match decide(alloc, net, property, LIMITS, choosers)? {
        Verdict::Yes { definitions, log } => Ok(Judged::Holds { definitions, log }),
        Verdict::No(state) => Ok(Judged::Fails(state)),
        Verdict::GaveUp { .. } => Ok(Judged::Open),
    }
}
