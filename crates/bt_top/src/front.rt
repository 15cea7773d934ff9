//! What the front of an input tells of the answer to it, whatever follows.
ghost use Rattle.std.specs.Prelude.{IfOk, MatchOption};
ghost use Rattle.bt_top.specs.inner.Fronts.{TellsRefusal};

use bt_cnf::Formula;
use bt_designs::DesignFault;
use bt_flow::Property;
use bt_net::Net;
use bt_print::Brief;
use std::alloc::AllocError;

/// Steps of a certificate of which some lines were read.
#[derive(Drop)]
pub struct WrittenSteps<'a> {
    /// What they are to refute.
    pub formula: Formula,
    /// The front of their lines.
    pub lines: &'a [u8],
    /// The answer where they do.
    pub accepted: Brief,
}

/// A written state of which some was read.
#[derive(Drop)]
pub struct WrittenState<'a> {
    /// What it is to break, in this network.
    pub property: Property,
    pub net: Net,
    /// The front of its text.
    pub text: &'a [u8],
}

/// A written pair of states of which some was read.
#[derive(Drop)]
pub struct WrittenPair<'a> {
    /// The networks which it is to tell apart.
    pub first: Net,
    pub second: Net,
    /// The front of its text.
    pub text: &'a [u8],
}

/// What the front of an input tells of the answer to it, whatever follows.
#[derive(Drop)]
pub enum Front<'a> {
    /// It is this.
    Known(Brief),
    /// It is that to these steps, which go on with what follows.
    Steps(WrittenSteps<'a>),
    /// It is that to this state, whose text goes on with what follows.
    State(WrittenState<'a>),
    /// It is that to this pair, whose text goes on with what follows.
    Pair(WrittenPair<'a>),
}

/// What is told where a design or a request is refused: the refusal.
pub fn known_refusal<'a>(fault: DesignFault) -> Result<Option<Front<'a>>, AllocError>
    ensures { IfOk result (λ o. MatchOption o ⊥ (λ front. TellsRefusal fault front)) }
{
    match fault {
        DesignFault::Refused(refusal) => Ok(Some(Front::Known(Brief::Refused(refusal)))),
        DesignFault::Memory => Err(AllocError),
    }
}
