//! `decide`: whether the network of a design has a property, with the evidence.
ghost use Rattle.std.specs.Prelude.{◌≡◌, alloc_error};
ghost use Rattle.bt_text.specs.Answers.{UnlessMemory};
ghost use Rattle.bt_top.specs.Deciding.{IsDecided, IsDecidedFrom, verdict_told};

use bt_cnf::{Chooser, Limits};
use bt_decide::Verdict;
use bt_designs::read_alone;
use bt_flow::Property;
use bt_net::Net;
use bt_print::{Answer, refused};
use std::alloc::{AllocError, Global};

/// The answer of `decide` to the bytes of its input.
pub fn decide(
    alloc: Global,
    property: Property,
    limits: Limits,
    bytes: &[u8],
    choosers: Vec<Box<dyn Chooser>>,
) -> Result<Answer, AllocError>
    ensures { UnlessMemory alloc_error (IsDecidedFrom property limits bytes.now) result }
{
    match read_alone(alloc, bytes) {
        Ok(net) => decide_of(alloc, property, limits, &net, choosers),
        Err(fault) => refused(fault),
    }
}

/// The answer of `decide` to a network.
fn decide_of(
    alloc: Global,
    property: Property,
    limits: Limits,
    net: &Net,
    choosers: Vec<Box<dyn Chooser>>,
) -> Result<Answer, AllocError>
    ensures { UnlessMemory alloc_error (IsDecided net.now property limits) result }
{
    match bt_decide::decide(alloc, net, property, limits, choosers) {
        Ok(verdict) => Ok(verdict_told(property, verdict)),
        Err(_) => Err(AllocError),
    }
}

/// What is answered to a verdict on a property.
fn verdict_told(property: Property, verdict: Verdict) -> Answer
    ensures { result ≡ verdict_told property verdict }
{
    match verdict {
        Verdict::Yes { definitions, log } => Answer::Proved(property, definitions, log),
        Verdict::No(state) => Answer::Broken(property, state),
        Verdict::GaveUp { definitions, cause } => Answer::Undecided(definitions, cause),
    }
}
