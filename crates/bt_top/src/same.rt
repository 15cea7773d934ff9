//! `same`: whether the networks of two designs behave the same, with the evidence.
ghost use Rattle.std.specs.Prelude.{◌≡◌, alloc_error};
ghost use Rattle.bt_text.specs.Answers.{UnlessMemory};
ghost use Rattle.bt_same.specs.Sameness.{HaveEqualEnds};
ghost use Rattle.bt_top.specs.Comparing.{IsCompared, IsComparedFrom, same_told};

use bt_cnf::{Chooser, Limits};
use bt_decide::{SameVerdict, decide_same};
use bt_designs::read_two;
use bt_net::Net;
use bt_print::{Answer, refused};
use std::alloc::{AllocError, Global};

/// The answer of `same` to the bytes of its input.
pub fn same(
    alloc: Global,
    limits: Limits,
    bytes: &[u8],
    choosers: Vec<Box<dyn Chooser>>,
) -> Result<Answer, AllocError>
    ensures { UnlessMemory alloc_error (IsComparedFrom limits bytes.now) result }
{
    match read_two(alloc, bytes) {
        Ok((first, second)) => same_of(alloc, limits, &first, &second, choosers),
        Err(fault) => refused(fault),
    }
}

/// The answer of `same` to two networks that may be compared.
fn same_of(
    alloc: Global,
    limits: Limits,
    first: &Net,
    second: &Net,
    choosers: Vec<Box<dyn Chooser>>,
) -> Result<Answer, AllocError>
    requires { HaveEqualEnds first.now second.now }
    ensures { UnlessMemory alloc_error (IsCompared limits (first.now, second.now)) result }
{
    match decide_same(alloc, first, second, limits, choosers) {
        Ok(verdict) => Ok(same_told(verdict)),
        Err(_) => Err(AllocError),
    }
}

/// What is answered to a verdict on two networks.
fn same_told(verdict: SameVerdict) -> Answer
    ensures { result ≡ same_told verdict }
{
    match verdict {
        SameVerdict::Yes { definitions, log } => Answer::Same(definitions, log),
        SameVerdict::No(pair) => Answer::Differ(pair),
        SameVerdict::GaveUp { definitions, cause } => Answer::Undecided(definitions, cause),
    }
}
