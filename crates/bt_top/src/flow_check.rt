//! `flow-check`: whether the state that is written behind a design breaks a property.
ghost use Rattle.std.specs.Prelude.{◌≡◌, Ok, alloc_error};
ghost use Rattle.bt_text.specs.Answers.{UnlessMemory};
ghost use Rattle.bt_flow.specs.States.{Fits};
ghost use Rattle.bt_top.specs.States.{IsFlowChecked, IsStateChecked, IsStateJudged, IsJudged};

use bt_designs::read_design;
use bt_flow::{Judgement, Property, State, WideSum, breaks, read_state};
use bt_net::Net;
use bt_print::{Answer, Brief, no_state, refused};
use bt_text::skip_blanks;
use std::alloc::{AllocError, Global};

/// The answer of `flow-check` to the bytes of its input.
pub fn flow_check(alloc: Global, property: Property, bytes: &[u8]) -> Result<Answer, AllocError>
    ensures { UnlessMemory alloc_error (IsFlowChecked property bytes.now) result }
{
    match read_design(alloc, bytes) {
        Ok(design) => {
            let (_, rest) = bytes.split_at(design.used);
            check_state(alloc, property, &design.net, rest)
        }
        Err(fault) => refused(fault),
    }
}

/// The answer of `flow-check` to what follows a design, which is to be the text of a state.
fn check_state(
    alloc: Global,
    property: Property,
    net: &Net,
    rest: &[u8],
) -> Result<Answer, AllocError>
    ensures { UnlessMemory alloc_error (IsStateChecked net.now property rest.now) result }
{
    let text = skip_blanks(rest);
    judge_text(alloc, property, net, text, Brief::Breaks(property))
}

/// The answer to the text of a state: `broken` where the state breaks the property.
pub fn judge_text(
    alloc: Global,
    property: Property,
    net: &Net,
    text: &[u8],
    broken: Brief,
) -> Result<Answer, AllocError>
    ensures { UnlessMemory alloc_error (IsStateJudged net.now property broken text.now) result }
{
    match read_state(alloc, net, text, property) {
        Ok(state) => Ok(Answer::Brief(judge(property, net, &state, broken))),
        Err(fault) => no_state(fault),
    }
}

/// The answer to a written state: `broken` where the state breaks the property.
fn judge(property: Property, net: &Net, state: &State, broken: Brief) -> Brief
    requires { Fits net.now state.now }
    ensures { IsJudged net.now property broken state.now (Ok (Answer.Brief result)) }
{
    match breaks(net, property, state) {
        Ok(Judgement::Passes) => broken,
        Ok(Judgement::Fails { test, place }) => Brief::NotBreaking(test, place),
        Err(WideSum { test, place, .. }) => Brief::WideState(test, place),
    }
}
