//! A design that nothing but blanks follows.
ghost use Rattle.std.specs.Prelude.{◌≡◌, ◌≤◌, length};
ghost use Rattle.bt_text.specs.Answers.{UnlessMemory};
ghost use Rattle.bt_designs.specs.Alone.{IsAlone, IsLoneNet, IsRefusedAt, line_at};
ghost use Rattle.bt_designs.specs.Designs.{IsBareDesign};
ghost use Rattle.bt_designs.specs.inner.Behind.{IsBehind};

use crate::design::{Design, is_json, read_bare, read_design};
use crate::fault::DesignFault;
use crate::refusal::Refusal;
use bt_net::Net;
use bt_text::{line_feeds, skip_blanks};
use std::alloc::Global;

/// The network of the design that the bytes are, with blanks behind it.
pub fn read_alone(alloc: Global, bytes: &[u8]) -> Result<Net, DesignFault>
    ensures { UnlessMemory DesignFault.Memory (IsLoneNet bytes.now) result }
{
    match read_design(alloc, bytes) {
        Ok(Design { net, used }) => match refused_behind(bytes, used) {
            None => Ok(net),
            Some(refusal) => Err(DesignFault::Refused(refusal)),
        },
        Err(fault) => Err(fault),
    }
}

/// The network of the bare design that the bytes are, with blanks behind it.
pub fn read_lone_bare(alloc: Global, bytes: &[u8]) -> Result<Net, DesignFault>
    ensures { UnlessMemory DesignFault.Memory (IsAlone IsBareDesign bytes.now) result }
{
    match read_bare(alloc, bytes) {
        Ok(Design { net, used }) => match refused_behind(bytes, used) {
            None => Ok(net),
            Some(refusal) => Err(DesignFault::Refused(refusal)),
        },
        Err(fault) => Err(fault),
    }
}

/// What is refused behind the first so many bytes: nothing where only blanks follow them.
pub fn refused_behind(bytes: &[u8], used: usize) -> Option<Refusal>
    requires { used ≤ length bytes.now }
    ensures { IsBehind bytes.now used result }
{
    let (_, rest) = bytes.split_at(used);
    let text = skip_blanks(rest);
    if text.is_empty() {
        None
    } else {
        Some(refused_at(bytes, bytes.len() - text.len()))
    }
}

/// What is refused where something begins at this offset behind a design.
fn refused_at(bytes: &[u8], at: usize) -> Refusal
    requires { at ≤ length bytes.now }
    ensures { IsRefusedAt bytes.now at result }
{
    if is_json(bytes) {
        Refusal::Json(at)
    } else {
        Refusal::NetLine(line_at(bytes, at))
    }
}

/// The number of the line, from 1, on which the byte at this offset stands.
fn line_at(bytes: &[u8], at: usize) -> usize
    requires { at ≤ length bytes.now }
    ensures { result ≡ line_at bytes.now at }
{
    line_feeds(&bytes[..at]) + 1
}
