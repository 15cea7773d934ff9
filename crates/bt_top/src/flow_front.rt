//! What the front of an input tells of the answer of `check`.
ghost use Rattle.std.specs.Prelude.{◌+◌, ◌≤◌, Bool, length};
ghost use Rattle.bt_net.specs.Network.{IsNetwork};
ghost use Rattle.bt_designs.specs.declared.held.TheConstants.{MOST_CHECKED};
ghost use Rattle.bt_top.specs.Certificates.{IsCertificateChecked, IsChecked, IsTextChecked};
ghost use Rattle.bt_designs.specs.Told.{TellsLine};
ghost use Rattle.bt_top.specs.inner.Fronts.{GivesFront, GivesHeldFront};

use crate::front::{Front, WrittenState, WrittenSteps, known_refusal};
use bt_designs::{Held, told_design, told_line};
use bt_flow::Property;
use bt_flow_formula::encode;
use bt_net::Net;
use bt_print::{Brief, says_no, says_yes};
use bt_text::skip_blanks;
use std::alloc::{AllocError, Global};

/// What is told of the answer of `check` to an input of which this is held; none where more has to be read.
pub fn flow_front<'a>(
    alloc: Global,
    property: Property,
    held: Held<'a>,
) -> Result<Option<Front<'a>>, AllocError>
    requires { held.skipped + length held.bytes.now ≤ MOST_CHECKED }
    ensures { GivesHeldFront (IsChecked property) held.entry result }
{
    match told_design(alloc, held) {
        Ok(Some(design)) => {
            let (_, rest) = held.bytes.split_at(design.used);
            behind_design(alloc, property, design.net, rest, held.ended)
        }
        Ok(None) => Ok(None),
        Err(fault) => known_refusal(fault),
    }
}

/// What `rest`, behind a design with this network, tells of the answer; none before a line stands there.
fn behind_design<'a>(
    alloc: Global,
    property: Property,
    net: Net,
    rest: &'a [u8],
    ended: bool,
) -> Result<Option<Front<'a>>, AllocError>
    requires { IsNetwork net }
    ensures { GivesFront (IsCertificateChecked net property) ended rest.now result }
{
    let text = skip_blanks(rest);
    match told_line(text, ended) {
        Some((title, lines)) => {
            let written = WrittenState {
                property,
                net,
                text,
            };
            behind_title(alloc, written, title, lines)
        }
        None => Ok(None),
    }
}

/// What `title`, the first line of a certificate or of a written state, tells of the answer; `lines` follow it. Where
/// it begins neither, line 1 is refused.
fn behind_title<'a>(
    alloc: Global,
    written: WrittenState<'a>,
    title: &[u8],
    lines: &'a [u8],
) -> Result<Option<Front<'a>>, AllocError>
    requires { IsNetwork written.net }
    ensures { (ended : Bool) → TellsLine ended written.entry.text.now title.now lines.now →
        GivesFront (IsTextChecked written.entry.net written.entry.property) ended
        written.entry.text.now result }
{
    if says_yes(written.property, title) {
        let formula = encode(alloc, &written.net, written.property)?;
        let accepted = Brief::Yes(written.property);
        return Ok(Some(Front::Steps(WrittenSteps {
            formula,
            lines,
            accepted,
        })));
    }
    if says_no(written.property, title) {
        return Ok(Some(Front::State(written)));
    }
    Ok(Some(Front::Known(Brief::CertLine(1))))
}
