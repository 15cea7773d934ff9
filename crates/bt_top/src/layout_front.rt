//! What the front of an input tells of the answer of `check-layout`.
ghost use Rattle.std.specs.Prelude.{◌+◌, ◌≤◌, ℕ, Bool, List, length};
ghost use Rattle.bt_model.specs.Requests.{IsGrid, IsRequest};
ghost use Rattle.bt_designs.specs.declared.held.TheConstants.{MOST_CHECKED};
ghost use Rattle.bt_print.specs.Replies.{UnlessLarge};
ghost use Rattle.bt_top.specs.NoneCertificates.{IsLayoutChecked, IsNoneCertificateChecked, IsNoneTextChecked};
ghost use Rattle.bt_designs.specs.Found.{pinned_of};
ghost use Rattle.bt_designs.specs.Told.{TellsLine};
ghost use Rattle.bt_top.specs.inner.Fronts.{GivesFront, GivesHeldFront};
ghost use Rattle.bt_top.specs.inner.RequestParts.{IsRequestChecked};

use crate::front::{Front, WrittenSteps, known_refusal};
use bt_designs::{DesignFault, Held, PinnedDesign, Refusal, request_for, told_line, told_pinned};
use bt_model::Request;
use bt_parts::{Rect, Tier};
use bt_place::{encode_place, has_formula};
use bt_print::{Brief, says_none};
use bt_text::skip_blanks;
use std::alloc::{AllocError, Global};

/// What is told of the answer of `check-layout` to an input of which this is held; none where more has to be read.
pub fn layout_front<'a>(
    alloc: Global,
    rect: Rect,
    tier: Option<Tier>,
    held: Held<'a>,
) -> Result<Option<Front<'a>>, AllocError>
    requires grid { IsGrid rect }
    requires few { held.skipped + length held.bytes.now ≤ MOST_CHECKED }
    ensures { GivesHeldFront (IsLayoutChecked rect tier) held.entry result }
{
    match told_pinned(alloc, held) {
        Ok(Some(design)) => {
            let (_, rest) = held.bytes.split_at(design.used);
            behind_design(alloc, rect, tier, design, rest, held.ended)
        }
        Ok(None) => Ok(None),
        Err(fault) => known_refusal(fault),
    }
}

/// What this design and `rest`, behind it, tell of the answer; none where more has to be read.
fn behind_design<'a>(
    alloc: Global,
    rect: Rect,
    tier: Option<Tier>,
    design: PinnedDesign,
    rest: &'a [u8],
    ended: bool,
) -> Result<Option<Front<'a>>, AllocError>
    requires { IsGrid rect }
    ensures { GivesFront (IsRequestChecked rect tier (pinned_of design)) ended rest.now result }
{
    match request_for(rect, tier, design) {
        Ok(request) => behind_large(alloc, &request, rest, ended),
        Err(fault) => known_refusal(fault),
    }
}

/// What `rest`, behind a request, tells of the answer: that it is refused, where the request has no formula.
fn behind_large<'a>(
    alloc: Global,
    request: &Request,
    rest: &'a [u8],
    ended: bool,
) -> Result<Option<Front<'a>>, AllocError>
    requires { IsRequest request.now }
    ensures { GivesFront (λ text. UnlessLarge (λ r. IsNoneCertificateChecked r text) request.now)
        ended rest.now result }
{
    let has = has_formula(alloc, request)?;
    if has {
        behind_request(alloc, request, rest, ended)
    } else {
        known_refusal(DesignFault::Refused(Refusal::TooLarge))
    }
}

/// What `rest`, behind a request that has a formula, tells of the answer: nothing before a line stands there.
fn behind_request<'a>(
    alloc: Global,
    request: &Request,
    rest: &'a [u8],
    ended: bool,
) -> Result<Option<Front<'a>>, AllocError>
    requires { IsRequest request.now }
    ensures { GivesFront (IsNoneCertificateChecked request.now) ended rest.now result }
{
    let text = skip_blanks(rest);
    match told_line(text, ended) {
        Some((title, lines)) => behind_title(alloc, request, title, lines),
        None => Ok(None),
    }
}

/// What `title`, the first line of a certificate, tells of the answer; `lines` follow it. Any but `none` is refused.
fn behind_title<'a>(
    alloc: Global,
    request: &Request,
    title: &[u8],
    lines: &'a [u8],
) -> Result<Option<Front<'a>>, AllocError>
    requires { IsRequest request.now }
    ensures { (ended : Bool) (text : List ℕ) → TellsLine ended text title.now lines.now →
        GivesFront (IsNoneTextChecked request.now) ended text result }
{
    if says_none(title) {
        let formula = encode_place(alloc, request)?;
        let accepted = Brief::NoLayout;
        return Ok(Some(Front::Steps(WrittenSteps {
            formula,
            lines,
            accepted,
        })));
    }
    Ok(Some(Front::Known(Brief::CertLine(1))))
}
