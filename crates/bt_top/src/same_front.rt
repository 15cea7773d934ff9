//! What the front of an input tells of the answer of `check-same`.
ghost use Rattle.std.specs.Prelude.{◌+◌, ◌≤◌, Bool, length};
ghost use Rattle.bt_same.specs.Sameness.{HaveEqualEnds};
ghost use Rattle.bt_designs.specs.declared.held.TheConstants.{MOST_CHECKED};
ghost use Rattle.bt_top.specs.SameCertificates.{IsSameCertified, IsSameCertificateChecked, IsSameTextChecked};
ghost use Rattle.bt_designs.specs.Told.{TellsLine};
ghost use Rattle.bt_top.specs.inner.Fronts.{GivesFront, GivesHeldFront};
ghost use Rattle.bt_top.specs.inner.PairParts.{IsBehindFirstChecked, IsPairedChecked};

use crate::front::{Front, WrittenPair, WrittenSteps, known_refusal};
use bt_designs::{Held, paired, told_bare, told_line};
use bt_net::Net;
use bt_print::{Brief, says_differ, says_same};
use bt_same::encode_same;
use bt_text::skip_blanks;
use std::alloc::{AllocError, Global};

/// What is told of the answer of `check-same` to an input of which this is held; none where more has to be read.
pub fn same_front<'a>(alloc: Global, held: Held<'a>) -> Result<Option<Front<'a>>, AllocError>
    requires { held.skipped + length held.bytes.now ≤ MOST_CHECKED }
    ensures { GivesHeldFront IsSameCertified held.entry result }
{
    match told_bare(alloc, held) {
        Ok(Some(design)) => {
            let (_, rest) = held.bytes.split_at(design.used);
            behind_first(alloc, design.net, rest, held.ended)
        }
        Ok(None) => Ok(None),
        Err(fault) => known_refusal(fault),
    }
}

/// What `rest`, behind a first design with this network, tells of the answer; none where more has to be read.
fn behind_first<'a>(
    alloc: Global,
    first: Net,
    rest: &'a [u8],
    ended: bool,
) -> Result<Option<Front<'a>>, AllocError>
    requires { length rest.now ≤ MOST_CHECKED }
    ensures { GivesFront (IsBehindFirstChecked first) ended rest.now result }
{
    let bytes = skip_blanks(rest);
    let held = Held {
        skipped: 0,
        bytes,
        ended,
    };
    match told_bare(alloc, held) {
        Ok(Some(design)) => {
            let (_, rest) = bytes.split_at(design.used);
            behind_second(alloc, first, design.net, rest, ended)
        }
        Ok(None) => Ok(None),
        Err(fault) => known_refusal(fault),
    }
}

/// What `rest`, behind two designs with these networks, tells of the answer: that they can't be compared, or more.
fn behind_second<'a>(
    alloc: Global,
    first: Net,
    second: Net,
    rest: &'a [u8],
    ended: bool,
) -> Result<Option<Front<'a>>, AllocError>
    ensures { GivesFront (IsPairedChecked first second) ended rest.now result }
{
    match paired(first, second) {
        Ok((first, second)) => behind_both(alloc, first, second, rest, ended),
        Err(fault) => known_refusal(fault),
    }
}

/// What `rest`, behind two designs that may be compared, tells of the answer; none before a line stands there.
fn behind_both<'a>(
    alloc: Global,
    first: Net,
    second: Net,
    rest: &'a [u8],
    ended: bool,
) -> Result<Option<Front<'a>>, AllocError>
    requires { HaveEqualEnds first second }
    ensures { GivesFront (IsSameCertificateChecked (first, second)) ended rest.now result }
{
    let text = skip_blanks(rest);
    match told_line(text, ended) {
        Some((title, lines)) => {
            behind_title(
                alloc,
                WrittenPair {
                    first,
                    second,
                    text,
                },
                title,
                lines,
            )
        }
        None => Ok(None),
    }
}

/// What `title`, the first line of a certificate or a pair, tells of the answer; `lines` follow it. Others are refused.
fn behind_title<'a>(
    alloc: Global,
    written: WrittenPair<'a>,
    title: &[u8],
    lines: &'a [u8],
) -> Result<Option<Front<'a>>, AllocError>
    requires { HaveEqualEnds written.first written.second }
    ensures { (ended : Bool) → TellsLine ended written.entry.text.now title.now lines.now →
        GivesFront (IsSameTextChecked (written.entry.first, written.entry.second)) ended
        written.entry.text.now result }
{
    if says_same(title) {
        let formula = encode_same(alloc, &written.first, &written.second)?;
        let accepted = Brief::ShownSame;
        return Ok(Some(Front::Steps(WrittenSteps {
            formula,
            lines,
            accepted,
        })));
    }
    if says_differ(title) {
        return Ok(Some(Front::Pair(written)));
    }
    Ok(Some(Front::Known(Brief::CertLine(1))))
}
