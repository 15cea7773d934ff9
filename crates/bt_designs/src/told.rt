//! What the front of an input tells of the design that is to stand there: more has to be read, or it is refused, or it is
//! found, whatever follows.
ghost use Rattle.std.specs.Prelude.{◌≡◌, ◌+◌, ◌-◌, ◌<◌, ◌≤◌, ℕ, IfErr, IfNone, IfOk, IfSome, false, length, true};
ghost use Rattle.bt_designs.specs.declared.held.TheConstants.{MOST_CHECKED};
ghost use Rattle.bt_net.specs.Network.{IsNetwork};
ghost use Rattle.bt_designs.specs.Designs.{IsBareDesign, IsDesign, IsJsonText};
ghost use Rattle.bt_designs.specs.Requested.{IsPinned};
ghost use Rattle.bt_designs.specs.Found.{net_and_used, pinned_and_used};
ghost use Rattle.bt_designs.specs.inner.ToldParts.{IsTextPart, RestsOnEnd};
ghost use Rattle.bt_designs.specs.inner.ToldParts.{TellsFault, TellsPart, TellsRead};
ghost use Rattle.bt_designs.specs.Told.{TellsFront, TellsLine};
ghost use Rattle.bt_designs.specs.inner.Moved.{IsFaultWithin, IsOffsetWithin, moved_refusal};

use crate::design::{Design, is_json, read_bare, read_design};
use crate::fault::DesignFault;
use crate::held::Held;
use crate::refusal::Refusal;
use crate::request::{PinnedDesign, read_pinned};
use bt_text::{first_line, line_feeds, skip_blanks, split_once, whole_lines};
use std::alloc::Global;

/// What is read at the front of bytes.
trait Front: Drop {
    // How many bytes it has.
    ghost used_of: { Self → ℕ };

    /// How many bytes it has.
    fn used(&self) -> usize
        ensures { result ≡ used_of self.now };
}

impl Front for Design {
    ghost used_of = { λ d. d.used };

    fn used(&self) -> usize {
        self.used
    }
}

impl Front for PinnedDesign {
    ghost used_of = { λ d. d.used };

    fn used(&self) -> usize {
        self.used
    }
}

/// The design at the front of what is held; none where more has to be read before it is told.
pub fn told_design(alloc: Global, held: Held<'_>) -> Result<Option<Design>, DesignFault>
    requires { held.skipped + length held.bytes.now ≤ MOST_CHECKED }
    ensures front { TellsFront IsDesign net_and_used held.entry result }
    ensures network { IfOk result (λ o. IfSome o (λ design. IsNetwork design.net)) }
{
    match told_part(held) {
        Ok(Some(part)) => told_of(held, part, read_design(alloc, part)),
        Ok(None) => Ok(None),
        Err(fault) => Err(fault),
    }
}

/// The design at the front of what is held, with its pins and its blocks; none where more has to be read before it is
/// told.
pub fn told_pinned(alloc: Global, held: Held<'_>) -> Result<Option<PinnedDesign>, DesignFault>
    requires { held.skipped + length held.bytes.now ≤ MOST_CHECKED }
    ensures { TellsFront IsPinned pinned_and_used held.entry result }
{
    match told_part(held) {
        Ok(Some(part)) => told_of(held, part, read_pinned(alloc, part)),
        Ok(None) => Ok(None),
        Err(fault) => Err(fault),
    }
}

/// The bare design at the front of what is held; none where more has to be read before it is told.
pub fn told_bare(alloc: Global, held: Held<'_>) -> Result<Option<Design>, DesignFault>
    requires { held.skipped + length held.bytes.now ≤ MOST_CHECKED }
    ensures { TellsFront IsBareDesign net_and_used held.entry result }
{
    match told_part(held) {
        Ok(Some(part)) => told_of(held, part, read_bare(alloc, part)),
        Ok(None) => Ok(None),
        Err(fault) => Err(fault),
    }
}

/// What a part tells of what was read at its front: this, unless more may change it, or the fault that is told.
fn told_of<D: Front>(
    held: Held<'_>,
    part: &[u8],
    read: Result<D, DesignFault>,
) -> Result<Option<D>, DesignFault>
    requires few { held.skipped ≤ MOST_CHECKED }
    requires within { IfErr read (IsFaultWithin (MOST_CHECKED - held.skipped)) }
    ensures { TellsRead D.used_of held.entry part.now read result }
{
    match read {
        Ok(found) => {
            if is_open(held, part, found.used()) {
                return Ok(None);
            }
            Ok(Some(found))
        }
        Err(fault) => match told_fault(held, part, fault) {
            Some(told) => Err(told),
            None => Ok(None),
        },
    }
}

/// The bytes by which a design is told whatever follows: all where they are JSON or the input has ended, else the lines
/// that have their line feeds; and none where these are blanks. Behind blanks that were dropped no network text may stand.
fn told_part(held: Held<'_>) -> Result<Option<&[u8]>, DesignFault>
    ensures { TellsPart held.entry result }
{
    if is_json(held.bytes) {
        return Ok(Some(held.bytes));
    }
    match text_part(held) {
        Some(part) => {
            if held.skipped > 0 {
                return Err(DesignFault::Refused(Refusal::NetLine(1)));
            }
            Ok(Some(part))
        }
        None => Ok(None),
    }
}

/// The bytes by which a network text is told whatever follows: all where the input has ended, else the lines that have
/// their line feeds; none where these are blanks.
fn text_part(held: Held<'_>) -> Option<&[u8]>
    requires { IsJsonText held.bytes.now → ⊥ }
    ensures some { IfSome result (λ part. IsTextPart held.entry part.now) }
    ensures none { IfNone result (held.entry.ended ≡ false) }
{
    if held.ended {
        return Some(held.bytes);
    }
    let lines = whole_lines(held.bytes);
    if skip_blanks(lines).is_empty() {
        None
    } else {
        Some(lines)
    }
}

/// Whether a design of so many bytes may go on with what follows the part.
fn is_open(held: Held<'_>, part: &[u8], used: usize) -> bool
    ensures open { result ≡ true → held.entry.ended ≡ false }
    ensures closed { result ≡ false → held.entry.ended ≡ false → used < length part.now }
{
    !held.ended && used >= part.len()
}

/// Why there is no design, or none where more may change that: a refusal that rests on where the part ends is told only
/// where that is the end of the input.
fn told_fault(held: Held<'_>, part: &[u8], fault: DesignFault) -> Option<DesignFault>
    requires few { held.skipped ≤ MOST_CHECKED }
    requires within { IsFaultWithin (MOST_CHECKED - held.skipped) fault }
    ensures { TellsFault held.entry part.now fault result }
{
    match fault {
        DesignFault::Refused(refusal) => {
            if !held.ended && rests_on_end(part, refusal) {
                return None;
            }
            Some(DesignFault::Refused(moved(refusal, held.skipped)))
        }
        DesignFault::Memory => Some(fault),
    }
}

/// Whether a refusal of a design may rest on where its bytes end.
fn rests_on_end(part: &[u8], refusal: Refusal) -> bool
    ensures { result ≡ false → RestsOnEnd part.now refusal → ⊥ }
{
    match refusal {
        Refusal::Json(at) => at == part.len(),
        Refusal::NetLine(line) => line == line_feeds(part) + 1,
        _ => false,
    }
}

/// The refusal of a design behind so many blanks that were dropped.
fn moved(refusal: Refusal, skipped: usize) -> Refusal
    requires few { skipped ≤ MOST_CHECKED }
    requires within { IsOffsetWithin (MOST_CHECKED - skipped) refusal }
    ensures { result ≡ moved_refusal skipped refusal }
{
    match refusal {
        Refusal::Json(at) => Refusal::Json(skipped + at),
        Refusal::Deep(at) => Refusal::Deep(skipped + at),
        Refusal::DuplicateKey(at) => Refusal::DuplicateKey(skipped + at),
        other => other,
    }
}

/// The first line of a text and what follows it; none where the line may go on with what is still to be read.
pub fn told_line(text: &[u8], ended: bool) -> Option<(&[u8], &[u8])>
    ensures some { IfSome result (λ found. TellsLine ended text.now found.0.now found.1.now) }
    ensures none { IfNone result (ended ≡ false) }
{
    if ended {
        Some(first_line(text))
    } else {
        split_once(text, b'\n')
    }
}
