//! `check`, `check-layout` and `check-same` over a source that is read block by block: of a long certificate only its steps
//! are held, of blanks before a design none, and of an input whose answer is known only what tells it.
ghost use Rattle.std.specs.Prelude.{◌+◌, ◌≤◌, length};
ghost use Rattle.bt_io.specs.Passages.{passage};
ghost use Rattle.bt_designs.specs.declared.held.TheConstants.{MOST_CHECKED};
ghost use Rattle.bt_top.specs.inner.Claims.{HasClaimedGrid, IsClaimed};
ghost use Rattle.bt_top.specs.inner.Fronts.{AnswersLeft, GivesHeldFront};

use crate::claim::CertificateClaim;
use crate::flow_front::flow_front;
use crate::front::Front;
use crate::front_answer::answer_behind;
use crate::layout_front::layout_front;
use crate::same_front::same_front;
use bt_designs::{Gathered, Held, MOST_CHECKED, gather_on};
use bt_io::{ReadAll, Source};
use bt_print::Answer;
use std::alloc::{AllocError, Global};

/// The answer to all that a source has left, of which the certificate is to show the claim. It is read block by block:
/// steps are checked as they are read, and what follows a refusal is read and dropped.
pub fn claim_answer<S: Source>(
    alloc: Global,
    claim: CertificateClaim,
    source: &mut S,
) -> Result<Answer, ReadAll>
    requires { HasClaimedGrid claim }
    ensures { AnswersLeft (IsClaimed claim) MOST_CHECKED
        (passage S.left S.faults source.old source.new) result }
{
    let mut gathered = Gathered {
        skipped: 0,
        bytes: Vec::new(alloc),
        ended: false,
    };
    // The next length at which a front is looked for: twice the last one, so that little is read twice.
    let mut due = 0;
    loop {
        match gather_on(&mut gathered, source) {
            Ok(()) => {}
            Err(fault) => return Err(fault),
        }
        if gathered.ended || gathered.bytes.len() >= due {
            due = 2 * gathered.bytes.len();
            let held = Held {
                skipped: gathered.skipped,
                bytes: &gathered.bytes,
                ended: gathered.ended,
            };
            match front_of(alloc, claim, held) {
                Ok(Some(front)) => {
                    let limit = MOST_CHECKED - gathered.skipped - gathered.bytes.len();
                    return answer_behind(alloc, front, gathered.ended, source, limit);
                }
                Ok(None) => {}
                Err(_) => return Err(ReadAll::Memory),
            }
        }
    }
}

/// What is told of the answer to an input of which this is held; none where more has to be read.
fn front_of<'a>(
    alloc: Global,
    claim: CertificateClaim,
    held: Held<'a>,
) -> Result<Option<Front<'a>>, AllocError>
    requires grid { HasClaimedGrid claim }
    requires few { held.skipped + length held.bytes.now ≤ MOST_CHECKED }
    ensures { GivesHeldFront (IsClaimed claim) held.entry result }
{
    match claim {
        CertificateClaim::Flow(property) => flow_front(alloc, property, held),
        CertificateClaim::NoLayout(rect, tier) => layout_front(alloc, rect, tier, held),
        CertificateClaim::Same => same_front(alloc, held),
    }
}
