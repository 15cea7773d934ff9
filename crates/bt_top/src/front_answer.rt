//! The answer that a front of an input tells, where the rest of the input comes from its source.
ghost use Rattle.std.specs.Prelude.{◌≡◌, ◌++◌, ◌<◌, ◌^◌, [], IfErr, IfOk, Ok, true, vec_items};
ghost use Rattle.std.specs.Io.KnownBytes.{IsAtEnd};
ghost use Rattle.bt_text.specs.Answers.{seen};
ghost use Rattle.bt_io.specs.Passages.{passage};
ghost use Rattle.bt_io.specs.declared.fault.ReadAll.TheVariants.{Memory};
ghost use Rattle.bt_same.specs.Sameness.{HaveEqualEnds};
ghost use Rattle.bt_top.specs.inner.Fronts.{AnswersRest, DrainsRest, IsFit, IsPairReply, IsReply, IsStateReply};
ghost use Rattle.bt_top.specs.inner.Fronts.{IsStepsReply, ReadsRest, judged_answer};

use crate::flow_check::judge_text;
use crate::front::{Front, WrittenPair, WrittenState, WrittenSteps};
use crate::pair_check::judge_pair_text;
use bt_cert::{CertFault, check_log};
use bt_io::{ReadAll, SliceSource, Source, drain, read_all};
use bt_print::{Answer, Brief, steps_told};
use std::alloc::{AllocError, Global};

/// The answer that a front tells, where the input goes on in the source with at most `limit` bytes, or has ended.
pub fn answer_behind<S: Source>(
    alloc: Global,
    front: Front<'_>,
    ended: bool,
    source: &mut S,
    limit: usize,
) -> Result<Answer, ReadAll>
    requires fit { IsFit front }
    requires at_end { ended ≡ true → IsAtEnd (S.left source.old) }
    requires limit { limit < 2 ^ 62 }
    ensures { AnswersRest ended (IsReply front.entry) limit
        (passage S.left S.faults source.old source.new) result }
{
    match front {
        Front::Known(brief) => known_from(brief, ended, source, limit),
        Front::Steps(steps) => steps_from(alloc, steps, ended, source, limit),
        Front::State(written) => state_from(alloc, written, ended, source, limit),
        Front::Pair(written) => pair_from(alloc, written, ended, source, limit),
    }
}

/// An answer that is known. What follows is read and dropped.
fn known_from<S: Source>(
    brief: Brief,
    ended: bool,
    source: &mut S,
    limit: usize,
) -> Result<Answer, ReadAll>
    requires at_end { ended ≡ true → IsAtEnd (S.left source.old) }
    requires limit { limit < 2 ^ 62 }
    ensures { AnswersRest ended (λ more reply. reply ≡ Ok (Answer.Brief brief)) limit
        (passage S.left S.faults source.old source.new) result }
{
    drain_rest(ended, source, limit).and(Ok(Answer::Brief(brief)))
}

/// The answer to steps whose lines go on in the source.
fn steps_from<S: Source>(
    alloc: Global,
    steps: WrittenSteps<'_>,
    ended: bool,
    source: &mut S,
    limit: usize,
) -> Result<Answer, ReadAll>
    requires at_end { ended ≡ true → IsAtEnd (S.left source.old) }
    requires limit { limit < 2 ^ 62 }
    ensures { AnswersRest ended (IsStepsReply steps.entry) limit
        (passage S.left S.faults source.old source.new) result }
{
    if ended {
        return steps_at_hand(alloc, steps);
    }
    let lines = steps.lines;
    let judged = check_log(alloc, steps.formula, lines, source, limit);
    steps_answer(steps.accepted, judged)
}

/// The answer to steps whose lines were all read.
fn steps_at_hand(alloc: Global, steps: WrittenSteps<'_>) -> Result<Answer, ReadAll>
    ensures answer { IfOk result (λ answer. IsStepsReply steps.entry [] (Ok answer)) }
    ensures memory { IfErr result (λ fault. fault ≡ Memory) }
{
    let mut source = SliceSource::new(&[]);
    let lines = steps.lines;
    let judged = check_log(alloc, steps.formula, lines, &mut source, 0);
    steps_answer(steps.accepted, judged)
}

/// The answer to steps that were judged so: `accepted`, or why they are no certificate.
fn steps_answer(accepted: Brief, judged: Result<(), CertFault>) -> Result<Answer, ReadAll>
    ensures { result ≡ judged_answer accepted judged }
{
    match judged {
        Ok(()) => Ok(Answer::Brief(accepted)),
        Err(fault) => steps_told(fault),
    }
}

/// The answer to a written state whose text goes on in the source.
fn state_from<S: Source>(
    alloc: Global,
    written: WrittenState<'_>,
    ended: bool,
    source: &mut S,
    limit: usize,
) -> Result<Answer, ReadAll>
    requires at_end { ended ≡ true → IsAtEnd (S.left source.old) }
    requires limit { limit < 2 ^ 62 }
    ensures { AnswersRest ended (IsStateReply written.entry) limit
        (passage S.left S.faults source.old source.new) result }
{
    match read_rest(alloc, ended, source, limit) {
        Ok(rest) => Ok(state_answer(alloc, written, &rest)?),
        Err(fault) => Err(fault),
    }
}

/// The answer to a written state, of which this is the rest.
fn state_answer(alloc: Global, written: WrittenState<'_>, rest: &[u8]) -> Result<Answer, AllocError>
    ensures { IfOk result (λ answer. IsStateReply written.entry rest.now (Ok answer)) }
{
    let text = joined(alloc, written.text, rest)?;
    let broken = Brief::No(written.property);
    judge_text(alloc, written.property, &written.net, &text, broken)
}

/// The answer to a written pair of states whose text goes on in the source.
fn pair_from<S: Source>(
    alloc: Global,
    written: WrittenPair<'_>,
    ended: bool,
    source: &mut S,
    limit: usize,
) -> Result<Answer, ReadAll>
    requires ends { HaveEqualEnds written.first written.second }
    requires at_end { ended ≡ true → IsAtEnd (S.left source.old) }
    requires limit { limit < 2 ^ 62 }
    ensures { AnswersRest ended (IsPairReply written.entry) limit
        (passage S.left S.faults source.old source.new) result }
{
    match read_rest(alloc, ended, source, limit) {
        Ok(rest) => Ok(pair_answer(alloc, written, &rest)?),
        Err(fault) => Err(fault),
    }
}

/// The answer to a written pair of states, of which this is the rest.
fn pair_answer(alloc: Global, written: WrittenPair<'_>, rest: &[u8]) -> Result<Answer, AllocError>
    requires { HaveEqualEnds written.first written.second }
    ensures { IfOk result (λ answer. IsPairReply written.entry rest.now (Ok answer)) }
{
    let text = joined(alloc, written.text, rest)?;
    judge_pair_text(alloc, &written.first, &written.second, &text)
}

/// One text behind another.
fn joined(alloc: Global, front: &[u8], back: &[u8]) -> Result<Vec<u8>, AllocError>
    ensures { IfOk result (λ text. text.items ≡ front.now ++ back.now) }
{
    let mut text = Vec::from_slice(alloc, front)?;
    text.extend_from_slice(back)?;
    Ok(text)
}

/// All that follows in the source; nothing where the input has ended.
fn read_rest<S: Source>(
    alloc: Global,
    ended: bool,
    source: &mut S,
    limit: usize,
) -> Result<Vec<u8>, ReadAll>
    requires at_end { ended ≡ true → IsAtEnd (S.left source.old) }
    requires limit { limit < 2 ^ 62 }
    ensures { ReadsRest ended limit
        (passage S.left S.faults source.old source.new) (seen vec_items result) }
{
    if ended {
        Ok(Vec::new(alloc))
    } else {
        read_all(alloc, source, limit)
    }
}

/// Reads what may follow in the source, and keeps none of it.
fn drain_rest<S: Source>(ended: bool, source: &mut S, limit: usize) -> Result<(), ReadAll>
    requires at_end { ended ≡ true → IsAtEnd (S.left source.old) }
    requires limit { limit < 2 ^ 62 }
    ensures { DrainsRest ended limit (passage S.left S.faults source.old source.new) result }
{
    if ended { Ok(()) } else { drain(source, limit) }
}
