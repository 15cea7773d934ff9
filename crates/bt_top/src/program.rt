//! The program over a source and a sink: it reads its words and its input, and writes its answer.
ghost use Rattle.std.specs.Prelude.{◌≡◌, ℕ, List, alloc_error, map, string_bytes};
ghost use Rattle.bt_text.specs.Answers.{UnlessMemory};
ghost use Rattle.bt_io.specs.Passages.{passage};
ghost use Rattle.bt_print.specs.Answers.{status_of};
ghost use Rattle.bt_top.specs.Inputs.{IsUnread, ReadsNothing};
ghost use Rattle.bt_top.specs.Answering.{IsRightTo};
ghost use Rattle.bt_top.specs.Endings.{Ends, status_after};
ghost use Rattle.bt_top.specs.inner.Claims.{IsReadWhole};
ghost use Rattle.bt_top.specs.inner.Grids.{HasGrid};
ghost use Rattle.bt_top.specs.inner.Telling.{IsAnswered, IsAnsweredTo, IsToldUnlessMemory};

use crate::blocks::claim_answer;
use crate::build::build;
use crate::choosers::Choosers;
use crate::claim::CertificateClaim;
use crate::decide::decide;
use crate::flow_check::flow_check;
use crate::formula::{flow_formula, place_formula};
use crate::input::read_input;
use crate::layout::layout;
use crate::make::make;
use crate::recover::recover;
use crate::same::same;
use crate::smallest::smallest;
use crate::smallest_found::smallest_found;
use bt_io::{ReadAll, Sink, Source, WriteFault};
use bt_print::{Answer, formed_of, print_answer};
use bt_words::{Command, command_of};
use std::alloc::{AllocError, Global};

/// The status where the source failed.
pub const READ_FAULT: u8 = 6;

/// The status where the sink failed.
pub const WRITE_FAULT: u8 = 7;

/// The status where no memory could be had.
pub const NO_MEMORY: u8 = 8;

/// Does all that the program does: reads the words and the source, writes the answer's text to the sink,
/// and gives the status. The words exclude the program's name. The choosers steer a search; what
/// they answer never changes whether the program's answer is right.
///
/// Where the words are no command, or are one that reads nothing, the source is as it was.
pub fn run<S: Source, K: Sink>(
    alloc: Global,
    words: &[String],
    source: &mut S,
    sink: &mut K,
    choosers: Choosers,
) -> u8
    ensures ends { Ends (map string_bytes words.now)
        (passage S.left S.faults source.old source.new) (passage K.held K.faults sink.old sink.new) result }
    ensures unread { IsUnread (map string_bytes words.now) → source.new ≡ source.old }
{
    match answer_to(alloc, words, source, choosers) {
        Ok(answer) => told(alloc, answer, sink),
        Err(ReadAll::TooLong) => told(alloc, Answer::TooLong, sink),
        Err(ReadAll::ReadFault) => READ_FAULT,
        Err(ReadAll::Memory) => NO_MEMORY,
    }
}

/// The answer to the words and the source; where the words are no command, the source isn't read.
fn answer_to<S: Source>(
    alloc: Global,
    words: &[String],
    source: &mut S,
    mut choosers: Choosers,
) -> Result<Answer, ReadAll>
    ensures answer { IsAnsweredTo (map string_bytes words.now)
        (passage S.left S.faults source.old source.new) result }
    ensures unread { IsUnread (map string_bytes words.now) → source.new ≡ source.old }
{
    match command_of(words) {
        Some(command) => answer_of(alloc, command, source, &mut choosers),
        None => Ok(Answer::Usage),
    }
}

/// The answer of a command to the source.
fn answer_of<S: Source>(
    alloc: Global,
    command: Command,
    source: &mut S,
    choosers: &mut Choosers,
) -> Result<Answer, ReadAll>
    requires { HasGrid command }
    ensures answer { IsAnswered command (passage S.left S.faults source.old source.new) result }
    ensures unread { ReadsNothing command → source.new ≡ source.old }
{
    match command {
        Command::Check(property) => claim_answer(alloc, CertificateClaim::Flow(property), source),
        Command::CheckLayout(rect, tier) => {
            claim_answer(alloc, CertificateClaim::NoLayout(rect, tier), source)
        }
        Command::CheckSame => claim_answer(alloc, CertificateClaim::Same, source),
        _ => whole_answer(alloc, command, source, choosers),
    }
}

/// The answer of a command to the source, which is read whole.
fn whole_answer<S: Source>(
    alloc: Global,
    command: Command,
    source: &mut S,
    choosers: &mut Choosers,
) -> Result<Answer, ReadAll>
    requires grid { HasGrid command }
    requires whole { IsReadWhole command }
    ensures answer { IsAnswered command (passage S.left S.faults source.old source.new) result }
    ensures unread { ReadsNothing command → source.new ≡ source.old }
{
    match read_input(alloc, command, source) {
        Ok(bytes) => match right_answer(alloc, command, &bytes, choosers) {
            Ok(answer) => Ok(answer),
            Err(_) => Err(ReadAll::Memory),
        },
        Err(fault) => Err(fault),
    }
}

/// The answer of a command to the bytes of its input.
fn right_answer(
    alloc: Global,
    command: Command,
    bytes: &[u8],
    choosers: &mut Choosers,
) -> Result<Answer, AllocError>
    requires grid { HasGrid command }
    requires whole { IsReadWhole command }
    ensures { UnlessMemory alloc_error (IsRightTo command bytes.now) result }
{
    match command {
        Command::FlowCheck(property) => flow_check(alloc, property, bytes),
        Command::Recover => recover(alloc, bytes),
        Command::Decide(property, limits) => {
            decide(
                alloc,
                property,
                limits,
                bytes,
                choosers.take_decisions(alloc),
            )
        }
        Command::Make(family, order, limits) => {
            make(alloc, family, order, limits, choosers.take_decisions(alloc))
        }
        Command::Layout(rect, tier, learnt) => {
            layout(
                alloc,
                rect,
                tier,
                learnt,
                bytes,
                choosers.take_layouts(alloc),
            )
        }
        Command::Smallest(first, most, tier, learnt) => {
            smallest(alloc, first, most, tier, learnt, bytes)
        }
        Command::FindSmall(most, tier, sides, learnt) => {
            smallest_found(alloc, most, tier, sides, learnt, bytes)
        }
        Command::FlowFormula(property) => flow_formula(alloc, property, bytes),
        Command::PlaceFormula(rect, tier) => place_formula(alloc, rect, tier, bytes),
        Command::Same(limits) => same(alloc, limits, bytes, choosers.take_decisions(alloc)),
        Command::Build(wish, inputs, outputs, limits, text) => {
            build(alloc, wish, inputs, outputs, limits, text)
        }
        Command::Check(_) | Command::CheckLayout(..) | Command::CheckSame => unreachable!(),
    }
}

/// Gives the answer's text to the sink, and gives the status.
fn told<K: Sink>(alloc: Global, answer: Answer, sink: &mut K) -> u8
    ensures { IsToldUnlessMemory answer (passage K.held K.faults sink.old sink.new) result }
{
    let status = tell(alloc, &answer, sink);
    drop(answer);
    status
}

/// Gives the text of an answer, which is lent, to the sink, and gives the status.
fn tell<K: Sink>(alloc: Global, answer: &Answer, sink: &mut K) -> u8
    ensures { IsToldUnlessMemory answer.now (passage K.held K.faults sink.old sink.new) result }
{
    match formed_of(alloc, answer) {
        Ok(formed) => status_after(answer.status(), print_answer(answer, &formed, sink)),
        Err(_) => NO_MEMORY,
    }
}

/// The status after a text was given to the sink: that of the answer, or that of a fault.
fn status_after(status: u8, written: Result<(), WriteFault>) -> u8
    ensures { result ≡ status_after status written }
{
    match written {
        Ok(()) => status,
        Err(_) => WRITE_FAULT,
    }
}
