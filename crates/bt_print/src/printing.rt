//! Writing texts of several lines, line by line, without memory.
ghost use Rattle.bt_io.specs.Bytes.{WritesText};
ghost use Rattle.bt_io.specs.Passages.{passage};
ghost use Rattle.std.specs.Prelude.{◌≡◌};
ghost use Rattle.bt_print.specs.Answers.{balance_word, built_text, family_name, gave_up_text, made_text, proved_text, same_text, spent_text, extended_log_text, text_of};
ghost use Rattle.bt_print.specs.Lines.{formed_text};

use crate::answer::Answer;
use crate::formulas::{print_flow_formula, print_place_formula};
use crate::made::Made;
use crate::networks::{print, print_with};
use crate::traces::{print_pivots, print_wide};
use bt_extend::{Definition, print_definitions};
use bt_flow::{Property, print_state};
use bt_grids::{print_none, print_small, print_smallest};
use bt_io::{Sink, WriteFault, write_all_of, write_pieces};
use bt_log::Log;
use bt_net::Net;
use bt_same::print_pair;
use bt_theory::GaveUp;
use bt_words::{BuiltText, NetworkFamily};
use itoa::Buffer;

/// Gives an answer's text to the sink, where this is what had to be formed of it.
pub fn print_answer<K: Sink>(answer: &Answer, formed: &[u8], sink: &mut K) -> Result<(), WriteFault>
    requires { formed.now ≡ formed_text answer.now }
    ensures { WritesText (passage K.held K.faults sink.old sink.new) (text_of answer.now) result }
{
    match answer {
        Answer::Brief(_) => write_all_of(sink, formed),
        Answer::LaidOut(..) => write_all_of(sink, formed),
        Answer::Least(first, found, _) => print_smallest(*first, found, formed, sink),
        Answer::Small(found, _) => print_small(found, formed, sink),
        Answer::Usage => write_all_of(sink, b"usage\n"),
        Answer::TooLong => write_all_of(sink, b"too long\n"),
        Answer::NotFound => write_all_of(sink, b"not found\n"),
        Answer::Recovered(net) => print(net, sink),
        Answer::Proved(property, definitions, log) => {
            print_proof(*property, definitions, log, sink)
        }
        Answer::Broken(property, state) => print_state(state, *property, sink),
        Answer::GaveUp(cause) => print_gave_up(&[], cause, sink),
        Answer::Undecided(definitions, cause) => print_gave_up(definitions, cause, sink),
        Answer::Made(made) => print_made(made, sink),
        Answer::Nowhere(log) => print_none(log, sink),
        Answer::FlowFormula(columns, formula) => print_flow_formula(*columns, formula, sink),
        Answer::PlaceFormula(starts, formula) => print_place_formula(*starts, formula, sink),
        Answer::Same(definitions, log) => print_same(definitions, log, sink),
        Answer::Differ(pair) => print_pair(pair, sink),
        Answer::Built(net, text) => print_built(net, *text, sink),
    }
}

/// Writes the certificate that a network has a property: the line `yes`, the definitions, and the steps of the log.
fn print_proof<K: Sink>(
    property: Property,
    definitions: &[Definition],
    log: &Log,
    sink: &mut K,
) -> Result<(), WriteFault>
    ensures { WritesText (passage K.held K.faults sink.old sink.new)
        (proved_text property definitions.now log.now.steps) result }
{
    write_pieces(sink, &[b"yes ", property.name().as_bytes(), b"\n"])?;
    print_extended_log(definitions, log, sink)
}

/// Writes the lines of definitions, and the steps of a log.
fn print_extended_log<K: Sink>(
    definitions: &[Definition],
    log: &Log,
    sink: &mut K,
) -> Result<(), WriteFault>
    ensures { WritesText (passage K.held K.faults sink.old sink.new)
        (extended_log_text definitions.now log.now.steps) result }
{
    print_definitions(definitions, sink)?;
    log.print(sink)
}

/// Writes the certificate that two networks behave the same.
fn print_same<K: Sink>(
    definitions: &[Definition],
    log: &Log,
    sink: &mut K,
) -> Result<(), WriteFault>
    ensures { WritesText (passage K.held K.faults sink.old sink.new)
        (same_text definitions.now log.now.steps) result }
{
    write_all_of(sink, b"same\n")?;
    print_extended_log(definitions, log, sink)
}

/// Writes why a search was given up: the log whose steps are used up, over the formula that the definitions extend, or
/// the trace of a check.
fn print_gave_up<K: Sink>(
    definitions: &[Definition],
    cause: &GaveUp,
    sink: &mut K,
) -> Result<(), WriteFault>
    ensures { WritesText (passage K.held K.faults sink.old sink.new)
        (gave_up_text definitions.now cause.now) result }
{
    match cause {
        GaveUp::Spent(log) => print_spent(definitions, log, sink),
        GaveUp::Pivots(trace) => print_pivots(trace, sink),
        GaveUp::Wide(wide) => print_wide(wide, sink),
    }
}

/// Writes the line `spent` with the number of steps, and the definitions and the steps of a log that is used up.
fn print_spent<K: Sink>(
    definitions: &[Definition],
    log: &Log,
    sink: &mut K,
) -> Result<(), WriteFault>
    ensures { WritesText (passage K.held K.faults sink.old sink.new)
        (spent_text definitions.now log.now.steps) result }
{
    let mut steps = Buffer::new();
    write_pieces(
        sink,
        &[b"spent ", steps.format(log.len()).as_bytes(), b"\n"],
    )?;
    print_extended_log(definitions, log, sink)
}

/// Writes the lines of a network that was made.
fn print_made<K: Sink>(made: &Made, sink: &mut K) -> Result<(), WriteFault>
    ensures { WritesText (passage K.held K.faults sink.old sink.new) (made_text made.now) result }
{
    let mut order = Buffer::new();
    let mut edges = Buffer::new();
    let mut outputs = Buffer::new();
    let family = family_name(made.family).as_bytes();
    let order = order.format(made.order).as_bytes();
    let edges = edges.format(made.edges).as_bytes();
    let outputs = outputs.format(made.outputs).as_bytes();
    let balance = balance_word(made.balanced).as_bytes();
    write_pieces(
        sink,
        &[
            family,
            b" ",
            order,
            b"\nedges ",
            edges,
            b"\noutputs ",
            outputs,
            b"\n",
            balance,
            b" balanced\n",
        ],
    )
}

/// Writes a network that is built, which may be as a request for a layout.
fn print_built<K: Sink>(net: &Net, text: BuiltText, sink: &mut K) -> Result<(), WriteFault>
    ensures { WritesText (passage K.held K.faults sink.old sink.new) (built_text text net.now) result }
{
    match text {
        BuiltText::Network => print(net, sink),
        BuiltText::Request => print_with(
            net,
            b"side inputs south\nside outputs north\nrow inputs\nrow outputs\n",
            sink,
        ),
    }
}

/// The word for a kind of network.
fn family_name(family: NetworkFamily) -> &'static str
    ensures { result.now ≡ family_name family }
{
    match family {
        NetworkFamily::Butterfly => "butterfly",
        NetworkFamily::Chain => "chain",
    }
}

/// The word for whether a network is balanced.
fn balance_word(balanced: bool) -> &'static str
    ensures { result.now ≡ balance_word balanced }
{
    if balanced { "yes" } else { "no" }
}
