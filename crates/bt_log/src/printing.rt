//! Writing the line of a step, word by word, without memory.
ghost use Rattle.std.specs.Prelude.{◌++◌, codes};
ghost use Rattle.bt_io.specs.Bytes.{WritesText};
ghost use Rattle.bt_io.specs.Passages.{passage};
ghost use Rattle.bt_log.specs.LogText.{words, lit_text, step_line};
ghost use Rattle.bt_log.specs.Views.{step_of};

use crate::step::StepView;
use crate::word::Spelled;
use bt_cnf::Packed;
use bt_io::{Sink, WriteFault, write_all_of};

/// Writes a step's line: that of a lemma begins with `f`, that of a learnt clause with `r`.
pub fn print_step<K: Sink>(step: StepView<'_>, sink: &mut K) -> Result<(), WriteFault>
    ensures { WritesText (passage K.held K.faults sink.old sink.new) (step_line (step_of step.entry)) result }
{
    match step {
        StepView::Lemma { lits, weights } => print_parts(b"f", lits, weights, b"\n", sink),
        StepView::Learnt { lits, hints } => print_parts(b"r", lits, hints, b" 0\n", sink),
    }
}

/// Writes a head, the words of literals, a 0, the words of items, and an end.
fn print_parts<T: Spelled, K: Sink>(
    head: &[u8],
    lits: &[Packed],
    items: &[T],
    end: &[u8],
    sink: &mut K,
) -> Result<(), WriteFault>
    ensures { WritesText (passage K.held K.faults sink.old sink.new)
        (head.now ++ words lit_text lits.now ++ (codes " 0" ++ words T.text items.now) ++ end.now) result }
{
    print_words(head, lits, sink)?;
    print_words(b" 0", items, sink)?;
    write_all_of(sink, end)
}

/// Writes a head, and a word for each item, each after a space, without memory.
pub fn print_words<T: Spelled, K: Sink>(
    head: &[u8],
    items: &[T],
    sink: &mut K,
) -> Result<(), WriteFault>
    ensures { WritesText (passage K.held K.faults sink.old sink.new)
        (head.now ++ words T.text items.now) result }
{
    write_all_of(sink, head)?;
    for item in items {
        write_all_of(sink, item.word().as_bytes())?;
    }
    Ok(())
}
