//! Writing the texts of traces, line by line, without memory.
ghost use Rattle.std.specs.Prelude.{◌≡◌, ◌++◌, codes};
ghost use Rattle.bt_text.specs.Lines.{line};
ghost use Rattle.bt_io.specs.Bytes.{WritesText};
ghost use Rattle.bt_io.specs.Passages.{passage};
ghost use Rattle.bt_print.specs.TraceText.{number_text, numbers_text, pivot_line, pivot_lines, trace_text};
ghost use Rattle.bt_print.specs.TraceText.{pivots_text, wide_head, wide_end, numbers_and_end, wide_text, place_name, operation_name};

use bt_frac::TEXT_MAX;
use bt_io::{Sink, WriteFault, write_all_of, write_pieces};
use bt_simplex::{Operation, Pivot, PivotTrace, Wide, WidePlace};
use itoa::Buffer;

/// Writes the one text of a trace whose pivots are as many as they may be: the line `pivots` with their
/// number, the line `start` with the positions of the first basis, the line `bound` with the bound rows,
/// a line `turn` for each pivot with the positions that leave and enter, and the line `end`.
///
/// Where the sink fails, which its count of faults shows, a proper prefix of the text was written.
pub fn print_pivots<K: Sink>(trace: &PivotTrace, sink: &mut K) -> Result<(), WriteFault>
    ensures { WritesText (passage K.held K.faults sink.old sink.new) (pivots_text trace.now) result }
{
    let mut steps = Buffer::new();
    let steps = steps.format(trace.steps.len()).as_bytes();
    write_pieces(sink, &[b"pivots ", steps, b"\n"])?;
    print_trace(trace, sink)?;
    write_all_of(sink, b"end\n")
}

/// Writes the one text of where a check met numbers that leave 128 bits: the line `wide` with what they
/// are for, a row and a column, the lines of its trace, the line `numbers` with the operation and its two
/// numbers, and the line `end`.
///
/// Where the sink fails, which its count of faults shows, a proper prefix of the text was written.
pub fn print_wide<K: Sink>(wide: &Wide, sink: &mut K) -> Result<(), WriteFault>
    ensures { WritesText (passage K.held K.faults sink.old sink.new) (wide_text wide.now) result }
{
    print_wide_head(wide, sink)?;
    print_trace(&wide.trace, sink)?;
    print_wide_end(wide, sink)
}

/// Writes the line `wide`: what the numbers are for, and their row and column.
fn print_wide_head<K: Sink>(wide: &Wide, sink: &mut K) -> Result<(), WriteFault>
    ensures { WritesText (passage K.held K.faults sink.old sink.new) (wide_head wide.now) result }
{
    let mut row = Buffer::new();
    let mut column = Buffer::new();
    let place = place_name(wide.place).as_bytes();
    let row = row.format(wide.row).as_bytes();
    let column = column.format(wide.column).as_bytes();
    write_pieces(sink, &[b"wide ", place, b" ", row, b" ", column, b"\n"])
}

/// Writes the line `numbers` with an operation and its two numbers, and the line `end`.
fn print_wide_end<K: Sink>(wide: &Wide, sink: &mut K) -> Result<(), WriteFault>
    ensures { WritesText (passage K.held K.faults sink.old sink.new) (wide_end wide.now) result }
{
    let mut left = [0; TEXT_MAX];
    let mut right = [0; TEXT_MAX];
    let left_len = wide.left.text(&mut left);
    let right_len = wide.right.text(&mut right);
    let operation = operation_name(wide.operation).as_bytes();
    print_end(operation, &left[..left_len], &right[..right_len], sink)
}

/// Writes the word of an operation and its two numbers, and the last line.
fn print_end<K: Sink>(
    operation: &[u8],
    left: &[u8],
    right: &[u8],
    sink: &mut K,
) -> Result<(), WriteFault>
    ensures { WritesText (passage K.held K.faults sink.old sink.new)
        (numbers_and_end operation.now left.now right.now) result }
{
    write_pieces(
        sink,
        &[b"numbers ", operation, b" ", left, b" ", right, b"\nend\n"],
    )
}

/// Writes the lines of a trace.
fn print_trace<K: Sink>(trace: &PivotTrace, sink: &mut K) -> Result<(), WriteFault>
    ensures { WritesText (passage K.held K.faults sink.old sink.new) (trace_text trace.now) result }
{
    print_numbers(b"start", &trace.start, sink)?;
    print_numbers(b"bound", &trace.bound, sink)?;
    print_pivot_lines(&trace.steps, sink)
}

/// Writes a line: its word, and numbers.
fn print_numbers<K: Sink>(word: &[u8], numbers: &[usize], sink: &mut K) -> Result<(), WriteFault>
    ensures { WritesText (passage K.held K.faults sink.old sink.new)
        (line (word.now ++ numbers_text numbers.now)) result }
{
    print_words(word, numbers, sink)?;
    write_all_of(sink, b"\n")
}

/// Writes a word, and numbers behind it.
fn print_words<K: Sink>(word: &[u8], numbers: &[usize], sink: &mut K) -> Result<(), WriteFault>
    ensures { WritesText (passage K.held K.faults sink.old sink.new)
        (word.now ++ numbers_text numbers.now) result }
{
    write_all_of(sink, word)?;
    for number in numbers {
        print_number(*number, sink)?;
    }
    Ok(())
}

/// Writes a space and a number.
fn print_number<K: Sink>(number: usize, sink: &mut K) -> Result<(), WriteFault>
    ensures { WritesText (passage K.held K.faults sink.old sink.new) (number_text number) result }
{
    let mut buffer = Buffer::new();
    write_pieces(sink, &[b" ", buffer.format(number).as_bytes()])
}

/// Writes a line for each pivot.
fn print_pivot_lines<K: Sink>(steps: &[Pivot], sink: &mut K) -> Result<(), WriteFault>
    ensures { WritesText (passage K.held K.faults sink.old sink.new) (pivot_lines steps.now) result }
{
    for step in steps {
        print_pivot(*step, sink)?;
    }
    Ok(())
}

/// Writes the line of a pivot: which position leaves the basis, and which enters.
fn print_pivot<K: Sink>(step: Pivot, sink: &mut K) -> Result<(), WriteFault>
    ensures { WritesText (passage K.held K.faults sink.old sink.new) (pivot_line step) result }
{
    let mut leaves = Buffer::new();
    let mut enters = Buffer::new();
    let leaves = leaves.format(step.leaves).as_bytes();
    let enters = enters.format(step.enters).as_bytes();
    write_pieces(sink, &[b"turn ", leaves, b" ", enters, b"\n"])
}

/// The word for what a check forms numbers for.
fn place_name(place: WidePlace) -> &'static str
    ensures { result.now ≡ place_name place }
{
    match place {
        WidePlace::Entry => "entry",
        WidePlace::Value => "value",
        WidePlace::Settle => "settle",
        WidePlace::Lemma => "lemma",
    }
}

/// The word for an operation.
fn operation_name(operation: Operation) -> &'static str
    ensures { result.now ≡ operation_name operation }
{
    match operation {
        Operation::Add => "add",
        Operation::Mul => "mul",
        Operation::Div => "div",
    }
}
