//! Writing the text of a state, word by word, without memory.
ghost use Rattle.std.specs.Prelude.{◌≡◌, ◌≤◌, ◌∷◌, ◌++◌, [], ℕ, List, map, take, codes};
ghost use Rattle.bt_text.specs.Lines.{line};
ghost use Rattle.bt_io.specs.Bytes.{WritesText};
ghost use Rattle.bt_io.specs.Passages.{passage};
ghost use Rattle.bt_flow.specs.StateText.{mark_text, spaced, ends_text, edges_text, printed_state};
ghost use Rattle.bt_flow.specs.StateReading.{PrintedStateIsRead};
ghost use Rattle.bt_flow.specs.inner.Printing.{words, title_line, head_text};

use crate::property::Property;
use crate::state::State;
use bt_frac::{Frac, TEXT_MAX};
use bt_io::{Sink, WriteFault, write_all_of};

/// Writes the one text of a state for a property: the line `no` and the property's name, the lines
/// `load`, `room` and `flow` with a fraction for each input, output and edge, the line `mark` with `f`
/// (free) or `b` (backed) for each edge, and the line `end`.
///
/// Where the sink fails, which its count of faults shows, a proper prefix of the text was written.
pub fn print_state<K: Sink>(
    state: &State,
    property: Property,
    sink: &mut K,
) -> Result<(), WriteFault>
    ensures { WritesText (passage K.held K.faults sink.old sink.new)
        (printed_state property state.now) result }
{
    print_head(state, property, sink)?;
    print_edges(state, sink)?;
    write_all_of(sink, b"end\n")
}

/// What is written of a state is read as that state.
pub fn printed_state_is_read()
    ensures { PrintedStateIsRead }
{}

/// Writes the line `load` of a state, with a fraction for each input, and the line `room`, with one for each output.
pub fn print_ends<K: Sink>(state: &State, sink: &mut K) -> Result<(), WriteFault>
    ensures { WritesText (passage K.held K.faults sink.old sink.new) (ends_text state.now) result }
{
    print_line(b"load", state.loads(), sink)?;
    print_line(b"room", state.rooms(), sink)
}

/// Writes the line `flow` of a state, with a fraction for each edge, and the line `mark`, with `f` (free) or `b`
/// (backed) for each.
pub fn print_edges<K: Sink>(state: &State, sink: &mut K) -> Result<(), WriteFault>
    ensures { WritesText (passage K.held K.faults sink.old sink.new) (edges_text state.now) result }
{
    print_line(b"flow", state.flows(), sink)?;
    print_line(b"mark", state.backed(), sink)
}

/// Writes the line `no` of a state for a property, and the lines `load` and `room`.
fn print_head<K: Sink>(state: &State, property: Property, sink: &mut K) -> Result<(), WriteFault>
    ensures { WritesText (passage K.held K.faults sink.old sink.new) (head_text property state.now) result }
{
    print_title(property, sink)?;
    print_ends(state, sink)
}

/// Writes the line `no`, with the property's name.
fn print_title<K: Sink>(property: Property, sink: &mut K) -> Result<(), WriteFault>
    ensures { WritesText (passage K.held K.faults sink.old sink.new) (title_line property) result }
{
    write_all_of(sink, b"no ")?;
    write_all_of(sink, property.name().as_bytes())?;
    write_all_of(sink, b"\n")
}

/// Writes a line: its name, and a word for each item.
fn print_line<T: Spelled, K: Sink>(name: &[u8], items: &[T], sink: &mut K) -> Result<(), WriteFault>
    ensures { WritesText (passage K.held K.faults sink.old sink.new)
        (line (name.now ++ spaced (map T.word items.now))) result }
{
    print_words(name, items, sink)?;
    write_all_of(sink, b"\n")
}

/// Writes a head, and for each item a space and its word.
fn print_words<T: Spelled, K: Sink>(
    head: &[u8],
    items: &[T],
    sink: &mut K,
) -> Result<(), WriteFault>
    ensures { WritesText (passage K.held K.faults sink.old sink.new)
        (head.now ++ words T.word items.now) result }
{
    write_all_of(sink, head)?;
    for item in items {
        print_word(item, sink)?;
    }
    Ok(())
}

/// Writes a space and a word.
fn print_word<T: Spelled, K: Sink>(item: &T, sink: &mut K) -> Result<(), WriteFault>
    ensures { WritesText (passage K.held K.faults sink.old sink.new) (codes " " ++ T.word item.now) result }
{
    let mut buffer = [0; TEXT_MAX];
    let len = item.spell(&mut buffer);
    write_all_of(sink, b" ")?;
    write_all_of(sink, &buffer[..len])
}

/// The letter of a mark: `b` for a backed edge, and `f` for a free one.
fn mark(backed: bool) -> u8
    ensures { result ∷ [] ≡ mark_text backed }
{
    if backed { b'b' } else { b'f' }
}

/// What a line of a state has as a word.
trait Spelled {
    // The word.
    ghost word: { Self → List ℕ };

    /// Writes the word to the front of a buffer, and gives its length.
    fn spell(&self, buffer: &mut [u8; TEXT_MAX]) -> usize
        ensures within { result ≤ TEXT_MAX }
        ensures written { take result buffer.new ≡ word self.now };
}

impl Spelled for Frac {
    ghost use Rattle.bt_frac.specs.Texts.{frac_text};

    ghost word = { frac_text };

    fn spell(&self, buffer: &mut [u8; TEXT_MAX]) -> usize {
        self.text(buffer)
    }
}

/// Whether an edge is backed: `b` where it is, and `f` where it is free.
impl Spelled for bool {
    ghost use Rattle.bt_flow.specs.StateText.{mark_text};

    ghost word = { mark_text };

    fn spell(&self, buffer: &mut [u8; TEXT_MAX]) -> usize {
        buffer[0] = mark(*self);
        1
    }
}
