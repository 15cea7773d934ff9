//! Writing the text of a pair of states, line by line, without memory.
ghost use Rattle.std.specs.Prelude.{◌++◌, codes};
ghost use Rattle.bt_io.specs.Bytes.{WritesText};
ghost use Rattle.bt_io.specs.Passages.{passage};
ghost use Rattle.bt_flow.specs.StateText.{ends_text, edges_text};
ghost use Rattle.bt_same.specs.PairText.{printed_pair};

use crate::pair::Pair;
use bt_flow::{State, print_edges, print_ends};
use bt_io::{Sink, WriteFault, write_all_of};

/// Writes the one text of a pair, a differ certificate: the line `differ`, the lines `load` and `room` of its first
/// state with a fraction for each input and output, and of each state the line `flow` with a fraction for each edge
/// and the line `mark` with `f` (free) or `b` (backed) for each; and the line `end`.
///
/// Where the sink fails, which its count of faults shows, a proper prefix of the text was written.
pub fn print_pair<K: Sink>(pair: &Pair, sink: &mut K) -> Result<(), WriteFault>
    ensures { WritesText (passage K.held K.faults sink.old sink.new) (printed_pair pair.now) result }
{
    print_head(&pair.first, sink)?;
    print_edges(&pair.first, sink)?;
    print_tail(&pair.second, sink)
}

/// Writes the title, and the loads and rooms of the first state.
fn print_head<K: Sink>(state: &State, sink: &mut K) -> Result<(), WriteFault>
    ensures { WritesText (passage K.held K.faults sink.old sink.new)
        (codes "differ\n" ++ ends_text state.now) result }
{
    write_all_of(sink, b"differ\n")?;
    print_ends(state, sink)
}

/// Writes the flows and marks of the second state, and the last line.
fn print_tail<K: Sink>(state: &State, sink: &mut K) -> Result<(), WriteFault>
    ensures { WritesText (passage K.held K.faults sink.old sink.new)
        (edges_text state.now ++ codes "end\n") result }
{
    print_edges(state, sink)?;
    write_all_of(sink, b"end\n")
}
