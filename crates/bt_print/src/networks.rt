//! Writing the text of a network, line by line, without memory.
ghost use Rattle.std.specs.Prelude.{◌≡◌, ℕ, ◌<◌, ◌≤◌, ◌^◌, ◌++◌, codes, decimal, length, flat_map, Some};
ghost use Rattle.bt_io.specs.Bytes.{WritesText};
ghost use Rattle.bt_io.specs.Passages.{passage};
ghost use Rattle.bt_net.specs.NetText.{line, header, edge_text, net_text};
ghost use Rattle.bt_net.specs.Priorities.{merge_text, preference_text, splitter_text, priorities_text};
ghost use Rattle.bt_print.specs.NetTexts.{text_with};

use crate::line_buffer::LineBuffer;
use bt_io::{Sink, WriteFault, write_all_of, write_pieces};
use bt_net::{Edge, Net};

/// Writes the text of a network, which has its edges in their order, its priorities splitter by splitter, that
/// of the out edge first, and no pins.
///
/// Where the sink fails, which its count of faults shows, a proper prefix of the text was written.
pub fn print<K: Sink>(net: &Net, sink: &mut K) -> Result<(), WriteFault>
    ensures { WritesText (passage K.held K.faults sink.old sink.new) (net_text net.now) result }
{
    print_edges(net, sink)?;
    print_priorities(net, sink)?;
    write_all_of(sink, b"end\n")
}

/// Writes the text of a network with these lines before its last one, `end`.
pub fn print_with<K: Sink>(net: &Net, lines: &[u8], sink: &mut K) -> Result<(), WriteFault>
    ensures { WritesText (passage K.held K.faults sink.old sink.new) (text_with net.now lines.now) result }
{
    print_edges(net, sink)?;
    print_priorities(net, sink)?;
    write_pieces(sink, &[lines, b"end\n"])
}

/// Writes the header and the lines of edges.
fn print_edges<K: Sink>(net: &Net, sink: &mut K) -> Result<(), WriteFault>
    ensures { WritesText (passage K.held K.faults sink.old sink.new)
        (line (header net.now) ++ flat_map (λ e. line (edge_text e)) net.now.edges) result }
{
    write_all_of(sink, header_line(net).as_bytes())?;
    let edges = net.edges();
    for edge in edges {
        write_all_of(sink, edge_line(*edge).as_bytes())?;
    }
    Ok(())
}

/// Writes the lines of priorities.
fn print_priorities<K: Sink>(net: &Net, sink: &mut K) -> Result<(), WriteFault>
    ensures { WritesText (passage K.held K.faults sink.old sink.new) (priorities_text net.now) result }
{
    for splitter in 0..net.splitters() {
        print_splitter(net, splitter, sink)?;
    }
    Ok(())
}

/// Writes the lines of a splitter's priorities.
fn print_splitter<K: Sink>(net: &Net, splitter: u32, sink: &mut K) -> Result<(), WriteFault>
    ensures { WritesText (passage K.held K.faults sink.old sink.new) (splitter_text net.now splitter) result }
{
    // It is a network, so the numbers of its edges are small.
    let _edges = net.edges();
    print_preference(b"give s", splitter, net.give(splitter as usize), sink)?;
    print_preference(b"take s", splitter, net.take(splitter as usize), sink)?;
    print_merge(splitter, net.merges_any(splitter as usize), sink)
}

/// Writes the line that says that a splitter may prefer any in edge, where it may.
fn print_merge<K: Sink>(splitter: u32, any: bool, sink: &mut K) -> Result<(), WriteFault>
    ensures { WritesText (passage K.held K.faults sink.old sink.new) (merge_text splitter any) result }
{
    if any {
        write_all_of(sink, any_line(splitter).as_bytes())
    } else {
        Ok(())
    }
}

/// Writes the line that begins with a word and names the edge that a splitter prefers, where it prefers one.
fn print_preference<K: Sink>(
    word: &[u8],
    splitter: u32,
    preferred: Option<usize>,
    sink: &mut K,
) -> Result<(), WriteFault>
    requires word { length word.now ≤ 6 }
    requires edge { (a : ℕ) → preferred ≡ Some a → a < 2 ^ 32 }
    ensures { WritesText (passage K.held K.faults sink.old sink.new)
        (preference_text word.now splitter preferred) result }
{
    match preferred {
        Some(edge) => { write_all_of(sink, priority_line(word, splitter, edge as u32).as_bytes()) }
        None => Ok(()),
    }
}

/// The first line of a network's text, with the numbers of inputs, outputs and splitters.
fn header_line(net: &Net) -> LineBuffer
    ensures { result ≡ line (header net.now) }
{
    let mut line = LineBuffer::new();
    line.push(b"net ");
    line.push_number(net.inputs());
    line.push_spaced(net.outputs());
    line.push_spaced(net.splitters());
    line.push(b"\n");
    line
}

/// The line of an edge: where it starts and ends, and its cap where that isn't 1.
fn edge_line(edge: Edge) -> LineBuffer
    ensures { result ≡ line (edge_text edge) }
{
    let mut line = LineBuffer::new();
    line.push(b"edge ");
    line.push_start(edge.start);
    line.push(b" ");
    line.push_target(edge.target);
    line.push_cap(edge.cap);
    line.push(b"\n");
    line
}

/// The line that says that a splitter may prefer any in edge.
fn any_line(splitter: u32) -> LineBuffer
    ensures { result ≡ line (codes "take s" ++ decimal splitter ++ codes " any") }
{
    let mut line = LineBuffer::new();
    line.push(b"take s");
    line.push_number(splitter);
    line.push(b" any\n");
    line
}

/// The line that begins with a word and names a splitter, and the edge that it prefers.
fn priority_line(word: &[u8], splitter: u32, edge: u32) -> LineBuffer
    requires { length word.now ≤ 6 }
    ensures { result ≡ line (word.now ++ decimal splitter ++ codes " " ++ decimal edge) }
{
    let mut line = LineBuffer::new();
    line.push(word);
    line.push_number(splitter);
    line.push_spaced(edge);
    line.push(b"\n");
    line
}
