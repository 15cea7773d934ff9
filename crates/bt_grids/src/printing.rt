//! Writing what a search for the least grid comes to, and one for small grids, line by line, without memory.
ghost use Rattle.std.specs.Prelude.{◌≡◌, ◌++◌, IfOk, List};
ghost use Rattle.bt_io.specs.Bytes.{WritesText};
ghost use Rattle.bt_io.specs.Passages.{passage};
ghost use Rattle.bt_grids.specs.SmallestText.{blueprint_of, earlier_text, from_line, grid_line, nowhere_text};
ghost use Rattle.bt_grids.specs.SmallestText.{least_text, rect_line, ruled_out_text, smallest_text, spent_on_text};
ghost use Rattle.bt_grids.specs.SmallestText.{blueprint_of_small, found_none_text, small_text};

use crate::outcome::{RuledOut, Small, Smallest};
use bt_io::{Sink, WriteFault, write_all_of, write_pieces};
use bt_log::Log;
use bt_parts::{Priority, Rect};
use itoa::Buffer;
use std::alloc::{AllocError, Global};

/// The blueprint of the parts that were found, with these priorities; else nothing.
pub fn blueprint_of(
    alloc: Global,
    answer: &Smallest,
    priorities: &[Priority],
) -> Result<Vec<u8>, AllocError>
    ensures { IfOk result (λ text. text.items ≡ blueprint_of answer.now priorities.now) }
{
    match answer {
        Smallest::Found { parts, .. } => bt_entities::text_of(alloc, parts, priorities),
        Smallest::Nowhere(_) | Smallest::Spent { .. } => Ok(Vec::new(alloc)),
    }
}

/// Writes the text of what a search comes to, which begins with the first grid where one is named, and where this is
/// the blueprint of the parts that were found.
///
/// Where the sink fails, which its count of faults shows, a proper prefix of the text was written.
pub fn print_smallest<K: Sink>(
    first: Option<Rect>,
    answer: &Smallest,
    blueprint: &[u8],
    sink: &mut K,
) -> Result<(), WriteFault>
    ensures { (priorities : List Priority) → blueprint.now ≡ blueprint_of answer.now priorities
        → WritesText (passage K.held K.faults sink.old sink.new)
        (smallest_text first answer.now priorities) result }
{
    print_from(first, sink)?;
    print_least(answer, blueprint, sink)
}

/// Writes the line of the grid with which a search begins, where one is named.
fn print_from<K: Sink>(first: Option<Rect>, sink: &mut K) -> Result<(), WriteFault>
    ensures { WritesText (passage K.held K.faults sink.old sink.new) (from_line first) result }
{
    match first {
        Some(first) => print_rect(b"from ", first, sink),
        None => Ok(()),
    }
}

/// Writes what a search comes to, but for where it begins: the grids that are ruled out, and the one on which parts
/// were found with their blueprint; or the grid whose log is used up, with the log.
fn print_least<K: Sink>(answer: &Smallest, blueprint: &[u8], sink: &mut K) -> Result<(), WriteFault>
    ensures { (priorities : List Priority) → blueprint.now ≡ blueprint_of answer.now priorities
        → WritesText (passage K.held K.faults sink.old sink.new) (least_text answer.now priorities) result }
{
    match answer {
        Smallest::Found { earlier, grid, .. } => print_found(earlier, *grid, blueprint, sink),
        Smallest::Nowhere(earlier) => print_earlier(earlier, sink),
        Smallest::Spent { grid, log, .. } => print_spent(*grid, log, sink),
    }
}

/// The blueprint of the parts that were found on a small grid, with these priorities; else nothing.
pub fn blueprint_of_small(
    alloc: Global,
    small: &Small,
    priorities: &[Priority],
) -> Result<Vec<u8>, AllocError>
    ensures { IfOk result (λ text. text.items ≡ blueprint_of_small small.now priorities.now) }
{
    match small {
        Small::Found { parts, .. } => bt_entities::text_of(alloc, parts, priorities),
        Small::Spent(_) => Ok(Vec::new(alloc)),
    }
}

/// Writes the text of what looking for small layouts comes to, where this is the blueprint of the parts that
/// were found.
///
/// Where the sink fails, which its count of faults shows, a proper prefix of the text was written.
pub fn print_small<K: Sink>(small: &Small, blueprint: &[u8], sink: &mut K) -> Result<(), WriteFault>
    ensures { (priorities : List Priority) → blueprint.now ≡ blueprint_of_small small.now priorities
        → WritesText (passage K.held K.faults sink.old sink.new) (small_text small.now priorities) result }
{
    match small {
        Small::Found { grid, .. } => print_found(&[], *grid, blueprint, sink),
        Small::Spent(steps) => print_found_none(*steps, sink),
    }
}

/// Writes that no layout was found in so many steps.
fn print_found_none<K: Sink>(steps: u64, sink: &mut K) -> Result<(), WriteFault>
    ensures { WritesText (passage K.held K.faults sink.old sink.new) (found_none_text steps) result }
{
    let mut buffer = Buffer::new();
    write_pieces(
        sink,
        &[b"spent ", buffer.format(steps).as_bytes(), b"\nend\n"],
    )
}

/// Writes the certificate that no layout lays a request.
///
/// Where the sink fails, which its count of faults shows, a proper prefix of the text was written.
pub fn print_none<K: Sink>(log: &Log, sink: &mut K) -> Result<(), WriteFault>
    ensures { WritesText (passage K.held K.faults sink.old sink.new) (nowhere_text log.now.steps) result }
{
    write_all_of(sink, b"none\n")?;
    log.print(sink)
}

/// Writes the grids that are ruled out, and the grid and the blueprint of the parts that were found.
fn print_found<K: Sink>(
    earlier: &[RuledOut],
    grid: Rect,
    blueprint: &[u8],
    sink: &mut K,
) -> Result<(), WriteFault>
    ensures { WritesText (passage K.held K.faults sink.old sink.new)
        (earlier_text earlier.now ++ grid_line grid ++ blueprint.now) result }
{
    print_earlier(earlier, sink)?;
    print_grid(grid, sink)?;
    write_all_of(sink, blueprint)
}

/// Writes the grids that are ruled out, each with its certificate.
fn print_earlier<K: Sink>(earlier: &[RuledOut], sink: &mut K) -> Result<(), WriteFault>
    ensures { WritesText (passage K.held K.faults sink.old sink.new) (earlier_text earlier.now) result }
{
    for one in earlier {
        print_ruled_out(one, sink)?;
    }
    Ok(())
}

/// Writes a grid that is ruled out, with the certificate that no layout lies on it.
fn print_ruled_out<K: Sink>(one: &RuledOut, sink: &mut K) -> Result<(), WriteFault>
    ensures { WritesText (passage K.held K.faults sink.old sink.new) (ruled_out_text one.now) result }
{
    print_grid(one.grid, sink)?;
    print_none(&one.log, sink)
}

/// Writes the line of a grid.
fn print_grid<K: Sink>(grid: Rect, sink: &mut K) -> Result<(), WriteFault>
    ensures { WritesText (passage K.held K.faults sink.old sink.new) (grid_line grid) result }
{
    print_rect(b"grid ", grid, sink)
}

/// Writes the word, with a blank at its end, and behind it the width and the height of a grid, as a line.
fn print_rect<K: Sink>(word: &[u8], grid: Rect, sink: &mut K) -> Result<(), WriteFault>
    ensures { WritesText (passage K.held K.faults sink.old sink.new) (rect_line word.now grid) result }
{
    let mut width = Buffer::new();
    let mut height = Buffer::new();
    let width = width.format(grid.width).as_bytes();
    let height = height.format(grid.height).as_bytes();
    write_pieces(sink, &[word, width, b"x", height, b"\n"])
}

/// Writes the number of steps of a log that is used up, the grid of its search, and the log.
fn print_spent<K: Sink>(grid: Rect, log: &Log, sink: &mut K) -> Result<(), WriteFault>
    ensures { WritesText (passage K.held K.faults sink.old sink.new)
        (spent_on_text grid log.now.steps) result }
{
    let mut steps = Buffer::new();
    write_pieces(
        sink,
        &[b"spent ", steps.format(log.len()).as_bytes(), b"\n"],
    )?;
    print_grid(grid, sink)?;
    log.print(sink)
}
