//! Writing what blocks of variables mean, a line each, without memory.
ghost use Rattle.std.specs.Prelude.{◌≡◌, map};
ghost use Rattle.std.specs.List.{flat_map};
ghost use Rattle.bt_io.specs.Bytes.{WritesText};
ghost use Rattle.bt_io.specs.Passages.{passage};
ghost use Rattle.bt_print.specs.Legends.{block_line, place_blocks};
ghost use Rattle.bt_print.specs.inner.Blocks.{block_told};

use bt_io::{Sink, WriteFault, write_pieces};
use bt_place::Starts;
use itoa::Buffer;

/// Variables that stand next to one another.
#[derive(Clone, Copy)]
pub struct Block {
    /// The first variable, from 0.
    pub from: usize,
    /// The one after the last.
    pub end: usize,
    /// What they mean.
    pub meaning: &'static str,
}

/// The blocks of a placement formula.
pub fn place_blocks(starts: Starts) -> [Block; 18]
    ensures { map block_told result ≡ place_blocks starts }
{
    [
        Block {
            from: 0,
            end: starts.halves,
            meaning: "carries cell class",
        },
        Block {
            from: starts.halves,
            end: starts.belts,
            meaning: "half cell",
        },
        Block {
            from: starts.belts,
            end: starts.begins,
            meaning: "belt cell",
        },
        Block {
            from: starts.begins,
            end: starts.starts,
            meaning: "begins cell",
        },
        Block {
            from: starts.starts,
            end: starts.stops,
            meaning: "starts cell input",
        },
        Block {
            from: starts.stops,
            end: starts.lies,
            meaning: "stops cell output",
        },
        Block {
            from: starts.lies,
            end: starts.pairs,
            meaning: "lies cell row",
        },
        Block {
            from: starts.pairs,
            end: starts.tunnels,
            meaning: "pair cell direction distance",
        },
        Block {
            from: starts.tunnels,
            end: starts.goings,
            meaning: "tunnel cell direction",
        },
        Block {
            from: starts.goings,
            end: starts.columns,
            meaning: "goes cell direction",
        },
        Block {
            from: starts.columns,
            end: starts.rows,
            meaning: "column splitter x",
        },
        Block {
            from: starts.rows,
            end: starts.points,
            meaning: "row splitter y",
        },
        Block {
            from: starts.points,
            end: starts.entering,
            meaning: "points splitter direction",
        },
        Block {
            from: starts.entering,
            end: starts.leaving,
            meaning: "enters splitter",
        },
        Block {
            from: starts.leaving,
            end: starts.held,
            meaning: "leaves splitter",
        },
        Block {
            from: starts.held,
            end: starts.kinds,
            meaning: "held spare half",
        },
        Block {
            from: starts.kinds,
            end: starts.places,
            meaning: "kind cell content",
        },
        Block {
            from: starts.places,
            end: starts.end,
            meaning: "at splitter cell direction",
        },
    ]
}

/// Writes a line for each block.
pub fn print_blocks<K: Sink>(blocks: &[Block], sink: &mut K) -> Result<(), WriteFault>
    ensures { WritesText (passage K.held K.faults sink.old sink.new)
        (flat_map (λ b. block_line (block_told b)) blocks.now) result }
{
    for block in blocks {
        print_block(block, sink)?;
    }
    Ok(())
}

/// Writes the line of a block: its first and its last variable, from 1, and what they mean.
pub fn print_block<K: Sink>(block: &Block, sink: &mut K) -> Result<(), WriteFault>
    ensures { WritesText (passage K.held K.faults sink.old sink.new)
        (block_line (block_told block.now)) result }
{
    let mut first = Buffer::new();
    let mut last = Buffer::new();
    let first = first.format(block.from as u128 + 1).as_bytes();
    let last = last.format(block.end).as_bytes();
    let meaning = block.meaning.as_bytes();
    write_pieces(
        sink,
        &[b"c block ", first, b" ", last, b" ", meaning, b"\n"],
    )
}
