//! The belts between two ranks of a block: two rows of splitters, of which the lower one has two halves side by side, and each
//! half leads to all of the upper one. The upper splitters stand so that each lower one leads to the one over it, and to the
//! one as far into the other half: so half of the lines go straight to the north, and the others change places.
ghost use Rattle.std.specs.Prelude.{IsTrue};
ghost use Rattle.bt_model.specs.Requests.{IsGrid};

use crate::drawn::{Channel, drawn_channel};
use bt_model::{MOST_ACROSS, Request};
use bt_net::{Admitted, Edge, Net, NetFault, read};
use bt_parts::{Cell, Dir, Rect, Tier};
use hint_numbering::joined;
use hint_routing::{Effort, Negotiated, Places, Spans, Stand, negotiate};
use std::alloc::{AllocError, Global};

/// How many rows more than the fewest that are likely are tried.
const MORE_ROWS: u32 = 24;

/// How many chains may be laid for one channel.
const MOST_CHAINS: u32 = 40_000;

/// How long the chains of a channel negotiate: the splitters stay where they are, so only more rounds help.
const EFFORT: Effort = Effort {
    rounds: 600,
    patience: 150,
    trial: usize::MAX,
};

/// The fewest rows in which the router is likely to lead so many lines: half of the lines cross the middle, and hardly more
/// than one in a row. Fewer rows cost more rounds than they are worth.
fn fewest_rows(lines: u32) -> u32 {
    (lines / 2).saturating_add(2).max(6)
}

/// Adds the bytes of a text.
fn push_text(text: &mut Vec<u8>, piece: &str) -> Result<(), AllocError> {
    text.extend_from_slice(piece.as_bytes())?;
    Ok(())
}

/// Adds the edges of the lower splitter with this number: from two inputs, and to two of the upper row; and the edges
/// from the upper one with this number to two outputs.
fn push_lower(alloc: Global, text: &mut Vec<u8>, half: u32, lower: u32) -> Result<(), AllocError> {
    let first = lower % half.max(1);
    let second = first.saturating_add(half);
    let (one, other) = (
        lower.saturating_mul(2),
        lower.saturating_mul(2).saturating_add(1),
    );
    let upper = half.saturating_mul(2);
    let number = upper.saturating_add(lower);
    push_text(
        text,
        &format!(in alloc; "edge i{one} s{number}\nedge i{other} s{number}\n")?,
    )?;
    push_text(
        text,
        &format!(in alloc; "edge s{number} s{first}\nedge s{number} s{second}\n")?,
    )?;
    push_text(
        text,
        &format!(in alloc; "edge s{lower} o{one}\nedge s{lower} o{other}\n")?,
    )
}

/// The text of a network of two ranks that a channel joins: so many lower splitters are in each half, and the numbers of the
/// upper ones come first.
fn text_of(alloc: Global, half: u32) -> Result<Vec<u8>, AllocError> {
    let mut text = Vec::new(alloc);
    let lines = half.saturating_mul(4);
    push_text(
        &mut text,
        &format!(in alloc; "net {lines} {lines} {lines}\n")?,
    )?;
    for lower in 0..half.saturating_mul(2) {
        push_lower(alloc, &mut text, half, lower)?;
    }
    push_text(&mut text, "end\n")?;
    Ok(text)
}

/// The network of two ranks that a channel joins; none where it is too large to be read.
fn net_of(alloc: Global, half: u32) -> Result<Option<Net>, AllocError> {
    let text = text_of(alloc, half)?;
    match read(alloc, Admitted::Nothing, &text) {
        Ok(found) => Ok(Some(found.net)),
        Err(NetFault::Memory) => Err(AllocError),
        Err(_) => Ok(None),
    }
}

/// Whether a rectangle is one that a request may have.
fn is_grid(rect: Rect) -> bool
    ensures { IsTrue result → IsGrid rect }
{
    let Rect { width, height } = rect;
    width >= 1 && width <= MOST_ACROSS && height >= 1 && height <= MOST_ACROSS
}

/// The request for the two ranks of a channel with so many rows between; none where its rectangle is no grid.
fn request_of(
    alloc: Global,
    tier: Tier,
    half: u32,
    rows: u32,
) -> Result<Option<Request>, AllocError> {
    let rect = Rect {
        width: half.saturating_mul(4),
        height: rows.saturating_add(2),
    };
    let Some(net) = net_of(alloc, half)? else {
        return Ok(None);
    };
    if !is_grid(rect) {
        return Ok(None);
    }
    match Request::new(net, rect, tier, Vec::new(alloc), Vec::new(alloc)) {
        Ok(request) => Ok(Some(request)),
        Err(_) => Ok(None),
    }
}

/// The first cell of the row that is so many rows under the topmost one.
fn row_start(rows: u32) -> Cell {
    let mut cell = Cell { x: 0, y: 0 };
    for _ in 0..rows {
        cell = cell.next(Dir::South);
    }
    cell
}

/// Adds the stands of `count` splitters side by side that look to the north, of which the first begins with this cell.
fn push_stands(stands: &mut Vec<Stand>, first: Cell, count: u32) -> Result<(), AllocError> {
    let mut cell = first;
    for _ in 0..count {
        stands.push(Stand {
            cell,
            dir: Dir::North,
        })?;
        cell = cell.next(Dir::East).next(Dir::East);
    }
    Ok(())
}

/// The edges that join two splitters.
fn inner_edges(alloc: Global, request: &Request) -> Result<Vec<Edge>, AllocError> {
    let mut edges = Vec::new(alloc);
    for edge in request.net().edges() {
        if joined(edge).is_some() {
            edges.push(*edge)?;
        }
    }
    Ok(edges)
}

/// The channel of blocks with so many splitters in each half and so many rows between, where the router lays it.
fn channel_of(
    alloc: Global,
    tier: Tier,
    half: u32,
    rows: u32,
) -> Result<Option<Channel>, AllocError> {
    let Some(request) = request_of(alloc, tier, half, rows)? else {
        return Ok(None);
    };
    let across = half.saturating_mul(2);
    let mut stands = Vec::new(alloc);
    push_stands(&mut stands, row_start(0), across)?;
    push_stands(&mut stands, row_start(rows.saturating_add(1)), across)?;
    let edges = inner_edges(alloc, &request)?;
    let mut left = MOST_CHAINS;
    let places = Places {
        stands: &stands,
        spans: Spans::none(),
    };
    match negotiate(alloc, &request, &edges, places, EFFORT, &mut left)? {
        Negotiated::Settled(chains) => Ok(Some(Channel {
            chains,
            height: rows,
        })),
        Negotiated::Shared(_) => Ok(None),
    }
}

/// A channel of blocks with so many splitters in each half: one that is kept as a drawing, or else in as few rows as
/// the router comes to. None where that has more than `most` rows, or none is found.
pub fn find_channel(
    alloc: Global,
    tier: Tier,
    half: u32,
    most: u32,
) -> Result<Option<Channel>, AllocError> {
    let lines = half.saturating_mul(4);
    if let Some(channel) = drawn_channel(alloc, lines)? {
        return Ok(Some(channel).filter(|channel| channel.height <= most));
    }
    routed_channel(alloc, tier, half, most)
}

/// A channel of blocks with so many splitters in each half, in as few rows as the router comes to and at most so many.
fn routed_channel(
    alloc: Global,
    tier: Tier,
    half: u32,
    most: u32,
) -> Result<Option<Channel>, AllocError> {
    let fewest = fewest_rows(half.saturating_mul(4));
    for more in 0..MORE_ROWS {
        let rows = fewest.saturating_add(more);
        if rows > most {
            break;
        }
        let found = channel_of(alloc, tier, half, rows)?;
        if found.is_some() {
            return Ok(found);
        }
    }
    Ok(None)
}
