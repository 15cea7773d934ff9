//! Reading the text of a network.
//!
//! Each line is read once, and the first one that may not stand is told by its number.
ghost use Rattle.std.specs.Prelude.{◌≡◌, ◌↔◌, ◌+◌, ◌≤◌, ◌<◌, ◌^◌, [], length, IfOk, IsTrue};
ghost use Rattle.bt_text.specs.Answers.{Answers, UnlessMemory, seen};
ghost use Rattle.bt_net.specs.PinText.{IsDemandHere, IsBlockHere};
ghost use Rattle.bt_net.specs.Priorities.{AdmitsPriority};
ghost use Rattle.bt_net.specs.Readings.{IsNetRead, what_is_read};
ghost use Rattle.bt_net.specs.Wiring.{HasSmallSizes};
ghost use Rattle.bt_net.specs.inner.Items.{ItemsStand};
ghost use Rattle.bt_net.specs.inner.Preferred.{PrioritiesEnd, IsNextOwned, IsNextPriority};
ghost use Rattle.bt_net.specs.inner.Lines.{SameSizes, IsNextEdge, AreEdgesRead, ItemsEnd, IsEndRead};

use crate::demands::{block_here, demand_here};
use crate::fault::NetFault;
use crate::header::read_header;
use crate::net::Net;
use crate::network::{Admitted, Block, Demand, Edge, MOST_OF_EACH, Priority};
use crate::priority::{Preferred, even_each, is_free, none_each, prefer, read_priority};
use crate::wiring::Wiring;
use crate::words::read_edge;
use bt_text::first_line;
use std::alloc::{AllocError, Global};

/// What the text of a network says: the network with the edges that its splitters prefer, its pins, sides and rows in
/// the order of their lines, its blocks in that of theirs, how many bytes the text has and how many lines.
#[derive(Drop)]
pub struct NetRead {
    pub net: Net,
    pub demands: Vec<Demand>,
    pub blocks: Vec<Block>,
    pub used: usize,
    pub lines: usize,
}

/// The network at the front of these bytes, with its priorities, its pins, sides and rows, and its blocks. The bytes
/// begin with a line `net I O S` of the numbers of inputs, outputs and splitters, and have a line for each edge. Then
/// come, where such lines are admitted: in any order lines `give sN E` and `take sN E`, by which splitter N prefers its
/// out edge, or its in edge, with the number E, or `take sN any`, by which it may prefer any in edge, at most one `give`
/// and one `take` for a splitter; then in any order lines `pin E X Y` or `pin E X Y D` for cells on which ends stand,
/// `side E D` for sides at which they do, where E may also be `inputs` or `outputs`, and `row K` for ends that stand in a
/// row, where K is `inputs` or `outputs`; then lines `block X Y` for cells on which no part stands. A line `end` comes
/// last. What follows that line is not read.
pub fn read(alloc: Global, admitted: Admitted, bytes: &[u8]) -> Result<NetRead, NetFault>
    ensures { Answers NetFault.Memory (IsNetRead admitted bytes.now) (seen what_is_read result) }
{
    let (line, text) = first_line(bytes);
    let mut wiring = read_header(alloc, line)?;
    let behind_edges = read_edges(&mut wiring, text)?;
    let items = read_items(alloc, admitted, &wiring, behind_edges)?;
    let rest = read_end(&wiring, items.lines, items.rest)?;
    let net = wiring.into_net()?;
    Ok(NetRead {
        net: net
            .preferring(items.preferred.gives, items.preferred.takes)
            .merging(items.preferred.merges),
        demands: items.demands,
        blocks: items.blocks,
        used: bytes.len() - rest.len(),
        lines: items.lines,
    })
}

/// What the lines between those of the edges and `end` say, the number of the line behind them, and what follows.
#[derive(Drop)]
struct Items<'a> {
    preferred: Preferred,
    demands: Vec<Demand>,
    blocks: Vec<Block>,
    lines: usize,
    rest: &'a [u8],
}

/// What the lines of priorities, pins, sides, rows and blocks at the front of a text say, which stand behind those of
/// the edges, and what follows them.
fn read_items<'a>(
    alloc: Global,
    admitted: Admitted,
    wiring: &Wiring,
    text: &'a [u8],
) -> Result<Items<'a>, AllocError>
    requires small { HasSmallSizes wiring.now }
    requires few { length wiring.now.edges ≤ MOST_OF_EACH }
    ensures { IfOk result (λ found. ItemsStand admitted wiring.now text.now found.preferred
        found.demands.items found.blocks.items found.lines found.rest.now) }
{
    let found = read_priorities(alloc, admitted, wiring, text)?;
    let before_demands = wiring.len() + found.count + 2;
    let (demands, behind_demands) = read_demands(
        alloc,
        admitted,
        wiring,
        before_demands,
        found.rest,
    )?;
    let before_blocks = before_demands + demands.len();
    let (blocks, rest) = read_blocks(alloc, admitted, before_blocks, behind_demands)?;
    let lines = before_blocks + blocks.len();
    Ok(Items {
        preferred: found.preferred,
        demands,
        blocks,
        lines,
        rest,
    })
}

/// What `count` lines of priorities say, and what follows them.
#[derive(Drop)]
struct Priorities<'a> {
    preferred: Preferred,
    count: usize,
    rest: &'a [u8],
}

/// What the lines of priorities at the front of a text say, which stand behind those of the edges, up to the first line
/// that is none or may not stand; and what follows them.
fn read_priorities<'a>(
    alloc: Global,
    admitted: Admitted,
    wiring: &Wiring,
    text: &'a [u8],
) -> Result<Priorities<'a>, AllocError>
    requires small { HasSmallSizes wiring.now }
    requires few { length wiring.now.edges ≤ MOST_OF_EACH }
    ensures read { IfOk result (λ found.
        PrioritiesEnd admitted wiring.now text.now found.preferred found.count found.rest.now) }
    ensures short { IfOk result (λ found. found.count + length found.rest.now ≤ length text.now) }
{
    let splitters = wiring.splitters();
    let mut preferred = Preferred {
        gives: none_each(alloc, splitters)?,
        takes: none_each(alloc, splitters)?,
        merges: even_each(alloc, splitters)?,
    };
    let mut count = 0;
    let mut rest = text;
    loop {
        let (line, after) = first_line(rest);
        let Some(priority) = next_priority(admitted, wiring, &preferred, line) else {
            return Ok(Priorities {
                preferred,
                count,
                rest,
            });
        };
        prefer(&mut preferred, priority);
        count += 1;
        rest = after;
    }
}

/// The priority of this line. None where it isn't admitted, where it is another line, where the splitter lacks the edge,
/// or where something is said already of its edges of that kind.
fn next_priority(
    admitted: Admitted,
    wiring: &Wiring,
    preferred: &Preferred,
    line: &[u8],
) -> Option<Priority>
    requires small { HasSmallSizes wiring.now }
    requires few { length wiring.now.edges ≤ MOST_OF_EACH }
    ensures { IsNextPriority admitted wiring.now preferred.now line.now result }
{
    let priority = next_owned(wiring, preferred, line)?;
    if admits(admitted, priority) {
        Some(priority)
    } else {
        None
    }
}

/// Whether a line of this priority may stand in the text.
fn admits(admitted: Admitted, priority: Priority) -> bool
    ensures { IsTrue result ↔ AdmitsPriority admitted priority }
{
    match admitted {
        Admitted::Nothing => false,
        Admitted::Priorities => true,
        Admitted::Sides | Admitted::All => match priority {
            Priority::Give { .. } | Priority::Take { .. } => true,
            Priority::Any { .. } => false,
        },
    }
}

/// The priority of this line. None where it is another line, where the splitter lacks the edge, or where something is
/// said already of its edges of that kind.
fn next_owned(wiring: &Wiring, preferred: &Preferred, line: &[u8]) -> Option<Priority>
    requires small { HasSmallSizes wiring.now }
    requires few { length wiring.now.edges ≤ MOST_OF_EACH }
    ensures { IsNextOwned wiring.now preferred.now line.now result }
{
    let priority = read_priority(line)?;
    if wiring.owns(priority) && is_free(preferred, priority) {
        Some(priority)
    } else {
        None
    }
}

/// Adds the edges of the edge lines at the front of a text, and gives what follows them. More than `MOST_OF_EACH` edges
/// are refused.
fn read_edges<'a>(wiring: &mut Wiring, text: &'a [u8]) -> Result<&'a [u8], NetFault>
    requires none { wiring.old.edges ≡ [] }
    requires small { HasSmallSizes wiring.old }
    ensures sizes { SameSizes wiring.old wiring.new }
    ensures read { UnlessMemory NetFault.Memory (AreEdgesRead wiring.new text.now)
        (seen (λ rest. rest.now) result) }
{
    let mut rest = text;
    loop {
        let (line, after) = first_line(rest);
        let Some(edge) = next_edge(wiring, line) else {
            return Ok(rest);
        };
        if wiring.len() == MOST_OF_EACH {
            return Err(NetFault::TooLarge);
        }
        wiring.push(edge)?;
        rest = after;
    }
}

/// The edge of this line. None where it is no edge line, or where the network lacks its start or its target or has no
/// room for an edge there.
fn next_edge(wiring: &Wiring, line: &[u8]) -> Option<Edge>
    requires { HasSmallSizes wiring.now }
    ensures { IsNextEdge wiring.now line.now result }
{
    let edge = read_edge(line)?;
    if wiring.admits(edge) {
        Some(edge)
    } else {
        None
    }
}

/// The pins, sides and rows of the lines at the front of a text, up to the first line that is none or may not stand,
/// and what follows them. `first` is the number of the first of these lines.
fn read_demands<'a>(
    alloc: Global,
    admitted: Admitted,
    wiring: &Wiring,
    first: usize,
    text: &'a [u8],
) -> Result<(Vec<Demand>, &'a [u8]), AllocError>
    requires small { HasSmallSizes wiring.now }
    requires fits { first + length text.now < 2 ^ 63 + 4096 }
    ensures read { IfOk result (λ found. ItemsEnd (IsDemandHere admitted wiring.now)
        first text.now found.0.items found.1.now) }
    ensures short { IfOk result (λ found. length found.0.items + length found.1.now ≤ length text.now) }
{
    let mut demands = Vec::new(alloc);
    let mut rest = text;
    loop {
        let (line, after) = first_line(rest);
        let Some(demand) = demand_here(admitted, wiring, first + demands.len(), line) else {
            return Ok((demands, rest));
        };
        demands.push(demand)?;
        rest = after;
    }
}

/// The blocks of the lines at the front of a text, up to the first line that is none or may not stand, and what follows
/// them. `first` is the number of the first of these lines.
fn read_blocks<'a>(
    alloc: Global,
    admitted: Admitted,
    first: usize,
    text: &'a [u8],
) -> Result<(Vec<Block>, &'a [u8]), AllocError>
    requires { first + length text.now < 2 ^ 63 + 4096 }
    ensures read { IfOk result (λ found.
        ItemsEnd (IsBlockHere admitted) first text.now found.0.items found.1.now) }
    ensures short { IfOk result (λ found. length found.0.items + length found.1.now ≤ length text.now) }
{
    let mut blocks = Vec::new(alloc);
    let mut rest = text;
    loop {
        let (line, after) = first_line(rest);
        let Some(block) = block_here(admitted, first + blocks.len(), line) else {
            return Ok((blocks, rest));
        };
        blocks.push(block)?;
        rest = after;
    }
}

/// What follows the line `end` at the front of a text, which has this number. It is refused where it is another line,
/// or where some input or output has no edge.
fn read_end<'a>(wiring: &Wiring, number: usize, text: &'a [u8]) -> Result<&'a [u8], NetFault>
    ensures { IsEndRead wiring.now number text.now (seen (λ rest. rest.now) result) }
{
    let (line, rest) = first_line(text);
    if line == b"end".as_slice() && wiring.is_complete() {
        Ok(rest)
    } else {
        Err(NetFault::NetLine(number))
    }
}
