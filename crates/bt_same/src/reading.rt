//! Reading a written pair of states, line by line, so that the first line that isn't right is named.
ghost use Rattle.std.specs.Prelude.{◌≡◌, codes, IfOk, IfErr};
ghost use Rattle.bt_text.specs.Answers.{Answers};
ghost use Rattle.bt_flow.specs.declared.fault.StateFault.TheVariants.{Memory};
ghost use Rattle.bt_flow.specs.inner.Lines.{IsLineFault, IsTitled, StopsAtTitle};
ghost use Rattle.bt_same.specs.Sameness.{HaveEqualEnds};
ghost use Rattle.bt_same.specs.PairReading.{IsPairRead};
ghost use Rattle.bt_same.specs.inner.Parts.{pair_from};

use crate::pair::Pair;
use bt_flow::{Edges, Ends, State, StateFault, read_edges, read_end, read_ends};
use bt_net::Net;
use bt_text::cut;
use std::alloc::{AllocError, Global};

/// The number of the first line.
const TITLE: usize = 1;

/// The number of the line of the first state's flows. That of its marks comes next.
const FIRST_FLOWS: usize = 4;

/// The number of the line of the second state's flows. That of its marks comes next.
const SECOND_FLOWS: usize = 6;

/// The number of the last line.
const END: usize = 8;

/// The pair of states that the bytes write, a differ certificate: the line `differ`, the lines `load` and `room` with a
/// fraction for each input and output of the networks, for each network the line `flow` with a fraction for each of its
/// edges and the line `mark` with `f` (free) or `b` (backed) for each, and the line `end`, after which only blanks
/// stand. Both states get the loads and the rooms. `CertLine` names the first line, from 1, that isn't so, or the line
/// after the last where one is missing.
pub fn read_pair(alloc: Global, first: &Net, second: &Net, bytes: &[u8]) -> Result<Pair, StateFault>
    requires { HaveEqualEnds first.now second.now }
    ensures { Answers Memory (IsPairRead first.now second.now bytes.now) result }
{
    let rest = after_title(bytes)?;
    let ends = read_ends(alloc, first, rest)?;
    let of_first = read_edges(alloc, first, ends.rest, FIRST_FLOWS)?;
    let of_second = read_edges(alloc, second, of_first.rest, SECOND_FLOWS)?;
    read_end(of_second.rest, END)?;
    let pair = pair_of_parts(ends, of_first, of_second)?;
    Ok(pair)
}

/// What follows the first line of a text, which is to be `differ`: else line 1 is at fault.
fn after_title(text: &[u8]) -> Result<&[u8], StateFault>
    ensures ok { IfOk result (λ rest. IsTitled (codes "differ") text.now rest.now) }
    ensures err { IfErr result (IsLineFault TITLE (StopsAtTitle (codes "differ") text.now)) }
{
    let (title, rest) = cut(text, b'\n');
    if title == b"differ".as_slice() {
        Ok(rest)
    } else {
        Err(StateFault::CertLine(TITLE))
    }
}

/// The pair of states with these flows and marks, of which both have the loads and rooms.
fn pair_of_parts(ends: Ends, of_first: Edges, of_second: Edges) -> Result<Pair, AllocError>
    ensures { IfOk result (λ pair. pair ≡ pair_from ends.entry.loads.items
        ends.entry.rooms.items of_first.entry.flows.items of_first.entry.backed.items
        of_second.entry.flows.items of_second.entry.backed.items) }
{
    let loads = ends.loads.clone()?;
    let rooms = ends.rooms.clone()?;
    Ok(Pair {
        first: State::new(of_first.flows, of_first.backed, ends.loads, ends.rooms),
        second: State::new(of_second.flows, of_second.backed, loads, rooms),
    })
}
