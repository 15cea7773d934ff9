//! Reading a written state, line by line, so that the first line that isn't right is named.
mod item;
mod line;
mod list;

ghost use Rattle.std.specs.Prelude.{◌≡◌, ◌<◌, ◌^◌, ℕ, List, IfOk, IfErr};
ghost use Rattle.bt_text.specs.Answers.{Answers};
ghost use Rattle.bt_flow.specs.declared.fault.StateFault.TheVariants.{Memory};
ghost use Rattle.bt_flow.specs.States.{Fractions};
ghost use Rattle.bt_flow.specs.StateText.{IsStateText};
ghost use Rattle.bt_flow.specs.StateReading.{IsStateRead};
ghost use Rattle.bt_flow.specs.Parts.{IsFault, IsEnds, StopsInEnds, IsEdges, StopsInEdges};

use crate::fault::StateFault;
use crate::property::Property;
pub use crate::reading::line::read_end;
use crate::reading::line::{END, FLOWS, LOADS, ROOMS, after_title};
use crate::reading::list::read_list;
use crate::state::State;
use bt_frac::Frac;
use bt_net::Net;
use std::alloc::Global;

/// The state that the bytes write for the property: the line `no` and the property's name, the lines
/// `load`, `room` and `flow` with a fraction for each input, output and edge, the line `mark` with
/// `f` (free) or `b` (backed) for each edge, and the line `end`, after which only blanks stand.
/// `CertLine` names the first line, from 1, that isn't so, or the line after the last where one is
/// missing.
pub fn read_state(
    alloc: Global,
    net: &Net,
    bytes: &[u8],
    property: Property,
) -> Result<State, StateFault>
    ensures { Answers Memory (IsStateRead net.now property bytes.now) result }
{
    let rest = after_title(bytes, property)?;
    let ends = read_ends(alloc, net, rest)?;
    let edges = read_edges(alloc, net, ends.rest, FLOWS)?;
    read_end(edges.rest, END)?;
    Ok(State::new(edges.flows, edges.backed, ends.loads, ends.rooms))
}

/// A text is written for one state.
pub fn one_state()
    ensures { (p : Property) (s t : Fractions) (bytes : List ℕ) →
        IsStateText p s bytes → IsStateText p t bytes → s ≡ t }
{}

/// The loads and rooms of a state, and what follows their lines.
#[derive(Drop)]
pub struct Ends<'a> {
    /// The load of each input.
    pub loads: Vec<Frac>,
    /// The room of each output.
    pub rooms: Vec<Frac>,
    /// What follows the two lines.
    pub rest: &'a [u8],
}

/// The loads and rooms of a state that come next in a text, as lines 2 and 3 of it: the line `load`, with a fraction
/// for each input, and the line `room`, with one for each output. `CertLine` names the first that isn't so or is
/// missing.
pub fn read_ends<'a>(alloc: Global, net: &Net, text: &'a [u8]) -> Result<Ends<'a>, StateFault>
    ensures ok { IfOk result (λ e. IsEnds net.now text.now e.loads.items e.rooms.items e.rest.now) }
    ensures err { IfErr result (IsFault (StopsInEnds net.now text.now)) }
{
    let (loads, rest) = read_list(alloc, text, LOADS, b"load", net.inputs() as usize)?;
    let (rooms, rest) = read_list(alloc, rest, ROOMS, b"room", net.outputs() as usize)?;
    Ok(Ends { loads, rooms, rest })
}

/// The flows and marks of a state, and what follows their lines.
#[derive(Drop)]
pub struct Edges<'a> {
    /// The flow of each edge.
    pub flows: Vec<Frac>,
    /// Whether each edge is backed.
    pub backed: Vec<bool>,
    /// What follows the two lines.
    pub rest: &'a [u8],
}

/// The flows and marks of a state that come next in a text, as lines of which the first has this number: the line
/// `flow`, with a fraction for each edge, and the line `mark`, with `f` (free) or `b` (backed) for each. `CertLine`
/// names the first that isn't so or is missing.
pub fn read_edges<'a>(
    alloc: Global,
    net: &Net,
    text: &'a [u8],
    number: usize,
) -> Result<Edges<'a>, StateFault>
    requires { number < 2 ^ 32 }
    ensures ok { IfOk result (λ e. IsEdges net.now text.now e.flows.items e.backed.items e.rest.now) }
    ensures err { IfErr result (IsFault (StopsInEdges net.now number text.now)) }
{
    let count = net.edges().len();
    let (flows, rest) = read_list(alloc, text, number, b"flow", count)?;
    let (backed, rest) = read_list(alloc, rest, number + 1, b"mark", count)?;
    Ok(Edges {
        flows,
        backed,
        rest,
    })
}
