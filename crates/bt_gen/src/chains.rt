//! Chains: splitters in a row, each of which gives one output and goes on to the next.
ghost use Rattle.std.specs.Prelude.{◌≡◌, ◌<◌, ◌++◌, IfOk};
ghost use Rattle.bt_text.specs.Answers.{Answers};
ghost use Rattle.bt_gen.specs.Chain.{goes_on_to, chain_edges, chain_net};
ghost use Rattle.bt_gen.specs.Orders.{IsOrder, IsGenerated};

use crate::fault::GenFault;
use crate::order::{edge, made};
use bt_net::{Edge, Net, Start, Target};
use std::alloc::{AllocError, Global};

/// The most splitters of a chain, which has at least one.
pub const MOST_IN_CHAIN: u32 = 64;

/// The chain of so many splitters, from 1 to `MOST_IN_CHAIN`: one input, which goes to splitter 0, and an
/// output more than there are splitters. Each splitter goes first to the output of its number and second
/// to the next splitter, or from the last one to the last output. `Order` exactly where the number is
/// none of these.
pub fn chain(alloc: Global, splitters: u32) -> Result<Net, GenFault>
    ensures { Answers GenFault.Memory (IsGenerated MOST_IN_CHAIN chain_net splitters) result }
{
    if splitters < 1 || splitters > MOST_IN_CHAIN {
        return Err(GenFault::Order(splitters));
    }
    let edges = edges_of(alloc, splitters)?;
    Ok(made(1, splitters + 1, splitters, edges))
}

/// All edges of a chain, in the order of their sources.
fn edges_of(alloc: Global, splitters: u32) -> Result<Vec<Edge>, AllocError>
    requires { IsOrder MOST_IN_CHAIN splitters }
    ensures { IfOk result (λ edges. edges.items ≡ chain_edges splitters) }
{
    let mut edges = Vec::new(alloc);
    edges.push(edge(Start::Input(0), Target::Split(0)))?;
    for place in 0..splitters {
        let from = Start::Split(place);
        edges.push(edge(from, Target::Output(place)))?;
        edges.push(edge(from, goes_on_to(splitters, place)))?;
    }
    Ok(edges)
}

/// Where a splitter's second edge goes: to the next splitter, or from the last one to the last output.
fn goes_on_to(splitters: u32, place: u32) -> Target
    requires { place < splitters }
    ensures { result ≡ goes_on_to splitters place }
{
    if place + 1 < splitters {
        Target::Split(place + 1)
    } else {
        Target::Output(splitters)
    }
}
