//! The edges at the ends of a network, and the columns of loads and rooms.
ghost use Rattle.std.specs.Prelude.{◌≡◌, ◌<◌, ◌≤◌, ◌^◌, IfOk};
ghost use Rattle.bt_flow.specs.Ports.{numbers_of, ArePorts, numbers_where};
ghost use Rattle.bt_flow.specs.Properties as properties;
ghost use Rattle.bt_flow.specs.EndEdges as end_edges;
ghost use Rattle.bt_flow.specs.inner.Listed.{first_of};

use crate::ports::{Port, Ports};
use bt_net::{Net, Target};
use smallvec::SmallVec;
use std::alloc::{AllocError, Global};

/// The numbers of the edges of a port, in a list that needs no block of memory.
pub fn numbers_of(alloc: Global, port: Port) -> Result<SmallVec<usize, 2>, AllocError>
    ensures { IfOk result (λ numbers. numbers.items ≡ numbers_of port) }
{
    match port {
        Port::Unused => SmallVec::from_slice(alloc, &[]),
        Port::One(only) => SmallVec::from_slice(alloc, &[only as usize]),
        Port::Two(first, second) => {
            SmallVec::from_slice(alloc, &[first as usize, second as usize])
        }
    }
}

/// The number of the first edge of a port, or 0 where it has none.
fn first_of(port: Port) -> usize
    ensures first { result ≡ first_of (numbers_of port) }
    ensures small { result < 2 ^ 16 }
{
    match port {
        Port::Unused => 0,
        Port::One(first) | Port::Two(first, _) => first as usize,
    }
}

/// The number of the edge of an input, or 0 where it has none.
pub fn input_edge(net: &Net, ports: &Ports, input: usize) -> usize
    requires ports { ArePorts net.now ports.now }
    requires input { input < net.now.inputs }
    ensures edge { result ≡ end_edges.input_edge net.now input }
    ensures small { result < 2 ^ 16 }
{
    first_of(ports.inputs[input])
}

/// The number of the edge of an output, or 0 where it has none.
pub fn output_edge(net: &Net, ports: &Ports, output: usize) -> usize
    requires ports { ArePorts net.now ports.now }
    requires output { output < net.now.outputs }
    ensures edge { result ≡ end_edges.output_edge net.now output }
    ensures small { result < 2 ^ 16 }
{
    first_of(ports.outputs[output])
}

/// The cap of the edge with a number, or 0 where there is none.
pub fn cap_at(net: &Net, edge: usize) -> u32
    ensures { result ≡ end_edges.cap_at net.now edge }
{
    match net.edges().get(edge) {
        Some(found) => found.cap,
        None => 0,
    }
}

/// The column of an input's load: these come behind those of the edges' flows.
pub fn load_column(net: &Net, input: usize) -> usize
    requires { input ≤ net.now.inputs }
    ensures column { result ≡ end_edges.load_column net.now input }
    ensures small { result < 2 ^ 16 }
{
    net.edges().len() + input
}

/// The column of an output's room: these come behind those of the loads.
pub fn room_column(net: &Net, output: usize) -> usize
    requires { output ≤ net.now.outputs }
    ensures column { result ≡ end_edges.room_column net.now output }
    ensures small { result < 2 ^ 16 }
{
    net.edges().len() + net.inputs() as usize + output
}

/// The numbers of the edges that end at outputs.
pub fn last_edges(alloc: Global, net: &Net) -> Result<Vec<usize>, AllocError>
    ensures { IfOk result (λ numbers. numbers.items ≡ numbers_where properties.is_last 0 net.now.edges) }
{
    let mut numbers = Vec::new(alloc);
    for (number, edge) in net.edges().iter().enumerate() {
        match edge.target {
            Target::Output(_) => numbers.push(number)?,
            Target::Split(_) => {}
        }
    }
    Ok(numbers)
}
