//! What both kinds of networks are made with.
ghost use Rattle.std.specs.Prelude.{◌≡◌, ◌^◌, ◌≤◌};
ghost use Rattle.bt_net.specs.Network.{Network, IsNetwork, network_of};

use bt_net::{Edge, Net, Start, Target};

/// The cap of each edge of a network that is made: one belt of the slowest tier.
const CAP: u32 = 1;

/// An edge from a start to a target, with the cap of one belt of the slowest tier.
pub fn edge(start: Start, target: Target) -> Edge
    ensures { result ≡ record { start = start; target = target; cap = 1 } }
{
    Edge {
        start,
        target,
        cap: CAP,
    }
}

/// Two to this power.
pub fn power(exponent: u32) -> u32
    requires { exponent ≤ 7 }
    ensures power { result ≡ 2 ^ exponent }
    ensures positive { 1 ≤ result }
    ensures small { result ≤ 128 }
{
    1 << exponent
}

/// The network of these numbers of ends and splitters and these edges, which are known to make one.
pub fn made(inputs: u32, outputs: u32, splitters: u32, edges: Vec<Edge>) -> Net
    requires { IsNetwork (network_of inputs outputs splitters edges.items) }
    ensures { result ≡ network_of inputs outputs splitters edges.items }
{
    match Net::new(inputs, outputs, splitters, edges) {
        Ok(net) => net,
        Err(_) => unreachable!(),
    }
}
