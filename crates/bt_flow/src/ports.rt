//! The edges at each input, output and splitter, found once, so that no test looks for them.
ghost use Rattle.std.specs.Prelude.{◌≡◌, ◌==◌, ◌<◌, ◌++◌, ◌∷◌, [], ℕ, false, IfSome, IfNone, length};
ghost use Rattle.bt_net.specs.Network.{IsNetwork};
ghost use Rattle.bt_flow.specs.Ports.{numbers_of, plays, role_of, AreAt, ArePorts};

use bt_net::{Edge, MOST_OF_EACH, Net, Start, Target};

/// The edges at an input, an output or one side of a splitter, by their numbers in ascending order.
#[derive(Clone, Copy)]
pub enum Port {
    /// No edge.
    Unused,
    /// One edge.
    One(u16),
    /// Two edges, which is the most.
    Two(u16, u16),
}

impl Port {
    /// The port, of one edge at most, with one more. A port of two edges stays.
    fn with(self, edge: u16) -> Port
        requires { length (numbers_of self) < 2 }
        ensures { numbers_of result ≡ numbers_of self ++ edge ∷ [] }
    {
        match self {
            Port::Unused => Port::One(edge),
            Port::One(first) => Port::Two(first, edge),
            Port::Two(first, second) => Port::Two(first, second),
        }
    }
}

/// What an edge is at one of its two ends.
#[derive(Clone, Copy)]
pub enum Role {
    /// It starts at an input.
    FromInput,
    /// It ends at an output.
    ToOutput,
    /// It starts at a splitter.
    OutOf,
    /// It ends at a splitter.
    Into,
}

/// A kind of end of a network.
#[derive(Clone, Copy)]
pub enum End {
    /// Its inputs.
    Input,
    /// Its outputs.
    Output,
}

impl End {
    /// The role of the edges at these ends.
    pub fn role(self) -> Role
        ensures { result ≡ role_of self }
    {
        match self {
            End::Input => Role::FromInput,
            End::Output => Role::ToOutput,
        }
    }
}

impl Role {
    /// The number of the input, output or splitter at which the edge has this role. None where it hasn't the role.
    pub fn number_in(self, edge: &Edge) -> Option<u32>
        ensures some { IfSome result (λ n. (k : ℕ) → plays self k edge.now ≡ (n == k)) }
        ensures none { IfNone result ((k : ℕ) → plays self k edge.now ≡ false) }
    {
        match (self, edge.start, edge.target) {
            (Role::FromInput, Start::Input(number), _) => Some(number),
            (Role::ToOutput, _, Target::Output(number)) => Some(number),
            (Role::OutOf, Start::Split(number), _) => Some(number),
            (Role::Into, _, Target::Split(number)) => Some(number),
            _ => None,
        }
    }
}

/// The edges with a role, by the number of the input, output or splitter at which they have it.
fn ports_of(net: &Net, role: Role) -> [Port; MOST_OF_EACH]
    ensures ports { AreAt net.now role result }
    ensures network { IsNetwork net.now }
{
    let mut ports = [Port::Unused; MOST_OF_EACH];
    for (place, edge) in net.edges().iter().enumerate() {
        if let Some(number) = role.number_in(edge) {
            let port = ports[number as usize];
            ports[number as usize] = port.with(place as u16);
        }
    }
    ports
}

/// The edges at each input, at each output, and at both sides of each splitter.
#[derive(Drop)]
pub struct Ports {
    pub inputs: [Port; MOST_OF_EACH],
    pub outputs: [Port; MOST_OF_EACH],
    pub out_of: [Port; MOST_OF_EACH],
    pub into: [Port; MOST_OF_EACH],
}

impl Ports {
    /// The ports of a network. Each is as long as the largest network needs, since that takes no memory
    /// beyond the stack.
    pub fn of(net: &Net) -> Ports
        ensures { ArePorts net.now result }
    {
        Ports {
            inputs: ports_of(net, Role::FromInput),
            outputs: ports_of(net, Role::ToOutput),
            out_of: ports_of(net, Role::OutOf),
            into: ports_of(net, Role::Into),
        }
    }
}
