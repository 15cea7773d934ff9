//! What a splitter does in a step: it draws evenly from its in edges and gives evenly to its out edges, or first those that
//! it prefers, as far as these give and take.
use crate::belt::Belt;
use crate::preference::{Preference, preferred_at};
use bt_flow::{Port, Ports};
use bt_net::Net;
use std::alloc::{AllocError, Global};

/// The edges of a splitter, and those that come first.
#[derive(Clone, Copy)]
pub struct Splitter {
    pub into: Port,
    pub out_of: Port,
    pub takes: Preference,
    pub gives: Preference,
}

/// An amount for each of the two edges of a port, 0 where there is no such edge.
#[derive(Clone, Copy)]
struct Shares {
    first: u32,
    second: u32,
}

impl Shares {
    /// The amounts of both edges together.
    fn sum(self) -> u32 {
        self.first.saturating_add(self.second)
    }

    /// An amount that is at most the sum of these shares, divided evenly or first to the preferred edge, where no edge
    /// gets more than its share here.
    fn divide(self, amount: u32, preferred: Preference) -> Shares {
        let wanted = match preferred {
            Preference::Neither => amount / 2,
            Preference::First => amount,
            Preference::Second => 0,
        };
        let least = amount.saturating_sub(self.second);
        let first = wanted.max(least).min(self.first);
        Shares {
            first,
            second: amount.saturating_sub(first),
        }
    }
}

/// The splitters of a network, by their numbers.
pub fn splitters_of(alloc: Global, net: &Net) -> Result<Vec<Splitter>, AllocError> {
    let ports = Ports::of(net);
    let mut splitters = Vec::new(alloc);
    for number in 0..net.splitters() as usize {
        let into = port_at(&ports.into, number);
        let out_of = port_at(&ports.out_of, number);
        splitters.push(Splitter {
            into,
            out_of,
            takes: preferred_at(into, net.take(number)),
            gives: preferred_at(out_of, net.give(number)),
        })?;
    }
    Ok(splitters)
}

/// The port of the splitter with a number, unused where there is none.
fn port_at(ports: &[Port], number: usize) -> Port {
    match ports.get(number) {
        Some(port) => *port,
        None => Port::Unused,
    }
}

impl Splitter {
    /// Passes on what the in edges hold, as far as the out edges take it.
    pub fn step(&self, belts: &mut [Belt]) {
        let supplies = supplies(belts, self.into);
        let spaces = spaces(belts, self.out_of);
        let amount = supplies.sum().min(spaces.sum());
        pass_at(belts, self.into, supplies.divide(amount, self.takes));
        put_at(belts, self.out_of, spaces.divide(amount, self.gives));
    }
}

/// What the belt with a number would pass on.
fn supply(belts: &[Belt], number: u16) -> u32 {
    match belts.get(number as usize) {
        Some(belt) => belt.supply(),
        None => 0,
    }
}

/// What the belt with a number would take.
fn space(belts: &[Belt], number: u16) -> u32 {
    match belts.get(number as usize) {
        Some(belt) => belt.space(),
        None => 0,
    }
}

/// What the edges of a port would pass on.
fn supplies(belts: &[Belt], port: Port) -> Shares {
    match port {
        Port::Unused => Shares {
            first: 0,
            second: 0,
        },
        Port::One(only) => Shares {
            first: supply(belts, only),
            second: 0,
        },
        Port::Two(first, second) => Shares {
            first: supply(belts, first),
            second: supply(belts, second),
        },
    }
}

/// What the edges of a port would take.
fn spaces(belts: &[Belt], port: Port) -> Shares {
    match port {
        Port::Unused => Shares {
            first: 0,
            second: 0,
        },
        Port::One(only) => Shares {
            first: space(belts, only),
            second: 0,
        },
        Port::Two(first, second) => Shares {
            first: space(belts, first),
            second: space(belts, second),
        },
    }
}

/// Passes an amount on from the belt with a number.
fn pass(belts: &mut [Belt], number: u16, amount: u32) {
    if let Some(belt) = belts.get_mut(number as usize) {
        belt.pass(amount);
    }
}

/// Puts an amount on the belt with a number.
fn put(belts: &mut [Belt], number: u16, amount: u32) {
    if let Some(belt) = belts.get_mut(number as usize) {
        belt.put(amount);
    }
}

/// Passes shares on from the edges of a port.
fn pass_at(belts: &mut [Belt], port: Port, shares: Shares) {
    match port {
        Port::Unused => {}
        Port::One(only) => pass(belts, only, shares.first),
        Port::Two(first, second) => {
            pass(belts, first, shares.first);
            pass(belts, second, shares.second);
        }
    }
}

/// Puts shares on the edges of a port.
fn put_at(belts: &mut [Belt], port: Port, shares: Shares) {
    match port {
        Port::Unused => {}
        Port::One(only) => put(belts, only, shares.first),
        Port::Two(first, second) => {
            put(belts, first, shares.first);
            put(belts, second, shares.second);
        }
    }
}
