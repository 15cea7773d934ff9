//! The state that a simulation shows, exactly: what it shows as equal but for little is equal.
ghost use Rattle.std.specs.Prelude.{◌≡◌, IfOk, IfSome, length};
ghost use Rattle.bt_flow.specs.States.{Fits};
ghost use Rattle.hint_simulation.specs.inner.Finding.{IsFound};

use crate::belt::{UNIT, in_units};
use crate::preference::Preference;
use crate::simulation::Found;
use crate::splitter::{Splitter, splitters_of};
use bt_flow::{Port, State};
use bt_frac::Frac;
use bt_net::{Edge, Net, Start, Target};
use hint_differences::{Equations, Term};
use std::alloc::{AllocError, Global};

/// By how much flows may differ that a simulation shows as equal, in parts of `UNIT`: by two in a thousand.
const TOLERANCE: u32 = UNIT / 500;

/// The state that a simulation shows. None where a number leaves 128 bits, or the work is too much. Its flows are those
/// that the equations of its marks give; where they leave one open, it is the simulated one.
pub fn state_of(alloc: Global, net: &Net, found: &Found) -> Result<Option<State>, AllocError>
    requires { IsFound net.now found.now }
    ensures { IfOk result (λ state. IfSome state (Fits net.now)) }
{
    let equations = equations_of(alloc, net, found)?;
    let simulated = fractions_of(alloc, &found.simulated.flows)?;
    match equations.solve(alloc, simulated)? {
        Some(flows) => Ok(Some(with_flows(alloc, net, found, flows)?)),
        None => Ok(None),
    }
}

/// The state of these flows, with the marks, loads and rooms of a simulation.
fn with_flows(
    alloc: Global,
    net: &Net,
    found: &Found,
    flows: Vec<Frac>,
) -> Result<State, AllocError>
    requires found { IsFound net.now found.now }
    requires flows { length flows.items ≡ length net.now.edges }
    ensures { IfOk result (Fits net.now) }
{
    let backed = found.simulated.backed.clone()?;
    let loads = fractions_of(alloc, &found.case.loads)?;
    let rooms = fractions_of(alloc, &found.case.rooms)?;
    Ok(State::new(flows, backed, loads, rooms))
}

/// An amount as a number of belts of the slowest tier.
fn fraction(amount: u32) -> Frac {
    match Frac::new(i128::from(amount), i128::from(UNIT)) {
        Some(belts) => belts,
        None => Frac::whole(0),
    }
}

/// Each amount as a number of belts.
fn fractions_of(alloc: Global, amounts: &[u32]) -> Result<Vec<Frac>, AllocError>
    ensures { IfOk result (λ v. length v.items ≡ length amounts.now) }
{
    let mut fractions = Vec::new(alloc);
    for amount in amounts {
        fractions.push(fraction(*amount))?;
    }
    Ok(fractions)
}

/// The equations of the flows of a steady state with the marks that a simulation shows.
fn equations_of(alloc: Global, net: &Net, found: &Found) -> Result<Equations, AllocError> {
    let mut equations = Equations::new(alloc, net.edges().len())?;
    add_splitters(alloc, &mut equations, net, found)?;
    add_edges(alloc, &mut equations, net, found)?;
    Ok(equations)
}

/// Adds what a steady state asks of the edges at each splitter.
fn add_splitters(
    alloc: Global,
    equations: &mut Equations,
    net: &Net,
    found: &Found,
) -> Result<(), AllocError> {
    let splitters = splitters_of(alloc, net)?;
    for splitter in &splitters {
        add_conservation(alloc, equations, splitter)?;
        add_sharing(
            alloc,
            equations,
            found,
            splitter.out_of,
            splitter.gives,
            true,
        )?;
        add_sharing(
            alloc,
            equations,
            found,
            splitter.into,
            splitter.takes,
            false,
        )?;
    }
    Ok(())
}

/// Adds what a steady state asks of each edge alone: at its ends, and that it carries its cap where it nearly does.
fn add_edges(
    alloc: Global,
    equations: &mut Equations,
    net: &Net,
    found: &Found,
) -> Result<(), AllocError> {
    for (number, edge) in net.edges().iter().enumerate() {
        add_ends(alloc, equations, found, number, edge)?;
        if is_near(flow_at(found, number), in_units(edge.cap)) {
            add_flow(alloc, equations, found, number, in_units(edge.cap))?;
        }
    }
    Ok(())
}

/// Adds that as much flows out of a splitter as into it.
fn add_conservation(
    alloc: Global,
    equations: &mut Equations,
    splitter: &Splitter,
) -> Result<(), AllocError> {
    let mut terms = Vec::new(alloc);
    push_port(&mut terms, splitter.into, 1)?;
    push_port(&mut terms, splitter.out_of, -1)?;
    equations.add(alloc, &terms)
}

/// Adds the flows of the edges of a port to terms, each times a number.
fn push_port(terms: &mut Vec<Term>, port: Port, number: i64) -> Result<(), AllocError> {
    match port {
        Port::Unused => {}
        Port::One(only) => terms.push((only as usize, Frac::whole(number)))?,
        Port::Two(first, second) => {
            terms.push((first as usize, Frac::whole(number)))?;
            terms.push((second as usize, Frac::whole(number)))?;
        }
    }
    Ok(())
}

/// Adds what is asked of two edges of a port of which one doesn't have the mark, which is that of a backed edge or,
/// where `mark` is false, of a free one: that they carry the same, or that the other edge than the preferred one is
/// empty.
fn add_sharing(
    alloc: Global,
    equations: &mut Equations,
    found: &Found,
    port: Port,
    preferred: Preference,
    mark: bool,
) -> Result<(), AllocError> {
    let Port::Two(first, second) = port else {
        return Ok(());
    };
    let (first, second) = (first as usize, second as usize);
    match preferred {
        Preference::Neither => add_equality(alloc, equations, found, first, second, mark),
        Preference::First => add_emptiness(alloc, equations, found, first, second, mark),
        Preference::Second => add_emptiness(alloc, equations, found, second, first, mark),
    }
}

/// Adds that two edges carry the same, where one of them doesn't have the mark and they nearly do.
fn add_equality(
    alloc: Global,
    equations: &mut Equations,
    found: &Found,
    first: usize,
    second: usize,
    mark: bool,
) -> Result<(), AllocError> {
    let is_asked = is_backed(found, first) != mark || is_backed(found, second) != mark;
    if is_asked && is_near(flow_at(found, first), flow_at(found, second)) {
        equations.add(alloc, &[(first, Frac::whole(1)), (second, Frac::whole(-1))])?;
    }
    Ok(())
}

/// Adds that an edge is empty beside the preferred one, where that doesn't have the mark and it nearly is.
fn add_emptiness(
    alloc: Global,
    equations: &mut Equations,
    found: &Found,
    preferred: usize,
    other: usize,
    mark: bool,
) -> Result<(), AllocError> {
    if is_backed(found, preferred) != mark && is_near(flow_at(found, other), 0) {
        add_flow(alloc, equations, found, other, 0)?;
    }
    Ok(())
}

/// Adds that a free edge carries the load of its input, and a backed one the room of its output.
fn add_ends(
    alloc: Global,
    equations: &mut Equations,
    found: &Found,
    number: usize,
    edge: &Edge,
) -> Result<(), AllocError> {
    let backed = is_backed(found, number);
    if let Start::Input(input) = edge.start {
        if !backed {
            add_flow(
                alloc,
                equations,
                found,
                number,
                amount_at(&found.case.loads, input),
            )?;
        }
    }
    if let Target::Output(output) = edge.target {
        if backed {
            add_flow(
                alloc,
                equations,
                found,
                number,
                amount_at(&found.case.rooms, output),
            )?;
        }
    }
    Ok(())
}

/// Adds that an edge carries an amount.
fn add_flow(
    alloc: Global,
    equations: &mut Equations,
    found: &Found,
    number: usize,
    amount: u32,
) -> Result<(), AllocError> {
    let columns = found.simulated.flows.len();
    equations.add(
        alloc,
        &[
            (number, Frac::whole(1)),
            (columns, fraction(amount).negate()),
        ],
    )
}

/// Whether two amounts differ by little.
fn is_near(one: u32, other: u32) -> bool {
    one.abs_diff(other) <= TOLERANCE
}

/// The flow of the edge with a number.
fn flow_at(found: &Found, number: usize) -> u32 {
    found.simulated.flows.get(number).copied().unwrap_or(0)
}

/// Whether the edge with a number is backed.
fn is_backed(found: &Found, number: usize) -> bool {
    found.simulated.backed.get(number).copied().unwrap_or(false)
}

/// The amount at the number of an end.
fn amount_at(amounts: &[u32], end: u32) -> u32 {
    amounts.get(end as usize).copied().unwrap_or(0)
}
