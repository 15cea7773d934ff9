//! Sums of flows, formed one addition after another, and the first addition that leaves 128 bits.
ghost use Rattle.std.specs.Prelude.{◌≡◌, ◌<◌, IfOk, IfErr, length};
ghost use Rattle.bt_frac.specs.Ratio.{IsWide};
ghost use Rattle.bt_flow.specs.Sums.{nothing, AddsTo, RunsTo, IsWideIn, fractions_where};
ghost use Rattle.bt_flow.specs.Properties.{is_last};
ghost use Rattle.bt_flow.specs.Ports.{flows_of};
ghost use Rattle.bt_flow.specs.inner.AtPorts.{AtEach};

use crate::ports::Port;
use bt_frac::Frac;
use bt_net::{Edge, Target};

/// Two numbers whose addition leaves 128 bits, at whatever test and place.
#[derive(Clone, Copy)]
pub struct Wide {
    pub left: Frac,
    pub right: Frac,
}

/// The sum of two numbers; or the two where it leaves 128 bits.
fn add(left: Frac, right: Frac) -> Result<Frac, Wide>
    ensures sum { IfOk result (λ r. AddsTo left right r) }
    ensures wide { IfErr result (λ w. (w.left ≡ left) × (w.right ≡ right) × IsWide left right) }
{
    match left.add(&right) {
        Some(sum) => Ok(sum),
        None => Err(Wide { left, right }),
    }
}

/// The sum of numbers in their order; or the first addition that leaves 128 bits.
pub fn sum_of(numbers: &[Frac]) -> Result<Frac, Wide>
    ensures sum { IfOk result (λ r. RunsTo nothing numbers.now r) }
    ensures wide { IfErr result (λ w. IsWideIn w.left w.right numbers.now) }
{
    let mut sum = Frac::whole(0);
    for number in numbers {
        sum = add(sum, *number)?;
    }
    Ok(sum)
}

/// The sum of the flows of the edges of a port; or the first addition that leaves 128 bits.
pub fn port_sum(flows: &[Frac], port: Port) -> Result<Frac, Wide>
    requires { AtEach port (λ a. a < length flows.now) }
    ensures sum { IfOk result (λ r. RunsTo nothing (flows_of flows.now port) r) }
    ensures wide { IfErr result (λ w. IsWideIn w.left w.right (flows_of flows.now port)) }
{
    let zero = Frac::whole(0);
    match port {
        Port::Unused => Ok(zero),
        Port::One(only) => add(zero, flows[only as usize]),
        Port::Two(first, second) => {
            let sum = add(zero, flows[first as usize])?;
            add(sum, flows[second as usize])
        }
    }
}

/// The sum of the flows of the edges that end at outputs; or the first addition that leaves 128 bits.
pub fn output_sum(edges: &[Edge], flows: &[Frac]) -> Result<Frac, Wide>
    requires { length flows.now ≡ length edges.now }
    ensures sum { IfOk result (λ r. RunsTo nothing (fractions_where is_last edges.now flows.now) r) }
    ensures wide { IfErr result (λ w. IsWideIn w.left w.right (fractions_where is_last edges.now flows.now)) }
{
    let mut sum = Frac::whole(0);
    for (place, edge) in edges.iter().enumerate() {
        if let Target::Output(_) = edge.target {
            sum = add(sum, flows[place])?;
        }
    }
    Ok(sum)
}
