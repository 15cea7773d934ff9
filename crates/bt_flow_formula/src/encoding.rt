//! The flow formula of a network and a property.
ghost use Rattle.std.specs.Prelude.{◌≡◌, OnOk, IfOk, flat_map, length};
ghost use Rattle.bt_net.specs.Network.{IsNetwork};
ghost use Rattle.bt_flow.specs.Ports.{ArePorts};
ghost use Rattle.bt_flow_formula.specs.Families.{family_clauses};
ghost use Rattle.bt_flow_formula.specs.FlowFormula.{flow_formula, steady_formula, steady_clauses};
ghost use Rattle.bt_flow_formula.specs.Numbering.{formula_of};
ghost use Rattle.bt_flow_formula.specs.inner.Adding.{with_clauses};
ghost use Rattle.bt_flow_formula.specs.inner.Variables.{at_in, AreVariables};
ghost use Rattle.bt_flow_formula.specs.inner.Within.{AreWithin};

use crate::clause_family::{ClauseFamily, LAWS, NAMELESS};
use crate::families::{add_at, places};
use crate::level::add_level;
use crate::properties::add_property;
use crate::variables::PairVars;
use bt_cnf::Formula;
use bt_flow::{Ports, Property};
use bt_net::Net;
use std::alloc::{AllocError, Global};

/// Adds the clauses of a family at all its places: the numbers of the edges, ends or splitters that it speaks of.
fn write_family(
    alloc: Global,
    net: &Net,
    ports: &Ports,
    pairs: &PairVars,
    formula: &mut Formula,
    family: ClauseFamily,
) -> Result<(), AllocError>
    requires ports { ArePorts net.now ports.now }
    requires within { AreWithin (at_in pairs.now) formula.old.vars (family_clauses net.now family) }
    ensures { OnOk result (formula.new
        ≡ with_clauses (at_in pairs.now) formula.old (family_clauses net.now family)) }
{
    for place in 0..places(net, family) {
        add_at(alloc, net, ports, pairs, formula, family, place)?;
    }
    Ok(())
}

/// Adds the clauses of each of these families.
fn write_families(
    alloc: Global,
    net: &Net,
    ports: &Ports,
    pairs: &PairVars,
    formula: &mut Formula,
    families: &[ClauseFamily],
) -> Result<(), AllocError>
    requires ports { ArePorts net.now ports.now }
    requires within { AreWithin (at_in pairs.now) formula.old.vars
        (flat_map (family_clauses net.now) families.now) }
    ensures { OnOk result (formula.new
        ≡ with_clauses (at_in pairs.now) formula.old (flat_map (family_clauses net.now) families.now)) }
{
    for family in families {
        write_family(alloc, net, ports, pairs, formula, *family)?;
    }
    Ok(())
}

/// The formula of a network's admissible steady states, in which the pairs have these variables.
fn laws_of(alloc: Global, net: &Net, ports: &Ports, pairs: &PairVars) -> Result<Formula, AllocError>
    requires ports { ArePorts net.now ports.now }
    requires variables { AreVariables net.now pairs.now }
    ensures formula { IfOk result (λ formula. formula
        ≡ formula_of (at_in pairs.now) (length net.now.edges) (steady_clauses net.now)) }
    ensures network { IsNetwork net.now }
{
    let mut formula = Formula::new(alloc, net.edges().len())?;
    write_families(alloc, net, ports, pairs, &mut formula, &NAMELESS)?;
    write_families(alloc, net, ports, pairs, &mut formula, &LAWS)?;
    Ok(formula)
}

/// The flow formula of a network and a property. Its variables are the marks of the edges, true where
/// an edge is backed, and then an atom for each mention of a row; the first row of a pair is one atom
/// wherever it is mentioned. The rows' columns are the flows of the edges, the loads of the inputs and
/// the rooms of the outputs; where ends are to share fairly, a level comes behind them.
pub fn encode(alloc: Global, net: &Net, property: Property) -> Result<Formula, AllocError>
    ensures formula { IfOk result (λ formula. formula ≡ flow_formula net.now property) }
    ensures network { IsNetwork net.now }
{
    let ports = Ports::of(net);
    let pairs = PairVars::of(alloc, net, &ports)?;
    let mut formula = laws_of(alloc, net, &ports, &pairs)?;
    add_property(alloc, net, &ports, &pairs, &mut formula, property)?;
    add_level(alloc, net, &ports, &mut formula, property)?;
    Ok(formula)
}

/// The formula of a network's admissible steady states: the flow formula without a property. Its variables and
/// columns are numbered in the same way.
pub fn encode_steady(alloc: Global, net: &Net) -> Result<Formula, AllocError>
    ensures formula { IfOk result (λ formula. formula ≡ steady_formula net.now) }
    ensures network { IsNetwork net.now }
{
    let ports = Ports::of(net);
    let pairs = PairVars::of(alloc, net, &ports)?;
    let formula = laws_of(alloc, net, &ports, &pairs)?;
    Ok(formula)
}
