//! The clauses that say that a state meets the condition of a property and fails its conclusion.
ghost use Rattle.std.specs.Prelude.{◌≡◌, ◌∷◌, [], ◌<◌, ◌≤◌, ◌+◌, ◌-◌, ◌^◌, All, OnOk, IfOk, length};
ghost use Rattle.bt_flow.specs.Ports.{ArePorts};
ghost use Rattle.bt_flow.specs.EndEdges as end_edges;
ghost use Rattle.bt_flow_formula.specs.Columns as columns;
ghost use Rattle.bt_flow_formula.specs.Properties as properties;
ghost use Rattle.bt_flow_formula.specs.inner.Adding.{IsAfter, with_clauses};
ghost use Rattle.bt_flow_formula.specs.inner.Variables.{at_in};

use crate::numbering::{add_row, literal_of};
use crate::rows::{above, at_least, minus, plus, row_of_vec};
use crate::state_literal::StateLiteral;
use crate::variables::PairVars;
use bt_cnf::{Formula, Lit};
use bt_flow::{
    Ports, Property, cap_at, input_edge, last_edges, load_column, output_edge, room_column,
};
use bt_frac::{Frac, Relation, Row};
use bt_net::Net;
use std::alloc::{AllocError, Global};

/// Adds that every load is at its cap.
fn add_loaded(
    alloc: Global,
    net: &Net,
    ports: &Ports,
    pairs: &PairVars,
    formula: &mut Formula,
) -> Result<(), AllocError>
    requires { ArePorts net.now ports.now }
    ensures { OnOk result (formula.new
        ≡ with_clauses (at_in pairs.now) formula.old (properties.loaded_clauses net.now)) }
{
    for input in 0..net.inputs() as usize {
        let cap = cap_at(net, input_edge(net, ports, input));
        let full = at_least(alloc, load_column(net, input), cap)?;
        add_row(formula, pairs, full)?;
    }
    Ok(())
}

/// Adds that every room is at its cap.
fn add_open(
    alloc: Global,
    net: &Net,
    ports: &Ports,
    pairs: &PairVars,
    formula: &mut Formula,
) -> Result<(), AllocError>
    requires { ArePorts net.now ports.now }
    ensures { OnOk result (formula.new
        ≡ with_clauses (at_in pairs.now) formula.old (properties.open_clauses net.now)) }
{
    for output in 0..net.outputs() as usize {
        let cap = cap_at(net, output_edge(net, ports, output));
        let full = at_least(alloc, room_column(net, output), cap)?;
        add_row(formula, pairs, full)?;
    }
    Ok(())
}

/// The edges of the inputs.
fn input_edges(alloc: Global, net: &Net, ports: &Ports) -> Result<Vec<usize>, AllocError>
    requires { ArePorts net.now ports.now }
    ensures { IfOk result (λ edges. (edges.items ≡ end_edges.input_edges net.now)
        × All (λ a. a < 2 ^ 64 - 1) edges.items) }
{
    let mut edges = Vec::new(alloc);
    for input in 0..net.inputs() as usize {
        edges.push(input_edge(net, ports, input))?;
    }
    Ok(edges)
}

/// The edges of the outputs.
fn output_edges(alloc: Global, net: &Net, ports: &Ports) -> Result<Vec<usize>, AllocError>
    requires { ArePorts net.now ports.now }
    ensures { IfOk result (λ edges. (edges.items ≡ end_edges.output_edges net.now)
        × All (λ a. a < 2 ^ 64 - 1) edges.items) }
{
    let mut edges = Vec::new(alloc);
    for output in 0..net.outputs() as usize {
        edges.push(output_edge(net, ports, output))?;
    }
    Ok(edges)
}

/// The literals that the flow of the first edge is above or below that of another, whose rows become variables.
fn unequal_lits(
    alloc: Global,
    pairs: &PairVars,
    formula: &mut Formula,
    edges: &[usize],
) -> Result<Vec<Lit>, AllocError>
    requires { All (λ a. a < 2 ^ 64 - 1) edges.now }
    ensures { IfOk result (λ lits.
        IsAfter (at_in pairs.now) formula.old (properties.unequal_clause edges.now) formula.new lits.items) }
{
    let mut lits = Vec::new(alloc);
    if let [first, others @ ..] = edges {
        for other in others {
            let more = above(alloc, *first, *other)?;
            lits.push(literal_of(formula, pairs, StateLiteral::Says(more))?)?;
            let less = above(alloc, *other, *first)?;
            lits.push(literal_of(formula, pairs, StateLiteral::Says(less))?)?;
        }
    }
    Ok(lits)
}

/// Adds the clause that the flow of the first edge differs from that of another.
fn add_unequal(
    alloc: Global,
    pairs: &PairVars,
    formula: &mut Formula,
    edges: &[usize],
) -> Result<(), AllocError>
    requires { All (λ a. a < 2 ^ 64 - 1) edges.now }
    ensures { OnOk result (formula.new
        ≡ with_clauses (at_in pairs.now) formula.old (properties.unequal_clause edges.now ∷ [])) }
{
    let lits = unequal_lits(alloc, pairs, formula, edges)?;
    formula.add_clause(&lits)?;
    Ok(())
}

/// The row that the `count` columns from `first` on add up to more than the flows to outputs.
fn above_outputs(alloc: Global, net: &Net, first: usize, count: usize) -> Result<Row, AllocError>
    requires first { length net.now.edges ≤ first }
    requires last { first + count < 2 ^ 64 }
    ensures { IfOk result (λ row. row ≡ columns.above_outputs net.now first count) }
{
    let edges = last_edges(alloc, net)?;
    let mut terms = Vec::new(alloc);
    terms.reserve(edges.len().saturating_add(count))?;
    for edge in &edges {
        terms.push(minus(*edge))?;
    }
    for column in first..first + count {
        terms.push(plus(column))?;
    }
    Ok(row_of_vec(terms, Relation::Above, Frac::whole(0)))
}

/// Adds that the sum of output flows is below that of loads, and below that of rooms.
fn add_short(
    alloc: Global,
    net: &Net,
    pairs: &PairVars,
    formula: &mut Formula,
) -> Result<(), AllocError>
    ensures { OnOk result (formula.new
        ≡ with_clauses (at_in pairs.now) formula.old (properties.short_clauses net.now)) }
{
    let loads = above_outputs(alloc, net, load_column(net, 0), net.inputs() as usize)?;
    add_row(formula, pairs, loads)?;
    let rooms = above_outputs(alloc, net, room_column(net, 0), net.outputs() as usize)?;
    add_row(formula, pairs, rooms)
}

/// Adds the clauses of a state that breaks a property. Fair shares have a level for that, so nothing is added here.
pub fn add_property(
    alloc: Global,
    net: &Net,
    ports: &Ports,
    pairs: &PairVars,
    formula: &mut Formula,
    property: Property,
) -> Result<(), AllocError>
    requires { ArePorts net.now ports.now }
    ensures { OnOk result (formula.new
        ≡ with_clauses (at_in pairs.now) formula.old (properties.property_clauses net.now property)) }
{
    match property {
        Property::Balanced => {
            add_open(alloc, net, ports, pairs, formula)?;
            let edges = output_edges(alloc, net, ports)?;
            add_unequal(alloc, pairs, formula, &edges)
        }
        Property::DrawnEvenly => {
            add_loaded(alloc, net, ports, pairs, formula)?;
            let edges = input_edges(alloc, net, ports)?;
            add_unequal(alloc, pairs, formula, &edges)
        }
        Property::Unlimited => add_short(alloc, net, pairs, formula),
        Property::Full => {
            add_loaded(alloc, net, ports, pairs, formula)?;
            add_open(alloc, net, ports, pairs, formula)?;
            add_short(alloc, net, pairs, formula)
        }
        // A level says what these say, behind all clauses of claims.
        Property::Fair | Property::DrawnFairly => Ok(()),
    }
}
