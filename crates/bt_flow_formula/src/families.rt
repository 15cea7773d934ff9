//! The clauses that say that a state is admissible and steady.
ghost use Rattle.std.specs.Prelude.{◌≡◌, ◌<◌, ◌-◌, ◌^◌, OnOk, IfOk, map};
ghost use Rattle.bt_flow.specs.Ports.{ArePorts};
ghost use Rattle.bt_frac.specs.declared.relation.Relation.TheVariants as Relation;
ghost use Rattle.bt_flow_formula.specs.Columns as columns;
ghost use Rattle.bt_flow_formula.specs.Families as families;
ghost use Rattle.bt_flow_formula.specs.declared.clause_family.ClauseFamily.TheVariants as of;
ghost use Rattle.bt_flow_formula.specs.Pairs as of_pairs;
ghost use Rattle.bt_flow_formula.specs.inner.Adding.{with_clauses};
ghost use Rattle.bt_flow_formula.specs.inner.Variables.{at_in, HasColumns};
ghost use Rattle.bt_flow_formula.specs.inner.Within.{AreWithin};

use crate::clause_family::ClauseFamily;
use crate::numbering::{add_row, add_two};
use crate::rows::{at_least, at_most, not_below, row_of_vec};
use crate::splitters::{add_backing, add_pair, add_pairs, add_sharing, merge};
use crate::state_literal::{Pair, Side, StateLiteral};
use crate::variables::{PairVars, port_at, preferred_at};
use bt_cnf::Formula;
use bt_flow::{Ports, cap_at, input_edge, load_column, numbers_of, output_edge, room_column};
use bt_frac::{Frac, Relation, Row};
use bt_net::Net;
use std::alloc::{AllocError, Global};

/// Adds that a column is from 0 to a cap.
fn add_range(
    alloc: Global,
    pairs: &PairVars,
    formula: &mut Formula,
    column: usize,
    cap: u32,
) -> Result<(), AllocError>
    requires { column < 2 ^ 64 - 1 }
    ensures { OnOk result (formula.new
        ≡ with_clauses (at_in pairs.now) formula.old (families.range_clauses column cap)) }
{
    let least = at_least(alloc, column, 0)?;
    add_row(formula, pairs, least)?;
    let most = at_most(alloc, column, cap)?;
    add_row(formula, pairs, most)
}

/// Adds that an edge's flow is at most the load or room in a column, and as the pair says at least that, unless the
/// edge is backed, where `mark` is true, or free, where it is false.
fn add_end(
    alloc: Global,
    pairs: &PairVars,
    formula: &mut Formula,
    column: usize,
    edge: usize,
    mark: bool,
    pair: Pair,
) -> Result<(), AllocError>
    requires column { column < 2 ^ 64 - 1 }
    requires edge { edge < 2 ^ 64 - 1 }
    requires within { AreWithin (at_in pairs.now) formula.old.vars
        (families.end_clauses column edge mark pair) }
    ensures { OnOk result (formula.new
        ≡ with_clauses (at_in pairs.now) formula.old (families.end_clauses column edge mark pair)) }
{
    let most = not_below(alloc, column, edge)?;
    add_row(formula, pairs, most)?;
    let marked = StateLiteral::Mark { edge, backed: mark };
    add_two(formula, pairs, marked, StateLiteral::First(pair))
}

/// The row that as much flows into a splitter as out of it.
fn conserve_row(alloc: Global, net: &Net, ports: &Ports, splitter: usize) -> Result<Row, AllocError>
    requires ports { ArePorts net.now ports.now }
    requires splitter { splitter < net.now.splitters }
    ensures { IfOk result (λ row. row ≡ columns.zero_row
        (columns.in_less_out splitter 0 net.now.edges) Relation.Equal) }
{
    let entering = numbers_of(alloc, ports.into[splitter])?;
    let leaving = numbers_of(alloc, ports.out_of[splitter])?;
    let terms = merge(alloc, &entering, &leaving)?;
    Ok(row_of_vec(terms, Relation::Equal, Frac::whole(0)))
}

/// Adds that as much flows into a splitter as out of it.
fn add_conserve(
    alloc: Global,
    net: &Net,
    ports: &Ports,
    pairs: &PairVars,
    formula: &mut Formula,
    splitter: usize,
) -> Result<(), AllocError>
    requires ports { ArePorts net.now ports.now }
    requires splitter { splitter < net.now.splitters }
    ensures { OnOk result (formula.new
        ≡ with_clauses (at_in pairs.now) formula.old (families.clauses_at net.now of.Conserve splitter)) }
{
    let row = conserve_row(alloc, net, ports, splitter)?;
    add_row(formula, pairs, row)
}

/// Adds that each in edge of a splitter isn't backed, or each out edge is backed or full.
fn add_backing_at(
    alloc: Global,
    net: &Net,
    ports: &Ports,
    pairs: &PairVars,
    formula: &mut Formula,
    splitter: usize,
) -> Result<(), AllocError>
    requires ports { ArePorts net.now ports.now }
    requires splitter { splitter < net.now.splitters }
    requires within { AreWithin (at_in pairs.now) formula.old.vars
        (families.clauses_at net.now of.Backing splitter) }
    ensures { OnOk result (formula.new
        ≡ with_clauses (at_in pairs.now) formula.old (families.clauses_at net.now of.Backing splitter)) }
{
    let entering = numbers_of(alloc, ports.into[splitter])?;
    let leaving = numbers_of(alloc, ports.out_of[splitter])?;
    add_backing(net, pairs, formula, &entering, &leaving)
}

/// Adds that the load of an input is from 0 to the cap of its edge.
fn add_load(
    alloc: Global,
    net: &Net,
    ports: &Ports,
    pairs: &PairVars,
    formula: &mut Formula,
    input: usize,
) -> Result<(), AllocError>
    requires ports { ArePorts net.now ports.now }
    requires input { input < net.now.inputs }
    ensures { OnOk result (formula.new
        ≡ with_clauses (at_in pairs.now) formula.old (families.clauses_at net.now of.Loads input)) }
{
    let edge = input_edge(net, ports, input);
    let column = load_column(net, input);
    add_range(alloc, pairs, formula, column, cap_at(net, edge))
}

/// Adds that the room of an output is from 0 to the cap of its edge.
fn add_room(
    alloc: Global,
    net: &Net,
    ports: &Ports,
    pairs: &PairVars,
    formula: &mut Formula,
    output: usize,
) -> Result<(), AllocError>
    requires ports { ArePorts net.now ports.now }
    requires output { output < net.now.outputs }
    ensures { OnOk result (formula.new
        ≡ with_clauses (at_in pairs.now) formula.old (families.clauses_at net.now of.Rooms output)) }
{
    let edge = output_edge(net, ports, output);
    let column = room_column(net, output);
    add_range(alloc, pairs, formula, column, cap_at(net, edge))
}

/// The pair that compares the flow of an input's edge with the load.
fn loaded(net: &Net, ports: &Ports, input: usize) -> Pair
    requires ports { ArePorts net.now ports.now }
    requires input { input < net.now.inputs }
    ensures pair { result ≡ of_pairs.loaded net.now input }
    ensures small { HasColumns result }
{
    Pair::Loaded {
        input,
        edge: input_edge(net, ports, input),
        column: load_column(net, input),
    }
}

/// The pair that compares the flow of an output's edge with the room.
fn filled(net: &Net, ports: &Ports, output: usize) -> Pair
    requires ports { ArePorts net.now ports.now }
    requires output { output < net.now.outputs }
    ensures pair { result ≡ of_pairs.filled net.now output }
    ensures small { HasColumns result }
{
    Pair::Filled {
        output,
        edge: output_edge(net, ports, output),
        column: room_column(net, output),
    }
}

/// Adds that an input takes in at most its load, and all of it where its edge is free.
fn add_input(
    alloc: Global,
    net: &Net,
    ports: &Ports,
    pairs: &PairVars,
    formula: &mut Formula,
    input: usize,
) -> Result<(), AllocError>
    requires ports { ArePorts net.now ports.now }
    requires input { input < net.now.inputs }
    requires within { AreWithin (at_in pairs.now) formula.old.vars
        (families.clauses_at net.now of.Inputs input) }
    ensures { OnOk result (formula.new
        ≡ with_clauses (at_in pairs.now) formula.old (families.clauses_at net.now of.Inputs input)) }
{
    let edge = input_edge(net, ports, input);
    let column = load_column(net, input);
    let pair = loaded(net, ports, input);
    add_end(alloc, pairs, formula, column, edge, true, pair)
}

/// Adds that an output lets out at most its room, and fills it where its edge is backed.
fn add_output(
    alloc: Global,
    net: &Net,
    ports: &Ports,
    pairs: &PairVars,
    formula: &mut Formula,
    output: usize,
) -> Result<(), AllocError>
    requires ports { ArePorts net.now ports.now }
    requires output { output < net.now.outputs }
    requires within { AreWithin (at_in pairs.now) formula.old.vars
        (families.clauses_at net.now of.Outputs output) }
    ensures { OnOk result (formula.new
        ≡ with_clauses (at_in pairs.now) formula.old (families.clauses_at net.now of.Outputs output)) }
{
    let edge = output_edge(net, ports, output);
    let column = room_column(net, output);
    let pair = filled(net, ports, output);
    add_end(alloc, pairs, formula, column, edge, false, pair)
}

/// Adds the clauses of the pairs at a side of a splitter: of each pair its first row, or the opposite.
fn add_side_pairs(
    alloc: Global,
    net: &Net,
    ports: &Ports,
    pairs: &PairVars,
    formula: &mut Formula,
    side: Side,
    splitter: usize,
) -> Result<(), AllocError>
    requires ports { ArePorts net.now ports.now }
    requires splitter { splitter < net.now.splitters }
    ensures { OnOk result (formula.new ≡ with_clauses (at_in pairs.now) formula.old
        (map of_pairs.pair_clause (of_pairs.pairs_at net.now side splitter))) }
{
    let port = port_at(net, ports, side, splitter);
    let preferred = preferred_at(net, side, splitter);
    add_pairs(alloc, pairs, formula, side, splitter, port, preferred)
}

/// Adds how the edges at a side of a splitter share: evenly, or the preferred one first.
fn add_side(
    net: &Net,
    ports: &Ports,
    pairs: &PairVars,
    formula: &mut Formula,
    side: Side,
    splitter: usize,
) -> Result<(), AllocError>
    requires ports { ArePorts net.now ports.now }
    requires splitter { splitter < net.now.splitters }
    requires within { AreWithin (at_in pairs.now) formula.old.vars
        (families.sharing_clauses net.now side splitter) }
    ensures { OnOk result (formula.new
        ≡ with_clauses (at_in pairs.now) formula.old (families.sharing_clauses net.now side splitter)) }
{
    let port = port_at(net, ports, side, splitter);
    let preferred = preferred_at(net, side, splitter);
    add_sharing(net, pairs, formula, side, splitter, port, preferred)
}

/// Adds that an edge is full or isn't.
fn add_full_pair(
    alloc: Global,
    net: &Net,
    pairs: &PairVars,
    formula: &mut Formula,
    edge: usize,
) -> Result<(), AllocError>
    requires { edge < 2 ^ 64 - 1 }
    ensures { OnOk result (formula.new
        ≡ with_clauses (at_in pairs.now) formula.old (families.clauses_at net.now of.FullPairs edge)) }
{
    let cap = cap_at(net, edge);
    add_pair(alloc, pairs, formula, Pair::Full { edge, cap })
}

/// Adds the clauses of a family at a place to a formula whose first variables are the marks of edges.
pub fn add_at(
    alloc: Global,
    net: &Net,
    ports: &Ports,
    pairs: &PairVars,
    formula: &mut Formula,
    family: ClauseFamily,
    place: usize,
) -> Result<(), AllocError>
    requires ports { ArePorts net.now ports.now }
    requires place { place < families.places net.now family }
    requires within { AreWithin (at_in pairs.now) formula.old.vars
        (families.clauses_at net.now family place) }
    ensures { OnOk result (formula.new
        ≡ with_clauses (at_in pairs.now) formula.old (families.clauses_at net.now family place)) }
{
    match family {
        ClauseFamily::Flows => add_range(alloc, pairs, formula, place, cap_at(net, place)),
        ClauseFamily::Loads => add_load(alloc, net, ports, pairs, formula, place),
        ClauseFamily::Rooms => add_room(alloc, net, ports, pairs, formula, place),
        ClauseFamily::Conserve => add_conserve(alloc, net, ports, pairs, formula, place),
        ClauseFamily::OutPairs => add_side_pairs(
            alloc,
            net,
            ports,
            pairs,
            formula,
            Side::Out,
            place,
        ),
        ClauseFamily::InPairs => add_side_pairs(alloc, net, ports, pairs, formula, Side::In, place),
        ClauseFamily::FullPairs => add_full_pair(alloc, net, pairs, formula, place),
        ClauseFamily::LoadPairs => add_pair(alloc, pairs, formula, loaded(net, ports, place)),
        ClauseFamily::RoomPairs => add_pair(alloc, pairs, formula, filled(net, ports, place)),
        ClauseFamily::EvenOut => add_side(net, ports, pairs, formula, Side::Out, place),
        ClauseFamily::EvenIn => add_side(net, ports, pairs, formula, Side::In, place),
        ClauseFamily::Backing => add_backing_at(alloc, net, ports, pairs, formula, place),
        ClauseFamily::Inputs => add_input(alloc, net, ports, pairs, formula, place),
        ClauseFamily::Outputs => add_output(alloc, net, ports, pairs, formula, place),
    }
}

/// How many places a family has: so many edges, inputs, outputs or splitters have clauses of it.
pub fn places(net: &Net, family: ClauseFamily) -> usize
    ensures { result ≡ families.places net.now family }
{
    match family {
        ClauseFamily::Flows | ClauseFamily::FullPairs => net.edges().len(),
        ClauseFamily::Loads | ClauseFamily::LoadPairs | ClauseFamily::Inputs =>
            net.inputs() as usize,
        ClauseFamily::Rooms | ClauseFamily::RoomPairs | ClauseFamily::Outputs =>
            net.outputs() as usize,
        ClauseFamily::Conserve
        | ClauseFamily::OutPairs
        | ClauseFamily::InPairs
        | ClauseFamily::EvenOut
        | ClauseFamily::EvenIn
        | ClauseFamily::Backing => net.splitters() as usize,
    }
}
