//! A level with which the flows of ends are compared: one that is short is below it, and another reaches it.
ghost use Rattle.std.specs.Prelude.{◌≡◌, ◌<◌, ◌≤◌, ◌+◌, ◌*◌, ◌^◌, ◌∷◌, [], OnOk, IfOk};
ghost use Rattle.bt_flow.specs.Ports.{ArePorts};
ghost use Rattle.bt_flow_formula.specs.FlowFormula.{leveled};
ghost use Rattle.bt_flow_formula.specs.Levels as levels;

use crate::numbering::var_at;
use crate::rows::{above, not_below};
use bt_cnf::{Formula, Lit};
use bt_flow::{End, Ports, Property, input_edge, load_column, output_edge, room_column};
use bt_frac::Row;
use bt_net::Net;
use std::alloc::{AllocError, Global};

/// What a row says of an end.
#[derive(Clone, Copy)]
pub enum LevelRow {
    /// Its flow is below the level.
    Below,
    /// It is short: its flow is below what it may carry.
    Short,
    /// Its flow is at least the level.
    Reached,
}

/// The column of the level, behind those of a state.
fn level_column(net: &Net) -> usize
    ensures column { result ≡ levels.level_column net.now }
    ensures small { result < 2 ^ 16 }
{
    room_column(net, net.outputs() as usize)
}

/// How many ends of a kind a network has.
fn end_count(net: &Net, end: End) -> usize
    ensures count { result ≡ levels.end_count net.now end }
    ensures small { result < 2 ^ 16 }
{
    // A network has few ends of each kind.
    let _edges = net.edges();
    match end {
        End::Input => net.inputs() as usize,
        End::Output => net.outputs() as usize,
    }
}

/// The edge of an end.
fn end_edge(net: &Net, ports: &Ports, end: End, place: usize) -> usize
    requires ports { ArePorts net.now ports.now }
    requires place { place < levels.end_count net.now end }
    ensures edge { result ≡ levels.end_edge net.now end place }
    ensures small { result < 2 ^ 16 }
{
    match end {
        End::Input => input_edge(net, ports, place),
        End::Output => output_edge(net, ports, place),
    }
}

/// The column of what an end may carry.
fn limit_column(net: &Net, end: End, place: usize) -> usize
    requires { place < levels.end_count net.now end }
    ensures column { result ≡ levels.limit_column net.now end place }
    ensures small { result < 2 ^ 16 }
{
    match end {
        End::Input => load_column(net, place),
        End::Output => room_column(net, place),
    }
}

/// The row that says what `row` names of the end of this kind with this number.
fn level_row(
    alloc: Global,
    net: &Net,
    ports: &Ports,
    end: End,
    row: LevelRow,
    place: usize,
) -> Result<Row, AllocError>
    requires ports { ArePorts net.now ports.now }
    requires place { place < levels.end_count net.now end }
    ensures { IfOk result (λ made. made ≡ levels.level_row net.now end row place) }
{
    let edge = end_edge(net, ports, end, place);
    match row {
        LevelRow::Below => above(alloc, level_column(net), edge),
        LevelRow::Short => above(alloc, limit_column(net, end, place), edge),
        LevelRow::Reached => not_below(alloc, edge, level_column(net)),
    }
}

/// Adds for each end of a kind the row that says this of it. Each becomes a variable.
fn add_end_rows(
    alloc: Global,
    net: &Net,
    ports: &Ports,
    formula: &mut Formula,
    end: End,
    row: LevelRow,
) -> Result<(), AllocError>
    requires { ArePorts net.now ports.now }
    ensures { OnOk result (formula.new ≡ levels.with_rows formula.old (levels.end_rows net.now end row)) }
{
    for place in 0..end_count(net, end) {
        let made = level_row(alloc, net, ports, end, row, place)?;
        formula.add_atom(made)?;
    }
    Ok(())
}

/// Adds the clause that of the `count` variables from `first` on at least one is true.
fn add_some(
    alloc: Global,
    formula: &mut Formula,
    first: usize,
    count: usize,
) -> Result<(), AllocError>
    requires { first + count ≤ formula.old.vars }
    ensures { OnOk result (formula.new ≡ levels.with_more formula.old (levels.some_of first count ∷ [])) }
{
    // All of them are below this number, so no sum overflows.
    let _vars = formula.vars();
    let mut lits = Vec::new(alloc);
    for place in 0..count {
        lits.push(Lit {
            var: var_at(formula, first + place),
            positive: true,
        })?;
    }
    formula.add_clause(&lits)?;
    Ok(())
}

/// Adds for each of the `count` variables from `first` on that, where it is true, so is the one `count` later.
fn add_implied(formula: &mut Formula, first: usize, count: usize) -> Result<(), AllocError>
    requires { first + 2 * count ≤ formula.old.vars }
    ensures { OnOk result (formula.new ≡ levels.with_more formula.old (levels.each_implies first count)) }
{
    // All of them are below this number, so no sum overflows.
    let _vars = formula.vars();
    for place in 0..count {
        let below = Lit {
            var: var_at(formula, first + place),
            positive: false,
        };
        let short = Lit {
            var: var_at(formula, first + count + place),
            positive: true,
        };
        formula.add_clause(&[below, short])?;
    }
    Ok(())
}

/// Adds the rows that a level needs: that each end is below it, then that each is short, then that each reaches it.
fn add_level_rows(
    alloc: Global,
    net: &Net,
    ports: &Ports,
    formula: &mut Formula,
    end: End,
) -> Result<(), AllocError>
    requires { ArePorts net.now ports.now }
    ensures { OnOk result (formula.new ≡ levels.with_rows formula.old (levels.level_rows net.now end)) }
{
    add_end_rows(alloc, net, ports, formula, end, LevelRow::Below)?;
    add_end_rows(alloc, net, ports, formula, end, LevelRow::Short)?;
    add_end_rows(alloc, net, ports, formula, end, LevelRow::Reached)
}

/// Adds that some end of a kind is below the level, that each that is below is short, and that some end reaches it: so
/// a short end has less than another.
fn add_level_of(
    alloc: Global,
    net: &Net,
    ports: &Ports,
    formula: &mut Formula,
    end: End,
) -> Result<(), AllocError>
    requires { ArePorts net.now ports.now }
    ensures { OnOk result (formula.new ≡ levels.with_level net.now end formula.old) }
{
    let count = end_count(net, end);
    let first = formula.vars();
    add_level_rows(alloc, net, ports, formula, end)?;
    // The variables of the rows are below this number, so no sum overflows.
    let _vars = formula.vars();
    add_some(alloc, formula, first, count)?;
    add_implied(formula, first, count)?;
    add_some(alloc, formula, first + 2 * count, count)
}

/// Adds the level with which a property of fair shares is broken. Adds nothing for another property.
pub fn add_level(
    alloc: Global,
    net: &Net,
    ports: &Ports,
    formula: &mut Formula,
    property: Property,
) -> Result<(), AllocError>
    requires { ArePorts net.now ports.now }
    ensures { OnOk result (formula.new ≡ leveled net.now property formula.old) }
{
    match property {
        Property::Balanced | Property::DrawnEvenly | Property::Unlimited | Property::Full => Ok(()),
        Property::Fair => add_level_of(alloc, net, ports, formula, End::Output),
        Property::DrawnFairly => add_level_of(alloc, net, ports, formula, End::Input),
    }
}
