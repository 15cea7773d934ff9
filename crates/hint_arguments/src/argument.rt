//! What a search is given with a formula: definitions, scopes and goals.
use crate::balancing::aims_of;
use crate::equalling::{add_equal, is_equalled};
use crate::lacking::add_lacking;
use crate::pairing::pairing_of;
use bt_cnf::Formula;
use bt_extend::{Definition, Goal};
use bt_flow::Property;
use bt_net::Net;
use hint_averages::add_unlimited;
use hint_differences::add_looping;
use hint_graphs::has_no_preference;
use hint_scopes::{Aim, Line, scopes_of, scopes_of_both};
use hint_universal::{add_even, add_fair, add_through};
use std::alloc::{AllocError, Global};

/// Definitions that extend a formula, and scopes and goals over the extended formula.
#[derive(Drop)]
pub struct Argument {
    pub definitions: Vec<Definition>,
    /// Lists of rows, by their places.
    pub scopes: Vec<Vec<usize>>,
    pub goals: Vec<Goal>,
}

/// The argument for a property of a network, over its formula.
pub fn argument_of(
    alloc: Global,
    net: &Net,
    property: Property,
    formula: &Formula,
) -> Result<Argument, AllocError> {
    let mut line = Line {
        definitions: Vec::new(alloc),
        scopes: scopes_of(alloc, net, property, formula.rows())?,
        aims: aims_of(alloc, net, property, formula)?,
    };
    extend(alloc, net, property, formula, &mut line)?;
    argument_from(alloc, line)
}

/// Adds to a line the argument for a property that needs definitions.
fn extend(
    alloc: Global,
    net: &Net,
    property: Property,
    formula: &Formula,
    line: &mut Line,
) -> Result<(), AllocError> {
    if is_universal(alloc, net, property, formula, line)? {
        return Ok(());
    }
    match property {
        Property::Balanced => add_divided(alloc, net, formula, line, false),
        Property::DrawnEvenly => add_divided(alloc, net, formula, line, true),
        Property::Unlimited => add_unlimited(alloc, net, formula, line),
        Property::Full => add_lacking(alloc, net, formula, line),
        Property::Fair | Property::DrawnFairly => Ok(()),
    }
}

/// Adds to a line what follows of how splitters divide, from the inputs on or with `backward` from the outputs back.
fn add_divided(
    alloc: Global,
    net: &Net,
    formula: &Formula,
    line: &mut Line,
    backward: bool,
) -> Result<(), AllocError> {
    if is_equalled(alloc, net)? {
        add_equal(alloc, net, formula, line, backward)
    } else {
        add_looping(alloc, net, formula, line, backward)
    }
}

/// Adds to a line what a network with spare ends that lead back needs, and tells whether it is one.
fn is_universal(
    alloc: Global,
    net: &Net,
    property: Property,
    formula: &Formula,
    line: &mut Line,
) -> Result<bool, AllocError> {
    if has_no_preference(net) {
        return Ok(false);
    }
    match property {
        Property::Balanced => add_even(alloc, net, formula, line, false),
        Property::DrawnEvenly => add_even(alloc, net, formula, line, true),
        Property::Unlimited | Property::Full => add_through(alloc, net, formula, line),
        Property::Fair => add_fair(alloc, net, formula, line, false),
        Property::DrawnFairly => add_fair(alloc, net, formula, line, true),
    }
}

/// The argument that two networks behave the same, over the formula of both.
pub fn argument_of_both(
    alloc: Global,
    first: &Net,
    second: &Net,
    formula: &Formula,
) -> Result<Argument, AllocError> {
    let line = match pairing_of(alloc, first, second, formula)? {
        Some(line) => line,
        None => line_of_both(alloc, first, second, formula)?,
    };
    argument_from(alloc, line)
}

/// The line of two networks that has scopes alone.
fn line_of_both(
    alloc: Global,
    first: &Net,
    second: &Net,
    formula: &Formula,
) -> Result<Line, AllocError> {
    Ok(Line {
        definitions: Vec::new(alloc),
        scopes: scopes_of_both(alloc, first, second, formula.rows())?,
        aims: Vec::new(alloc),
    })
}

/// The argument of a line: each aim is a goal of one scope.
fn argument_from(alloc: Global, line: Line) -> Result<Argument, AllocError> {
    let Line {
        definitions,
        scopes,
        aims,
    } = line;
    let goals = goals_from(alloc, aims)?;
    Ok(Argument {
        definitions,
        scopes,
        goals,
    })
}

/// For each aim the goal of its literals by its one scope.
fn goals_from(alloc: Global, aims: Vec<Aim>) -> Result<Vec<Goal>, AllocError> {
    let mut goals = Vec::with_capacity(alloc, aims.len())?;
    for aim in aims {
        goals.push(Goal {
            lits: aim.lits,
            scopes: Vec::from_slice(alloc, &[aim.scope])?,
        })?;
    }
    Ok(goals)
}
