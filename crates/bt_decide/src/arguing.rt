//! The arguments by which decisions are made, with no more definitions than a verdict may have.
ghost use Rattle.std.specs.Prelude.{IfOk};
ghost use Rattle.bt_decide.specs.Verdicts.{splitters_of_both};
ghost use Rattle.bt_decide.specs.inner.Outcomes.{MayBeGiven};

use bt_cert::MOST_DEFINITIONS;
use bt_cnf::Formula;
use bt_extend::Definition;
use bt_flow::Property;
use bt_net::Net;
use hint_arguments::{Argument, argument_of, argument_of_both};
use std::alloc::{AllocError, Global};

/// The argument for a property of a network, over its formula, with no more definitions than a verdict may have.
pub fn argument_for(
    alloc: Global,
    net: &Net,
    property: Property,
    formula: &Formula,
) -> Result<Argument, AllocError>
    ensures { IfOk result (λ argument. MayBeGiven net.now.splitters argument.definitions.items) }
{
    let mut argument = argument_of(alloc, net, property, formula)?;
    limit(u64::from(net.splitters()), &mut argument.definitions);
    Ok(argument)
}

/// The argument that two networks behave the same, over the formula of both, with no more definitions than a verdict
/// may have.
pub fn argument_for_both(
    alloc: Global,
    first: &Net,
    second: &Net,
    formula: &Formula,
) -> Result<Argument, AllocError>
    ensures { IfOk result (λ argument.
        MayBeGiven (splitters_of_both first.now second.now) argument.definitions.items) }
{
    let mut argument = argument_of_both(alloc, first, second, formula)?;
    let splitters = u64::from(first.splitters()) + u64::from(second.splitters());
    limit(splitters, &mut argument.definitions);
    Ok(argument)
}

/// Drops the definitions that a verdict may not have: all where there are no splitters, and those past the most of a
/// certificate.
fn limit(splitters: u64, definitions: &mut Vec<Definition>)
    ensures { MayBeGiven splitters definitions.new.items }
{
    let most = if splitters == 0 { 0 } else { MOST_DEFINITIONS };
    definitions.truncate(most);
}
