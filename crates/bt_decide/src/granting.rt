//! Deciding whether a network grants a wish.
ghost use Rattle.std.specs.Prelude.{IsTrue, IfOk};
ghost use Rattle.bt_flow.specs.Properties.{Holds};
ghost use Rattle.bt_decide.specs.Building.{Grants};
ghost use Rattle.bt_decide.specs.inner.Wished.{PassesWished};

use crate::deciding::decide;
use crate::verdict::Verdict;
use bt_choosers::Active;
use bt_cnf::Limits;
use bt_flow::Property;
use bt_gen::Wish;
use bt_net::Net;
use std::alloc::{AllocError, Global};

/// Whether a network has each property of a wish. False too where one of them isn't decided within the limits, which
/// hold for each alone.
pub fn grants(alloc: Global, net: &Net, wish: Wish, limits: Limits) -> Result<bool, AllocError>
    ensures { IfOk result (λ granted. IsTrue granted → Grants wish net.now) }
{
    Ok(
        passes(alloc, net, wish, limits)?
            && has_if(alloc, net, wish.drawn_evenly, Property::DrawnEvenly, limits)?
            && has_if(alloc, net, wish.balanced, Property::Balanced, limits)?
            && has_if(alloc, net, wish.fair, Property::Fair, limits)?
            && has_if(alloc, net, wish.drawn_fairly, Property::DrawnFairly, limits)?,
    )
}

/// Whether a network is unlimited, where a wish asks for that, or else full, where it asks for that. One that is
/// unlimited is full, so full needn't be decided then. False too where it isn't decided within the limits.
fn passes(alloc: Global, net: &Net, wish: Wish, limits: Limits) -> Result<bool, AllocError>
    ensures { IfOk result (λ held. IsTrue held → PassesWished wish net.now) }
{
    if wish.unlimited {
        return has(alloc, net, Property::Unlimited, limits);
    }
    has_if(alloc, net, wish.full, Property::Full, limits)
}

/// Whether a network has a property, where that is asked for; true where it isn't. False too where it isn't decided
/// within the limits.
fn has_if(
    alloc: Global,
    net: &Net,
    is_asked: bool,
    property: Property,
    limits: Limits,
) -> Result<bool, AllocError>
    ensures { IfOk result (λ held. IsTrue held → IsTrue is_asked → Holds net.now property) }
{
    if is_asked {
        has(alloc, net, property, limits)
    } else {
        Ok(true)
    }
}

/// Whether a network has a property. False too where that isn't decided within the limits.
fn has(alloc: Global, net: &Net, property: Property, limits: Limits) -> Result<bool, AllocError>
    ensures { IfOk result (λ held. IsTrue held → Holds net.now property) }
{
    let mut choosers = Vec::new(alloc);
    choosers.push(Active::new(alloc)?)?;
    match decide(alloc, net, property, limits, choosers)? {
        Verdict::Yes { .. } => Ok(true),
        Verdict::No(_) | Verdict::GaveUp { .. } => Ok(false),
    }
}
