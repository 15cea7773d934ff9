//! `make`: whether a network that is made by a rule is balanced.
ghost use Rattle.std.specs.Prelude.{◌≡◌, alloc_error};
ghost use Rattle.bt_text.specs.Answers.{UnlessMemory};
ghost use Rattle.bt_gen.specs.Butterfly.{butterfly_net};
ghost use Rattle.bt_gen.specs.Chain.{chain_net};
ghost use Rattle.bt_gen.specs.Orders.{IsGenerated};
ghost use Rattle.bt_top.specs.Making.{IsMade, IsBalanceDecided, IsSaidBalanced, balance_told, made_of};
ghost use Rattle.bt_print.specs.Replies.{gen_told};
ghost use Rattle.bt_designs.specs.Steps.{InTurn};

use bt_cnf::{Chooser, Limits};
use bt_decide::{Verdict, decide};
use bt_flow::Property;
use bt_gen::{MOST_IN_CHAIN, MOST_STAGES, butterfly, chain};
use bt_net::Net;
use bt_print::{Answer, Made, ungenerated};
use bt_words::NetworkFamily;
use std::alloc::{AllocError, Global};

/// The answer of `make` to a kind of network and an order. Each butterfly is balanced, so none is searched.
pub fn make(
    alloc: Global,
    family: NetworkFamily,
    order: u32,
    limits: Limits,
    choosers: Vec<Box<dyn Chooser>>,
) -> Result<Answer, AllocError>
    ensures { UnlessMemory alloc_error (IsMade family order limits) result }
{
    match family {
        NetworkFamily::Butterfly => butterfly_made(alloc, order),
        NetworkFamily::Chain => chain_made(alloc, order, limits, choosers),
    }
}

/// The answer of `make` to a butterfly of this order; a refusal where there is none.
fn butterfly_made(alloc: Global, order: u32) -> Result<Answer, AllocError>
    ensures { UnlessMemory alloc_error
        (InTurn (IsGenerated MOST_STAGES butterfly_net order) gen_told (IsSaidBalanced order)) result }
{
    match butterfly(alloc, order) {
        Ok(net) => Ok(made_of(NetworkFamily::Butterfly, order, &net, true)),
        Err(fault) => ungenerated(fault),
    }
}

/// The answer of `make` to a chain of this order; a refusal where there is none.
fn chain_made(
    alloc: Global,
    order: u32,
    limits: Limits,
    choosers: Vec<Box<dyn Chooser>>,
) -> Result<Answer, AllocError>
    ensures { UnlessMemory alloc_error
        (InTurn (IsGenerated MOST_IN_CHAIN chain_net order) gen_told (IsBalanceDecided order limits)) result }
{
    match chain(alloc, order) {
        Ok(net) => balance_of(alloc, order, limits, &net, choosers),
        Err(fault) => ungenerated(fault),
    }
}

/// The answer of `make` to a chain that was made, whose balance is decided.
fn balance_of(
    alloc: Global,
    order: u32,
    limits: Limits,
    net: &Net,
    choosers: Vec<Box<dyn Chooser>>,
) -> Result<Answer, AllocError>
    ensures { UnlessMemory alloc_error (IsBalanceDecided order limits net.now) result }
{
    match decide(alloc, net, Property::Balanced, limits, choosers) {
        Ok(verdict) => Ok(balance_told(order, net, verdict)),
        Err(_) => Err(AllocError),
    }
}

/// What is answered to a verdict on the balance of a chain.
fn balance_told(order: u32, net: &Net, verdict: Verdict) -> Answer
    ensures { result ≡ balance_told order net.now verdict }
{
    match verdict {
        Verdict::Yes { .. } => made_of(NetworkFamily::Chain, order, net, true),
        Verdict::No(_) => made_of(NetworkFamily::Chain, order, net, false),
        Verdict::GaveUp { definitions, cause } => Answer::Undecided(definitions, cause),
    }
}

/// What is said of a network that was made.
fn made_of(family: NetworkFamily, order: u32, net: &Net, balanced: bool) -> Answer
    ensures { result ≡ made_of family order net.now balanced }
{
    Answer::Made(Made {
        family,
        order,
        edges: net.edges().len(),
        outputs: net.outputs(),
        balanced,
    })
}
