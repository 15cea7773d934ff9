//! Two designs, one behind the other: the networks that are to be compared.
ghost use Rattle.std.specs.Prelude.{◌≡◌, ◌↔◌, ◌≤◌, ℕ, All, IfOk, IsTrue, length};
ghost use Rattle.bt_text.specs.Answers.{UnlessMemory};
ghost use Rattle.bt_same.specs.Sameness.{HaveEqualEnds};
ghost use Rattle.bt_net.specs.declared.network.Start.TheVariants.{Input};
ghost use Rattle.bt_net.specs.declared.network.Target.TheVariants.{Output};
ghost use Rattle.bt_designs.specs.TwoDesigns.{HaveCapsAlike, IsCappedAlike, IsPaired, IsSecondNet, IsTwoNets};

use crate::alone::read_lone_bare;
use crate::design::{Design, read_bare};
use crate::fault::DesignFault;
use crate::refusal::Refusal;
use bt_net::{Edge, Net, Start, Target};
use bt_text::skip_blanks;
use std::alloc::Global;

/// The networks of the two designs that the bytes are, with blanks between and behind them. They have equal numbers of
/// inputs and of outputs, and equal caps at those of one number.
pub fn read_two(alloc: Global, bytes: &[u8]) -> Result<(Net, Net), DesignFault>
    ensures nets { UnlessMemory DesignFault.Memory (IsTwoNets bytes.now) result }
    ensures ends { IfOk result (λ nets. HaveEqualEnds nets.0 nets.1) }
{
    match read_bare(alloc, bytes) {
        Ok(Design { net, used }) => read_second(alloc, net, bytes, used),
        Err(fault) => Err(fault),
    }
}

/// The first network, and that of the design which stands alone behind the first so many bytes.
fn read_second(
    alloc: Global,
    first: Net,
    bytes: &[u8],
    used: usize,
) -> Result<(Net, Net), DesignFault>
    requires { used ≤ length bytes.now }
    ensures nets { UnlessMemory DesignFault.Memory (IsSecondNet first bytes.now used) result }
    ensures ends { IfOk result (λ nets. HaveEqualEnds nets.0 nets.1) }
{
    let (_, rest) = bytes.split_at(used);
    match read_lone_bare(alloc, skip_blanks(rest)) {
        Ok(second) => paired(first, second),
        Err(fault) => Err(fault),
    }
}

/// Two networks that may be compared; refused where they have other numbers of inputs or of outputs, or other caps at
/// those of one number.
pub fn paired(first: Net, second: Net) -> Result<(Net, Net), DesignFault>
    ensures nets { UnlessMemory DesignFault.Memory (IsPaired first second) result }
    ensures ends { IfOk result (λ nets. HaveEqualEnds nets.0 nets.1) }
{
    if have_equal_ends(&first, &second) && have_equal_caps(&first, &second) {
        Ok((first, second))
    } else {
        Err(DesignFault::Refused(Refusal::Ends))
    }
}

/// Whether two networks have equal numbers of inputs and of outputs.
fn have_equal_ends(first: &Net, second: &Net) -> bool
    ensures { IsTrue result ↔ HaveEqualEnds first.now second.now }
{
    first.inputs() == second.inputs() && first.outputs() == second.outputs()
}

/// Whether the edges at ends of one number have equal caps. Each edge is compared with each of the other network, which
/// are at most `bt_net::MOST_OF_EACH` both.
fn have_equal_caps(first: &Net, second: &Net) -> bool
    ensures { IsTrue result ↔ All (IsCappedAlike second.now) first.now.edges }
{
    first
        .edges()
        .iter()
        .all(|edge| is_capped_alike(second, edge))
}

/// Whether an edge has the cap of each edge of the network that starts at the same input or ends at the same output.
fn is_capped_alike(net: &Net, edge: &Edge) -> bool
    ensures { IsTrue result ↔ IsCappedAlike net.now edge.now }
{
    net.edges().iter().all(|other| fits(edge, other))
}

/// Whether two edges have equal caps, where they start at the same input or end at the same output.
fn fits(edge: &Edge, other: &Edge) -> bool
    ensures { IsTrue result ↔ HaveCapsAlike edge.now other.now }
{
    edge.cap == other.cap || !(start_alike(edge, other) || end_alike(edge, other))
}

/// Whether two edges start at inputs of one number.
fn start_alike(edge: &Edge, other: &Edge) -> bool
    ensures { IsTrue result ↔ ((k : ℕ) × (edge.now.start ≡ Input k) × (other.now.start ≡ Input k)) }
{
    match (edge.start, other.start) {
        (Start::Input(one), Start::Input(two)) => one == two,
        _ => false,
    }
}

/// Whether two edges end at outputs of one number.
fn end_alike(edge: &Edge, other: &Edge) -> bool
    ensures { IsTrue result ↔ ((k : ℕ) × (edge.now.target ≡ Output k) × (other.now.target ≡ Output k)) }
{
    match (edge.target, other.target) {
        (Target::Output(one), Target::Output(two)) => one == two,
        _ => false,
    }
}
