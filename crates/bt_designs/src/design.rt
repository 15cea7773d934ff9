//! The design at the front of an input.
//!
//! JSON goes through four layers (its text, the blueprint, the places of parts, the layout), network
//! text through one. Each step stands in a function of its own, whose fault is told as a refusal.
ghost use Rattle.std.specs.Prelude.{◌≡◌, ◌↔◌, ◌≤◌, ◌∷◌, ℕ, IsTrue, List, IfOk, length, map};
ghost use Rattle.bt_text.specs.Answers.{UnlessMemory, seen};
ghost use Rattle.bt_parts.specs.Layouts.{AreInRange};
ghost use Rattle.bt_net.specs.Network.{IsCap};
ghost use Rattle.bt_json.specs.Stands.{json_of};
ghost use Rattle.bt_entities.specs.Answers.{parts_and_priorities_in};
ghost use Rattle.bt_designs.specs.Found.{net_and_used};
ghost use Rattle.bt_designs.specs.Designs.{IsJsonText, IsPlacedNet, IsLayoutNet, IsTieredLayout, IsTieredBlueprint, IsTierOf};
ghost use Rattle.bt_designs.specs.Designs.{IsPlacedWith, IsLayoutWith, IsPreferringNet, IsTextDesign, IsDesign};
ghost use Rattle.bt_designs.specs.Designs.{IsBareText, IsBareDesign, IsJsonDesign, IsJsonLayout, IsToldOfLayout};
ghost use Rattle.bt_designs.specs.Designs.{in_basic_belts, with_cap, with_caps};

use crate::fault::DesignFault;
use bt_entities::{Prioritised, parts_and_priorities, parts_of};
use bt_json::Tree;
use bt_net::{Admitted, Edge, Net};
use bt_parts::{Part, Priority, Tier};
use bt_recover::{Grid, Traced, recover, recover_with};
use bt_text::skip_blanks;
use std::alloc::{AllocError, Global};

/// A design's network, and how many bytes the design has.
#[derive(Drop)]
pub struct Design {
    pub net: Net,
    pub used: usize,
}

/// The network of a layout, and the tier of all its parts, where they have one.
#[derive(Drop)]
pub struct Laid {
    pub net: Net,
    pub tier: Option<Tier>,
}

/// Whether a design at the front of these bytes is JSON: its first byte that isn't blank is `{`.
pub fn is_json(bytes: &[u8]) -> bool
    ensures { IsTrue result ↔ IsJsonText bytes.now }
{
    begins_with_brace(skip_blanks(bytes))
}

/// Whether a text begins with `{`.
fn begins_with_brace(text: &[u8]) -> bool
    ensures { IsTrue result ↔ ((rest : List ℕ) × (text.now ≡ 123 ∷ rest)) }
{
    match text {
        [first, ..] => *first == b'{',
        [] => false,
    }
}

/// The design at the front of the bytes, which is JSON or network text; refused where none stands there.
pub fn read_design(alloc: Global, bytes: &[u8]) -> Result<Design, DesignFault>
    ensures design { UnlessMemory DesignFault.Memory (IsDesign bytes.now) (seen net_and_used result) }
    ensures within { IfOk result (λ design. design.used ≤ length bytes.now) }
{
    if is_json(bytes) {
        read_json(alloc, bytes)
    } else {
        read_text(alloc, bytes)
    }
}

/// The design whose network text stands at the front of the bytes.
pub fn read_text(alloc: Global, bytes: &[u8]) -> Result<Design, DesignFault>
    ensures design { UnlessMemory DesignFault.Memory (IsTextDesign bytes.now) (seen net_and_used result) }
    ensures within { IfOk result (λ design. design.used ≤ length bytes.now) }
{
    match bt_net::read(alloc, Admitted::Priorities, bytes) {
        Ok(read) => Ok(Design {
            net: read.net,
            used: read.used,
        }),
        Err(fault) => Err(fault.into()),
    }
}

/// The bare design at the front of the bytes: no splitter of it prefers a side or an edge, and nothing stands
/// behind the edges of its text. The network of JSON text is told in basic belts.
pub fn read_bare(alloc: Global, bytes: &[u8]) -> Result<Design, DesignFault>
    ensures design { UnlessMemory DesignFault.Memory (IsBareDesign bytes.now) (seen net_and_used result) }
    ensures within { IfOk result (λ design. design.used ≤ length bytes.now) }
{
    if is_json(bytes) {
        read_bare_json(alloc, bytes)
    } else {
        read_bare_text(alloc, bytes)
    }
}

/// The bare design whose network text stands at the front of the bytes.
fn read_bare_text(alloc: Global, bytes: &[u8]) -> Result<Design, DesignFault>
    ensures design { UnlessMemory DesignFault.Memory (IsBareText bytes.now) (seen net_and_used result) }
    ensures within { IfOk result (λ design. design.used ≤ length bytes.now) }
{
    match bt_net::read(alloc, Admitted::Nothing, bytes) {
        Ok(read) => Ok(Design {
            net: read.net,
            used: read.used,
        }),
        Err(fault) => Err(fault.into()),
    }
}

/// The bare design whose JSON text stands at the front of the bytes, in basic belts.
fn read_bare_json(alloc: Global, bytes: &[u8]) -> Result<Design, DesignFault>
    ensures design { UnlessMemory DesignFault.Memory (IsToldOfLayout in_basic_belts bytes.now)
        (seen net_and_used result) }
    ensures within { IfOk result (λ design. design.used ≤ length bytes.now) }
{
    match read_json_layout(alloc, bytes) {
        Ok((laid, used)) => match in_basic_belts(alloc, laid) {
            Ok(net) => Ok(Design { net, used }),
            Err(_) => Err(DesignFault::Memory),
        },
        Err(fault) => Err(fault),
    }
}

/// A layout's network with caps in the unit of a basic belt; as it is where its parts have no tier in common.
fn in_basic_belts(alloc: Global, laid: Laid) -> Result<Net, AllocError>
    ensures { IfOk result (λ net. net ≡ in_basic_belts laid) }
{
    let Laid { net, tier } = laid;
    match tier {
        Some(tier) => with_caps(alloc, &net, tier.speed()),
        None => Ok(net),
    }
}

/// A network with the same edges, each with this cap.
fn with_caps(alloc: Global, net: &Net, cap: u32) -> Result<Net, AllocError>
    requires { IsCap cap }
    ensures { IfOk result (λ capped. capped ≡ with_caps cap net.now) }
{
    let edges = capped(alloc, net.edges(), cap)?;
    match Net::new(net.inputs(), net.outputs(), net.splitters(), edges) {
        Ok(net) => Ok(net),
        Err(_) => Err(AllocError),
    }
}

/// The same edges with this cap.
fn capped(alloc: Global, edges: &[Edge], cap: u32) -> Result<Vec<Edge>, AllocError>
    ensures { IfOk result (λ capped. capped.items ≡ map (with_cap cap) edges.now) }
{
    edges
        .iter()
        .map(|edge| Edge { cap, ..*edge })
        .collect(alloc)
}

/// The layout whose JSON text stands at the front of the bytes, in which no splitter prefers a side, and how many bytes
/// it has.
pub fn read_json_layout(alloc: Global, bytes: &[u8]) -> Result<(Laid, usize), DesignFault>
    ensures layout { UnlessMemory DesignFault.Memory (IsJsonLayout bytes.now) result }
    ensures within { IfOk result (λ found. found.1 ≤ length bytes.now) }
{
    match bt_json::read(alloc, bytes) {
        Ok((tree, used)) => match laid_of_blueprint(alloc, tree) {
            Ok(laid) => Ok((laid, used)),
            Err(fault) => Err(fault),
        },
        Err(fault) => Err(fault.into()),
    }
}

/// The network whose JSON text stands at the front of the bytes.
fn read_json(alloc: Global, bytes: &[u8]) -> Result<Design, DesignFault>
    ensures design { UnlessMemory DesignFault.Memory (IsJsonDesign bytes.now) (seen net_and_used result) }
    ensures within { IfOk result (λ design. design.used ≤ length bytes.now) }
{
    match bt_json::read(alloc, bytes) {
        Ok((tree, used)) => match net_of_design(alloc, tree) {
            Ok(net) => Ok(Design { net, used }),
            Err(fault) => Err(fault),
        },
        Err(fault) => Err(fault.into()),
    }
}

/// The network of a blueprint whose splitters may prefer sides.
fn net_of_design(alloc: Global, tree: Tree) -> Result<Net, DesignFault>
    ensures { UnlessMemory DesignFault.Memory (IsPreferringNet (json_of tree)) result }
{
    let read = parts_and_priorities(alloc, &tree);
    drop(tree);
    match read {
        Ok(read) => net_of_prioritised(alloc, read),
        Err(fault) => Err(fault.into()),
    }
}

/// The network of a layout with priorities.
fn net_of_prioritised(alloc: Global, read: Prioritised) -> Result<Net, DesignFault>
    requires { AreInRange read.parts.items }
    ensures { UnlessMemory DesignFault.Memory (IsLayoutWith (parts_and_priorities_in read)) result }
{
    let Prioritised { parts, priorities } = read;
    match Grid::place(alloc, parts) {
        Ok(grid) => net_of_grid_with(alloc, &grid, &priorities),
        Err(fault) => Err(fault.into()),
    }
}

/// The network of parts that are placed, with their priorities.
pub fn net_of_grid_with(
    alloc: Global,
    grid: &Grid,
    priorities: &[Priority],
) -> Result<Net, DesignFault>
    ensures { UnlessMemory DesignFault.Memory (IsPlacedWith priorities.now grid.now) result }
{
    match recover_with(alloc, grid, priorities) {
        Ok(Traced { net, .. }) => Ok(net),
        Err(fault) => Err(fault.into()),
    }
}

/// The layout of a blueprint whose splitters prefer no side.
fn laid_of_blueprint(alloc: Global, tree: Tree) -> Result<Laid, DesignFault>
    ensures { UnlessMemory DesignFault.Memory (IsTieredBlueprint (json_of tree)) result }
{
    let parts = parts_of(alloc, &tree);
    drop(tree);
    match parts {
        Ok(parts) => laid_out(alloc, parts),
        Err(fault) => Err(fault.into()),
    }
}

/// The network of a layout, and the tier of its parts.
fn laid_out(alloc: Global, parts: Vec<Part>) -> Result<Laid, DesignFault>
    requires { AreInRange parts.items }
    ensures { UnlessMemory DesignFault.Memory (IsTieredLayout parts.items) result }
{
    let tier = tier_of(&parts);
    match net_of_layout(alloc, parts) {
        Ok(net) => Ok(Laid { net, tier }),
        Err(fault) => Err(fault),
    }
}

/// The tier of all parts; none where they have more than one, or there are no parts.
pub fn tier_of(parts: &[Part]) -> Option<Tier>
    ensures { IsTierOf parts.now result }
{
    let Some(first) = parts.first() else {
        return None;
    };
    for part in parts {
        if part.tier != first.tier {
            return None;
        }
    }
    Some(first.tier)
}

/// The network of a layout.
fn net_of_layout(alloc: Global, parts: Vec<Part>) -> Result<Net, DesignFault>
    requires { AreInRange parts.items }
    ensures { UnlessMemory DesignFault.Memory (IsLayoutNet parts.items) result }
{
    match Grid::place(alloc, parts) {
        Ok(grid) => net_of_grid(alloc, &grid),
        Err(fault) => Err(fault.into()),
    }
}

/// The network of parts that are placed.
fn net_of_grid(alloc: Global, grid: &Grid) -> Result<Net, DesignFault>
    ensures { UnlessMemory DesignFault.Memory (IsPlacedNet grid.now) result }
{
    match recover(alloc, grid) {
        Ok(Traced { net, .. }) => Ok(net),
        Err(fault) => Err(fault.into()),
    }
}
