//! The blueprint at the front of an input, read with its parts on their cells.
ghost use Rattle.std.specs.Prelude.{◌≡◌, ◌≤◌, List, IfOk, Ok, length};
ghost use Rattle.bt_text.specs.Answers.{UnlessMemory, seen};
ghost use Rattle.bt_parts.specs.declared.hand.Priority.{Priority as APriority};
ghost use Rattle.bt_parts.specs.Layouts.{AreInRange};
ghost use Rattle.bt_json.specs.Stands.{json_of};
ghost use Rattle.bt_entities.specs.Answers.{IsPrioritisedOf, parts_and_priorities_in};
ghost use Rattle.bt_designs.specs.Alone.{IsAlone};
ghost use Rattle.bt_designs.specs.Designs.{IsJsonPreferring, IsTieredPreferring, IsTieredWith};
ghost use Rattle.bt_designs.specs.Kept.{AreDrawn};
ghost use Rattle.bt_designs.specs.inner.Drawings.{IsTieredOn, laid_and_used, laid_of};

use crate::alone::refused_behind;
use crate::design::{Laid, net_of_grid_with, tier_of};
use crate::fault::DesignFault;
use bt_entities::{Prioritised, parts_and_priorities};
use bt_json::Tree;
use bt_parts::{Priority, Tier};
use bt_recover::Grid;
use std::alloc::Global;

/// A blueprint: the network and the tier of its layout, and its parts on their cells.
#[derive(Drop)]
pub struct Drawing {
    pub laid: Laid,
    pub grid: Grid,
}

/// The blueprint that the bytes are, with blanks behind it.
pub fn read_lone_drawing(alloc: Global, bytes: &[u8]) -> Result<Drawing, DesignFault>
    ensures layout { UnlessMemory DesignFault.Memory (IsAlone IsJsonPreferring bytes.now)
        (seen laid_of result) }
    ensures drawn { IfOk result (λ drawing. AreDrawn bytes.now drawing.grid) }
{
    match read_drawing(alloc, bytes) {
        Ok((drawing, used)) => match refused_behind(bytes, used) {
            None => Ok(drawing),
            Some(refusal) => Err(DesignFault::Refused(refusal)),
        },
        Err(fault) => Err(fault),
    }
}

/// The blueprint whose JSON text stands at the front of the bytes, in which splitters may prefer sides, and how many
/// bytes it has.
pub fn read_drawing(alloc: Global, bytes: &[u8]) -> Result<(Drawing, usize), DesignFault>
    ensures layout { UnlessMemory DesignFault.Memory (IsJsonPreferring bytes.now)
        (seen laid_and_used result) }
    ensures drawn { IfOk result (λ found. AreDrawn bytes.now found.0.grid) }
    ensures within { IfOk result (λ found. found.1 ≤ length bytes.now) }
{
    match bt_json::read(alloc, bytes) {
        Ok((tree, used)) => match drawing_of(alloc, tree) {
            Ok(drawing) => Ok((drawing, used)),
            Err(fault) => Err(fault),
        },
        Err(fault) => Err(fault.into()),
    }
}

/// The blueprint that a JSON value is.
fn drawing_of(alloc: Global, tree: Tree) -> Result<Drawing, DesignFault>
    ensures layout { UnlessMemory DesignFault.Memory (IsTieredPreferring (json_of tree))
        (seen laid_of result) }
    ensures drawn { IfOk result (λ drawing. (priorities : List APriority)
        × IsPrioritisedOf (json_of tree) (Ok (drawing.grid, priorities))) }
{
    let read = parts_and_priorities(alloc, &tree);
    drop(tree);
    match read {
        Ok(read) => drawing_with(alloc, read),
        Err(fault) => Err(fault.into()),
    }
}

/// The blueprint of parts with priorities.
fn drawing_with(alloc: Global, read: Prioritised) -> Result<Drawing, DesignFault>
    requires { AreInRange read.parts.items }
    ensures layout { UnlessMemory DesignFault.Memory (IsTieredWith (parts_and_priorities_in read))
        (seen laid_of result) }
    ensures drawn { IfOk result (λ drawing. drawing.grid ≡ read.parts.items) }
{
    let tier = tier_of(&read.parts);
    let Prioritised { parts, priorities } = read;
    match Grid::place(alloc, parts) {
        Ok(grid) => drawing_on(alloc, grid, &priorities, tier),
        Err(fault) => Err(fault.into()),
    }
}

/// The blueprint of parts that are placed, with their priorities and their tier.
fn drawing_on(
    alloc: Global,
    grid: Grid,
    priorities: &[Priority],
    tier: Option<Tier>,
) -> Result<Drawing, DesignFault>
    ensures layout { UnlessMemory DesignFault.Memory (IsTieredOn grid priorities.now tier)
        (seen laid_of result) }
    ensures drawn { IfOk result (λ drawing. drawing.grid ≡ grid) }
{
    match net_of_grid_with(alloc, &grid, priorities) {
        Ok(net) => Ok(Drawing {
            laid: Laid { net, tier },
            grid,
        }),
        Err(fault) => Err(fault),
    }
}
