//! The rules of ends and blocks, as they are drawn up.
ghost use Rattle.std.specs.Prelude.{◌≡◌, ◌++◌, OnOk};
ghost use Rattle.bt_demands.specs.Ends as ends;
ghost use Rattle.bt_facts.specs.Spots.{cells_of as all_cells};

use crate::pinning::{add_blocks, add_clashes};
use crate::siding::add_demands;
use crate::starts::add_inputs;
use bt_facts::{Draft, border_of};
use bt_model::Request;
use bt_parts::Cell;
use std::alloc::{AllocError, Global};

/// Adds the rules of inputs, pins, sides, rows and blocks.
pub fn add_ends(
    alloc: Global,
    draft: &mut Draft,
    request: &Request,
    cells: &[Cell],
) -> Result<(), AllocError>
    requires { cells.now ≡ all_cells request.now.rect }
    ensures { OnOk result (draft.new ≡ draft.old ++ ends.end_rules request.now) }
{
    let border = border_of(alloc, request.rect(), cells)?;
    let demands = request.demands();
    add_inputs(alloc, draft, request, &border)?;
    add_demands(alloc, draft, request, &border, cells, demands)?;
    add_clashes(draft, demands)?;
    add_blocks(draft, request.blocks())
}
