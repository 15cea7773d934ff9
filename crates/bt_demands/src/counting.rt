//! Whether halves and ends have room, and the rules that all halves are among the cells.
ghost use Rattle.std.specs.Prelude.{◌≡◌, ◌++◌, ◌≤◌, not, true, IfOk, OnOk};
ghost use Rattle.bt_demands.specs.Classes.{is_through};
ghost use Rattle.bt_demands.specs.Counting as counting;
ghost use Rattle.bt_facts.specs.Spots as spots;

use crate::classes::is_through;
use bt_facts::{Draft, add_all_held, add_counter, border_of};
use bt_model::Request;
use bt_parts::Cell;
use std::alloc::{AllocError, Global};

/// Whether the input doesn't lead to an output.
fn is_apart(request: &Request, input: usize) -> bool
    ensures { result ≡ not (is_through request.now input) }
{
    !is_through(request.net().edges(), input)
}

/// The number of inputs that don't lead to outputs.
fn inputs_apart(request: &Request) -> usize
    ensures count { result ≡ counting.inputs_apart request.now }
    ensures few { result ≤ 2048 }
{
    let inputs = request.net().inputs() as usize;
    let mut count = 0;
    for input in 0..inputs {
        if is_apart(request, input) {
            count += 1;
        }
    }
    count
}

/// The number of cells that ends need: one for each output, and one for each input that doesn't lead to an output. An
/// input that does may begin on the cell on which its output ends.
fn ends_apart(request: &Request) -> usize
    ensures count { result ≡ counting.ends_apart request.now }
    ensures few { result ≤ 4096 }
{
    request.net().outputs() as usize + inputs_apart(request)
}

/// Whether so many cells, of which so many are on the border, have room for the halves, and the border for the ends:
/// each half and each end needs a cell of its own.
fn are_enough(cells: usize, border: usize, halves: usize, ends: usize) -> bool
    requires halves { halves ≤ 4096 }
    requires ends { ends ≤ 4096 }
    ensures { result ≡ counting.are_enough cells border halves ends }
{
    ends <= border && halves + ends <= cells
}

/// The number of halves: two for each splitter.
fn halves_of(request: &Request) -> usize
    ensures count { result ≡ counting.halves_of request.now }
    ensures few { result ≤ 4096 }
{
    request.net().splitters() as usize * 2
}

/// Whether the rectangle, of these cells, has room for halves and ends.
pub fn has_room(alloc: Global, request: &Request, cells: &[Cell]) -> Result<bool, AllocError>
    requires { cells.now ≡ spots.cells_of request.now.rect }
    ensures { IfOk result (λ room. room ≡ counting.has_room request.now) }
{
    let border = border_of(alloc, request.rect(), cells)?;
    let halves = halves_of(request);
    let ends = ends_apart(request);
    Ok(are_enough(cells.len(), border.len(), halves, ends))
}

/// Adds that all halves are among the cells. Only called where the rectangle has room.
pub fn add_counts(
    alloc: Global,
    draft: &mut Draft,
    request: &Request,
    cells: &[Cell],
) -> Result<(), AllocError>
    requires cells { cells.now ≡ spots.cells_of request.now.rect }
    requires room { counting.has_room request.now ≡ true }
    ensures { OnOk result (draft.new ≡ draft.old ++ counting.count_rules request.now) }
{
    let halves = halves_of(request);
    add_counter(alloc, draft, cells, halves)?;
    add_all_held(draft, cells.len(), halves)
}
