//! Rules of inputs that lead to outputs.
//! Such an input has a fact of where it starts, since it must begin exactly once, and no splitter counts what comes
//! of it, as of other inputs.
ghost use Rattle.std.specs.Prelude.{◌≡◌, ◌++◌, ◌∷◌, [], map, flat_map, OnOk};
ghost use Rattle.std.specs.List.{range_with_len};
ghost use Rattle.bt_facts.specs.Spots.{border_of};
ghost use Rattle.bt_demands.specs.Starts as starts;

use crate::classes::is_through;
use bt_facts::{Class, Draft, Fact, add_exactly_one, starts_on};
use bt_model::Request;
use bt_parts::Cell;
use std::alloc::{AllocError, Global};

/// Adds that the input starts on the cell exactly where one begins there that has its class.
fn add_start(draft: &mut Draft, input: usize, cell: Cell) -> Result<(), AllocError>
    ensures { OnOk result (draft.new ≡ draft.old ++ starts.start_rules input cell) }
{
    let starts = Fact::Starts(cell, input);
    let class = Fact::Carries(cell, Class::Input(input));
    draft.add(&[starts], &[Fact::Begins(cell)])?;
    draft.add(&[starts], &[class])?;
    draft.add(&[Fact::Begins(cell), class], &[starts])
}

/// Adds for each of these cells that the input starts there exactly where one begins there that has its class.
fn add_starts(draft: &mut Draft, input: usize, border: &[Cell]) -> Result<(), AllocError>
    ensures { OnOk result (draft.new ≡ draft.old ++ flat_map (starts.start_rules input) border.now) }
{
    for cell in border {
        add_start(draft, input, *cell)?;
    }
    Ok(())
}

/// Adds that the input starts on exactly one cell of the border; nothing where it doesn't lead to an output.
fn add_input(
    alloc: Global,
    draft: &mut Draft,
    request: &Request,
    border: &[Cell],
    input: usize,
) -> Result<(), AllocError>
    requires { border.now ≡ border_of request.now.rect }
    ensures { OnOk result (draft.new ≡ draft.old ++ starts.input_rules request.now input) }
{
    if is_through(request.net().edges(), input) {
        let facts = starts_on(alloc, border, input)?;
        add_exactly_one(draft, &facts)?;
        add_starts(draft, input, border)?;
    }
    Ok(())
}

/// Adds that each input that leads to an output starts on exactly one cell of the border.
pub fn add_inputs(
    alloc: Global,
    draft: &mut Draft,
    request: &Request,
    border: &[Cell],
) -> Result<(), AllocError>
    requires { border.now ≡ border_of request.now.rect }
    ensures { OnOk result (draft.new ≡ draft.old
        ++ flat_map (starts.input_rules request.now) (range_with_len 0 request.now.net.inputs)) }
{
    let inputs = request.net().inputs() as usize;
    for input in 0..inputs {
        add_input(alloc, draft, request, border, input)?;
    }
    Ok(())
}
