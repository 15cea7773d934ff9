//! The rules of a request, as they are drawn up.
ghost use Rattle.std.specs.Prelude.{◌≡◌, ◌++◌, ◌∷◌, [], map, flat_map, true, IfOk, OnOk};
ghost use Rattle.std.specs.List.{AllByRecursion};
ghost use Rattle.bt_parts.specs.Cells.{IsInside};
ghost use Rattle.bt_demands.specs.Counting as counting;
ghost use Rattle.bt_rules.specs.PlaceRules as place;
ghost use Rattle.bt_demands.specs.Plans.{IsGate, IsPlan};
ghost use Rattle.bt_facts.specs.Spots.{cells_of as all_cells};
ghost use Rattle.bt_facts.specs.Near.{IsNear};
ghost use Rattle.bt_rules.specs.inner.Parts as parts;

use crate::carrying::add_carrying;
use crate::contents::add_cell_contents;
use crate::going::add_handing;
use crate::ports::add_ports;
use crate::standing::{add_place, add_standing};
use crate::underground::add_underground;
use bt_demands::{Gate, Plan, add_counts, add_ends, has_room};
use bt_facts::{Draft, cells_of};
use bt_model::Request;
use bt_parts::Cell;
use std::alloc::{AllocError, Global};

/// Adds the rules of what stands on a cell, of which class it has and of which splitter a half is.
fn add_standing_parts(
    alloc: Global,
    draft: &mut Draft,
    request: &Request,
    plan: &Plan,
    cell: Cell,
) -> Result<(), AllocError>
    requires near { IsNear cell }
    requires plan { IsPlan request.now plan.now }
    ensures { OnOk result (draft.new ≡ draft.old ++ parts.standing_part_rules request.now cell) }
{
    add_cell_contents(alloc, draft, request, plan, cell)?;
    add_standing(alloc, draft, request, cell)
}

/// Adds the rules of what is handed on from a cell, above and below the ground, and with which class.
fn add_handing_parts(
    alloc: Global,
    draft: &mut Draft,
    request: &Request,
    plan: &Plan,
    cell: Cell,
) -> Result<(), AllocError>
    requires near { IsNear cell }
    requires plan { IsPlan request.now plan.now }
    ensures { OnOk result (draft.new ≡ draft.old ++ parts.handing_part_rules request.now cell) }
{
    add_handing(alloc, draft, request, plan, cell)?;
    add_underground(alloc, draft, request, plan, cell)?;
    add_carrying(alloc, draft, request, plan, cell)?;
    Ok(())
}

/// Adds the rules at a cell of the rectangle.
pub fn add_cell(
    alloc: Global,
    draft: &mut Draft,
    request: &Request,
    plan: &Plan,
    cell: Cell,
) -> Result<(), AllocError>
    requires cell { IsInside request.now.rect cell }
    requires plan { IsPlan request.now plan.now }
    ensures { OnOk result (draft.new ≡ draft.old ++ place.cell_rules request.now cell) }
{
    add_standing_parts(alloc, draft, request, plan, cell)?;
    add_handing_parts(alloc, draft, request, plan, cell)?;
    Ok(())
}

/// Adds the rules of a splitter: that it stands in one place, and by which halves its edges come and go.
pub fn add_splitter(
    alloc: Global,
    draft: &mut Draft,
    request: &Request,
    cells: &[Cell],
    gate: &Gate,
) -> Result<(), AllocError>
    requires cells { cells.now ≡ all_cells request.now.rect }
    requires gate { IsGate request.now gate.now }
    ensures { OnOk result (draft.new ≡ draft.old ++ place.splitter_rules request.now gate.now.splitter) }
{
    add_place(alloc, draft, request.rect(), cells, gate.splitter)?;
    add_ports(alloc, draft, request, gate, cells)
}

/// Adds the rules at each of the cells.
fn add_cells(
    alloc: Global,
    draft: &mut Draft,
    request: &Request,
    plan: &Plan,
    cells: &[Cell],
) -> Result<(), AllocError>
    requires cells { cells.now ≡ all_cells request.now.rect }
    requires plan { IsPlan request.now plan.now }
    ensures { OnOk result (draft.new ≡ draft.old ++ flat_map (place.cell_rules request.now) cells.now) }
{
    for cell in cells {
        add_cell(alloc, draft, request, plan, *cell)?;
    }
    Ok(())
}

/// Adds the rules of the splitters of these gates.
fn add_splitters(
    alloc: Global,
    draft: &mut Draft,
    request: &Request,
    cells: &[Cell],
    gates: &[Gate],
) -> Result<(), AllocError>
    requires cells { cells.now ≡ all_cells request.now.rect }
    requires gates { AllByRecursion (IsGate request.now) gates.now }
    ensures { OnOk result (draft.new ≡ draft.old
        ++ flat_map (λ g. place.splitter_rules request.now g.splitter) gates.now) }
{
    for gate in gates {
        add_splitter(alloc, draft, request, cells, gate)?;
    }
    Ok(())
}

/// Adds the rules of a request whose rectangle has room for its halves and ends.
fn add_room(
    alloc: Global,
    draft: &mut Draft,
    request: &Request,
    cells: &[Cell],
) -> Result<(), AllocError>
    requires cells { cells.now ≡ all_cells request.now.rect }
    requires room { counting.has_room request.now ≡ true }
    ensures { OnOk result (draft.new ≡ draft.old ++ place.room_rules request.now) }
{
    let plan = Plan::new(alloc, request)?;
    add_cells(alloc, draft, request, &plan, cells)?;
    add_splitters(alloc, draft, request, cells, &plan.gates)?;
    add_ends(alloc, draft, request, cells)?;
    add_counts(alloc, draft, request, cells)?;
    Ok(())
}

/// The rules of a request. Where its rectangle has no room for halves and ends, that is a rule that nothing keeps.
/// They are many: who writes them elsewhere asks `has_room`, and draws them up part by part, by `Plan::new`,
/// `cells_of`, `add_cell`, `add_splitter`, `add_ends` and `add_counts`, in the same order.
pub fn rules_of(alloc: Global, request: &Request) -> Result<Draft, AllocError>
    ensures { IfOk result (λ draft. draft ≡ place.rules_of request.now) }
{
    let cells = cells_of(alloc, request.rect())?;
    let mut draft = Draft::new(alloc)?;
    if has_room(alloc, request, &cells)? {
        add_room(alloc, &mut draft, request, &cells)?;
    } else {
        draft.add(&[], &[])?;
    }
    Ok(draft)
}
