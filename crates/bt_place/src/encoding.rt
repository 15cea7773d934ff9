//! The placement formula of a request.
ghost use Rattle.std.specs.Prelude.{◌≡◌, ◌<◌, true, map, flat_map, IfOk, OnOk};
ghost use Rattle.std.specs.List.{AllByRecursion};
ghost use Rattle.bt_parts.specs.Cells.{IsInside};
ghost use Rattle.bt_model.specs.Requests.{IsRequest};
ghost use Rattle.bt_demands.specs.Classes.{splitters_of};
ghost use Rattle.bt_demands.specs.Plans.{IsGate, IsPlan};
ghost use Rattle.bt_rules.specs.PlaceRules.{cell_rules, splitter_rules, room_rules, rules_of};
ghost use Rattle.bt_demands.specs.Ends.{end_rules};
ghost use Rattle.bt_demands.specs.Counting as counting;
ghost use Rattle.bt_facts.specs.Spots as spots;
ghost use Rattle.bt_place.specs.PlaceFormula.{place_formula};
ghost use Rattle.bt_place.specs.inner.Writing.{HasVariables, IsEncoding, with_rules};

use crate::numbering::Numbers;
use crate::writing::write;
use bt_cnf::Formula;
use bt_demands::{Gate, Plan, add_counts, add_ends, has_room};
use bt_facts::{Draft, cells_of};
use bt_model::Request;
use bt_parts::Cell;
use bt_rules::{add_cell, add_splitter};
use std::alloc::{AllocError, Global};

/// The rules at a cell.
fn cell_draft(
    alloc: Global,
    request: &Request,
    plan: &Plan,
    cell: Cell,
) -> Result<Draft, AllocError>
    requires inside { IsInside request.now.rect cell }
    requires plan { IsPlan request.now plan.now }
    ensures { IfOk result (λ draft. draft ≡ cell_rules request.now cell) }
{
    let mut draft = Draft::new(alloc)?;
    add_cell(alloc, &mut draft, request, plan, cell)?;
    Ok(draft)
}

/// Adds the clauses of the rules at a cell.
fn write_cell(
    alloc: Global,
    formula: &mut Formula,
    numbers: &Numbers,
    request: &Request,
    plan: &Plan,
    cell: Cell,
) -> Result<(), AllocError>
    requires inside { IsInside request.now.rect cell }
    requires plan { IsPlan request.now plan.now }
    requires encoding { IsEncoding request.now numbers.now formula.old.vars }
    ensures { OnOk result (formula.new ≡ with_rules numbers.now formula.old
        (cell_rules request.now cell)) }
{
    let draft = cell_draft(alloc, request, plan, cell)?;
    write(alloc, formula, numbers, &draft)?;
    Ok(())
}

/// Adds the clauses of the rules at these cells.
fn write_cells(
    alloc: Global,
    formula: &mut Formula,
    numbers: &Numbers,
    request: &Request,
    plan: &Plan,
    cells: &[Cell],
) -> Result<(), AllocError>
    requires cells { cells.now ≡ spots.cells_of request.now.rect }
    requires plan { IsPlan request.now plan.now }
    requires encoding { IsEncoding request.now numbers.now formula.old.vars }
    ensures { OnOk result (formula.new ≡ with_rules numbers.now formula.old
        (flat_map (cell_rules request.now) cells.now)) }
{
    for cell in cells {
        write_cell(alloc, formula, numbers, request, plan, *cell)?;
    }
    Ok(())
}

/// The rules of a splitter.
fn splitter_draft(
    alloc: Global,
    request: &Request,
    cells: &[Cell],
    gate: &Gate,
) -> Result<Draft, AllocError>
    requires cells { cells.now ≡ spots.cells_of request.now.rect }
    requires gate { IsGate request.now gate.now }
    ensures { IfOk result (λ draft. draft ≡ splitter_rules request.now gate.now.splitter) }
{
    let mut draft = Draft::new(alloc)?;
    add_splitter(alloc, &mut draft, request, cells, gate)?;
    Ok(draft)
}

/// Adds the clauses of the rules of a splitter.
fn write_splitter(
    alloc: Global,
    formula: &mut Formula,
    numbers: &Numbers,
    request: &Request,
    cells: &[Cell],
    gate: &Gate,
) -> Result<(), AllocError>
    requires cells { cells.now ≡ spots.cells_of request.now.rect }
    requires gate { IsGate request.now gate.now }
    requires there { gate.now.splitter < request.now.net.splitters }
    requires encoding { IsEncoding request.now numbers.now formula.old.vars }
    ensures { OnOk result (formula.new ≡ with_rules numbers.now formula.old
        (splitter_rules request.now gate.now.splitter)) }
{
    let draft = splitter_draft(alloc, request, cells, gate)?;
    write(alloc, formula, numbers, &draft)?;
    Ok(())
}

/// Adds the clauses of the rules of each splitter.
fn write_splitters(
    alloc: Global,
    formula: &mut Formula,
    numbers: &Numbers,
    request: &Request,
    cells: &[Cell],
    gates: &[Gate],
) -> Result<(), AllocError>
    requires cells { cells.now ≡ spots.cells_of request.now.rect }
    requires of { map (λ g. g.splitter) gates.now ≡ splitters_of request.now }
    requires gates { AllByRecursion (IsGate request.now) gates.now }
    requires encoding { IsEncoding request.now numbers.now formula.old.vars }
    ensures { OnOk result (formula.new ≡ with_rules numbers.now formula.old
        (flat_map (λ g. splitter_rules request.now g.splitter) gates.now)) }
{
    for gate in gates {
        write_splitter(alloc, formula, numbers, request, cells, gate)?;
    }
    Ok(())
}

/// The rules of inputs, pins, sides, rows and blocks.
fn end_draft(alloc: Global, request: &Request, cells: &[Cell]) -> Result<Draft, AllocError>
    requires { cells.now ≡ spots.cells_of request.now.rect }
    ensures { IfOk result (λ draft. draft ≡ end_rules request.now) }
{
    let mut draft = Draft::new(alloc)?;
    add_ends(alloc, &mut draft, request, cells)?;
    Ok(draft)
}

/// Adds the clauses of the rules of inputs, pins, sides, rows and blocks.
fn write_ends(
    alloc: Global,
    formula: &mut Formula,
    numbers: &Numbers,
    request: &Request,
    cells: &[Cell],
) -> Result<(), AllocError>
    requires cells { cells.now ≡ spots.cells_of request.now.rect }
    requires encoding { IsEncoding request.now numbers.now formula.old.vars }
    ensures { OnOk result (formula.new ≡ with_rules numbers.now formula.old (end_rules request.now)) }
{
    let draft = end_draft(alloc, request, cells)?;
    write(alloc, formula, numbers, &draft)?;
    Ok(())
}

/// The rules that count halves.
fn count_draft(alloc: Global, request: &Request, cells: &[Cell]) -> Result<Draft, AllocError>
    requires cells { cells.now ≡ spots.cells_of request.now.rect }
    requires room { counting.has_room request.now ≡ true }
    ensures { IfOk result (λ draft. draft ≡ counting.count_rules request.now) }
{
    let mut draft = Draft::new(alloc)?;
    add_counts(alloc, &mut draft, request, cells)?;
    Ok(draft)
}

/// Adds the clauses of the rules that count halves.
fn write_counts(
    alloc: Global,
    formula: &mut Formula,
    numbers: &Numbers,
    request: &Request,
    cells: &[Cell],
) -> Result<(), AllocError>
    requires cells { cells.now ≡ spots.cells_of request.now.rect }
    requires room { counting.has_room request.now ≡ true }
    requires encoding { IsEncoding request.now numbers.now formula.old.vars }
    ensures { OnOk result (formula.new ≡ with_rules numbers.now formula.old
        (counting.count_rules request.now)) }
{
    let draft = count_draft(alloc, request, cells)?;
    write(alloc, formula, numbers, &draft)?;
    Ok(())
}

/// Adds the clauses of the rules of a request whose rectangle has room.
fn write_room(
    alloc: Global,
    formula: &mut Formula,
    numbers: &Numbers,
    request: &Request,
    cells: &[Cell],
) -> Result<(), AllocError>
    requires cells { cells.now ≡ spots.cells_of request.now.rect }
    requires room { counting.has_room request.now ≡ true }
    requires encoding { IsEncoding request.now numbers.now formula.old.vars }
    ensures { OnOk result (formula.new ≡ with_rules numbers.now formula.old (room_rules request.now)) }
{
    let plan = Plan::new(alloc, request)?;
    write_cells(alloc, formula, numbers, request, &plan, cells)?;
    write_splitters(alloc, formula, numbers, request, cells, &plan.gates)?;
    write_ends(alloc, formula, numbers, request, cells)?;
    write_counts(alloc, formula, numbers, request, cells)?;
    Ok(())
}

/// Adds the clauses of all rules: where there is no room, the empty clause alone.
/// More ends than cells on the border, or more halves and ends than cells, are pigeonholes, which resolution refutes
/// in exponentially many steps; counted, they are the empty clause.
fn write_all(
    alloc: Global,
    formula: &mut Formula,
    numbers: &Numbers,
    request: &Request,
) -> Result<(), AllocError>
    requires encoding { IsEncoding request.now numbers.now formula.old.vars }
    ensures { OnOk result (formula.new ≡ with_rules numbers.now formula.old
        (rules_of request.now)) }
{
    let cells = cells_of(alloc, request.rect())?;
    if has_room(alloc, request, &cells)? {
        write_room(alloc, formula, numbers, request, &cells)?;
    } else {
        formula.add_clause(&[])?;
    }
    Ok(())
}

/// The placement formula of a request: for each rule one clause over what the cells hold, and no atoms.
/// What meets it is read as a layout, and each layout that lays the request meets it.
pub fn encode_place(alloc: Global, request: &Request) -> Result<Formula, AllocError>
    ensures formula { IfOk result (λ formula. formula ≡ place_formula request.now) }
    ensures request { IsRequest request.now }
{
    let numbers = Numbers::new(alloc, request)?;
    let mut formula = Formula::new(alloc, numbers.variables())?;
    write_all(alloc, &mut formula, &numbers, request)?;
    Ok(formula)
}
