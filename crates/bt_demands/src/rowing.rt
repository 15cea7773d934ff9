//! Rules of ends that stand in a row: on consecutive cells to the east, or to the south. A place of a row is its first
//! cell.
ghost use Rattle.std.specs.Prelude.{◌≡◌, true, ◌<◌, ◌≤◌, ◌++◌, ◌∷◌, [], OnOk, if◌then◌else◌};
ghost use Rattle.std.specs.List.{flat_map, list_any};
ghost use Rattle.bt_facts.specs.Near.{IsNear};
ghost use Rattle.bt_facts.specs.Rules.{rule, some_of};
ghost use Rattle.bt_facts.specs.Spots.{cells_of};
ghost use Rattle.bt_facts.specs.declared.fact.Fact.TheVariants as fact;
ghost use Rattle.bt_model.specs.Laying as laying;
ghost use Rattle.bt_model.specs.Requests.{IsGrid, is_row as is_row_line};
ghost use Rattle.bt_parts.specs.Cells.{IsInside};
ghost use Rattle.bt_demands.specs.Rows as rows;

use crate::pinning::enders;
use bt_facts::{Draft, Fact, Line, far, is_inside};
use bt_model::Request;
use bt_net::{Demand, EndKind, Row};
use bt_parts::{Cell, Dir, Rect};
use std::alloc::{AllocError, Global};

/// The two rows in which ends of this kind may stand: one to the east, one to the south.
fn lines_of(kind: EndKind) -> [Line; 2]
    ensures { result ≡ rows.lines_of kind }
{
    match kind {
        EndKind::Inputs => [Line::InputsEast, Line::InputsSouth],
        EndKind::Outputs => [Line::OutputsEast, Line::OutputsSouth],
    }
}

/// The way that a row runs.
fn way_of(line: Line) -> Dir
    ensures { result ≡ rows.way_of line }
{
    match line {
        Line::InputsEast | Line::OutputsEast => Dir::East,
        Line::InputsSouth | Line::OutputsSouth => Dir::South,
    }
}

/// The number of the network's ends of this kind.
fn end_count(request: &Request, kind: EndKind) -> usize
    ensures value { result ≡ laying.end_count request.now.net kind }
    ensures some { 1 ≤ result }
    ensures few { result < 4096 }
{
    match kind {
        EndKind::Inputs => request.net().inputs() as usize,
        EndKind::Outputs => request.net().outputs() as usize,
    }
}

/// Whether a row of so many ends has room from this cell on: its last cell lies in the rectangle.
fn has_place(rect: Rect, count: usize, line: Line, cell: Cell) -> bool
    requires near { IsNear cell }
    requires some { 1 ≤ count }
    requires few { count < 4096 }
    ensures { result ≡ rows.has_place rect count line cell }
{
    is_inside(rect, far(way_of(line), cell, count - 1))
}

/// Adds the fact that the ends stand in the row from this cell on; nothing where they have no room there.
fn push_place(
    facts: &mut Vec<Fact>,
    rect: Rect,
    count: usize,
    line: Line,
    cell: Cell,
) -> Result<(), AllocError>
    requires near { IsNear cell }
    requires some { 1 ≤ count }
    requires few { count < 4096 }
    ensures { OnOk result (facts.new.items ≡ facts.old.items
        ++ (if rows.has_place rect count line cell then fact.Lies cell line ∷ [] else [])) }
{
    if has_place(rect, count, line, cell) {
        facts.push(Fact::Lies(cell, line))?;
    }
    Ok(())
}

/// Adds for each cell the fact that the ends stand in the row from it on, where they have room.
fn push_places(
    facts: &mut Vec<Fact>,
    rect: Rect,
    cells: &[Cell],
    count: usize,
    line: Line,
) -> Result<(), AllocError>
    requires grid { IsGrid rect }
    requires cells { cells.now ≡ cells_of rect }
    requires some { 1 ≤ count }
    requires few { count < 4096 }
    ensures { OnOk result (facts.new.items ≡ facts.old.items ++ rows.place_facts rect count line) }
{
    for cell in cells {
        push_place(facts, rect, count, line, *cell)?;
    }
    Ok(())
}

/// Adds that where `place` holds, which says where the ends stand, one of them stands on this cell.
fn add_placed(
    alloc: Global,
    draft: &mut Draft,
    rect: Rect,
    kind: EndKind,
    place: Fact,
    cell: Cell,
) -> Result<(), AllocError>
    requires { IsNear cell }
    ensures { OnOk result (draft.new ≡ draft.old ++ rule (place ∷ []) (rows.kind_facts rect cell kind) ∷ []) }
{
    match kind {
        EndKind::Inputs => draft.add(&[place], &[Fact::Begins(cell)]),
        EndKind::Outputs => {
            let facts = enders(alloc, rect, cell)?;
            draft.add(&[place], &facts)
        }
    }
}

/// Adds that where the ends stand in the row from this cell on, one of them stands on each of their cells.
fn add_all_placed(
    alloc: Global,
    draft: &mut Draft,
    rect: Rect,
    kind: EndKind,
    count: usize,
    line: Line,
    cell: Cell,
) -> Result<(), AllocError>
    requires grid { IsGrid rect }
    requires cell { IsInside rect cell }
    requires place { rows.has_place rect count line cell ≡ true }
    requires few { count < 4096 }
    ensures { OnOk result (draft.new ≡ draft.old ++ rows.placed_rules rect kind count line cell) }
{
    for k in 0..count {
        let there = far(way_of(line), cell, k);
        add_placed(alloc, draft, rect, kind, Fact::Lies(cell, line), there)?;
    }
    Ok(())
}

/// Adds that where the ends stand from this cell on, one of them stands on each of their cells; nothing where they have
/// no room from there on.
fn add_place(
    alloc: Global,
    draft: &mut Draft,
    rect: Rect,
    kind: EndKind,
    count: usize,
    line: Line,
    cell: Cell,
) -> Result<(), AllocError>
    requires grid { IsGrid rect }
    requires cell { IsInside rect cell }
    requires some { 1 ≤ count }
    requires few { count < 4096 }
    ensures { OnOk result (draft.new ≡ draft.old ++ (if rows.has_place rect count line cell
        then rows.placed_rules rect kind count line cell else [])) }
{
    if has_place(rect, count, line, cell) {
        add_all_placed(alloc, draft, rect, kind, count, line, cell)?;
    }
    Ok(())
}

/// Adds for each cell that where the ends stand in the row from it on, one of them stands on each of their cells.
fn add_line(
    alloc: Global,
    draft: &mut Draft,
    rect: Rect,
    cells: &[Cell],
    kind: EndKind,
    count: usize,
    line: Line,
) -> Result<(), AllocError>
    requires grid { IsGrid rect }
    requires cells { cells.now ≡ cells_of rect }
    requires some { 1 ≤ count }
    requires few { count < 4096 }
    ensures { OnOk result (draft.new ≡ draft.old ++ rows.line_rules rect kind count line) }
{
    for cell in cells {
        add_place(alloc, draft, rect, kind, count, line, *cell)?;
    }
    Ok(())
}

/// Adds that the ends stand from some cell on, in a row to the east or to the south.
fn add_some_place(
    alloc: Global,
    draft: &mut Draft,
    rect: Rect,
    cells: &[Cell],
    kind: EndKind,
    count: usize,
) -> Result<(), AllocError>
    requires grid { IsGrid rect }
    requires cells { cells.now ≡ cells_of rect }
    requires some { 1 ≤ count }
    requires few { count < 4096 }
    ensures { OnOk result (draft.new ≡ draft.old
        ++ some_of (flat_map (rows.place_facts rect count) (rows.lines_of kind)) ∷ []) }
{
    let mut facts = Vec::new(alloc);
    for line in lines_of(kind) {
        push_places(&mut facts, rect, cells, count, line)?;
    }
    draft.add(&[], &facts)
}

/// Adds that all ends of a kind stand in a row: on consecutive cells, of which each has one of them.
pub fn add_row(
    alloc: Global,
    draft: &mut Draft,
    request: &Request,
    cells: &[Cell],
    row: Row,
) -> Result<(), AllocError>
    requires { cells.now ≡ cells_of request.now.rect }
    ensures { OnOk result (draft.new ≡ draft.old ++ rows.row_rules request.now row) }
{
    let rect = request.rect();
    let count = end_count(request, row.kind);
    add_some_place(alloc, draft, rect, cells, row.kind, count)?;
    for line in lines_of(row.kind) {
        add_line(alloc, draft, rect, cells, row.kind, count, line)?;
    }
    Ok(())
}

/// Whether the demand says that ends stand in a row.
fn is_row(demand: Demand) -> bool
    ensures { result ≡ is_row_line demand }
{
    match demand {
        Demand::Pin(_) | Demand::Side(_) => false,
        Demand::Row(_) => true,
    }
}

/// Whether some demand says that ends stand in a row.
fn some_is_row(demands: &[Demand]) -> bool
    ensures { result ≡ list_any is_row_line demands.now }
{
    for demand in demands {
        if is_row(*demand) {
            return true;
        }
    }
    false
}

/// The number of rows in which ends may stand, where some are to stand in one, and else 0.
pub fn lining(request: &Request) -> usize
    ensures { result ≡ rows.lining request.now }
{
    if some_is_row(request.demands()) { 4 } else { 0 }
}
