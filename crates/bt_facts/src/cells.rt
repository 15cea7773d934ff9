//! The cells of a rectangle, and those on its border.
ghost use Rattle.std.specs.Prelude.{◌≡◌, ◌++◌, ◌∷◌, [], ◌<◌, ◌^◌, map, not, filter, IfOk, OnOk, if◌then◌else◌};
ghost use Rattle.std.specs.List.{All, range_with_len};
ghost use Rattle.bt_parts.specs.Cells.{step};
ghost use Rattle.bt_facts.specs.Spots as spots;
ghost use Rattle.bt_facts.specs.Near.{IsNear};

use crate::spots::{ahead, cell_at, is_inside};
use bt_parts::{Cell, Dir, Rect};
use std::alloc::{AllocError, Global};

/// Adds the cells of a row, which counts from 0 in the north, from west to east.
fn push_row(cells: &mut Vec<Cell>, rect: Rect, row: u32) -> Result<(), AllocError>
    requires width { rect.width < 2 ^ 31 }
    requires row { row < 2 ^ 31 }
    ensures { OnOk result (cells.new.items ≡ cells.old.items ++ spots.row_cells rect row) }
{
    for column in 0..rect.width {
        cells.push(cell_at(column, row))?;
    }
    Ok(())
}

/// The cells of the rectangle, row by row.
pub fn cells_of(alloc: Global, rect: Rect) -> Result<Vec<Cell>, AllocError>
    requires width { rect.width < 2 ^ 31 }
    requires height { rect.height < 2 ^ 31 }
    ensures { IfOk result (λ cells. cells.items ≡ spots.cells_of rect) }
{
    let mut cells = Vec::new(alloc);
    for row in 0..rect.height {
        push_row(&mut cells, rect, row)?;
    }
    Ok(cells)
}

/// Whether the next cell in this direction is outside the rectangle.
fn is_edge(rect: Rect, cell: Cell, dir: Dir) -> bool
    requires { IsNear cell }
    ensures { result ≡ not (spots.is_inside rect (step dir cell)) }
{
    !is_inside(rect, ahead(dir, cell))
}

/// Whether some cell beside this one is outside the rectangle.
fn is_border(rect: Rect, cell: Cell) -> bool
    requires { IsNear cell }
    ensures { result ≡ spots.is_border rect cell }
{
    is_edge(rect, cell, Dir::North)
        || is_edge(rect, cell, Dir::East)
        || is_edge(rect, cell, Dir::South)
        || is_edge(rect, cell, Dir::West)
}

/// Adds the cell, where it is on the border.
fn push_border(border: &mut Vec<Cell>, rect: Rect, cell: Cell) -> Result<(), AllocError>
    requires { IsNear cell }
    ensures { OnOk result (border.new.items ≡ border.old.items
        ++ (if spots.is_border rect cell then cell ∷ [] else [])) }
{
    if is_border(rect, cell) {
        border.push(cell)?;
    }
    Ok(())
}

/// Those of the cells that are on the border of the rectangle: some cell beside each is outside.
pub fn border_of(alloc: Global, rect: Rect, cells: &[Cell]) -> Result<Vec<Cell>, AllocError>
    requires { All IsNear cells.now }
    ensures { IfOk result (λ border. border.items ≡ filter (spots.is_border rect) cells.now) }
{
    let mut border = Vec::new(alloc);
    for cell in cells {
        push_border(&mut border, rect, *cell)?;
    }
    Ok(border)
}
