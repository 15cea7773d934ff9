//! The cells of a rectangle by their numbers, row by row.
ghost use Rattle.std.specs.Prelude.{◌≡◌, ◌<◌, ◌≤◌};
ghost use Rattle.bt_parts.specs.Cells.{IsInside};
ghost use Rattle.bt_model.specs.Requests.{IsGrid};
ghost use Rattle.bt_place.specs.inner.Grid.{spots_in, spot_in, cell_numbered, TellsAhead};

use bt_parts::{Cell, Dir, Rect, inside};

/// The number of cells of the rectangle.
pub(crate) fn spots(rect: Rect) -> usize
    requires { IsGrid rect }
    ensures spots { result ≡ spots_in rect }
    ensures few { result ≤ 25600 }
{
    rect.width as usize * rect.height as usize
}

/// The number of a cell of the rectangle.
fn spot(rect: Rect, cell: Cell) -> usize
    requires grid { IsGrid rect }
    requires inside { IsInside rect cell }
    ensures { result ≡ spot_in rect cell }
{
    cell.y.unsigned_abs() as usize * rect.width as usize + cell.x.unsigned_abs() as usize
}

/// The cell with this number.
pub(crate) fn cell_of(rect: Rect, i: usize) -> Cell
    requires grid { IsGrid rect }
    requires within { i < spots_in rect }
    ensures { result ≡ cell_numbered rect i }
{
    let width = rect.width as usize;
    Cell {
        x: (i % width) as i32,
        y: (i / width) as i32,
    }
}

/// The number of the cell at this distance in front of this one; none where that is outside.
pub(crate) fn ahead(rect: Rect, i: usize, dir: Dir, distance: u32) -> Option<usize>
    requires grid { IsGrid rect }
    requires within { i < spots_in rect }
    requires near { distance ≤ 11 }
    ensures { TellsAhead rect (cell_numbered rect i) dir distance result }
{
    let there = cell_of(rect, i).ahead(dir, distance);
    if inside(&rect, there) {
        Some(spot(rect, there))
    } else {
        None
    }
}
