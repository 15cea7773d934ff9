//! Searching for the least grid on which parts lay a request.
ghost use Rattle.std.specs.Prelude.{◌≤◌, IfOk};
ghost use Rattle.bt_model.specs.Requests.{IsRequest};
ghost use Rattle.bt_model.specs.declared.request.TheConstants.{MOST_CELLS};
ghost use Rattle.bt_grids.specs.Grids.{area_of};
ghost use Rattle.bt_grids.specs.Asked.{NamesNoCells, request_on};
ghost use Rattle.bt_layout.specs.Smallest.{IsSmallest};
ghost use Rattle.bt_layout.specs.inner.Ends.{IsSought};

use crate::searching::search;
use bt_choosers::Highest;
use bt_grids::{Layout, RuledOut, Smallest, grids_from, request_on};
use bt_model::Request;
use bt_parts::Rect;
use std::alloc::{AllocError, Global};

/// Searches for the least grid on which parts lay the request. Tried are the grids of at most as many cells each way as
/// its rectangle, from `first` on where one is named, each with a log of at most `learnt` steps. It ends at the first
/// grid that is laid or whose search is spent. The request names no cells, and its rectangle has at most `MOST_CELLS`
/// cells.
pub fn smallest(
    alloc: Global,
    first: Option<Rect>,
    request: &Request,
    learnt: u64,
) -> Result<Smallest, AllocError>
    requires cells { NamesNoCells request.now }
    requires few { area_of request.now.rect ≤ MOST_CELLS }
    ensures { IfOk result (IsSmallest first request.now learnt) }
{
    let grids = grids_from(alloc, first, request.rect())?;
    let mut earlier = Vec::new(alloc);
    for place in 0..grids.len() {
        let grid = grids[place];
        match layout_on(alloc, request, grid, learnt)? {
            Layout::Nowhere(log) => earlier.push(RuledOut { grid, log })?,
            Layout::Found(parts) => {
                return Ok(Smallest::Found {
                    earlier,
                    grid,
                    parts,
                });
            }
            Layout::Spent(log) => return Ok(Smallest::Spent { earlier, grid, log }),
        }
    }
    Ok(Smallest::Nowhere(earlier))
}

/// Searches for parts that lay the request on this grid, with a log of at most `learnt` steps. The chooser fills the
/// grid from one corner.
fn layout_on(
    alloc: Global,
    request: &Request,
    grid: Rect,
    learnt: u64,
) -> Result<Layout, AllocError>
    requires request { IsRequest (request_on request.now grid) }
    requires cells { NamesNoCells request.now }
    ensures { IfOk result (IsSought (request_on request.now grid) learnt) }
{
    let request = request_on(alloc, request, grid)?;
    let mut choosers = Vec::new(alloc);
    choosers.push(Highest::new())?;
    search(alloc, &request, learnt, choosers)
}
