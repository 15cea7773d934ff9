//! Looking for small grids on which parts lay a request.
ghost use Rattle.std.specs.Prelude.{◌≡◌, ◌↔◌, ℕ, IfOk, IfSome, IsTrue, MatchOption, Option, unwrap_or};
ghost use Rattle.bt_model.specs.Requests.{IsRequest, LayoutRequest};
ghost use Rattle.bt_layout.specs.Early.{IsEarly};
ghost use Rattle.bt_grids.specs.Grids.{area_of};
ghost use Rattle.bt_layout.specs.Small.{HasFewer, IsBeyond, IsSmall, MayBeAsked};
ghost use Rattle.bt_grids.specs.Asked.{NamesNoCells, request_on};
ghost use Rattle.bt_layout.specs.inner.Progressing.{AskEach};

use crate::early::lay_early;
use crate::tested::laid_by;
use bt_grids::{Early, Small, area, grids, is_within, request_on};
use bt_model::{MOST_CELLS, MOST_ENCODED, Request};
use bt_parts::{Part, Rect};
use hint_layouts::{name_sketch, propose};
use hint_placement::Sketch;
use hint_seeking::{OwnLayout, narrow_own};
use std::alloc::{AllocError, Global};

/// A network of so many splitters is large: the formulas of grids that hold it have from a million clauses on.
const MANY_SPLITTERS: u32 = 20;

/// Without formulas, layouts are proposed on at most so many grids.
const MOST_PROPOSED: usize = 20;

/// Looks for small grids, of at most as many cells each way as the request's rectangle and of fewer cells than `cells`,
/// where that is given, on which parts lay the request: from the greatest grid downwards, with at most `learnt` steps
/// of all searches together. Where none is found and not all steps were taken, no parts lay the request on any such
/// grid. Of grids other than the one that is told nothing is said.
///
/// Where the network, or the number of cells of such grids, is beyond those of which formulas are written, it is what
/// hints propose that is tested, and there may be no answer. There, and where a network is large, what is tested first
/// is made of the own parts of a design that is laid out, or of the network laid anew stage by stage, where it has
/// stages and that takes fewer cells or there are no parts: both are made smaller by windows and seams.
///
/// The request names no cells.
pub fn find_small(
    alloc: Global,
    request: &Request,
    cells: Option<u64>,
    own: &[Part],
    learnt: u64,
) -> Result<Option<Small>, AllocError>
    requires { NamesNoCells request.now }
    ensures { IfOk result (λ answer.
        MatchOption answer (IsBeyond request.now cells) (IsSmall request.now cells learnt)) }
{
    if begins_with_own(request, cells) {
        if let Some(small) = narrowed_small(alloc, request, cells, own, learnt)? {
            return Ok(Some(small));
        }
    }
    small_anew(alloc, request, cells, learnt)
}

/// Whether a search begins with the own parts of a design, or its stages: where its network is large, or the grids are.
fn begins_with_own(request: &Request, cells: Option<u64>) -> bool {
    request.net().splitters() >= MANY_SPLITTERS || is_beyond(request, cells)
}

/// Looks for a layout on a small grid without the own parts of a design: by searches, or by what hints propose where
/// the request is beyond those of which formulas are written.
fn small_anew(
    alloc: Global,
    request: &Request,
    cells: Option<u64>,
    learnt: u64,
) -> Result<Option<Small>, AllocError>
    requires { NamesNoCells request.now }
    ensures { IfOk result (λ answer.
        MatchOption answer (IsBeyond request.now cells) (IsSmall request.now cells learnt)) }
{
    if is_beyond(request, cells) {
        proposed_small(alloc, request, cells, learnt)
    } else {
        let small = sought_small(alloc, request, cells, learnt)?;
        Ok(Some(small))
    }
}

/// The number of cells that bounds a grid: `cells`, than which it has fewer, or where none is given, that of the
/// rectangle, which it has at most.
fn most_cells(rect: Rect, cells: Option<u64>) -> u64
    ensures { result ≡ unwrap_or cells (area_of rect) }
{
    cells.unwrap_or(area(rect))
}

/// Whether the network or the number of cells is beyond those of which formulas are written.
fn is_beyond(request: &Request, cells: Option<u64>) -> bool
    ensures { IsTrue result ↔ IsBeyond request.now cells }
{
    let net = request.net();
    net.edges().len() > MOST_ENCODED
        || net.splitters() as usize > MOST_ENCODED
        || most_cells(request.rect(), cells) > u64::from(MOST_CELLS)
}

/// What the searches for a layout of the request on small grids come to, with so many steps of all of them together.
fn sought_small(
    alloc: Global,
    request: &Request,
    cells: Option<u64>,
    learnt: u64,
) -> Result<Small, AllocError>
    requires cells { NamesNoCells request.now }
    requires few { IsBeyond request.now cells → ⊥ }
    ensures { IfOk result (IsSmall request.now cells learnt) }
{
    let requests = small_requests(alloc, request, cells)?;
    let early = lay_early(alloc, &requests, learnt)?;
    Ok(small_of(&requests, early))
}

/// A layout that hints make of the own parts of a design, or of its network laid anew stage by stage. None where they
/// make none that lays the request on a grid that may be asked.
fn narrowed_small(
    alloc: Global,
    request: &Request,
    cells: Option<u64>,
    own: &[Part],
    learnt: u64,
) -> Result<Option<Small>, AllocError>
    requires cells { NamesNoCells request.now }
    ensures { IfOk result (λ answer. IfSome answer (IsSmall request.now cells learnt)) }
{
    match narrow_own(alloc, request, own, learnt)? {
        Some(layout) => small_on(alloc, request, cells, &layout, learnt),
        None => Ok(None),
    }
}

/// A layout that was made smaller. None where its grid is greater than the rectangle or has too many cells, or where it
/// doesn't lay the request there.
fn small_on(
    alloc: Global,
    request: &Request,
    cells: Option<u64>,
    layout: &OwnLayout,
    learnt: u64,
) -> Result<Option<Small>, AllocError>
    requires cells { NamesNoCells request.now }
    ensures { IfOk result (λ answer. IfSome answer (IsSmall request.now cells learnt)) }
{
    let grid = layout.grid;
    if is_within(request.rect(), grid) && has_fewer(cells, grid) {
        sketched_on(alloc, request, cells, grid, &layout.sketch, learnt)
    } else {
        Ok(None)
    }
}

/// The layout of a sketch on this grid, where it lays the request there; else None.
fn sketched_on(
    alloc: Global,
    request: &Request,
    cells: Option<u64>,
    grid: Rect,
    sketch: &Sketch,
    learnt: u64,
) -> Result<Option<Small>, AllocError>
    requires cells { NamesNoCells request.now }
    requires request { IsRequest (request_on request.now grid) }
    requires may { MayBeAsked request.now cells grid }
    ensures { IfOk result (λ answer. IfSome answer (IsSmall request.now cells learnt)) }
{
    let again = request_on(alloc, request, grid)?;
    let proposal = name_sketch(alloc, &again, sketch)?;
    match laid_by(alloc, &again, proposal)? {
        Some(parts) => Ok(Some(Small::Found { grid, parts })),
        None => Ok(None),
    }
}

/// A layout that hints propose on one of the `MOST_PROPOSED` greatest grids of fewer cells than so many. None where
/// none of them lays the request.
fn proposed_small(
    alloc: Global,
    request: &Request,
    cells: Option<u64>,
    learnt: u64,
) -> Result<Option<Small>, AllocError>
    requires cells { NamesNoCells request.now }
    ensures { IfOk result (λ answer. IfSome answer (IsSmall request.now cells learnt)) }
{
    let grids = grids(alloc, request.rect())?;
    let mut asked: usize = 0;
    for back in 0..grids.len() {
        let grid = grids[grids.len() - 1 - back];
        if asked < MOST_PROPOSED && has_fewer(cells, grid) {
            asked += 1;
            if let Some(small) = proposed_on(alloc, request, cells, grid, learnt)? {
                return Ok(Some(small));
            }
        }
    }
    Ok(None)
}

/// A layout that hints propose on this grid, where it lays the request there; else None.
fn proposed_on(
    alloc: Global,
    request: &Request,
    cells: Option<u64>,
    grid: Rect,
    learnt: u64,
) -> Result<Option<Small>, AllocError>
    requires cells { NamesNoCells request.now }
    requires request { IsRequest (request_on request.now grid) }
    requires may { MayBeAsked request.now cells grid }
    ensures { IfOk result (λ answer. IfSome answer (IsSmall request.now cells learnt)) }
{
    let again = request_on(alloc, request, grid)?;
    let proposal = propose(alloc, &again, learnt)?;
    match laid_by(alloc, &again, proposal)? {
        Some(parts) => Ok(Some(Small::Found { grid, parts })),
        None => Ok(None),
    }
}

/// The request on each grid of at most as many cells each way as its rectangle and of fewer cells than so many, where a
/// number is given, in the order of the grids.
fn small_requests(
    alloc: Global,
    request: &Request,
    cells: Option<u64>,
) -> Result<Vec<Request>, AllocError>
    requires { NamesNoCells request.now }
    ensures { IfOk result (λ requests. AskEach request.now cells requests.items) }
{
    let grids = grids(alloc, request.rect())?;
    let mut requests = Vec::new(alloc);
    for place in 0..grids.len() {
        let grid = grids[place];
        if has_fewer(cells, grid) {
            requests.push(request_on(alloc, request, grid)?)?;
        }
    }
    Ok(requests)
}

/// Whether a grid has fewer cells than so many, where a number is given.
fn has_fewer(cells: Option<u64>, grid: Rect) -> bool
    ensures { IsTrue result ↔ HasFewer cells grid }
{
    match cells {
        Some(cells) => area(grid) < cells,
        None => true,
    }
}

/// What is told of what looking for a layout of one of the requests comes to.
fn small_of(requests: &[Request], early: Early) -> Small
    requires { (learnt : ℕ) × IsEarly requests.now learnt early }
    ensures { (request : LayoutRequest) (cells : Option ℕ) (learnt : ℕ)
        → (IsBeyond request cells → ⊥) → AskEach request cells requests.now
        → IsEarly requests.now learnt early
        → IsSmall request cells learnt result }
{
    match early {
        Early::Laid { place, parts } => Small::Found {
            grid: requests[place].rect(),
            parts,
        },
        Early::Spent(steps) => Small::Spent(steps),
    }
}
