//! Layouts that sketches show: the parts of a sketch lay the request, or the placement formula is searched with these
//! parts chosen first. A sketch is a plan of a layout that a hint makes, which may be wrong; a window is a rectangle in
//! a corner of that of the request, in which a layout is likely.
ghost use Rattle.std.specs.Prelude.{IfOk, IfSome};
ghost use Rattle.bt_place.specs.Narrowed.{IsNarrowed};
ghost use Rattle.bt_place.specs.PlaceFormula.{place_formula};
ghost use Rattle.bt_layout.specs.inner.Likely.{IsLaidOut, IsNarrowedSearch, IsTried};

use crate::likely::{Trial, Tried, planned, solver_of, trial_by};
use crate::tested::laid_by;
use bt_choosers::Active;
use bt_cnf::Formula;
use bt_model::Request;
use bt_parts::Part;
use bt_place::encode_place;
use bt_sat::Solver;
use hint_layouts::name_sketch;
use hint_placement::Sketch;
use hint_seeking::{Search, plan_of_sketch, seek_by_sketch, seek_where_likely};
use hint_streamlining::Attempt;
use std::alloc::{AllocError, Global};

/// The most steps of a search with a sketch. One that shows a layout takes none.
const SKETCHED_STEPS: u64 = 64;

/// The placement formula, without more clauses.
fn bare(alloc: Global, request: &Request) -> Result<Formula, AllocError>
    ensures { IfOk result (IsNarrowed (place_formula request.now)) }
{
    encode_place(alloc, request)
}

/// A search of the placement formula with at most so many steps, in which the parts of a sketch are chosen first.
fn solver_with(
    alloc: Global,
    request: &Request,
    sketch: &Sketch,
    steps: u64,
) -> Result<Solver<Active>, AllocError>
    ensures { IfOk result (λ solver. IsNarrowedSearch request.now steps solver.kernel) }
{
    let formula = bare(alloc, request)?;
    let plan = plan_of_sketch(alloc, &formula, request, sketch)?;
    planned(alloc, formula, plan, steps)
}

/// The searches of placement formulas that the strategy is handed, which looks for layouts by them.
struct PlacementSearch;

impl Search for PlacementSearch {
    /// The search of an attempt, as `solver_of` makes it.
    fn by_attempt(
        &self,
        alloc: Global,
        request: &Request,
        attempt: Attempt,
    ) -> Result<Solver<Active>, AllocError> {
        solver_of(alloc, request, attempt)
    }

    /// The search with a sketch, by at most `SKETCHED_STEPS` steps.
    fn by_sketch(
        &self,
        alloc: Global,
        request: &Request,
        sketch: &Sketch,
    ) -> Result<Solver<Active>, AllocError> {
        solver_with(alloc, request, sketch, SKETCHED_STEPS)
    }
}

/// Looks for the layout that a sketch of the request shows: its parts, or what a search with them finds by at most so
/// many steps, and at most `SKETCHED_STEPS`. What is found is a layout; where none is found, nothing is said.
pub fn look_at_sketch(
    alloc: Global,
    request: &Request,
    sketch: &Sketch,
    steps: u64,
) -> Result<Tried, AllocError>
    ensures { IfOk result (IsTried request.now steps) }
{
    let proposal = name_sketch(alloc, request, sketch)?;
    match laid_by(alloc, request, proposal)? {
        Some(parts) => Ok(Tried {
            trial: Trial::Found(parts),
            steps: 0,
        }),
        None => search_with(alloc, request, sketch, steps),
    }
}

/// Looks for the layout that a sketch of the request shows by a search with at most so many steps, and at most
/// `SKETCHED_STEPS`.
fn search_with(
    alloc: Global,
    request: &Request,
    sketch: &Sketch,
    steps: u64,
) -> Result<Tried, AllocError>
    ensures { IfOk result (IsTried request.now steps) }
{
    let mut solver = solver_with(alloc, request, sketch, steps.min(SKETCHED_STEPS))?;
    trial_by(alloc, request, &mut solver)
}

/// Makes a sketch of the request and looks for the layout that it shows, by at most so many steps. What is found is a
/// layout; where none is found, or no sketch is made, nothing is said.
pub fn look_by_sketch(alloc: Global, request: &Request, steps: u64) -> Result<Tried, AllocError>
    ensures { IfOk result (IsTried request.now steps) }
{
    match seek_by_sketch(alloc, request)? {
        Some(sketch) => look_at_sketch(alloc, request, &sketch, steps),
        None => Ok(Tried {
            trial: Trial::Spent,
            steps: 0,
        }),
    }
}

/// The layout that a sketch of the request shows. None where it shows none.
fn shown_by(
    alloc: Global,
    request: &Request,
    sketch: &Sketch,
) -> Result<Option<Vec<Part>>, AllocError>
    ensures { IfOk result (λ found. IfSome found (λ parts. IsLaidOut request.now parts.items)) }
{
    let Tried { trial, .. } = look_at_sketch(alloc, request, sketch, SKETCHED_STEPS)?;
    match trial {
        Trial::Found(parts) => Ok(Some(parts)),
        Trial::Refuted | Trial::Spent => Ok(None),
    }
}

/// A layout of a request that is found where one is likely, by at most so many steps of all windows together. Where
/// none is found, nothing is said.
pub fn laid_in_windows(
    alloc: Global,
    request: &Request,
    steps: u64,
) -> Result<Option<Vec<Part>>, AllocError>
    ensures { IfOk result (λ found. IfSome found (λ parts. IsLaidOut request.now parts.items)) }
{
    match seek_where_likely(alloc, request, steps, &PlacementSearch)? {
        Some(sketch) => shown_by(alloc, request, &sketch),
        None => Ok(None),
    }
}
