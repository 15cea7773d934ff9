//! Searching for a layout of a request by its placement formula.
ghost use Rattle.std.specs.Prelude.{IfOk, IfSome, MatchOption, length, ℕ};
ghost use Rattle.bt_model.specs.Requests.{IsRequest};
ghost use Rattle.bt_place.specs.PlaceFormula.{HasFormula};
ghost use Rattle.bt_layout.specs.Layouts.{IsLayout};
ghost use Rattle.bt_layout.specs.inner.Ends.{EndsWithin, EndsWith, IsOver, IsSought, IsTrimmedTo};
ghost use Rattle.bt_layout.specs.inner.Likely.{IsLaidOut};
ghost use Rattle.bt_layout.specs.inner.Progressing.{HasLog, IsWhole};

use crate::likely::{Trial, Tried};
use crate::sketched::{laid_in_windows, look_by_sketch};
use crate::tested::laid_by;
use bt_choosers::Highest;
use bt_cnf::Chooser;
use bt_grids::Layout;
use bt_log::{Log, trimmed};
use bt_model::Request;
use bt_parts::Part;
use bt_place::{decode, encode_place, has_formula};
use bt_sat::{Answer, Solver};
use hint_layouts::{propose, propose_stages};
use hint_seeking::{is_tight, plan_of_whole};
use std::alloc::{AllocError, Global};

/// Where a placement formula is small, it is searched alone first, with at most so many steps: that shows in
/// milliseconds of most requests that they have no layout, where to look for one takes a second.
const SOON_STEPS: u64 = 500;

/// A formula is small where the cells of the rectangle times the edges and splitters are at most so many.
const SMALL: u64 = 160;

/// At most so many steps look for a layout where one is likely, before the whole formula is searched: enough for each
/// window by turns, and for the whole rectangle; where there is none, the budget is to serve the refutation.
const LIKELY_STEPS: u64 = 65_536;

/// What a search of a placement formula comes to, and how many steps it took.
#[derive(Drop)]
pub struct Searched {
    pub layout: Layout,
    pub steps: u64,
}

/// Searches for a layout of a request, with a log of at most so many steps. The choosers are told of the steps, and
/// asked where conflicts propose nothing; the search is right whatever they answer.
///
/// Of a request without a formula it is what hints propose that is tested, and where that lays nothing, there is no
/// answer.
///
/// Of one that has a formula, at first the formula is searched by few steps, where it is small. Then a network with
/// stages is laid stage by stage, and one whose ends are to stand in a row by a router between splitters on ranks or
/// seats; then a sketch of a layout is made, which may show one; then a layout is searched where one is likely, by at
/// most 65,536 steps; where none is found, the log of that search is dropped, and the formula is searched from the
/// start. It has no atoms, so a model of its clauses meets it. Of a log that refutes it the steps that the last one
/// doesn't need are left out. What splitters prefer isn't asked here: `priorities_of` gives it to what was laid.
pub fn layout<C: Chooser>(
    alloc: Global,
    request: &Request,
    learnt: u64,
    choosers: Vec<C>,
) -> Result<Option<Layout>, AllocError>
    ensures { IfOk result (λ answer.
        MatchOption answer (HasFormula request.now → ⊥) (IsLayout request.now learnt)) }
{
    if has_formula(alloc, request)? {
        let layout = search(alloc, request, learnt, choosers)?;
        Ok(Some(layout))
    } else {
        proposed(alloc, request, learnt)
    }
}

/// What hints propose for a request without a formula, where that lays it; else None.
fn proposed(alloc: Global, request: &Request, learnt: u64) -> Result<Option<Layout>, AllocError>
    requires { HasFormula request.now → ⊥ }
    ensures { IfOk result (λ answer.
        MatchOption answer (HasFormula request.now → ⊥) (IsLayout request.now learnt)) }
{
    let proposal = propose(alloc, request, learnt)?;
    match laid_by(alloc, request, proposal)? {
        Some(parts) => Ok(Some(Layout::Found(parts))),
        None => Ok(None),
    }
}

/// Searches for a layout of a request by its placement formula, with a log of at most so many steps.
pub fn search<C: Chooser>(
    alloc: Global,
    request: &Request,
    learnt: u64,
    choosers: Vec<C>,
) -> Result<Layout, AllocError>
    ensures sought { IfOk result (IsSought request.now learnt) }
    ensures request { IsRequest request.now }
{
    if is_small(request) {
        if let Some(layout) = soon_shown(alloc, request, learnt)? {
            return Ok(layout);
        }
    }
    sought_layout(alloc, request, learnt, choosers)
}

/// What few steps show of a small placement formula: a layout, or that there is none. None where they show neither.
fn soon_shown(alloc: Global, request: &Request, learnt: u64) -> Result<Option<Layout>, AllocError>
    ensures { IfOk result (λ shown. IfSome shown (IsSought request.now learnt)) }
{
    let Searched { layout, .. } = look_alone(alloc, request, learnt.min(SOON_STEPS))?;
    match layout {
        Layout::Found(parts) => Ok(Some(Layout::Found(parts))),
        Layout::Nowhere(log) => Ok(Some(Layout::Nowhere(log))),
        Layout::Spent(_) => Ok(None),
    }
}

/// Whether the placement formula of a request is small.
fn is_small(request: &Request) -> bool
    ensures { IsRequest request.now }
{
    let (net, rect) = (request.net(), request.rect());
    let cells = u64::from(rect.width).saturating_mul(u64::from(rect.height));
    let items = u64::from(net.splitters()).saturating_add(net.edges().len() as u64);
    cells.saturating_mul(items) <= SMALL
}

/// Looks for a layout of a request where one is likely, and where none is found, searches the whole placement formula,
/// which may also show that there is none.
fn sought_layout<C: Chooser>(
    alloc: Global,
    request: &Request,
    learnt: u64,
    choosers: Vec<C>,
) -> Result<Layout, AllocError>
    ensures { IfOk result (IsSought request.now learnt) }
{
    if let Some(parts) = early_layout(alloc, request, learnt.min(LIKELY_STEPS))? {
        return Ok(Layout::Found(parts));
    }
    let Searched { layout, .. } = search_whole(alloc, request, learnt, choosers)?;
    Ok(layout)
}

/// Searches the placement formula of a request, with at most so many steps. The chooser fills the grid from one corner.
pub fn look_alone(alloc: Global, request: &Request, steps: u64) -> Result<Searched, AllocError>
    ensures { IfOk result (IsWhole request.now steps) }
{
    let mut choosers = Vec::new(alloc);
    choosers.push(Highest::new())?;
    search_whole(alloc, request, steps, choosers)
}

/// Searches the placement formula of a request alone, with a log of at most so many steps.
pub fn search_whole<C: Chooser>(
    alloc: Global,
    request: &Request,
    learnt: u64,
    choosers: Vec<C>,
) -> Result<Searched, AllocError>
    ensures { IfOk result (IsWhole request.now learnt) }
{
    let formula = encode_place(alloc, request)?;
    let plan = plan_of_whole(alloc, &formula, request)?;
    let mut solver = Solver::by_plan(alloc, formula, choosers, learnt, plan)?;
    let answer = solver.next_model()?;
    searched_of(alloc, request, answer, solver.into_log())
}

/// What a search with this answer and this log comes to.
fn searched_of(
    alloc: Global,
    request: &Request,
    answer: Answer,
    log: Log,
) -> Result<Searched, AllocError>
    requires over { IsOver request.now log }
    requires ends { (learnt : ℕ) × EndsWithin request.now learnt log.steps answer }
    ensures { (learnt : ℕ) → EndsWithin request.now learnt log.steps answer
        → IfOk result (IsWhole request.now learnt) }
{
    let steps = log.len() as u64;
    let layout = layout_of(alloc, request, answer, log)?;
    Ok(Searched { layout, steps })
}

/// A layout of a request that is laid stage by stage, or by a router where ends are to stand in a row, that a sketch
/// shows, or that is found where one is likely; None where there is none of these. What has stages is told at once, and
/// so are mostly ends in a row; a search finds such layouts in small rectangles alone.
fn early_layout(
    alloc: Global,
    request: &Request,
    learnt: u64,
) -> Result<Option<Vec<Part>>, AllocError>
    ensures { IfOk result (λ found. IfSome found (λ parts. IsLaidOut request.now parts.items)) }
{
    let proposal = propose_stages(alloc, request)?;
    match laid_by(alloc, request, proposal)? {
        Some(parts) => Ok(Some(parts)),
        None => sketched_layout(alloc, request, learnt),
    }
}

/// A layout of a request that a sketch shows or that is found where one is likely. None where none is found, and of a
/// request whose rectangle is too tight for one to be likely.
fn sketched_layout(
    alloc: Global,
    request: &Request,
    learnt: u64,
) -> Result<Option<Vec<Part>>, AllocError>
    ensures { IfOk result (λ found. IfSome found (λ parts. IsLaidOut request.now parts.items)) }
{
    if is_tight(request) {
        return Ok(None);
    }
    let Tried { trial, .. } = look_by_sketch(alloc, request, learnt)?;
    match trial {
        Trial::Found(parts) => Ok(Some(parts)),
        Trial::Refuted | Trial::Spent => laid_in_windows(alloc, request, learnt),
    }
}

/// What a search with this answer and this log comes to.
fn layout_of(
    alloc: Global,
    request: &Request,
    answer: Answer,
    log: Log,
) -> Result<Layout, AllocError>
    requires over { IsOver request.now log }
    requires ends { (learnt : ℕ) × EndsWith request.now learnt log.steps answer }
    ensures layout { (learnt : ℕ) → EndsWith request.now learnt log.steps answer
        → IfOk result (IsSought request.now learnt) }
    ensures log { IfOk result (λ layout. HasLog layout (length log.steps)) }
{
    match answer {
        Answer::Model(model) => Ok(Layout::Found(decode(alloc, request, &model)?)),
        Answer::Refuted => nowhere(alloc, &log),
        Answer::Spent => Ok(Layout::Spent(log)),
    }
}

/// What a search comes to whose log refutes the formula. The steps that the last one doesn't need are left out.
fn nowhere(alloc: Global, log: &Log) -> Result<Layout, AllocError>
    ensures { IfOk result (IsTrimmedTo log.now) }
{
    Ok(Layout::Nowhere(trimmed(alloc, log)?))
}
