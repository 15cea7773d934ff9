//! `smallest --found`: small grids on which parts that show a design's network are found.
ghost use Rattle.std.specs.Prelude.{ℕ, IfOk, IfSome, Option, alloc_error};
ghost use Rattle.bt_text.specs.Answers.{UnlessMemory, seen};
ghost use Rattle.bt_designs.specs.Designs.{IsJsonText};
ghost use Rattle.bt_designs.specs.Found.{blueprint_request_of};
ghost use Rattle.bt_designs.specs.Kept.{AreDrawn};
ghost use Rattle.bt_model.specs.Requests.{IsGrid, IsRequest};
ghost use Rattle.bt_grids.specs.Asked.{NamesNoCells};
ghost use Rattle.bt_layout.specs.Small.{IsSmall};
ghost use Rattle.bt_top.specs.Finding.{IsDesignRequest, IsDrawnRequest, IsSmallFoundAgain, IsFoundFrom, IsSmallPreferred, IsSmallFound, IsSmallTold};
ghost use Rattle.bt_top.specs.inner.Asking.{IsDrawnAs, IsFoundBeside, asked_request};

use bt_designs::{
    BlueprintRequest, DesignFault, is_json, read_blueprint_request, read_kept_request,
    read_sided_request,
};
use bt_grids::spanned;
use bt_layout::{Small, find_small, priorities_on};
use bt_model::{MOST_ACROSS, Request};
use bt_parts::{Part, Priority, Rect, Tier};
use bt_print::{Answer, refused};
use bt_recover::Grid;
use bt_words::{AskedSides, USUAL_ACROSS};
use std::alloc::{AllocError, Global};

/// The greatest grid of all: so great a grid is searched for a blueprint, where none is given.
const GREATEST_GRID: Rect = Rect {
    width: MOST_ACROSS,
    height: MOST_ACROSS,
};

/// The greatest grid that is searched for a network text, where none is given.
const USUAL_GRID: Rect = Rect {
    width: USUAL_ACROSS,
    height: USUAL_ACROSS,
};

/// What is asked of a search: the request on the greatest grid, and the design's own parts on their cells, where it is
/// laid out.
#[derive(Drop)]
pub struct Asked {
    pub request: Request,
    pub own: Option<Grid>,
}

/// The answer of `smallest --found` to the bytes of its input.
pub fn smallest_found(
    alloc: Global,
    most: Option<Rect>,
    tier: Option<Tier>,
    sides: AskedSides,
    learnt: u64,
    bytes: &[u8],
) -> Result<Answer, AllocError>
    requires { IfSome most IsGrid }
    ensures { UnlessMemory alloc_error (IsFoundFrom most tier sides learnt bytes.now) result }
{
    match read_asked(alloc, sides, most, tier, bytes) {
        Ok(asked) => found_of(alloc, learnt, &asked),
        Err(fault) => refused(fault),
    }
}

/// What the design that the bytes are asks for on the greatest grid, with the ends of a blueprint at these sides. The bytes
/// are read once.
fn read_asked(
    alloc: Global,
    sides: AskedSides,
    most: Option<Rect>,
    tier: Option<Tier>,
    bytes: &[u8],
) -> Result<Asked, DesignFault>
    requires { IfSome most IsGrid }
    ensures request { UnlessMemory DesignFault.Memory (IsDesignRequest sides most tier bytes.now)
        (seen asked_request result) }
    ensures own { IfOk result (λ asked. IsDrawnAs bytes.now asked.own) }
{
    if is_json(bytes) {
        match read_drawn(alloc, sides, most.unwrap_or(GREATEST_GRID), tier, bytes) {
            Ok(BlueprintRequest { request, grid }) => Ok(Asked {
                request,
                own: Some(grid),
            }),
            Err(fault) => Err(fault),
        }
    } else {
        match read_sided_request(alloc, most.unwrap_or(USUAL_GRID), tier, bytes) {
            Ok(request) => Ok(Asked { request, own: None }),
            Err(fault) => Err(fault),
        }
    }
}

/// The request for the blueprint that the bytes are, with its ends at these sides, and blanks behind it.
fn read_drawn(
    alloc: Global,
    sides: AskedSides,
    rect: Rect,
    tier: Option<Tier>,
    bytes: &[u8],
) -> Result<BlueprintRequest, DesignFault>
    requires grid { IsGrid rect }
    requires json { IsJsonText bytes.now }
    ensures request { UnlessMemory DesignFault.Memory (IsDrawnRequest sides rect tier bytes.now)
        (seen blueprint_request_of result) }
    ensures drawn { IfOk result (λ found. AreDrawn bytes.now found.grid) }
{
    match sides {
        AskedSides::Any => read_blueprint_request(alloc, rect, tier, bytes),
        AskedSides::Kept => read_kept_request(alloc, rect, tier, bytes),
    }
}

/// The answer to what is asked of a search.
fn found_of(alloc: Global, learnt: u64, asked: &Asked) -> Result<Answer, AllocError>
    requires request { IsRequest asked.now.request }
    requires cells { NamesNoCells asked.now.request }
    ensures { UnlessMemory alloc_error (IsFoundBeside asked.now.own learnt asked.now.request) result }
{
    match &asked.own {
        Some(grid) => {
            let parts = grid.parts();
            small_of(alloc, learnt, &asked.request, Some(spanned(parts)), parts)
        }
        None => small_of(alloc, learnt, &asked.request, None, &[]),
    }
}

/// What looking for small grids answers to a request whose rectangle is the greatest grid. `cells` is the number of
/// cells that the design spans, where it is laid out, and `own` are its parts.
fn small_of(
    alloc: Global,
    learnt: u64,
    request: &Request,
    cells: Option<u64>,
    own: &[Part],
) -> Result<Answer, AllocError>
    requires request { IsRequest request.now }
    requires cells { NamesNoCells request.now }
    ensures { UnlessMemory alloc_error (IsSmallFound cells learnt request.now) result }
{
    match find_small(alloc, request, cells, own, learnt) {
        Ok(Some(small)) => small_told(alloc, request, small),
        Ok(None) => Ok(Answer::NotFound),
        Err(_) => Err(AllocError),
    }
}

/// The answer where looking for small grids comes to this.
fn small_told(alloc: Global, request: &Request, small: Small) -> Result<Answer, AllocError>
    requires request { IsRequest request.now }
    requires cells { NamesNoCells request.now }
    requires small { (own : Option ℕ) × (learnt : ℕ) × IsSmall request.now own learnt small }
    ensures { UnlessMemory alloc_error (IsSmallTold request.now small) result }
{
    let priorities = priorities_of_small(alloc, request, &small)?;
    Ok(Answer::Small(small, priorities))
}

/// The priorities of the parts that looking for small grids found.
fn priorities_of_small(
    alloc: Global,
    request: &Request,
    small: &Small,
) -> Result<Vec<Priority>, AllocError>
    requires request { IsRequest request.now }
    requires cells { NamesNoCells request.now }
    requires small { (own : Option ℕ) × (learnt : ℕ) × IsSmall request.now own learnt small.now }
    ensures { IfOk result (λ priorities. IsSmallPreferred request.now small.now priorities.items
        × IsSmallFoundAgain small.now priorities.items) }
{
    match small {
        Small::Found { grid, parts } => priorities_on(alloc, request, *grid, parts),
        Small::Spent(_) => Ok(Vec::new(alloc)),
    }
}
