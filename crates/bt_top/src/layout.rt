//! `layout`: a layout of a request, or the evidence that there is none.
ghost use Rattle.std.specs.Prelude.{◌≤◌, ℕ, alloc_error, length};
ghost use Rattle.bt_text.specs.Answers.{UnlessMemory};
ghost use Rattle.bt_model.specs.Requests.{IsGrid, IsRequest};
ghost use Rattle.bt_entities.specs.declared.blueprint.TheConstants.{MOST_ENTITIES};
ghost use Rattle.bt_model.specs.Laying.{Lays};
ghost use Rattle.bt_layout.specs.Layouts.{IsLayout};
ghost use Rattle.bt_grids.specs.declared.outcome.Layout.TheVariants.{Found};
ghost use Rattle.bt_top.specs.LayingOut.{IsLaidOut, IsLaidOutFrom, IsLayoutTold};

use bt_cnf::Chooser;
use bt_designs::read_lone_request;
use bt_layout::{Layout, priorities_of};
use bt_model::Request;
use bt_parts::{Part, Rect, Tier};
use bt_print::{Answer, refused};
use bt_theory::GaveUp;
use std::alloc::{AllocError, Global};

/// The answer of `layout` to the bytes of its input.
pub fn layout(
    alloc: Global,
    rect: Rect,
    tier: Option<Tier>,
    learnt: u64,
    bytes: &[u8],
    choosers: Vec<Box<dyn Chooser>>,
) -> Result<Answer, AllocError>
    requires { IsGrid rect }
    ensures { UnlessMemory alloc_error (IsLaidOutFrom rect tier learnt bytes.now) result }
{
    match read_lone_request(alloc, rect, tier, bytes) {
        Ok(request) => layout_of(alloc, learnt, &request, choosers),
        Err(fault) => refused(fault),
    }
}

/// The answer of `layout` to a request.
fn layout_of(
    alloc: Global,
    learnt: u64,
    request: &Request,
    choosers: Vec<Box<dyn Chooser>>,
) -> Result<Answer, AllocError>
    requires { IsRequest request.now }
    ensures { UnlessMemory alloc_error (IsLaidOut learnt request.now) result }
{
    match bt_layout::layout(alloc, request, learnt, choosers) {
        Ok(Some(found)) => layout_told(alloc, request, found),
        Ok(None) => Ok(Answer::NotFound),
        Err(_) => Err(AllocError),
    }
}

/// The answer where a search for a layout comes to this.
fn layout_told(alloc: Global, request: &Request, found: Layout) -> Result<Answer, AllocError>
    requires request { IsRequest request.now }
    requires found { (learnt : ℕ) × IsLayout request.now learnt found }
    ensures { UnlessMemory alloc_error (IsLayoutTold request.now found) result }
{
    match found {
        Layout::Found(parts) => parts_told(alloc, request, parts),
        Layout::Nowhere(log) => Ok(Answer::Nowhere(log)),
        Layout::Spent(log) => Ok(Answer::GaveUp(GaveUp::Spent(log))),
    }
}

/// What is answered to parts that lay a request: these, with priorities by which they meet what its splitters prefer.
fn parts_told(alloc: Global, request: &Request, parts: Vec<Part>) -> Result<Answer, AllocError>
    requires request { IsRequest request.now }
    requires lays { Lays parts.items request.now }
    requires few { length parts.items ≤ MOST_ENTITIES }
    ensures { UnlessMemory alloc_error (IsLayoutTold request.now (Found parts)) result }
{
    let priorities = priorities_of(alloc, request, &parts)?;
    Ok(Answer::LaidOut(parts, priorities))
}
