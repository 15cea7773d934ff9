//! Chains that negotiate for cells: each is laid anew at the prices of the day, until no two have the same.
use crate::ends::{Ends, Places, ends_of};
use crate::finding::{Chain, cheapest};
use crate::ledger::{Claim, Ledger};
use crate::poses::{Pose, poses_of};
use crate::spans::Spans;
use crate::stand::Stand;
use bt_model::Request;
use bt_net::Edge;
use bt_parts::{Cell, Rect, inside};
use hint_numbering::{is_blocked, leaving};
use std::alloc::{AllocError, Global};

/// How long chains negotiate.
#[derive(Clone, Copy)]
pub struct Effort {
    /// The most rounds.
    pub rounds: usize,
    /// After so many rounds in turn that don't lower the least number of shared claims no more are made.
    pub patience: usize,
    /// After so many rounds no more are made where the least number of claims that were shared isn't a small part of those
    /// that the first round left shared.
    pub trial: usize,
}

/// The small part is one in so many: of the placings that settled each came to a seventh of the first round in seven
/// rounds, most to a twentieth.
const SMALL_PART: usize = 5;

/// How far rounds came: how many were made, how many since the least number of shared claims was lowered, how many
/// claims were shared after the first one, and the least number.
#[derive(Clone, Copy)]
struct Course {
    rounds: usize,
    idle: usize,
    first: usize,
    least: usize,
}

impl Course {
    /// Before the first round.
    fn new() -> Course {
        Course {
            rounds: 0,
            idle: 0,
            first: usize::MAX,
            least: usize::MAX,
        }
    }

    /// After one more round, which left so many claims shared.
    fn after(self, shared: usize) -> Course {
        Course {
            rounds: self.rounds.saturating_add(1),
            idle: if shared < self.least {
                0
            } else {
                self.idle.saturating_add(1)
            },
            first: if self.rounds == 0 { shared } else { self.first },
            least: self.least.min(shared),
        }
    }

    /// Whether no more rounds are made: nothing was shared after one, or patience is at its end, or the trial is over
    /// and was in vain.
    fn is_over(self, effort: Effort) -> bool {
        let is_far = self.least.saturating_mul(SMALL_PART) > self.first;
        self.least == 0 || self.idle >= effort.patience || self.rounds >= effort.trial && is_far
    }
}

/// What a round comes to.
#[derive(Clone, Copy)]
enum Round {
    /// No two chains claim the same.
    Settled,
    /// So many claims are shared.
    Shared(usize),
    /// An edge has no chain.
    Stuck,
}

/// What chains come to.
#[derive(Drop)]
pub enum Negotiated {
    /// No two of the chains of the edges claim the same.
    Settled(Vec<Option<Chain>>),
    /// At best so many claims were shared after a round: the greatest number where no round was finished.
    Shared(usize),
}

/// A rectangle with its poses, and how long an underground pair may be.
#[derive(Clone, Copy)]
struct Ground<'a> {
    rect: Rect,
    poses: &'a [Pose],
    reach: u32,
}

/// Closes the ground of a cell.
fn close_ground(ledger: &mut Ledger, rect: Rect, cell: Cell) {
    if inside(&rect, cell) {
        ledger.close(Claim::Ground(cell));
    }
}

/// Closes the cells of a splitter, and those in front of it where no edge leaves it.
fn close_stand(ledger: &mut Ledger, rect: Rect, stand: Stand, is_last: bool) {
    for half in &stand.halves() {
        close_ground(ledger, rect, *half);
        if is_last {
            close_ground(ledger, rect, stand.front(*half));
        }
    }
}

/// Closes the blocks of a request.
fn close_blocks(ledger: &mut Ledger, request: &Request, poses: &[Pose]) {
    for pose in poses {
        if inside(&request.rect(), pose.cell) && is_blocked(request, pose.cell) {
            ledger.close(Claim::Ground(pose.cell));
        }
    }
}

/// Makes the cells dear on which ends stand side by side, so that chains don't pass over them without need.
fn reserve_spans(ledger: &mut Ledger, spans: Spans, poses: &[Pose]) {
    for span in &[spans.inputs, spans.outputs] {
        let Some(span) = span else {
            continue;
        };
        for pose in poses {
            if span.has(*pose) {
                ledger.reserve(Claim::Ground(pose.cell));
            }
        }
    }
}

/// The ledger before the first round, in which splitters and blocks are closed and the cells of ends side by side are
/// dear.
fn first_ledger(
    alloc: Global,
    request: &Request,
    edges: &[Edge],
    places: Places,
    poses: &[Pose],
) -> Result<Ledger, AllocError> {
    let rect = request.rect();
    let mut ledger = Ledger::new(alloc, rect)?;
    for (splitter, stand) in places.stands.iter().enumerate() {
        close_stand(&mut ledger, rect, *stand, leaving(edges, splitter) == 0);
    }
    if !request.blocks().is_empty() {
        close_blocks(&mut ledger, request, poses);
    }
    reserve_spans(&mut ledger, places.spans, poses);
    Ok(ledger)
}

/// Lays the chain of an edge anew, where it has none or shares a claim. Whether the edge has a chain then.
fn lay_anew(
    alloc: Global,
    ledger: &mut Ledger,
    ground: Ground,
    ends: &Ends,
    chain: &mut Option<Chain>,
) -> Result<bool, AllocError> {
    if let Some(before) = chain {
        if !ledger.is_shared(&before.claims) {
            return Ok(true);
        }
        ledger.give_back(&before.claims);
    }
    let Ground { rect, poses, reach } = ground;
    let next = cheapest(alloc, rect, ledger, poses, ends, reach)?;
    if let Some(after) = &next {
        ledger.take(&after.claims);
    }
    *chain = next;
    Ok(chain.is_some())
}

/// Lays chains anew for all edges that have none or share a claim, up to the first edge for which none is found; then
/// makes what is shared dearer.
fn lay_round(
    alloc: Global,
    ledger: &mut Ledger,
    ground: Ground,
    ends: &[Ends],
    chains: &mut [Option<Chain>],
) -> Result<Round, AllocError> {
    for (ends, chain) in ends.iter().zip(chains.iter_mut()) {
        if !lay_anew(alloc, ledger, ground, ends, chain)? {
            return Ok(Round::Stuck);
        }
    }
    let count = ledger.raise();
    if count > 0 {
        Ok(Round::Shared(count))
    } else {
        Ok(Round::Settled)
    }
}

/// Makes rounds until their course is over, their number is reached, or an edge has no chain. Answers the least number
/// of claims that were shared after a round: the greatest number where none was finished.
fn rounds(
    alloc: Global,
    ledger: &mut Ledger,
    ground: Ground,
    ends: &[Ends],
    chains: &mut [Option<Chain>],
    effort: Effort,
) -> Result<usize, AllocError> {
    let mut course = Course::new();
    for _ in 0..effort.rounds {
        let shared = match lay_round(alloc, ledger, ground, ends, chains)? {
            Round::Settled => 0,
            Round::Shared(count) => count,
            Round::Stuck => break,
        };
        course = course.after(shared);
        if course.is_over(effort) {
            break;
        }
    }
    Ok(course.least)
}

/// A list of so many edges' chains in which each has none yet.
fn no_chains(alloc: Global, count: usize) -> Result<Vec<Option<Chain>>, AllocError> {
    let mut chains = Vec::new(alloc);
    for _ in 0..count {
        chains.push(None)?;
    }
    Ok(chains)
}

/// Lays chains for the edges of a network whose splitters and ends stand so. How many chains were laid, at least 1, is
/// taken from `left`.
pub fn negotiate(
    alloc: Global,
    request: &Request,
    edges: &[Edge],
    places: Places,
    effort: Effort,
    left: &mut u32,
) -> Result<Negotiated, AllocError> {
    let rect = request.rect();
    let poses = poses_of(alloc, rect)?;
    let ends = ends_of(alloc, request, edges, places)?;
    let mut ledger = first_ledger(alloc, request, edges, places, &poses)?;
    let mut chains = no_chains(alloc, edges.len())?;
    let ground = Ground {
        rect,
        poses: &poses,
        reach: request.tier().reach(),
    };
    let shared = rounds(alloc, &mut ledger, ground, &ends, &mut chains, effort)?;
    *left = left.saturating_sub(ledger.taken().max(1));
    if shared == 0 {
        Ok(Negotiated::Settled(chains))
    } else {
        Ok(Negotiated::Shared(shared))
    }
}
