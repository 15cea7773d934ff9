//! Plans of layouts: splitters in rows, and chains between them.
use crate::climbing::moved;
use crate::lines::View;
use crate::ordering::{Rows, orders, ranked};
use crate::seating::{Seats, seated};
use crate::seats::stands_of;
use crate::spans::{spans_of, wants_rows, way_of};
use bt_model::{MOST_ACROSS, Request};
use bt_parts::{Cell, DIRS, Dir, Kind, Part, Tier};
use bt_random::Random;
use hint_numbering::{Numbered, goes_north, number_by_structure};
use hint_routing::{Chain, Effort, Negotiated, Places, Spans, Stand, Step, negotiate};
use std::alloc::{AllocError, Global};

/// How often splitters are placed at most.
const SEEDS: usize = 400;

/// How many chains are laid at most in a small rectangle, but for those of the last placing.
const MOST_CHAINS: u32 = 40_000;

/// In rectangles of no more cells splitters are placed by ranks alone, unless ends are to stand in a row.
const SMALL: u32 = 256;

/// In rectangles of more cells splitters are placed on seats alone: the ranks of large networks have too many of them.
const NARROW: u32 = 1024;

/// How many moves are tried at most.
const MOVES: usize = 4096;

/// How long the chains of one placing negotiate: another placing is as good a try as more rounds.
const EFFORT: Effort = Effort {
    rounds: 50,
    patience: 8,
    trial: usize::MAX,
};

/// How long they negotiate in a rectangle of more cells than `NARROW`, where most placings are tried in vain.
const WIDE_EFFORT: Effort = Effort {
    rounds: 50,
    patience: 8,
    trial: 7,
};

/// In such a rectangle no more than so many placings are tried, and none is moved, where at best more claims were
/// shared than one for every `WIDE_PART` edges: where a plan was found later the best of the first four came to less.
const WIDE_TRIALS: usize = 4;

const WIDE_PART: usize = 20;

/// The state of the generator that moves splitters.
const FIRST_STATE: u64 = 5;

/// A plan is looked for only where there are so many cells for each splitter; in rectangles of more cells than `NARROW`
/// none was found with less than `WIDE_ROOM`.
const LEAST_ROOM: u64 = 8;

const WIDE_ROOM: u64 = 20;

/// How many percent more seats there are than splitters, by turns.
const SPARE: [usize; 3] = [30, 0, 70];

/// The same in a rectangle of more cells than `NARROW`: where room is scarce there, nearly all placings that settle
/// have no more seats than splitters.
const WIDE_SPARE: [usize; 2] = [30, 0];

/// A plan of a layout.
#[derive(Drop)]
pub struct Sketch {
    /// The splitters, each with its number in the network.
    pub splitters: Vec<(usize, Part)>,
    /// The belts and underground pieces.
    pub others: Vec<Part>,
}

/// Adds a belt or an underground piece.
fn push_part(
    parts: &mut Vec<Part>,
    tier: Tier,
    kind: Kind,
    cell: Cell,
    dir: Dir,
) -> Result<(), AllocError> {
    parts.push(Part {
        kind,
        tier,
        dir,
        cell,
    })?;
    Ok(())
}

/// Adds an entrance, and its exit so far ahead.
fn push_pair(
    parts: &mut Vec<Part>,
    tier: Tier,
    cell: Cell,
    dir: Dir,
    length: u32,
) -> Result<(), AllocError> {
    let mut exit = cell;
    for _ in 0..length {
        exit = exit.next(dir);
    }
    push_part(parts, tier, Kind::Entrance, cell, dir)?;
    push_part(parts, tier, Kind::Exit, exit, dir)
}

/// Adds the parts of a chain.
fn push_chain(parts: &mut Vec<Part>, tier: Tier, chain: &Chain) -> Result<(), AllocError> {
    for step in &chain.steps {
        match *step {
            Step::Belt(cell, dir) => push_part(parts, tier, Kind::Belt, cell, dir)?,
            Step::Pair(cell, dir, length) => push_pair(parts, tier, cell, dir, length)?,
        }
    }
    Ok(())
}

/// The parts of chains.
fn others_of(alloc: Global, tier: Tier, chains: &[Option<Chain>]) -> Result<Vec<Part>, AllocError> {
    let mut parts = Vec::new(alloc);
    for chain in chains {
        if let Some(chain) = chain {
            push_chain(&mut parts, tier, chain)?;
        }
    }
    Ok(parts)
}

/// The splitters that stand so, with these numbers.
fn splitters_of(
    alloc: Global,
    tier: Tier,
    numbers: &[usize],
    stands: &[Stand],
) -> Result<Vec<(usize, Part)>, AllocError> {
    let mut splitters = Vec::new(alloc);
    for (number, stand) in numbers.iter().zip(stands.iter()) {
        let Stand { cell, dir } = *stand;
        let part = Part {
            kind: Kind::Splitter,
            tier,
            dir,
            cell,
        };
        splitters.push((*number, part))?;
    }
    Ok(splitters)
}

/// Where splitters stand, and ends that are side by side.
#[derive(Drop)]
struct Placing {
    stands: Vec<Stand>,
    spans: Spans,
}

/// What placing splitters came to so far.
#[derive(Drop)]
struct Progress {
    /// How many chains may still be laid, and how many of them are kept for moves of the best placing.
    left: u32,
    climbing: u32,
    /// The least number of claims that were shared, and where the splitters stood.
    shared: usize,
    placing: Placing,
}

/// The plan in which the splitters stand so, where no chains share a claim. Else the placing is the best so far where
/// no more claims are shared than at best before.
fn sketch_with(
    alloc: Global,
    request: &Request,
    network: &Numbered,
    progress: &mut Progress,
    placing: Placing,
) -> Result<Option<Sketch>, AllocError> {
    let tier = request.tier();
    let places = Places {
        stands: &placing.stands,
        spans: placing.spans,
    };
    match negotiate(
        alloc,
        request,
        &network.edges,
        places,
        effort_of(request),
        &mut progress.left,
    )? {
        Negotiated::Settled(chains) => Ok(Some(Sketch {
            splitters: splitters_of(alloc, tier, &network.splitters, &placing.stands)?,
            others: others_of(alloc, tier, &chains)?,
        })),
        Negotiated::Shared(shared) => {
            if shared <= progress.shared {
                progress.shared = shared;
                progress.placing = placing;
            }
            Ok(None)
        }
    }
}

/// The direction of a seed: by turns each.
fn turn_of(seed: usize) -> Dir {
    match DIRS.get(seed % 4) {
        Some(dir) => *dir,
        None => Dir::North,
    }
}

/// The view of a seed: all goes to the north where it may, or where ends in a row say, or by turns in each direction.
fn view_of(request: &Request, seed: usize) -> View {
    let dir = if goes_north(request) {
        Dir::North
    } else {
        way_of(request).unwrap_or(turn_of(seed))
    };
    View {
        rect: request.rect(),
        dir,
    }
}

/// The order of a seed: each serves four times before the next one does.
fn order_of(orders: &[Rows], seed: usize) -> Option<&Rows> {
    orders.get((seed / 4) % orders.len().max(1))
}

/// The placing of a seed that puts splitters on lines by their ranks; none where there is no room.
fn placed_by_ranks(
    alloc: Global,
    request: &Request,
    orders: &[Rows],
    splitters: usize,
    seed: usize,
) -> Result<Option<Placing>, AllocError> {
    let Some(rows) = order_of(orders, seed) else {
        return Ok(None);
    };
    let view = view_of(request, seed);
    let moves = if goes_north(request) { seed } else { seed / 4 };
    let placed = stands_of(alloc, request, view, rows, splitters, moves)?;
    let spans = spans_of(request, view, moves);
    match placed {
        Some(stands) => Ok(Some(Placing { stands, spans })),
        None => Ok(None),
    }
}

/// The side of the least square of at least so many cells.
fn side_of(cells: usize) -> usize {
    let mut side = 1usize;
    for _ in 0..MOST_ACROSS {
        if side.saturating_mul(side) >= cells {
            break;
        }
        side = side.saturating_add(1);
    }
    side
}

/// How many percent more seats there are than splitters for a seed, and how many seeds before it had as many.
fn spare_of(is_wide: bool, seed: usize) -> (usize, usize) {
    let spares: &[usize] = if is_wide { &WIDE_SPARE } else { &SPARE };
    let count = spares.len().max(1);
    let spare = spares.get(seed % count).copied().unwrap_or(0);
    (spare, seed / count)
}

/// The seats of a seed, with what `spare_of` tells of it: in about as many lines as make them as far apart both ways,
/// or one or two more or fewer. None where they don't fit.
fn seats_of(view: View, splitters: usize, spare: (usize, usize)) -> Option<Seats> {
    let (spare, before) = spare;
    let high = splitters.saturating_mul(view.along()) / view.across().max(1);
    let lines = side_of(high);
    let other = before % 4;
    let lines = if other < 2 {
        lines.saturating_add(other)
    } else {
        lines.saturating_sub(other).saturating_add(1)
    };
    Seats::new(view, splitters, lines, spare)
}

/// The placing of a seed that puts splitters on seats; none where so many seats don't fit in the rectangle.
fn placed_on_seats(
    alloc: Global,
    request: &Request,
    network: &Numbered,
    seed: usize,
) -> Result<Option<Placing>, AllocError> {
    let view = view_of(request, seed);
    let spans = spans_of(request, view, seed / 4);
    let splitters = network.splitters.len();
    match seats_of(view, splitters, spare_of(is_wide(request), seed)) {
        Some(seats) => Ok(Some(Placing {
            stands: seated(alloc, &network.edges, splitters, seats, spans, seed)?,
            spans,
        })),
        None => Ok(None),
    }
}

/// How many cells the rectangle of a request has.
fn cells_of(request: &Request) -> u32 {
    let rect = request.rect();
    rect.width.saturating_mul(rect.height)
}

/// Whether a rectangle has more cells than `NARROW`, so that splitters are placed on seats alone.
fn is_wide(request: &Request) -> bool {
    cells_of(request) > NARROW
}

/// How long the chains of one placing negotiate.
fn effort_of(request: &Request) -> Effort {
    if is_wide(request) {
        WIDE_EFFORT
    } else {
        EFFORT
    }
}

/// Whether more placings are in vain after those of so many seeds.
fn is_vain(request: &Request, network: &Numbered, progress: &Progress, seeds: usize) -> bool {
    is_wide(request)
        && seeds >= WIDE_TRIALS
        && progress.shared.saturating_mul(WIDE_PART) > network.edges.len()
}

/// How many chains are laid at most: the more cells there are, the longer one takes.
fn chains_of(request: &Request) -> u32 {
    let more = cells_of(request).saturating_sub(SMALL);
    let all = u64::from(MOST_CHAINS).saturating_mul(u64::from(NARROW));
    let chains = all / u64::from(NARROW.saturating_add(more)).max(1);
    let chains = chains.min(u64::from(MOST_CHAINS)) as u32;
    if is_wide(request) {
        chains / 4 * 3
    } else {
        chains
    }
}

/// Whether splitters are placed on seats for some seeds or all: where a request asks for ends in a row, or the
/// rectangle isn't small.
fn may_be_seated(request: &Request) -> bool {
    cells_of(request) > SMALL || wants_rows(request)
}

/// The placing of a seed, by ranks or on seats; none where there is no room.
fn placed(
    alloc: Global,
    request: &Request,
    network: &Numbered,
    orders: &[Rows],
    seed: usize,
) -> Result<Option<Placing>, AllocError> {
    let splitters = network.splitters.len();
    if !may_be_seated(request) {
        placed_by_ranks(alloc, request, orders, splitters, seed)
    } else if is_wide(request) {
        placed_on_seats(alloc, request, network, seed)
    } else if seed % 2 == 0 {
        placed_by_ranks(alloc, request, orders, splitters, seed / 2)
    } else {
        placed_on_seats(alloc, request, network, seed / 2)
    }
}

/// The plan of a seed, where one is found.
fn sketch_by(
    alloc: Global,
    request: &Request,
    network: &Numbered,
    orders: &[Rows],
    progress: &mut Progress,
    seed: usize,
) -> Result<Option<Sketch>, AllocError> {
    match placed(alloc, request, network, orders, seed)? {
        Some(placing) => sketch_with(alloc, request, network, progress, placing),
        None => Ok(None),
    }
}

/// A plan by the first seed that comes to one; none where more seeds are in vain, or would take chains that are kept
/// for moves.
fn sketch_by_seeds(
    alloc: Global,
    request: &Request,
    network: &Numbered,
    orders: &[Rows],
    progress: &mut Progress,
) -> Result<Option<Sketch>, AllocError> {
    let seeds = if network.splitters.is_empty() {
        1
    } else {
        SEEDS
    };
    for seed in 0..seeds {
        if progress.left <= progress.climbing || is_vain(request, network, progress, seed) {
            break;
        }
        let found = sketch_by(alloc, request, network, orders, progress, seed)?;
        if found.is_some() {
            return Ok(found);
        }
    }
    Ok(None)
}

/// A plan in which splitters stand where they stood at best, but for some that are moved one by one: a move is kept where
/// no more claims are shared after it.
fn sketch_by_moves(
    alloc: Global,
    request: &Request,
    network: &Numbered,
    progress: &mut Progress,
) -> Result<Option<Sketch>, AllocError> {
    let mut random = Random::new(FIRST_STATE);
    for _ in 0..MOVES {
        if progress.left == 0 || progress.placing.stands.is_empty() {
            break;
        }
        let next = Placing {
            stands: moved(alloc, request, &progress.placing.stands, &mut random)?,
            spans: progress.placing.spans,
        };
        let found = sketch_with(alloc, request, network, progress, next)?;
        if found.is_some() {
            return Ok(found);
        }
    }
    Ok(None)
}

/// How many of so many chains are kept for moves of the best placing.
fn climbing_of(request: &Request, chains: u32) -> u32 {
    if is_wide(request) {
        chains / 3
    } else if may_be_seated(request) {
        chains / 2
    } else {
        chains / 4 * 3
    }
}

/// The progress before any splitters are placed.
fn first_progress(alloc: Global, request: &Request) -> Progress {
    let chains = chains_of(request);
    Progress {
        left: chains,
        climbing: climbing_of(request, chains),
        shared: usize::MAX,
        placing: Placing {
            stands: Vec::new(alloc),
            spans: Spans::none(),
        },
    }
}

/// A plan by a seed, or else by moves of the best placing that seeds came to.
fn sketch_of(
    alloc: Global,
    request: &Request,
    network: &Numbered,
    orders: &[Rows],
) -> Result<Option<Sketch>, AllocError> {
    let mut progress = first_progress(alloc, request);
    let found = sketch_by_seeds(alloc, request, network, orders, &mut progress)?;
    if found.is_some() {
        return Ok(found);
    }
    if is_vain(request, network, &progress, SEEDS) {
        return Ok(None);
    }
    sketch_by_moves(alloc, request, network, &mut progress)
}

/// Whether there is room for belts beside the splitters.
fn has_room(request: &Request) -> bool {
    let cells = cells_of(request);
    let room = if cells > NARROW {
        WIDE_ROOM
    } else {
        LEAST_ROOM
    };
    u64::from(cells) >= u64::from(request.net().splitters()).saturating_mul(room)
}

/// A plan of a layout of a request, where one is found: none is looked for where there is hardly room.
pub fn find_sketch(alloc: Global, request: &Request) -> Result<Option<Sketch>, AllocError> {
    if !has_room(request) {
        return Ok(None);
    }
    let network = number_by_structure(alloc, request)?;
    let ranks = ranked(alloc, &network.edges, network.splitters.len())?;
    let orders = orders(alloc, &network.edges, &ranks)?;
    sketch_of(alloc, request, &network, &orders)
}
