//! The cheapest chain between the ends of an edge (Dijkstra's algorithm over poses).
use crate::around::turns;
use crate::ends::{Beginning, Ending, Endings, Ends};
use crate::ledger::{Claim, Ledger, PIECE_PRICE, step_price};
use crate::poses::{Pose, pose_number};
use bt_parts::{Cell, Dir, Rect, inside};
use std::alloc::{AllocError, Global};
use std::collections::BinaryHeap;

/// What a chain puts down to come from one pose to the next.
#[derive(Clone, Copy)]
pub enum Step {
    /// A belt on the cell, turned so.
    Belt(Cell, Dir),
    /// An entrance on the cell, turned so, and an exit so far ahead.
    Pair(Cell, Dir, u32),
}

/// How a pose is come to.
#[derive(Clone, Copy)]
enum Origin {
    Nowhere,
    Begun(Beginning),
    /// From the pose of this number by this step.
    From(usize, Step),
}

/// The least that it costs to come to a pose, as far as is known, and how.
#[derive(Clone, Copy)]
struct Label {
    cost: u64,
    origin: Origin,
}

/// A chain: its steps from its end on, and the numbers of what it claims.
#[derive(Drop)]
pub struct Chain {
    pub steps: Vec<Step>,
    pub claims: Vec<usize>,
}

/// Where a search is to come, and what each cell on the way there costs at least: 0 where the search doesn't look
/// ahead.
#[derive(Clone, Copy)]
struct Aim {
    endings: Endings,
    price: u64,
}

/// Where a rectangle has more cells a search looks where it is to come (the A* algorithm of Hart, Nilsson and Raphael); where
/// it has less, it finds all as soon without.
const NARROW: u64 = 1024;

impl Aim {
    /// The aim of a search in a rectangle, with underground pairs of this reach.
    fn new(rect: Rect, endings: Endings, reach: u32) -> Aim {
        let cells = u64::from(rect.width).saturating_mul(u64::from(rect.height));
        let price = if cells > NARROW { step_price(reach) } else { 0 };
        Aim { endings, price }
    }

    /// What a chain costs at least from a cell on to where it may end.
    fn rest(self, cell: Cell) -> u64 {
        self.price.saturating_mul(self.endings.distance(cell))
    }
}

/// A search for a chain.
#[derive(Drop)]
struct Search {
    rect: Rect,
    aim: Aim,
    labels: Vec<Label>,
    /// The poses that are to be gone on from: `u64::MAX` less what a chain through it costs at least, since the heap
    /// gives the greatest first, and the pose's number.
    heap: BinaryHeap<(u64, usize)>,
    /// What the cheapest whole chain so far costs, and the number of the pose where it ends.
    best: Option<(u64, usize)>,
}

/// The most poses that a search goes on from, some of them more than once.
const MOST_TURNS: u32 = 1 << 16;

impl Search {
    /// A search that has come to none of so many poses.
    fn new(alloc: Global, rect: Rect, aim: Aim, count: usize) -> Result<Search, AllocError> {
        let label = Label {
            cost: u64::MAX,
            origin: Origin::Nowhere,
        };
        Ok(Search {
            rect,
            aim,
            labels: vec![in alloc; label; count]?,
            heap: BinaryHeap::new(alloc),
            best: None,
        })
    }

    /// What it costs to come to the pose of this number: `u64::MAX` where no way is known, and 0 where there is no such
    /// pose, so that none is looked for.
    fn cost(&self, number: usize) -> u64 {
        match self.labels.get(number) {
            Some(label) => label.cost,
            None => 0,
        }
    }

    /// How the pose of this number is come to.
    fn origin(&self, number: usize) -> Origin {
        match self.labels.get(number) {
            Some(label) => label.origin,
            None => Origin::Nowhere,
        }
    }

    /// Comes to a pose at this cost, where that is less than before.
    fn come_to(&mut self, pose: Pose, cost: u64, origin: Origin) -> Result<(), AllocError> {
        let number = pose_number(self.rect, pose);
        if cost >= self.cost(number) {
            return Ok(());
        }
        if let Some(label) = self.labels.get_mut(number) {
            *label = Label { cost, origin };
        }
        let whole = cost.saturating_add(self.aim.rest(pose.cell));
        self.heap.push((u64::MAX.saturating_sub(whole), number))?;
        Ok(())
    }
}

/// What a claim costs, where one is named, else 0; none where it can't be had.
fn price_of(ledger: &Ledger, claim: Option<Claim>) -> Option<u64> {
    match claim {
        Some(claim) => ledger.price(claim),
        None => Some(0),
    }
}

/// What it costs besides the ground that an input begins on a cell: nothing; none where the ground can't be had.
fn input_price(ledger: &Ledger, cell: Cell) -> Option<u64> {
    match ledger.price(Claim::Ground(cell)) {
        Some(_) => Some(0),
        None => None,
    }
}

/// What it costs to begin so, without the ground of the first cell; none where a claim can't be had.
fn beginning_price(ledger: &Ledger, beginning: &Beginning) -> Option<u64> {
    let half = match beginning.half {
        Some(half) => ledger.price(half)?,
        None => input_price(ledger, beginning.pose.cell)?,
    };
    let empty = price_of(ledger, beginning.empty)?;
    Some(half.saturating_add(empty))
}

/// What it costs to end so; none where a chain may not.
fn ending_price(ledger: &Ledger, ending: Ending) -> Option<u64> {
    match ending {
        Ending::Never => None,
        Ending::Free => Some(0),
        Ending::Into(half) => ledger.price(Claim::Into(half)),
    }
}

/// Comes to all poses in which the chain may begin.
fn begin(search: &mut Search, ledger: &Ledger, ends: &Ends) -> Result<(), AllocError> {
    for beginning in &ends.beginnings {
        if let Some(price) = beginning_price(ledger, beginning) {
            search.come_to(beginning.pose, price, Origin::Begun(*beginning))?;
        }
    }
    Ok(())
}

/// A pose that a search goes on from: its number, and what it costs to come there with the ground of its cell.
#[derive(Clone, Copy)]
struct Here {
    pose: Pose,
    number: usize,
    cost: u64,
}

/// Goes on by a belt in each of the directions that it may have.
fn go_by_belts(search: &mut Search, here: Here, is_straight: bool) -> Result<(), AllocError> {
    let cell = here.pose.cell;
    for dir in &turns(here.pose.dir) {
        if !is_straight || *dir == here.pose.dir {
            let next = Pose {
                cell: cell.next(*dir),
                dir: *dir,
            };
            let step = Step::Belt(cell, *dir);
            search.come_to(next, here.cost, Origin::From(here.number, step))?;
        }
    }
    Ok(())
}

/// Goes on by an underground pair with its exit on this cell, so far ahead, where its ground can be had. The pieces and
/// what is under the ground cost `below`.
fn go_by_pair(
    search: &mut Search,
    ledger: &Ledger,
    here: Here,
    exit: Cell,
    length: u32,
    below: u64,
) -> Result<(), AllocError> {
    let Some(ground) = ledger.price(Claim::Ground(exit)) else {
        return Ok(());
    };
    let dir = here.pose.dir;
    let cost = here.cost.saturating_add(ground).saturating_add(below);
    let next = Pose {
        cell: exit.next(dir),
        dir,
    };
    let step = Step::Pair(here.pose.cell, dir, length);
    search.come_to(next, cost, Origin::From(here.number, step))
}

/// Goes on by underground pairs with exits from 2 to `reach` + 1 cells ahead, as far as the cells lie inside and can be
/// passed below.
fn go_below(
    search: &mut Search,
    ledger: &Ledger,
    here: Here,
    reach: u32,
) -> Result<(), AllocError> {
    let Pose { mut cell, dir } = here.pose;
    let mut below = PIECE_PRICE.saturating_mul(2);
    for length in 0..reach.saturating_add(2) {
        let Some(price) = ledger.price(Claim::Below(cell, dir)) else {
            break;
        };
        if !inside(&search.rect, cell) {
            break;
        }
        below = below.saturating_add(price);
        if length >= 2 {
            go_by_pair(search, ledger, here, cell, length, below)?;
        }
        cell = cell.next(dir);
    }
    Ok(())
}

/// Whether the part in the pose of this number has to keep its direction: only where a chain begins so.
fn is_straight(search: &Search, number: usize) -> bool {
    match search.origin(number) {
        Origin::Begun(beginning) => beginning.is_straight,
        _ => false,
    }
}

/// Goes on from a pose by belts and pairs, where its cell lies inside and can be had.
fn go_on(
    search: &mut Search,
    ledger: &Ledger,
    pose: Pose,
    number: usize,
    reach: u32,
) -> Result<(), AllocError> {
    if !inside(&search.rect, pose.cell) {
        return Ok(());
    }
    let Some(ground) = ledger.price(Claim::Ground(pose.cell)) else {
        return Ok(());
    };
    let here = Here {
        pose,
        number,
        cost: search.cost(number).saturating_add(ground),
    };
    let is_straight = is_straight(search, number);
    go_by_belts(search, here, is_straight)?;
    go_below(search, ledger, here, reach)
}

/// Ends a chain in the pose of this number, where it may end there and is cheaper than the best one. Whether it may end
/// there.
fn end_at(search: &mut Search, ledger: &Ledger, ends: &Ends, pose: Pose, number: usize) -> bool {
    let Some(price) = ending_price(ledger, ends.endings.at(pose)) else {
        return false;
    };
    let cost = search.cost(number).saturating_add(price);
    let is_better = match search.best {
        Some((least, _)) => cost < least,
        None => true,
    };
    if is_better {
        search.best = Some((cost, number));
    }
    true
}

/// Whether no chain through a pose at this cost is better than the best one.
fn is_over(search: &Search, cost: u64) -> bool {
    match search.best {
        Some((least, _)) => least <= cost,
        None => false,
    }
}

/// Goes on from the cheapest pose, or skips it where a cheaper way there has come up since. Whether there may be a
/// cheaper chain than the best one.
fn turn(
    search: &mut Search,
    ledger: &Ledger,
    poses: &[Pose],
    ends: &Ends,
    reach: u32,
) -> Result<bool, AllocError> {
    let Some((key, number)) = search.heap.pop() else {
        return Ok(false);
    };
    let whole = u64::MAX.saturating_sub(key);
    if is_over(search, whole) {
        return Ok(false);
    }
    if let Some(pose) = poses.get(number) {
        let cost = whole.saturating_sub(search.aim.rest(pose.cell));
        if cost == search.cost(number) && !end_at(search, ledger, ends, *pose, number) {
            go_on(search, ledger, *pose, number, reach)?;
        }
    }
    Ok(true)
}

/// Adds the number of a claim, where one is named.
fn push_claim(
    claims: &mut Vec<usize>,
    ledger: &Ledger,
    claim: Option<Claim>,
) -> Result<(), AllocError> {
    if let Some(claim) = claim {
        claims.push(ledger.number(claim))?;
    }
    Ok(())
}

/// Adds the claims of a pair: the ground of both pieces, and what is below from the one to the other.
fn push_pair(
    claims: &mut Vec<usize>,
    ledger: &Ledger,
    entrance: Cell,
    dir: Dir,
    length: u32,
) -> Result<(), AllocError> {
    let mut cell = entrance;
    claims.push(ledger.number(Claim::Ground(cell)))?;
    claims.push(ledger.number(Claim::Below(cell, dir)))?;
    for _ in 0..length {
        cell = cell.next(dir);
        claims.push(ledger.number(Claim::Below(cell, dir)))?;
    }
    claims.push(ledger.number(Claim::Ground(cell)))?;
    Ok(())
}

/// Adds the claims of a step.
fn push_step(claims: &mut Vec<usize>, ledger: &Ledger, step: Step) -> Result<(), AllocError> {
    match step {
        Step::Belt(cell, _) => claims.push(ledger.number(Claim::Ground(cell)))?,
        Step::Pair(cell, dir, length) => push_pair(claims, ledger, cell, dir, length)?,
    }
    Ok(())
}

/// Follows a chain back from the pose of this number, and writes down its steps and claims.
fn trace(
    chain: &mut Chain,
    search: &Search,
    ledger: &Ledger,
    last: usize,
) -> Result<(), AllocError> {
    let mut number = last;
    for _ in 0..search.labels.len() {
        match search.origin(number) {
            Origin::Nowhere => break,
            Origin::Begun(beginning) => {
                push_claim(&mut chain.claims, ledger, beginning.half)?;
                push_claim(&mut chain.claims, ledger, beginning.empty)?;
                break;
            }
            Origin::From(before, step) => {
                push_step(&mut chain.claims, ledger, step)?;
                chain.steps.push(step)?;
                number = before;
            }
        }
    }
    Ok(())
}

/// The chain that ends so in the pose of this number.
fn chain_to(
    alloc: Global,
    search: &Search,
    ledger: &Ledger,
    ending: Ending,
    last: usize,
) -> Result<Chain, AllocError> {
    let mut chain = Chain {
        steps: Vec::new(alloc),
        claims: Vec::new(alloc),
    };
    if let Ending::Into(half) = ending {
        push_claim(&mut chain.claims, ledger, Some(Claim::Into(half)))?;
    }
    trace(&mut chain, search, ledger, last)?;
    Ok(chain)
}

/// The cheapest chain of an edge in a rectangle with these poses; none where no chain is found. After `MOST_TURNS`
/// poses the best one so far is taken.
pub fn cheapest(
    alloc: Global,
    rect: Rect,
    ledger: &Ledger,
    poses: &[Pose],
    ends: &Ends,
    reach: u32,
) -> Result<Option<Chain>, AllocError> {
    let aim = Aim::new(rect, ends.endings, reach);
    let mut search = Search::new(alloc, rect, aim, poses.len())?;
    begin(&mut search, ledger, ends)?;
    for _ in 0..MOST_TURNS {
        if !turn(&mut search, ledger, poses, ends, reach)? {
            break;
        }
    }
    let Some((_, last)) = search.best else {
        return Ok(None);
    };
    let ending = match poses.get(last) {
        Some(pose) => ends.endings.at(*pose),
        None => Ending::Never,
    };
    Ok(Some(chain_to(alloc, &search, ledger, ending, last)?))
}
