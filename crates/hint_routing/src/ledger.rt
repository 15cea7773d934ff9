//! What chains claim, and what it costs: the prices of negotiated congestion (McMurchie and Ebeling, PathFinder).
use crate::around::is_upright;
use crate::poses::{cell_count, cell_number};
use bt_parts::{Cell, Dir, Rect};
use std::alloc::{AllocError, Global};

/// What one chain alone can have.
#[derive(Clone, Copy)]
pub enum Claim {
    /// The cell, for a belt or an underground piece, or so that it stays empty.
    Ground(Cell),
    /// The cell, for what is under the ground along this direction or its opposite, with both ends.
    Below(Cell, Dir),
    /// The half on the cell, for what comes into it.
    Into(Cell),
    /// The half on the cell, for what leaves it.
    OutOf(Cell),
}

/// What a cell costs at first.
const GROUND_PRICE: u64 = 10;

/// What a cell under the ground costs at first.
const BELOW_PRICE: u64 = 5;

/// What an underground piece costs beside its cell.
pub const PIECE_PRICE: u64 = 2;

/// What a cell costs at first on which an end is to stand.
const RESERVED_PRICE: u64 = 100;

/// What a chain costs at least for each cell that it goes on, with underground pairs of this reach: those of the most cells
/// are the cheapest, with two pieces on the ground.
pub fn step_price(reach: u32) -> u64 {
    let pieces = GROUND_PRICE.saturating_add(PIECE_PRICE).saturating_mul(2);
    let cells = u64::from(reach).saturating_add(2);
    BELOW_PRICE
        .saturating_add(pieces / cells.max(1))
        .min(GROUND_PRICE)
}

/// How much each chain too many adds to the history of a claim, of which 10 double its price.
const HISTORY_STEP: u64 = 7;

/// The pressure at first, of which 16 double the price of what another chain has.
const FIRST_PRESSURE: u64 = 8;

/// The greatest pressure.
const MOST_PRESSURE: u64 = 1 << 16;

/// A claim: what it costs at first, how many chains have it, its history, and whether none can have it.
#[derive(Clone, Copy)]
struct Share {
    base: u64,
    uses: u32,
    history: u64,
    is_closed: bool,
}

/// All claims, and what it costs at present to have one that another chain has.
#[derive(Drop)]
pub struct Ledger {
    rect: Rect,
    shares: Vec<Share>,
    pressure: u64,
    /// How often a chain took claims.
    taken: u32,
}

/// Adds so many shares that no chain has, each of which costs this much at first.
fn push_shares(shares: &mut Vec<Share>, count: usize, base: u64) -> Result<(), AllocError> {
    for _ in 0..count {
        shares.push(Share {
            base,
            uses: 0,
            history: 0,
            is_closed: false,
        })?;
    }
    Ok(())
}

impl Share {
    /// What the claim costs one more chain at this pressure; none where it can't be had.
    fn price(&self, pressure: u64) -> Option<u64> {
        if self.is_closed {
            return None;
        }
        let shared = pressure
            .saturating_mul(u64::from(self.uses))
            .saturating_add(16);
        let worn = self.history.saturating_add(10);
        Some(self.base.saturating_mul(worn).saturating_mul(shared) / 160)
    }
}

impl Ledger {
    /// The ledger of a rectangle in which no chain claims anything.
    pub fn new(alloc: Global, rect: Rect) -> Result<Ledger, AllocError> {
        let count = cell_count(rect);
        let mut shares = Vec::new(alloc);
        // In the order of `number`: on the ground; below it, upright and across; into halves and out of them.
        push_shares(&mut shares, count, GROUND_PRICE)?;
        push_shares(&mut shares, count.saturating_mul(2), BELOW_PRICE)?;
        push_shares(&mut shares, count.saturating_mul(2), GROUND_PRICE)?;
        Ok(Ledger {
            rect,
            shares,
            pressure: FIRST_PRESSURE,
            taken: 0,
        })
    }

    /// The number of a claim.
    pub fn number(&self, claim: Claim) -> usize {
        let count = cell_count(self.rect);
        let (kind, cell) = match claim {
            Claim::Ground(cell) => (0, cell),
            Claim::Below(cell, dir) => (if is_upright(dir) { 1 } else { 2 }, cell),
            Claim::Into(cell) => (3, cell),
            Claim::OutOf(cell) => (4, cell),
        };
        count
            .saturating_mul(kind)
            .saturating_add(cell_number(self.rect, cell))
    }

    /// What a claim costs at present; none where it can't be had.
    pub fn price(&self, claim: Claim) -> Option<u64> {
        self.shares.get(self.number(claim))?.price(self.pressure)
    }

    /// Lets no chain have a claim.
    pub fn close(&mut self, claim: Claim) {
        let number = self.number(claim);
        if let Some(share) = self.shares.get_mut(number) {
            share.is_closed = true;
        }
    }

    /// Makes a claim dear for all chains.
    pub fn reserve(&mut self, claim: Claim) {
        let number = self.number(claim);
        if let Some(share) = self.shares.get_mut(number) {
            share.base = RESERVED_PRICE;
        }
    }

    /// Lets one more chain have these claims.
    pub fn take(&mut self, numbers: &[usize]) {
        self.taken = self.taken.saturating_add(1);
        for number in numbers {
            if let Some(share) = self.shares.get_mut(*number) {
                share.uses = share.uses.saturating_add(1);
            }
        }
    }

    /// How often a chain took claims.
    pub fn taken(&self) -> u32 {
        self.taken
    }

    /// Lets one chain less have these claims.
    pub fn give_back(&mut self, numbers: &[usize]) {
        for number in numbers {
            if let Some(share) = self.shares.get_mut(*number) {
                share.uses = share.uses.saturating_sub(1);
            }
        }
    }

    /// Whether more than one chain has one of these claims.
    pub fn is_shared(&self, numbers: &[usize]) -> bool {
        for number in numbers {
            if let Some(share) = self.shares.get(*number) {
                if share.uses > 1 {
                    return true;
                }
            }
        }
        false
    }

    /// Makes each claim that chains share dearer for good, and raises the pressure. Answers how many claims are shared.
    pub fn raise(&mut self) -> usize {
        let mut count = 0usize;
        for share in self.shares.iter_mut() {
            if share.uses > 1 {
                count = count.saturating_add(1);
                let more = u64::from(share.uses).saturating_sub(1);
                share.history = share
                    .history
                    .saturating_add(more.saturating_mul(HISTORY_STEP));
            }
        }
        let raised = self.pressure.saturating_mul(5) / 4;
        self.pressure = raised.saturating_add(1).min(MOST_PRESSURE);
        count
    }
}
