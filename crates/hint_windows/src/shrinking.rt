//! Seams and windows by turns.
use crate::laying::{Trial, filled, put_tiles};
use crate::mending::mend;
use crate::window::mark_box;
use bt_parts::Rect;
use bt_random::Random;
use hint_boards::{BARE, Board, Own, Piece, Plan, seam, turned, without};
use std::alloc::{AllocError, Global};

/// The least width and height of a window, and how many widths and heights it may have.
const LEAST: usize = 5;

const SIZES: usize = 3;

/// How many trials are made in a window, and of how many conflicts at most.
const TRIALS: usize = 6;

const CONFLICTS: u64 = 60;

/// As many conflicts take as long as making a window.
const MAKING: u64 = 100;

/// How many windows are laid anew before seams are cut out again.
const WINDOWS: usize = 12;

/// How many seams are tried before windows are laid anew.
const SEAMS: usize = 3;

/// How far around damaged cells what stands there may be laid anew, at least and at most.
const LEAST_RADIUS: usize = 1;

const MOST_RADIUS: usize = 3;

/// Which lines are to be cut out.
#[derive(Clone, Copy, PartialEq, Eq)]
pub enum Lines {
    Rows,
    Columns,
    Both,
}

/// A smaller layout that was found.
#[derive(Drop)]
pub struct Narrowed {
    /// Its rectangle.
    pub rect: Rect,
    /// Its parts, with the numbers of splitters.
    pub plan: Plan,
}

/// A layout that gets smaller.
#[derive(Drop)]
pub struct Narrowing {
    pub board: Board,
    pub random: Random,
    pub effort: u64,
}

/// A copy of a board.
fn copy(alloc: Global, board: &Board) -> Result<Board, AllocError> {
    Ok(Board {
        width: board.width,
        height: board.height,
        tiles: Vec::from_slice(alloc, &board.tiles)?,
        joints: Vec::from_slice(alloc, &board.joints)?,
        chains: board.chains,
        tier: board.tier,
    })
}

impl Narrowing {
    /// Begins with a layout, whose ends are led to the border, and with random numbers that follow from `number`.
    pub fn new(alloc: Global, own: &Own, number: u64) -> Result<Narrowing, AllocError> {
        let mut narrowing = Narrowing {
            board: Board::of(alloc, own.rect, own.tier, &own.plan)?,
            random: Random::new(number),
            effort: 0,
        };
        narrowing.board.lead_out();
        narrowing.clean(alloc)?;
        Ok(narrowing)
    }

    /// Cuts a seam from left to right out of the board, or where `is_upright` one from top to bottom, and mends what
    /// that damages, with more and more cells around. Whether that was done; else the board stays as it was.
    pub fn cut(&mut self, alloc: Global, is_upright: bool) -> Result<bool, AllocError> {
        let whole = if is_upright {
            turned(alloc, &self.board)?
        } else {
            copy(alloc, &self.board)?
        };
        if whole.height <= 1 {
            return Ok(false);
        }
        let Some(heights) = seam(alloc, &whole, &mut self.random)? else {
            return Ok(false);
        };
        let left = without(alloc, &whole, &heights)?;
        for radius in LEAST_RADIUS..MOST_RADIUS.saturating_add(1) {
            let mut board = copy(alloc, &left)?;
            if mend(
                alloc,
                &mut board,
                radius,
                &mut self.random,
                &mut self.effort,
            )? {
                self.board = if is_upright {
                    turned(alloc, &board)?
                } else {
                    board
                };
                self.clean(alloc)?;
                return Ok(true);
            }
        }
        Ok(false)
    }

    /// Takes away the parts that no chain passes, but for splitters: those of rings.
    fn clean(&mut self, alloc: Global) -> Result<(), AllocError> {
        let plan = self.board.plan(alloc)?;
        let rect = self.rect();
        let mut board = Board::of(alloc, rect, self.board.tier, &plan)?;
        for tile in board.tiles.iter_mut() {
            if tile.goes.is_none() && !tile.piece.is_half() {
                let below = tile.below;
                *tile = BARE;
                tile.below = below;
            }
        }
        self.board = board;
        Ok(())
    }

    /// The rectangle of the board.
    pub fn rect(&self) -> Rect {
        Rect {
            width: u32::try_from(self.board.width).unwrap_or(0),
            height: u32::try_from(self.board.height).unwrap_or(0),
        }
    }

    /// The first and the last of some columns or rows that lie side by side, by chance, in a board that has so many.
    fn stretch(&mut self, cells: usize) -> (usize, usize) {
        let size = LEAST
            .saturating_add(self.random.below(SIZES))
            .min(cells)
            .max(1);
        let free = cells.saturating_sub(size).saturating_add(1);
        let first = self.random.below(free);
        (first, first.saturating_add(size).saturating_sub(1))
    }

    /// Chooses a window by chance and makes `TRIALS` trials to lay it anew; none where no window can be made there.
    pub fn lay_anew(&mut self, alloc: Global) -> Result<(), AllocError> {
        let (left, right) = self.stretch(self.board.width);
        let (top, bottom) = self.stretch(self.board.height);
        let mut marks = vec![in alloc; false; self.board.tiles.len()]?;
        mark_box(&self.board, &mut marks, (left, top), (right, bottom));
        self.effort = self.effort.saturating_add(MAKING);
        let Some(mut trial) = Trial::new(alloc, &self.board, &marks, 100)? else {
            return Ok(());
        };
        for _ in 0..TRIALS {
            self.try_once(alloc, &mut trial)?;
        }
        self.effort = self.effort.saturating_add(trial.conflicts());
        self.clean(alloc)
    }

    /// Lays a window anew without one of its pieces, or one time in four with nothing there. The tiles are taken where
    /// they fill no more cells than before, and by chance where one more, as a search that only gains gets stuck.
    fn try_once(&mut self, alloc: Global, trial: &mut Trial) -> Result<(), AllocError> {
        let mut full = Vec::new(alloc);
        for place in trial.cells() {
            let piece = self.board.tile(*place).piece;
            if piece != Piece::Empty {
                full.push((*place, piece))?;
            }
        }
        let Some((place, piece)) = full.get(self.random.below(full.len())) else {
            return Ok(());
        };
        let wanted = match self.random.below(4) {
            0 => [(*place, Piece::Empty, true)],
            _ => [(*place, *piece, false)],
        };
        let found = trial.tiles(alloc, &self.board, &wanted, CONFLICTS, &mut self.random)?;
        if let Some(tiles) = found {
            let (before, after) = (full.len(), filled(&tiles));
            if after <= before || after <= before.saturating_add(1) && self.random.below(4) == 0 {
                put_tiles(&mut self.board, trial.cells(), &tiles);
            }
        }
        Ok(())
    }

    /// Cuts out the first of some seams along these lines after which the board can be mended. Whether one was.
    fn cut_one(&mut self, alloc: Global, lines: Lines) -> Result<bool, AllocError> {
        for _ in 0..SEAMS {
            let is_upright = match lines {
                Lines::Rows => false,
                Lines::Columns => true,
                Lines::Both => self.random.below(2) == 0,
            };
            if self.cut(alloc, is_upright)? {
                return Ok(true);
            }
        }
        Ok(false)
    }

    /// Cuts out a seam, or lays windows anew where none is found.
    pub fn go_on(&mut self, alloc: Global, lines: Lines) -> Result<(), AllocError> {
        self.effort = self.effort.saturating_add(1);
        if self.cut_one(alloc, lines)? {
            return Ok(());
        }
        for _ in 0..WINDOWS {
            self.lay_anew(alloc)?;
        }
        Ok(())
    }
}

/// Which lines are to be cut out of a rectangle that is to lie in another: those of which it has too many, or else any.
fn lines_of(rect: Rect, most: Rect) -> Lines {
    match (rect.width > most.width, rect.height > most.height) {
        (true, false) => Lines::Columns,
        (false, true) => Lines::Rows,
        _ => Lines::Both,
    }
}

/// Makes a layout smaller, for about as long as `effort` conflicts take: first until it lies in the rectangle `most`,
/// then as far as it goes. Each `number` begins another search.
pub fn narrow(
    alloc: Global,
    own: &Own,
    most: Rect,
    effort: u64,
    number: u64,
) -> Result<Narrowed, AllocError> {
    let mut narrowing = Narrowing::new(alloc, own, number)?;
    for _ in 0..effort {
        if narrowing.effort >= effort {
            break;
        }
        narrowing.go_on(alloc, lines_of(narrowing.rect(), most))?;
    }
    Ok(Narrowed {
        rect: narrowing.rect(),
        plan: narrowing.board.plan(alloc)?,
    })
}
