//! Seams: of each column one cell, at like heights in neighbouring ones, which are cut out together.
use crate::board::Board;
use crate::tile::Piece;
use bt_parts::{DIRS, Dir};
use bt_random::Random;
use std::alloc::{AllocError, Global};

/// What cutting out a cell or going past a neighbour costs that is to be laid anew.
const DAMAGE: u64 = 8;

/// Chance adds less than this to what a cell costs, so that seams differ.
const CHANCE: usize = 5;

/// What can't be cut out costs so much.
const NEVER: u64 = 1 << 32;

/// How much higher or lower the seam may lie in the next column.
const STEEPEST: usize = 2;

/// What cutting out a cell costs: the more, the more is to be laid anew, and `NEVER` for ends and halves of splitters.
fn cost(board: &Board, place: usize) -> u64 {
    let tile = board.tile(place);
    if tile.is_end || tile.piece.is_half() {
        return NEVER;
    }
    match tile.piece {
        Piece::Empty => 0,
        Piece::Belt(dir) if tile.from == Some(dir) => 1,
        Piece::Belt(_) => DAMAGE,
        _ => DAMAGE * 2,
    }
}

/// What it costs that a seam passes between a cell and its neighbour to the east, by the chains that lead across and a
/// splitter that stands on both.
fn link(board: &Board, x: usize, y: usize) -> u64 {
    let place = board.place(x, y);
    let Some(next) = board.ahead(place, Dir::East) else {
        return 0;
    };
    let (tile, other) = (board.tile(place), board.tile(next));
    let mut links = 0u64;
    for chain in &[
        tile.out(Dir::East),
        other.out(Dir::West),
        tile.down(Dir::East),
        other.down(Dir::West),
    ] {
        if chain.is_some() {
            links = links.saturating_add(DAMAGE);
        }
    }
    let spans = match tile.piece {
        Piece::Lesser(Dir::North) | Piece::Lesser(Dir::South) => true,
        _ => false,
    };
    if spans {
        links = links.saturating_add(DAMAGE * 3);
    }
    links
}

/// What it costs to go on from a height in column `x` to another in the next column.
fn step(board: &Board, x: usize, one: usize, other: usize) -> u64 {
    if one == other {
        return 0;
    }
    let mut sum = 0u64;
    for y in one.min(other)..one.max(other).saturating_add(1) {
        sum = sum.saturating_add(link(board, x, y));
    }
    sum
}

/// The cheapest seams that end in each cell of a column.
#[derive(Drop)]
struct Front {
    costs: Vec<u64>,
    /// For each cell of each column, the height in the column before.
    before: Vec<usize>,
}

impl Front {
    /// What the cheapest seam costs that comes to a height in column `x`, without its cell, and its height in the
    /// column before.
    fn best(&self, board: &Board, x: usize, y: usize) -> (u64, usize) {
        let mut best = (u64::MAX, y);
        let last = y
            .saturating_add(STEEPEST)
            .saturating_add(1)
            .min(board.height);
        for from in y.saturating_sub(STEEPEST)..last {
            let cost = self.costs.get(from).copied().unwrap_or(NEVER);
            let sum = cost.saturating_add(step(board, x.saturating_sub(1), from, y));
            if sum < best.0 {
                best = (sum, from);
            }
        }
        best
    }

    /// Goes on to column `x`.
    fn advance(
        &mut self,
        alloc: Global,
        board: &Board,
        x: usize,
        random: &mut Random,
    ) -> Result<(), AllocError> {
        let mut costs = Vec::new(alloc);
        for y in 0..board.height {
            let (sum, from) = if x == 0 {
                (0, y)
            } else {
                self.best(board, x, y)
            };
            self.before.push(from)?;
            let chance = random.below(CHANCE) as u64;
            costs.push(
                sum.saturating_add(cost(board, board.place(x, y)))
                    .saturating_add(chance),
            )?;
        }
        self.costs = costs;
        Ok(())
    }
}

/// A seam of little damage: of each column a height. None where there is none.
pub fn seam(
    alloc: Global,
    board: &Board,
    random: &mut Random,
) -> Result<Option<Vec<usize>>, AllocError> {
    let mut front = Front {
        costs: Vec::new(alloc),
        before: Vec::new(alloc),
    };
    for x in 0..board.width {
        front.advance(alloc, board, x, random)?;
    }
    let mut best = (NEVER, 0usize);
    for (y, cost) in front.costs.iter().enumerate() {
        if *cost < best.0 {
            best = (*cost, y);
        }
    }
    if best.0 >= NEVER {
        return Ok(None);
    }
    let mut heights = vec![in alloc; 0usize; board.width]?;
    let mut y = best.1;
    for back in 0..board.width {
        let x = board.width.saturating_sub(1).saturating_sub(back);
        if let Some(height) = heights.get_mut(x) {
            *height = y;
        }
        let place = x.saturating_mul(board.height).saturating_add(y);
        y = front.before.get(place).copied().unwrap_or(y);
    }
    Ok(Some(heights))
}

/// The board without a seam: in each column the cells below it move up by one.
pub fn without(alloc: Global, board: &Board, heights: &[usize]) -> Result<Board, AllocError> {
    let height = board.height.saturating_sub(1);
    let mut left = Board::bare(alloc, board.width, height, board.tier)?;
    left.joints = Vec::from_slice(alloc, &board.joints)?;
    left.chains = board.chains;
    for x in 0..board.width {
        let cut = heights.get(x).copied().unwrap_or(0);
        for y in 0..height {
            let from = if y < cut { y } else { y.saturating_add(1) };
            let place = left.place(x, y);
            if let Some(tile) = left.tiles.get_mut(place) {
                *tile = board.tile(board.place(x, from));
            }
        }
    }
    Ok(left)
}

/// A direction where rows and columns are exchanged.
fn turned_dir(dir: Dir) -> Dir {
    match dir {
        Dir::North => Dir::West,
        Dir::East => Dir::South,
        Dir::South => Dir::East,
        Dir::West => Dir::North,
    }
}

/// A piece where rows and columns are exchanged.
fn turned_piece(piece: Piece) -> Piece {
    match piece {
        Piece::Empty => Piece::Empty,
        Piece::Belt(dir) => Piece::Belt(turned_dir(dir)),
        Piece::Entrance(dir) => Piece::Entrance(turned_dir(dir)),
        Piece::Exit(dir) => Piece::Exit(turned_dir(dir)),
        Piece::Lesser(dir) => Piece::Lesser(turned_dir(dir)),
        Piece::Greater(dir) => Piece::Greater(turned_dir(dir)),
    }
}

/// The board with rows and columns exchanged.
pub fn turned(alloc: Global, board: &Board) -> Result<Board, AllocError> {
    let mut other = Board::bare(alloc, board.height, board.width, board.tier)?;
    other.joints = Vec::from_slice(alloc, &board.joints)?;
    other.chains = board.chains;
    for place in 0..board.tiles.len() {
        let (x, y) = board.spot(place);
        let mut tile = board.tile(place);
        let below = tile.below;
        tile.piece = turned_piece(tile.piece);
        tile.from = tile.from.map(turned_dir);
        for dir in &DIRS {
            tile.below.put(turned_dir(*dir), below.get(*dir));
        }
        let to = other.place(y, x);
        if let Some(old) = other.tiles.get_mut(to) {
            *old = tile;
        }
    }
    Ok(other)
}
