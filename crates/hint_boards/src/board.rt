//! A rectangle of cells with the chains of a layout.
use crate::tile::{BARE, Chain, Piece, Tile};
use bt_parts::{Cell, DIRS, Dir, Kind, Part, Rect, Tier};
use std::alloc::{AllocError, Global};

/// The chains that come to a splitter, and those that leave it.
#[derive(Clone, Copy)]
pub struct Joint {
    pub comes: (Option<Chain>, Option<Chain>),
    pub goes: (Option<Chain>, Option<Chain>),
}

/// The parts of a layout: its splitters with their numbers, and the others.
#[derive(Drop)]
pub struct Plan {
    pub splitters: Vec<(usize, Part)>,
    pub others: Vec<Part>,
}

/// A rectangle of cells with the chains of a layout.
#[derive(Drop)]
pub struct Board {
    pub width: usize,
    pub height: usize,
    pub tiles: Vec<Tile>,
    /// Of each splitter, by its number, its chains.
    pub joints: Vec<Joint>,
    /// How many chains there are.
    pub chains: usize,
    pub tier: Tier,
}

/// Two chains, with one more in the first place that is free. A third one takes the second's place.
fn with(chains: (Option<Chain>, Option<Chain>), chain: Chain) -> (Option<Chain>, Option<Chain>) {
    match chains.0 {
        None => (Some(chain), None),
        Some(_) => (chains.0, Some(chain)),
    }
}

/// The direction from a splitter's lesser half to its greater one.
pub fn aside(dir: Dir) -> Dir {
    match dir {
        Dir::North | Dir::South => Dir::East,
        Dir::East | Dir::West => Dir::South,
    }
}

impl Board {
    /// A rectangle without parts.
    pub fn bare(
        alloc: Global,
        width: usize,
        height: usize,
        tier: Tier,
    ) -> Result<Board, AllocError> {
        Ok(Board {
            width,
            height,
            tiles: vec![in alloc; BARE; width.saturating_mul(height)]?,
            joints: Vec::new(alloc),
            chains: 0,
            tier,
        })
    }

    /// The rectangle with the parts of a plan, and their chains.
    pub fn of(alloc: Global, rect: Rect, tier: Tier, plan: &Plan) -> Result<Board, AllocError> {
        let mut board = Board::bare(alloc, rect.width as usize, rect.height as usize, tier)?;
        let none = Joint {
            comes: (None, None),
            goes: (None, None),
        };
        board.joints = vec![in alloc; none; plan.splitters.len()]?;
        for part in &plan.others {
            board.put_piece(part.cell, Piece::of(part), None);
        }
        for (number, part) in &plan.splitters {
            board.put_piece(part.cell, Piece::of(part), Some(*number));
            let other = part.cell.next(aside(part.dir));
            board.put_piece(other, Piece::Greater(part.dir), Some(*number));
        }
        board.trace();
        Ok(board)
    }

    /// The place of a cell, where it lies in the rectangle.
    fn place_of(&self, cell: Cell) -> Option<usize> {
        let (x, y) = (usize::try_from(cell.x).ok()?, usize::try_from(cell.y).ok()?);
        if x < self.width && y < self.height {
            Some(y.saturating_mul(self.width).saturating_add(x))
        } else {
            None
        }
    }

    /// Puts a piece on a cell, with the number of its splitter where it is half of one. Does nothing where the cell
    /// lies outside.
    fn put_piece(&mut self, cell: Cell, piece: Piece, splitter: Option<usize>) {
        if let Some(place) = self.place_of(cell) {
            if let Some(tile) = self.tiles.get_mut(place) {
                tile.piece = piece;
                tile.splitter = splitter;
            }
        }
    }

    /// The tile at a place; a bare one where there is none.
    pub fn tile(&self, place: usize) -> Tile {
        self.tiles.get(place).copied().unwrap_or(BARE)
    }

    /// How far to the east and to the south a place lies.
    pub fn spot(&self, place: usize) -> (usize, usize) {
        let width = self.width.max(1);
        (place % width, place / width)
    }

    /// The place of a spot.
    pub fn place(&self, x: usize, y: usize) -> usize {
        y.saturating_mul(self.width).saturating_add(x)
    }

    /// The place of the neighbour in a direction; none where that lies outside.
    pub fn ahead(&self, place: usize, dir: Dir) -> Option<usize> {
        let (x, y) = self.spot(place);
        match dir {
            Dir::North if y > 0 => place.checked_sub(self.width),
            Dir::East if x.saturating_add(1) < self.width => Some(place.saturating_add(1)),
            Dir::South if y.saturating_add(1) < self.height => Some(place.saturating_add(
                self.width,
            )),
            Dir::West if x > 0 => place.checked_sub(1),
            _ => None,
        }
    }

    /// The greatest distance from an entrance to its exit.
    pub fn most_apart(&self) -> usize {
        (self.tier.reach() as usize).saturating_add(1)
    }

    /// How many cells aren't empty.
    pub fn filled(&self) -> usize {
        let mut filled = 0usize;
        for tile in &self.tiles {
            if tile.piece != Piece::Empty {
                filled = filled.saturating_add(1);
            }
        }
        filled
    }

    /// Notes for each cell the direction in which its piece takes what a neighbour hands on.
    fn feed(&mut self) {
        for place in 0..self.tiles.len() {
            if let Some(dir) = self.tile(place).piece.hands() {
                if let Some(next) = self.ahead(place, dir) {
                    if let Some(tile) = self.tiles.get_mut(next) {
                        if tile.piece.takes(dir) {
                            tile.from = Some(dir);
                        }
                    }
                }
            }
        }
    }

    /// Whether a chain begins at a place: at a belt or an entrance that nothing feeds, or at a half of a splitter in
    /// front of which something takes.
    fn begins(&self, place: usize) -> bool {
        let tile = self.tile(place);
        match tile.piece {
            Piece::Belt(_) | Piece::Entrance(_) => tile.from.is_none(),
            Piece::Lesser(dir) | Piece::Greater(dir) => self.taker(place, dir).is_some(),
            Piece::Empty | Piece::Exit(_) => false,
        }
    }

    /// Notes all chains.
    fn trace(&mut self) {
        self.feed();
        for place in 0..self.tiles.len() {
            if self.begins(place) {
                self.begin(place);
            }
        }
    }

    /// Notes the chain that begins at a place.
    fn begin(&mut self, place: usize) {
        let chain = self.chains;
        self.chains = chain.saturating_add(1);
        let tile = self.tile(place);
        match tile.splitter {
            Some(splitter) => {
                if let Some(joint) = self.joints.get_mut(splitter) {
                    joint.goes = with(joint.goes, chain);
                }
            }
            None => {
                if let Some(tile) = self.tiles.get_mut(place) {
                    tile.is_end = true;
                }
            }
        }
        let mut at = place;
        for _ in 0..self.tiles.len() {
            match self.follow(at, chain) {
                Some(next) => at = next,
                None => break,
            }
        }
    }

    /// Notes that a chain leaves a place. The place where it leaves next.
    fn follow(&mut self, place: usize, chain: Chain) -> Option<usize> {
        let tile = self.tiles.get_mut(place)?;
        tile.goes = Some(chain);
        match tile.piece {
            Piece::Entrance(dir) => self.dive(place, dir, chain),
            piece => self.pass(place, piece.hands()?, chain),
        }
    }

    /// Notes that a chain passes on to the neighbour in a direction, or ends here where that doesn't take it. The place
    /// where it leaves next; none where it ends or comes to a splitter.
    fn pass(&mut self, place: usize, dir: Dir, chain: Chain) -> Option<usize> {
        let Some(next) = self.taker(place, dir) else {
            if let Some(tile) = self.tiles.get_mut(place) {
                tile.is_end = true;
            }
            return None;
        };
        let tile = self.tiles.get_mut(next)?;
        tile.comes = Some(chain);
        match tile.splitter {
            Some(splitter) => {
                let joint = self.joints.get_mut(splitter)?;
                joint.comes = with(joint.comes, chain);
                None
            }
            None => Some(next),
        }
    }

    /// The place of the neighbour in a direction, where it takes what comes from here.
    fn taker(&self, place: usize, dir: Dir) -> Option<usize> {
        let next = self.ahead(place, dir)?;
        if self.tile(next).piece.takes(dir) {
            Some(next)
        } else {
            None
        }
    }

    /// Has belts that look in `dir` go on from an end in the direction `way`, to the border or the first cell that
    /// isn't empty.
    fn lead(&mut self, place: usize, way: Dir, dir: Dir) {
        let mut at = place;
        for _ in 0..self.tiles.len() {
            let Some(next) = self.ahead(at, way) else {
                break;
            };
            match self.tiles.get_mut(next) {
                Some(tile) if tile.piece == Piece::Empty => tile.piece = Piece::Belt(dir),
                _ => break,
            }
            at = next;
        }
    }

    /// Has belts lead on from all ends to the border, as far as cells are empty.
    pub fn lead_out(&mut self) {
        for place in 0..self.tiles.len() {
            let tile = self.tile(place);
            match (tile.piece, tile.from) {
                (Piece::Belt(dir), None) | (Piece::Entrance(dir), None) if tile.is_end => {
                    self.lead(place, dir.opposite(), dir);
                }
                _ => {}
            }
            if let Some(dir) = tile.piece.hands() {
                if tile.is_end {
                    self.lead(place, dir, dir);
                }
            }
        }
    }

    /// Notes that a chain goes down at a place. The place of its exit; none where none is in reach.
    fn dive(&mut self, place: usize, dir: Dir, chain: Chain) -> Option<usize> {
        let mut at = place;
        for _ in 0..self.most_apart() {
            at = self.ahead(at, dir)?;
            let tile = self.tiles.get_mut(at)?;
            tile.below.put(dir, Some(chain));
            if tile.piece == Piece::Exit(dir) {
                return Some(at);
            }
        }
        None
    }

    /// Whether what leaves a place in a direction, above or below the ground, isn't what comes to its neighbour there.
    /// Over the border only an end may leave, and nothing comes.
    pub fn is_apart(&self, place: usize, dir: Dir) -> bool {
        let tile = self.tile(place);
        match self.ahead(place, dir) {
            Some(next) => {
                let other = self.tile(next);
                let faces = tile.piece.hands() == Some(dir) && tile.goes.is_none();
                tile.out(dir) != other.into(dir)
                    || tile.down(dir) != other.below.get(dir)
                    || faces && other.piece.takes(dir)
            }
            None => {
                let back = dir.opposite();
                tile.out(dir).is_some() && !tile.is_end
                    || tile.down(dir).is_some()
                    || tile.into(back).is_some()
                    || tile.below.get(back).is_some()
            }
        }
    }

    /// Whether a half of a splitter stands at a place without its other half.
    pub fn is_torn(&self, place: usize) -> bool {
        let tile = self.tile(place);
        let (dir, wanted) = match tile.piece {
            Piece::Lesser(dir) => (aside(dir), Piece::Greater(dir)),
            Piece::Greater(dir) => (aside(dir).opposite(), Piece::Lesser(dir)),
            _ => return false,
        };
        match self.ahead(place, dir) {
            Some(next) => {
                let other = self.tile(next);
                other.piece != wanted || other.splitter != tile.splitter
            }
            None => true,
        }
    }

    /// For each place whether its cell doesn't fit its neighbours: what leads from one to the other breaks off, or a
    /// splitter lacks a half.
    pub fn damage(&self, alloc: Global) -> Result<Vec<bool>, AllocError> {
        let mut damaged = vec![in alloc; false; self.tiles.len()]?;
        for place in 0..self.tiles.len() {
            if self.is_torn(place) {
                mark(&mut damaged, Some(place));
            }
            for dir in &DIRS {
                if self.is_apart(place, *dir) {
                    mark(&mut damaged, Some(place));
                    mark(&mut damaged, self.ahead(place, *dir));
                }
            }
        }
        Ok(damaged)
    }

    /// The parts, with the numbers of splitters.
    pub fn plan(&self, alloc: Global) -> Result<Plan, AllocError> {
        let mut plan = Plan {
            splitters: Vec::new(alloc),
            others: Vec::new(alloc),
        };
        for place in 0..self.tiles.len() {
            self.add_part(&mut plan, place)?;
        }
        Ok(plan)
    }

    /// Adds the part at a place.
    fn add_part(&self, plan: &mut Plan, place: usize) -> Result<(), AllocError> {
        let tile = self.tile(place);
        let Some((kind, dir)) = tile.piece.kind() else {
            return Ok(());
        };
        let (x, y) = self.spot(place);
        let cell = Cell {
            x: i32::try_from(x).unwrap_or(0),
            y: i32::try_from(y).unwrap_or(0),
        };
        let part = Part {
            kind,
            tier: self.tier,
            dir,
            cell,
        };
        match tile.splitter {
            Some(number) if kind == Kind::Splitter => plan.splitters.push((number, part))?,
            _ => plan.others.push(part)?,
        }
        Ok(())
    }
}

/// Marks a place, where one is named.
pub fn mark(marks: &mut [bool], place: Option<usize>) {
    if let Some(place) = place {
        if let Some(mark) = marks.get_mut(place) {
            *mark = true;
        }
    }
}
