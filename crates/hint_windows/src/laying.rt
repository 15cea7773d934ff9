//! Laying a window anew.
use crate::rules::{Draft, Scene, draft_of};
use crate::window::{Fact, Term, Window};
use bt_parts::{DIRS, Dir};
use bt_random::Random;
use hint_boards::{BARE, Board, Chain, Piece, Tile, aside};
use hint_solver::{Answer, Literal};
use std::alloc::{AllocError, Global};

/// How many variables' scores are raised by chance before a trial, so that trials come to different tiles.
const RAISED: usize = 40;

/// How a chain passes a place.
#[derive(Clone, Copy)]
enum Way {
    /// It leaves there.
    Leaves,
    /// It comes there above the ground.
    Comes,
    /// It moves from there to the neighbour in a direction below the ground.
    Below(Dir),
}

impl Way {
    /// That a chain passes a place so.
    fn fact(self, place: usize, chain: Chain) -> Fact {
        match self {
            Way::Leaves => Fact::Leaves(place, chain),
            Way::Comes => Fact::Comes(place, chain),
            Way::Below(dir) => Fact::Below(place, dir, chain),
        }
    }
}

/// Reads what was found for a window.
#[derive(Clone, Copy)]
struct Reading<'a> {
    board: &'a Board,
    window: &'a Window,
    draft: &'a Draft,
}

impl Reading<'_> {
    /// Whether a fact is so: on the board where it is known there, else in what the solver found.
    fn has(self, fact: Fact) -> bool {
        match self.window.term(self.board, fact) {
            Term::Known(known) => known,
            Term::Open(literal) => self.draft.solver.is_true(literal),
        }
    }

    /// What stands at a place.
    fn piece(self, place: usize) -> Piece {
        for dir in &DIRS {
            for piece in &[
                Piece::Belt(*dir),
                Piece::Entrance(*dir),
                Piece::Exit(*dir),
                Piece::Lesser(*dir),
                Piece::Greater(*dir),
            ] {
                if self.has(Fact::Stands(place, *piece)) {
                    return *piece;
                }
            }
        }
        Piece::Empty
    }

    /// The chain that leaves the place where this piece stands. None where the piece would hand on to a neighbour, but
    /// nothing goes there.
    fn goes(self, place: usize, piece: Piece) -> Option<Chain> {
        if let Some(dir) = piece.hands() {
            if !self.has(Fact::Goes(place, dir)) {
                return None;
            }
        }
        self.first(place, Way::Leaves)
    }

    /// The first chain of the window that passes a place in this way; none where none does.
    fn first(self, place: usize, way: Way) -> Option<Chain> {
        for chain in &self.window.chains {
            if self.has(way.fact(place, *chain)) {
                return Some(*chain);
            }
        }
        None
    }

    /// Whether something comes to a place above the ground in a direction; nothing comes from outside the board.
    fn comes(self, place: usize, dir: Dir) -> bool {
        match self.board.ahead(place, dir.opposite()) {
            Some(behind) => self.has(Fact::Goes(behind, dir)),
            None => false,
        }
    }

    /// The number of the splitter that has this piece, at a place, as a half. None where it is no half, or no splitter
    /// of the window stands so.
    fn splitter(self, place: usize, piece: Piece) -> Option<usize> {
        let (place, dir) = match piece {
            Piece::Lesser(dir) => (place, dir),
            Piece::Greater(dir) => {
                let back = aside(dir).opposite();
                (self.board.ahead(place, back)?, dir)
            }
            _ => return None,
        };
        for splitter in &self.window.splitters {
            if self.has(Fact::At(*splitter, place, dir)) {
                return Some(*splitter);
            }
        }
        None
    }

    /// The tile at a place, as the solver found it.
    fn tile(self, place: usize) -> Tile {
        let piece = self.piece(place);
        let mut tile = Tile { piece, ..BARE };
        if piece != Piece::Empty {
            tile.goes = self.goes(place, piece);
            tile.comes = self.first(place, Way::Comes);
            tile.splitter = self.splitter(place, piece);
        }
        for dir in &DIRS {
            if self.comes(place, *dir) {
                tile.from = Some(*dir);
            }
            if let Some(behind) = self.board.ahead(place, dir.opposite()) {
                tile.below.put(*dir, self.first(behind, Way::Below(*dir)));
            }
        }
        if tile.from.is_none() {
            tile.comes = None;
        }
        tile
    }
}

/// A window with its clauses.
#[derive(Drop)]
pub struct Trial {
    window: Window,
    draft: Draft,
}

impl Trial {
    /// The window of a board's marked cells, with its clauses. None where it has no cells or more than `most`, or where
    /// its clauses contradict each other at once.
    pub fn new(
        alloc: Global,
        board: &Board,
        marks: &[bool],
        most: usize,
    ) -> Result<Option<Trial>, AllocError> {
        let window = Window::new(alloc, board, marks)?;
        if window.cells.is_empty() || window.cells.len() > most {
            return Ok(None);
        }
        let scene = Scene {
            board,
            window: &window,
        };
        let mut draft = draft_of(alloc, scene)?;
        if !draft.solver.grant(alloc, &[])? {
            return Ok(None);
        }
        Ok(Some(Trial { window, draft }))
    }

    /// The cells of the window.
    pub fn cells(&self) -> &[usize] {
        &self.window.cells
    }

    /// How many conflicts the solver has met in all trials of this window.
    pub fn conflicts(&self) -> u64 {
        self.draft.solver.conflicts()
    }

    /// Searches for tiles of the window's cells, in their order, with at most so many conflicts. Each piece of `wanted`
    /// stands at its place where the third is true, or else doesn't. None where no tiles are found.
    pub fn tiles(
        &mut self,
        alloc: Global,
        board: &Board,
        wanted: &[(usize, Piece, bool)],
        conflicts: u64,
        random: &mut Random,
    ) -> Result<Option<Vec<Tile>>, AllocError> {
        let mut literals: Vec<Literal> = Vec::new(alloc);
        for (place, piece, holds) in wanted {
            if let Term::Open(literal) = self.window.term(board, Fact::Stands(*place, *piece)) {
                literals.push(if *holds { literal } else { literal.negated() })?;
            }
        }
        let answer = self
            .draft
            .solver
            .attempt(alloc, &literals, conflicts, RAISED, random)?;
        if answer != Answer::Found {
            return Ok(None);
        }
        Ok(Some(tiles_of(alloc, board, &self.window, &self.draft)?))
    }
}

/// The tiles of a window's cells, in their order, as the solver found them.
fn tiles_of(
    alloc: Global,
    board: &Board,
    window: &Window,
    draft: &Draft,
) -> Result<Vec<Tile>, AllocError> {
    let reading = Reading {
        board,
        window,
        draft,
    };
    let mut tiles = Vec::new(alloc);
    for place in &window.cells {
        tiles.push(reading.tile(*place))?;
    }
    Ok(tiles)
}

/// Puts these tiles on these cells of a board, in the same order.
pub fn put_tiles(board: &mut Board, cells: &[usize], tiles: &[Tile]) {
    for (place, tile) in cells.iter().zip(tiles.iter()) {
        if let Some(old) = board.tiles.get_mut(*place) {
            *old = *tile;
        }
    }
}

/// How many of the tiles aren't empty.
pub fn filled(tiles: &[Tile]) -> usize {
    let mut filled = 0usize;
    for tile in tiles {
        if tile.piece != Piece::Empty {
            filled = filled.saturating_add(1);
        }
    }
    filled
}
