//! What each cell of a rectangle holds.
use crate::around::{cell_at, cell_of, count, mate, place_of};
use crate::contents::{content_of, is_empty, leads_along, piece_of};
use crate::line::Line;
use bt_facts::{Content, Half, Shape};
use bt_parts::{Cell, Dir, Kind, Part, Rect};
use std::alloc::{AllocError, Global};

/// No pair is longer.
const MOST_APART: usize = 16;

/// What each cell of a rectangle holds, row by row.
#[derive(Drop)]
pub struct Board {
    rect: Rect,
    contents: Vec<Content>,
}

impl Board {
    /// A rectangle without parts.
    pub fn new(alloc: Global, rect: Rect) -> Result<Board, AllocError> {
        Ok(Board {
            rect,
            contents: vec![in alloc; Content::Empty; count(rect)]?,
        })
    }

    /// A rectangle with these parts.
    pub fn of(alloc: Global, rect: Rect, parts: &[Part]) -> Result<Board, AllocError> {
        let mut board = Board::new(alloc, rect)?;
        for part in parts {
            board.place(part);
        }
        board.straighten();
        Ok(board)
    }

    /// Puts down a part.
    fn place(&mut self, part: &Part) {
        self.put(part.cell, content_of(part));
        if part.kind == Kind::Splitter {
            let greater = Content::Turned(Shape::Half(Half::Greater), part.dir);
            self.put(mate(part.cell, part.dir), greater);
        }
    }

    /// The rectangle.
    pub fn rect(&self) -> Rect {
        self.rect
    }

    /// What a cell holds; nothing outside.
    pub fn get(&self, cell: Cell) -> Content {
        let content = match place_of(self.rect, cell) {
            Some(place) => self.contents.get(place),
            None => None,
        };
        match content {
            Some(content) => *content,
            None => Content::Empty,
        }
    }

    /// Has a cell hold this. Does nothing where it lies outside.
    pub fn put(&mut self, cell: Cell, content: Content) {
        if let Some(place) = place_of(self.rect, cell) {
            if let Some(old) = self.contents.get_mut(place) {
                *old = content;
            }
        }
    }

    /// How many cells aren't empty.
    pub fn filled(&self) -> usize {
        let mut filled = 0usize;
        for content in &self.contents {
            if !is_empty(*content) {
                filled = filled.saturating_add(1);
            }
        }
        filled
    }

    /// How many cells of a line hold something but a belt that looks across it.
    pub fn cost(&self, line: Line) -> usize {
        let mut cost = 0usize;
        for place in 0..self.contents.len() {
            let cell = cell_of(self.rect, place);
            let (x, y) = (
                cell.x.unsigned_abs() as usize,
                cell.y.unsigned_abs() as usize,
            );
            let content = self.get(cell);
            if line.coordinate(x, y) == line.number && !leads_along(content, line.axis.across()) {
                cost = cost.saturating_add(1);
            }
        }
        cost
    }

    /// What is left in a lesser rectangle where a line is cut out, with belts for pairs that then pass empty cells
    /// alone.
    pub fn without(&self, alloc: Global, line: Line, rect: Rect) -> Result<Board, AllocError> {
        let mut board = Board::new(alloc, rect)?;
        for place in 0..count(rect) {
            let cell = cell_of(rect, place);
            let (x, y) = (
                cell.x.unsigned_abs() as usize,
                cell.y.unsigned_abs() as usize,
            );
            let (x, y) = line.cell_before(x, y);
            board.put(cell, self.get(cell_at(x, y)));
        }
        board.straighten();
        Ok(board)
    }

    /// The board in another rectangle, whose cells hold what they held, where they were in it.
    pub fn within(&self, alloc: Global, rect: Rect) -> Result<Board, AllocError> {
        let mut board = Board::new(alloc, rect)?;
        for place in 0..count(rect) {
            let cell = cell_of(rect, place);
            board.put(cell, self.get(cell));
        }
        Ok(board)
    }

    /// How far ahead of an entrance the exit of its pair stands; none where a cell between isn't empty, or no exit
    /// comes.
    fn idle_length(&self, entrance: Cell, dir: Dir) -> Option<usize> {
        let mut cell = entrance;
        for length in 1..MOST_APART {
            cell = cell.next(dir);
            match piece_of(self.get(cell)) {
                Some((Kind::Exit, other)) if other == dir => return Some(length),
                None if is_empty(self.get(cell)) => {}
                _ => return None,
            }
        }
        None
    }

    /// Has belts lead from a cell to the one so far ahead.
    fn put_belts(&mut self, from: Cell, dir: Dir, length: usize) {
        let mut cell = from;
        for _ in 0..=length {
            self.put(cell, Content::Turned(Shape::Belt, dir));
            cell = cell.next(dir);
        }
    }

    /// Puts belts in the place of pairs that pass empty cells alone.
    fn straighten(&mut self) {
        for place in 0..self.contents.len() {
            let cell = cell_of(self.rect, place);
            if let Some((Kind::Entrance, dir)) = piece_of(self.get(cell)) {
                if let Some(length) = self.idle_length(cell, dir) {
                    self.put_belts(cell, dir, length);
                }
            }
        }
    }
}
