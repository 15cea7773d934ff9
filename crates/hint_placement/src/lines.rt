//! Rows of splitters, in a rectangle that is seen in one of four directions.
use crate::ordering::Rows;
use bt_parts::{Cell, Dir, Rect};
use hint_routing::is_upright;
use std::alloc::{AllocError, Global};

/// A rectangle that is seen in a direction: its lines lie across it, the first of them the furthest.
#[derive(Clone, Copy)]
pub struct View {
    pub rect: Rect,
    pub dir: Dir,
}

/// The last of so many, from 0 on.
fn last(count: u32) -> usize {
    (count as usize).saturating_sub(1)
}

/// The cell so many steps from the north-western corner to the east and to the south.
fn cell_at(x: usize, y: usize) -> Cell {
    let mut cell = Cell { x: 0, y: 0 };
    for _ in 0..x {
        cell = cell.next(Dir::East);
    }
    for _ in 0..y {
        cell = cell.next(Dir::South);
    }
    cell
}

impl View {
    /// How many cells a line has.
    pub fn across(&self) -> usize {
        if is_upright(self.dir) {
            self.rect.width as usize
        } else {
            self.rect.height as usize
        }
    }

    /// How many lines there are.
    pub fn along(&self) -> usize {
        if is_upright(self.dir) {
            self.rect.height as usize
        } else {
            self.rect.width as usize
        }
    }

    /// The cell at a place of a line: places count from the west or the north on, lines from the furthest on, both from
    /// 0.
    pub fn cell(&self, place: usize, line: usize) -> Cell {
        match self.dir {
            Dir::North => cell_at(place, line),
            Dir::South => cell_at(place, last(self.rect.height).saturating_sub(line)),
            Dir::East => cell_at(last(self.rect.width).saturating_sub(line), place),
            Dir::West => cell_at(line, place),
        }
    }

    /// The line on which the splitters of one of so many rows stand: the rows are spread evenly from the first line to
    /// the last, with a line for belts before and behind all of them where there is room. A row alone is in the middle.
    pub fn line_of(&self, row: usize, rows: usize) -> usize {
        let along = self.along();
        if rows < 2 {
            return along / 2;
        }
        let gaps = rows.saturating_sub(1);
        let is_tight = rows > along.saturating_sub(2);
        let first = if is_tight { 0 } else { 1 };
        let span = along.saturating_sub(if is_tight { 1 } else { 3 });
        // The nearest line to first + span * row / gaps.
        let double = span.saturating_mul(row).saturating_mul(2);
        first + double.saturating_add(gaps) / gaps.saturating_mul(2).max(1)
    }
}

/// Adds the splitters of a row as rows of at most so many, as even as can be.
fn push_split(
    alloc: Global,
    split: &mut Rows,
    row: &[usize],
    most: usize,
) -> Result<(), AllocError> {
    let parts = row.len().saturating_add(most).saturating_sub(1) / most.max(1);
    let each = row.len().saturating_add(parts).saturating_sub(1) / parts.max(1);
    let mut part = Vec::new(alloc);
    for splitter in row {
        part.push(*splitter)?;
        if part.len() >= each {
            split.push(part)?;
            part = Vec::new(alloc);
        }
    }
    if !part.is_empty() {
        split.push(part)?;
    }
    Ok(())
}

/// The rows, of which those with more than so many splitters are split.
pub fn split_rows(alloc: Global, rows: &Rows, most: usize) -> Result<Rows, AllocError> {
    let mut split = Vec::new(alloc);
    for row in rows {
        push_split(alloc, &mut split, row, most)?;
    }
    Ok(split)
}
