//! Poses: chains that come to a cell in a direction. They are numbered in a rectangle with a margin of one cell, over which
//! outputs leave.
use bt_parts::{Cell, DIRS, Dir, Rect};
use std::alloc::{AllocError, Global};

/// A chain that comes to a cell in a direction.
#[derive(Clone, Copy)]
pub struct Pose {
    pub cell: Cell,
    pub dir: Dir,
}

/// How many cells a row of the rectangle has with the margin.
fn across(rect: Rect) -> usize {
    (rect.width as usize).saturating_add(2)
}

/// How many cells there are with the margin.
pub fn cell_count(rect: Rect) -> usize {
    across(rect).saturating_mul((rect.height as usize).saturating_add(2))
}

/// The number of a cell of the rectangle or its margin, row by row from 0 in the north-western corner of the margin.
pub fn cell_number(rect: Rect, cell: Cell) -> usize {
    let row = cell.y.wrapping_add(1).unsigned_abs() as usize;
    let column = cell.x.wrapping_add(1).unsigned_abs() as usize;
    row.saturating_mul(across(rect)).saturating_add(column)
}

/// The place of a direction among the four poses of a cell, from 0 on.
fn dir_number(dir: Dir) -> usize {
    match dir {
        Dir::North => 0,
        Dir::East => 1,
        Dir::South => 2,
        Dir::West => 3,
    }
}

/// The number of a pose: the four of a cell follow one another.
pub fn pose_number(rect: Rect, pose: Pose) -> usize {
    let first = cell_number(rect, pose.cell).saturating_mul(4);
    first.saturating_add(dir_number(pose.dir))
}

/// Adds the poses of a row of so many cells that begins with this one.
fn push_row(poses: &mut Vec<Pose>, first: Cell, count: usize) -> Result<(), AllocError> {
    let mut cell = first;
    for _ in 0..count {
        for dir in &DIRS {
            poses.push(Pose { cell, dir: *dir })?;
        }
        cell = cell.next(Dir::East);
    }
    Ok(())
}

/// All poses of a rectangle and its margin, each at its number.
pub fn poses_of(alloc: Global, rect: Rect) -> Result<Vec<Pose>, AllocError> {
    let mut poses = Vec::new(alloc);
    let mut first = Cell { x: -1, y: -1 };
    for _ in 0..rect.height.saturating_add(2) {
        push_row(&mut poses, first, across(rect))?;
        first = first.next(Dir::South);
    }
    Ok(poses)
}
