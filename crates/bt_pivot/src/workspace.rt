//! Memory that checks use again: a check copies a tableau's lines into the memory of lines that an earlier one
//! left, so that a pivot asks for memory only until its lines have their room.
ghost use Rattle.std.specs.Prelude.{◌≡◌, [], IfOk};

use crate::basis::Basis;
use crate::sum_cache::SumCache;
use bt_linear_forms::{Line, Room};
use std::alloc::{AllocError, Global};

/// Memory for lines.
#[derive(Drop)]
pub struct Rooms {
    rooms: Vec<Room>,
}

impl Rooms {
    /// No memory.
    pub(crate) fn none(alloc: Global) -> Rooms {
        Rooms {
            rooms: Vec::new(alloc),
        }
    }

    /// The room of a line, or an empty one where none is left.
    pub(crate) fn taken(&mut self, alloc: Global) -> Room {
        match self.rooms.pop() {
            Some(room) => room,
            None => Vec::new(alloc),
        }
    }

    /// Keeps the room of a line that is needed no more, where there is memory to note it. A line of fractions has none
    /// to keep.
    pub(crate) fn give(&mut self, slot: Option<Line>) {
        let Some(line) = slot else {
            return;
        };
        if let Some(room) = line.into_room() {
            self.keep(room);
        }
    }

    /// Keeps a room, where there is memory to note it.
    pub(crate) fn keep(&mut self, room: Room) {
        match self.rooms.push(room) {
            Ok(()) | Err(_) => {}
        }
    }
}

/// A basis, with memory for the lines of further ones and for their sums.
#[derive(Drop)]
pub struct Workspace {
    pub basis: Basis,
    pub rooms: Rooms,
    pub kept: SumCache,
}

impl Workspace {
    /// No positions and no memory.
    pub fn none(alloc: Global) -> Workspace
        ensures { result.basis ≡ [] }
    {
        Workspace {
            basis: Basis::empty(alloc),
            rooms: Rooms::none(alloc),
            kept: SumCache::none(alloc),
        }
    }

    /// A workspace whose basis has the same slots as this one, in the memory of `self`. The sums stay those of `self`,
    /// so they are to be started anew.
    pub fn copy_of(self, alloc: Global, basis: &Basis) -> Result<Workspace, AllocError>
        ensures { IfOk result (λ copy. copy.basis ≡ basis.now) }
    {
        let Workspace {
            basis: old,
            rooms,
            kept,
        } = self;
        let mut rooms = rooms;
        let basis = copied_in(alloc, old, basis, &mut rooms)?;
        Ok(Workspace { basis, rooms, kept })
    }
}

/// The same slots as those of a basis, in the memory of an old one.
fn copied_in(
    alloc: Global,
    old: Basis,
    basis: &Basis,
    rooms: &mut Rooms,
) -> Result<Basis, AllocError>
    ensures { IfOk result (λ copy. copy ≡ basis.now) }
{
    let Basis {
        members,
        firsts,
        lines,
        outside,
    } = old;
    let lines = copied_lines(alloc, lines, &basis.lines, rooms)?;
    Ok(Basis {
        members: refilled(members, &basis.members)?,
        firsts: refilled(firsts, &basis.firsts)?,
        lines,
        outside: refilled(outside, &basis.outside)?,
    })
}

/// The items, in the memory of an old list.
fn refilled<T: Copy>(old: Vec<T>, items: &[T]) -> Result<Vec<T>, AllocError>
    ensures { IfOk result (λ v. v.items ≡ items.now) }
{
    let mut list = old;
    list.clear();
    list.extend_from_slice(items)?;
    Ok(list)
}

/// The same lines, in the memory of old ones.
fn copied_lines(
    alloc: Global,
    old: Vec<Option<Line>>,
    lines: &[Option<Line>],
    rooms: &mut Rooms,
) -> Result<Vec<Option<Line>>, AllocError>
    ensures { IfOk result (λ v. v.items ≡ lines.now) }
{
    let mut copies = emptied(old, rooms);
    for line in lines {
        let copy = copied_line(alloc, line, rooms)?;
        copies.push(copy)?;
    }
    Ok(copies)
}

/// The list without its lines, whose rooms are kept. The last line's goes first, so that the first one's is
/// at hand first.
fn emptied(old: Vec<Option<Line>>, rooms: &mut Rooms) -> Vec<Option<Line>>
    ensures { result.items ≡ [] }
{
    let mut list = old;
    for _ in 0..list.len() {
        if let Some(slot) = list.pop() {
            rooms.give(slot);
        }
    }
    list.clear();
    list
}

/// The same line, in a room that is kept.
fn copied_line(
    alloc: Global,
    line: &Option<Line>,
    rooms: &mut Rooms,
) -> Result<Option<Line>, AllocError>
    ensures { IfOk result (λ copy. copy ≡ line.now) }
{
    match line {
        Some(line) => {
            let room = rooms.taken(alloc);
            Ok(Some(line.copied_in(alloc, room)?))
        }
        None => Ok(None),
    }
}
