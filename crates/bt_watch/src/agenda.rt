//! Places of the trail that are to be dealt with, the greatest first.
ghost use Rattle.std.specs.Prelude.{◌≡◌, ◌≤◌, ◌<◌, [], false, length, slice_index_or, IfOk, OnOk, IsTrue, Contains, ◌↔◌};
ghost use Rattle.bt_watch.specs.Agendas.{places_of, Adds, AreBefore, IsGreatest, NoneMarked, Reaches, Takes};

use std::alloc::{AllocError, Global};
use std::marker::Model;

/// Places of the trail. Each has a mark of its own: a conflict takes them from the last one down, so that the
/// walks to the next one pass each mark about once.
#[derive(Drop)]
pub struct Agenda {
    /// For each place, whether it is on the agenda.
    marks: Vec<bool>,
    /// All places on the agenda are before this one.
    end: usize,
}

impl Model for Agenda {
    ghost use Rattle.std.specs.Prelude.{ℕ, List};
    ghost use Rattle.bt_watch.specs.Agendas.{places_of, AreBefore};

    ghost Value = { List ℕ };

    ghost view = { λ a. places_of a.marks.items };

    ghost invariant = { λ a. AreBefore a.marks.items a.end };
}

impl Agenda {
    /// An agenda without places. There is room for the places below `size`; more is made as they are added.
    pub fn new(alloc: Global, size: usize) -> Result<Agenda, AllocError>
        ensures { IfOk result (λ a. a ≡ []) }
    {
        Ok(Agenda {
            marks: vec![in alloc; false; size]?,
            end: 0,
        })
    }

    /// Takes all places off the agenda.
    pub fn clear(&mut self)
        ensures { self.new ≡ [] }
    {
        unmark_all(&mut self.marks);
        self.end = 0;
    }

    /// Puts a place on the agenda.
    pub fn add(&mut self, place: usize) -> Result<(), AllocError>
        ensures { OnOk result (Adds self.old place self.new) }
    {
        mark(&mut self.marks, &mut self.end, place)
    }

    /// Whether a place is on the agenda.
    pub fn has(&self, place: usize) -> bool
        ensures { IsTrue result → Contains self.now place }
    {
        is_marked(&self.marks, place)
    }

    /// The greatest place on the agenda. None where it is empty.
    pub fn greatest(&self) -> Option<usize>
        ensures { IsGreatest self.now result }
    {
        last_marked(&self.marks, self.end)
    }

    /// Whether some place on the agenda is `least` or greater.
    pub fn reaches(&self, least: usize) -> bool
        ensures { IsTrue result ↔ Reaches self.now least }
    {
        match self.greatest() {
            Some(place) => least <= place,
            None => false,
        }
    }

    /// Takes the greatest place off the agenda, and gives it. None where the agenda is empty.
    pub fn take_greatest(&mut self) -> Option<usize>
        ensures { Takes self.old result self.new }
    {
        take_last(&mut self.marks, &mut self.end)
    }
}

/// Marks a place, and moves the end behind it where it lies beyond. The marks grow where they lack the place.
fn mark(marks: &mut Vec<bool>, end: &mut usize, place: usize) -> Result<(), AllocError>
    requires { AreBefore marks.old.items end.old }
    ensures adds { OnOk result (Adds (places_of marks.old.items) place (places_of marks.new.items)) }
    ensures before { AreBefore marks.new.items end.new }
{
    while marks.len() <= place {
        marks.push(false)?;
    }
    marks[place] = true;
    if *end <= place {
        *end = place + 1;
    }
    Ok(())
}

/// Takes the last mark away, gives its place, and moves the end there. None where there is no mark.
fn take_last(marks: &mut [bool], end: &mut usize) -> Option<usize>
    requires { AreBefore marks.old end.old }
    ensures takes { Takes (places_of marks.old) result (places_of marks.new) }
    ensures before { AreBefore marks.new end.new }
{
    match last_marked(marks, *end) {
        Some(place) => {
            marks[place] = false;
            *end = place;
            Some(place)
        }
        None => None,
    }
}

/// Whether a place is marked.
fn is_marked(marks: &[bool], place: usize) -> bool
    ensures { result ≡ slice_index_or marks.now place false }
{
    place < marks.len() && marks[place]
}

/// Takes all marks away.
fn unmark_all(marks: &mut [bool])
    ensures none { NoneMarked marks.new }
    ensures size { length marks.new ≡ length marks.old }
{
    marks.fill(false);
}

/// The last place that is marked, all of which are before the end. None where there is none.
fn last_marked(marks: &[bool], end: usize) -> Option<usize>
    requires { AreBefore marks.now end }
    ensures { IsGreatest (places_of marks.now) result }
{
    let mut place = end;
    while place > 0 {
        place -= 1;
        if marks[place] {
            return Some(place);
        }
    }
    None
}
