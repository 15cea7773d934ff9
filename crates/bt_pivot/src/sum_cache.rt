//! The sums of classes' lines that are kept from pivot to pivot. The rule of what leaves asks where each bound row
//! stands, and a pivot changes a third of the lines only: a sum is carried to the line that it makes in place of a walk
//! over that.
ghost use Rattle.std.specs.Prelude.{◌≡◌, ◌<◌, ◌^◌, IfOk, IfSome, IsTrue, None, Some, false, replicate, slice_index_or};
ghost use Rattle.bt_pivot.specs.SolvedForms.{Slots, slot_at};
ghost use Rattle.bt_pivot.specs.Points.{resting, standing, IsSamePoint};
ghost use Rattle.bt_pivot.specs.inner.Carrying.{IsCarriedOf};
ghost use Rattle.bt_pivot.specs.Sums.{AreKept, AreClassSums, delta_of};
ghost use Rattle.bt_pivot.specs.inner.SumCache.{IsFormed, Carries, Forgets, Keeps, IsOwn, OwnsAt, AreOwn};

use crate::basis::Member;
use crate::short_points::{ClassSums, Sums, carried, short_sums};
use crate::table::Table;
use bt_linear_forms::{Line, Scales};
use std::alloc::{AllocError, Global};

/// For each class the sums of its line, where these are at hand.
#[derive(Drop)]
pub struct SumCache {
    pub(crate) sums: Vec<Option<ClassSums>>,
}

impl SumCache {
    /// No sums and no memory.
    pub(crate) fn none(alloc: Global) -> SumCache {
        SumCache {
            sums: Vec::new(alloc),
        }
    }

    /// Drops all sums, and has places for those of `classes` classes.
    pub fn restart(&mut self, classes: usize) -> Result<(), AllocError>
        ensures { IfOk result (λ _. self.new.sums.items ≡ replicate classes None) }
    {
        self.sums.clear();
        self.sums.reserve(classes)?;
        for _ in 0..classes {
            self.sums.push(None)?;
        }
        Ok(())
    }

    /// The sums that are kept of a class. None where none are.
    fn at(&self, class: usize) -> Option<ClassSums>
        ensures { result ≡ slice_index_or self.now.sums.items class None }
    {
        if class < self.sums.len() {
            self.sums[class]
        } else {
            None
        }
    }

    /// The sums of a class, where they are kept for this first position. None elsewhere.
    fn found(&self, class: usize, first: usize) -> Option<ClassSums>
        ensures { IfSome result
            (λ k. (slice_index_or self.now.sums.items class None ≡ Some k) × (k.first ≡ first)) }
    {
        let sums = self.at(class)?;
        if sums.first == first {
            Some(sums)
        } else {
            None
        }
    }

    /// Keeps the sums of a class. Does nothing where the class has no place.
    fn keep(&mut self, class: usize, sums: ClassSums)
        ensures { Keeps sums self.old.sums.items self.new.sums.items }
    {
        if class < self.sums.len() {
            self.sums[class] = Some(sums);
        }
    }

    /// Drops the sums of a class, where there are some.
    pub(crate) fn forget(&mut self, class: usize)
        ensures { Forgets class self.old.sums.items self.new.sums.items }
    {
        if class < self.sums.len() {
            self.sums[class] = None;
        }
    }

    /// Keeps the sums of a class to whose line a number times another is added, by those before, those of the other
    /// line and the scales of both. Drops them where one of these isn't at hand, or a sum leaves 64 bits.
    pub(crate) fn carry(&mut self, class: usize, others: Option<Sums>, scales: &Scales)
        ensures { Carries class others scales.now self.old.sums.items self.new.sums.items }
    {
        if class < self.sums.len() {
            self.sums[class] = carried_of(self.sums[class], others, scales);
        }
    }

    /// Drops the sums of each class that are kept for a position that isn't a member of the class with the sign of its
    /// first position.
    pub(crate) fn own(&mut self, members: &[Member])
        ensures { AreOwn members.now self.old.sums.items self.new.sums.items }
    {
        for class in 0..self.sums.len() {
            self.own_at(members, class);
        }
    }

    /// Drops the sums of one class, where they are kept for a position that isn't a member of the class with the sign
    /// of its first position.
    fn own_at(&mut self, members: &[Member], class: usize)
        ensures { OwnsAt members.now class self.old.sums.items self.new.sums.items }
    {
        if is_own(members, class, self.at(class)) {
            return;
        }
        self.forget(class);
    }
}

/// The sums of a class with those of another line added by the scales of both. None where either are lacking, or a sum
/// leaves 64 bits.
fn carried_of(sums: Option<ClassSums>, others: Option<Sums>, scales: &Scales) -> Option<ClassSums>
    ensures { IfSome result (IsCarriedOf sums others scales.now) }
{
    let before = sums?;
    let other = others?;
    let first = before.first;
    let sums = carried(before.sums, other, scales)?;
    Some(ClassSums { first, sums })
}

/// The sums of a line where its positions rest. None where small whole numbers don't tell them.
pub fn sums_of(tableau: &Table, line: &Line) -> Option<Sums>
    ensures fits { IfSome result (λ s. s.under < 2 ^ 31) }
    ensures same { IfSome result
        (λ s. IsSamePoint (delta_of s) (standing (resting tableau.now) 0 (Some line.now))) }
{
    let short = line.short()?;
    short_sums(tableau, short)
}

/// Whether the sums of a class are kept for a member of it with the sign of its first position. True where there are
/// none.
fn is_own(members: &[Member], class: usize, sums: Option<ClassSums>) -> bool
    ensures { IsTrue result → IfSome sums (IsOwn members.now class) }
{
    match sums {
        Some(sums) => sums.first < members.len() && is_first(members[sums.first], class),
        None => true,
    }
}

/// Whether a member is one of this class with the sign of its first position.
fn is_first(member: Member, class: usize) -> bool
    ensures { IsTrue result → member ≡ record { class = class; negated = false } }
{
    member.class == class && !member.negated
}

/// The sums of the line of a class, by its first position: those that are kept, or else they are formed and
/// kept. None where whole numbers don't tell them.
pub fn class_sums(
    tableau: &Table,
    kept: &mut SumCache,
    class: usize,
    first: usize,
    line: &Line,
) -> Option<ClassSums>
    ensures kept { (slots : Slots) → slot_at slots first ≡ Some line.now
        → AreKept tableau.now slots kept.old.sums.items → AreKept tableau.now slots kept.new.sums.items }
    ensures sums { (slots : Slots) → slot_at slots first ≡ Some line.now
        → AreKept tableau.now slots kept.old.sums.items
        → IfSome result (λ k. (k.first ≡ first) × AreClassSums tableau.now slots k) }
{
    if let Some(sums) = kept.found(class, first) {
        return Some(sums);
    }
    let formed = formed(tableau, first, line)?;
    kept.keep(class, formed);
    Some(formed)
}

/// The sums of a class by the line of its first position. None where small whole numbers don't tell them.
fn formed(tableau: &Table, first: usize, line: &Line) -> Option<ClassSums>
    ensures { IfSome result (IsFormed tableau.now first line.now) }
{
    let sums = sums_of(tableau, line)?;
    Some(ClassSums { first, sums })
}
