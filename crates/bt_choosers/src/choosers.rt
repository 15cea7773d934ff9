//! Three simple choosers: of the lowest variable, of the highest, and of the last clause.
ghost use Rattle.std.specs.Prelude.{◌≡◌, ◌<◌, Contains, IfNone, IfSome, None, OnOk, Some, length, slice_get};
ghost use Rattle.bt_cnf.specs.Choosing.{Ascends};
ghost use Rattle.bt_choosers.specs.Picks.{PicksHighest, PicksLowest, PicksRecent};
ghost use Rattle.bt_choosers.specs.inner.FirstUnset.{IsFirstUnset};

use bt_cnf::{Chooser, Lit, Pick, Var};
use std::alloc::{AllocError, Global};

/// Picks the lowest unset variable, and sets it to false.
#[derive(Drop)]
pub struct Lowest;

/// Picks the highest unset variable, and sets it to true.
#[derive(Drop)]
pub struct Highest;

/// Picks the first unset variable of the clause that it was told last, else the lowest, and sets it to
/// false.
#[derive(Drop)]
pub struct Recent {
    clause: Vec<Lit>,
}

impl Lowest {
    /// The chooser.
    pub fn new() -> Lowest {
        Lowest
    }
}

impl Highest {
    /// The chooser.
    pub fn new() -> Highest {
        Highest
    }
}

impl Recent {
    /// The chooser, before it was told a clause.
    pub fn new(alloc: Global) -> Result<Recent, AllocError> {
        Ok(Recent {
            clause: Vec::new(alloc),
        })
    }
}

impl Chooser for Lowest {
    ghost told_clauses = { λ _. None };

    ghost may_pick = { λ _. PicksLowest };

    fn pick(&mut self, _unset: &[Var]) -> Pick {
        Pick {
            place: 0,
            positive: false,
        }
    }

    fn told(&mut self, _clause: &[Lit]) -> Result<(), AllocError> {
        Ok(())
    }
}

impl Chooser for Highest {
    ghost told_clauses = { λ _. None };

    ghost may_pick = { λ _. PicksHighest };

    fn pick(&mut self, unset: &[Var]) -> Pick {
        Pick {
            place: unset.len() - 1,
            positive: true,
        }
    }

    fn told(&mut self, _clause: &[Lit]) -> Result<(), AllocError> {
        Ok(())
    }
}

impl Chooser for Recent {
    ghost told_clauses = { λ _. None };

    ghost may_pick = { λ r. PicksRecent r.clause.items };

    fn pick(&mut self, unset: &[Var]) -> Pick
        requires some { 0 < length unset.now }
        requires ascending { Ascends unset.now }
        ensures in_range { result.place < length unset.now }
        ensures picks { PicksRecent self.old.clause.items unset.now result }
        ensures keeps { self.new ≡ self.old }
    {
        Pick {
            place: first_unset(&self.clause, unset),
            positive: false,
        }
    }

    fn told(&mut self, clause: &[Lit]) -> Result<(), AllocError>
        ensures { OnOk result (self.new.clause.items ≡ clause.now) }
    {
        self.clause.clear();
        self.clause.extend_from_slice(clause)?;
        Ok(())
    }
}

/// The place of a variable among unset ones, where it is one of them.
pub fn place_of(unset: &[Var], var: Var) -> Option<usize>
    requires { Ascends unset.now }
    ensures some { IfSome result (λ place. slice_get unset.now place ≡ Some var) }
    ensures none { IfNone result (Contains unset.now var → ⊥) }
{
    let place = unset.partition_point(|other| other.place() < var.place());
    if place < unset.len() && unset[place] == var {
        return Some(place);
    }
    None
}

/// The place among the unset variables of the clause's first variable that is unset; 0 where none is.
fn first_unset(clause: &[Lit], unset: &[Var]) -> usize
    requires some { 0 < length unset.now }
    requires ascending { Ascends unset.now }
    ensures inside { result < length unset.now }
    ensures first { IsFirstUnset clause.now unset.now result }
{
    for lit in clause {
        if let Some(place) = place_of(unset, lit.var) {
            return place;
        }
    }
    0
}
