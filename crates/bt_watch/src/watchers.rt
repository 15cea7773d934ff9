//! For each literal, the kept clauses that watch it.
ghost use Rattle.std.specs.Prelude.{◌≡◌, ◌<◌, ◌*◌, length, IfOk, OnOk};
ghost use Rattle.bt_cnf.specs.Codes.{code_of};
ghost use Rattle.bt_watch.specs.inner.Loads.{AreEmptyLists, AreUnwatched};
ghost use Rattle.bt_watch.specs.inner.Watchers.{lists_of, with_list, Watches};
ghost use Rattle.bt_watch.specs.Watchers.{watches_of};

use crate::clause_pool::Watch;
use bt_cnf::{Lit, Packed, Var};
use std::alloc::{AllocError, Global};
use std::marker::Model;
use std::mem::replace;

/// For each literal, how many clauses are going to watch it, so that its list gets its room at once and isn't copied as
/// it grows.
#[derive(Drop)]
pub struct Counts {
    positives: Vec<usize>,
    negatives: Vec<usize>,
}

impl Counts {
    /// Counts of zero for the literals of so many variables.
    pub fn new(alloc: Global, vars: usize) -> Result<Counts, AllocError> {
        Ok(Counts {
            positives: vec![in alloc; 0; vars]?,
            negatives: vec![in alloc; 0; vars]?,
        })
    }

    /// Counts one more clause that is going to watch a literal.
    pub fn add(&mut self, lit: &Lit) {
        if lit.positive {
            add_one(&mut self.positives, lit.var);
        } else {
            add_one(&mut self.negatives, lit.var);
        }
    }
}

/// Counts one more for a variable. One beyond the counts is passed over.
fn add_one(counts: &mut [usize], var: Var) {
    let place = var.place();
    if place < counts.len() {
        counts[place] = counts[place].saturating_add(1);
    }
}

/// For each literal, the kept clauses that watch it, in no order.
#[derive(Drop)]
pub struct Watchers {
    /// The lists of a variable's positive and of its negative literal stand side by side, since propagation
    /// comes to variables in no order.
    lists: Vec<Vec<Watch>>,
}

impl Model for Watchers {
    ghost use Rattle.bt_watch.specs.inner.Watchers.{lists_of};
    ghost use Rattle.bt_watch.specs.WatchersParts.{WatchersParts};

    ghost Value = { WatchersParts };

    ghost view = { λ w. record { lists = lists_of w.lists } };
}

/// Empty lists for the literals of so many variables, each with room for as many clauses as are counted.
fn empty_lists(alloc: Global, vars: usize, counts: &Counts) -> Result<Vec<Vec<Watch>>, AllocError>
    ensures { IfOk result (λ lists. AreEmptyLists (2 * vars) (lists_of lists)) }
{
    let mut lists = Vec::new(alloc);
    for var in 0..vars {
        lists.push(Vec::with_capacity(alloc, count_at(&counts.positives, var))?)?;
        lists.push(Vec::with_capacity(alloc, count_at(&counts.negatives, var))?)?;
    }
    Ok(lists)
}

/// The count at a place, or 0 where there is none.
fn count_at(counts: &[usize], place: usize) -> usize {
    counts.get(place).copied().unwrap_or(0)
}

impl Watchers {
    /// Lists for so many variables, whose literals no clause watches yet.
    pub fn new(alloc: Global, vars: usize, counts: &Counts) -> Result<Watchers, AllocError>
        ensures { IfOk result (λ w. AreUnwatched vars w) }
    {
        Ok(Watchers {
            lists: empty_lists(alloc, vars, counts)?,
        })
    }

    /// Lets a clause watch a literal: it is appended to the literal's list.
    pub fn watch(&mut self, lit: &Packed, watch: Watch) -> Result<(), AllocError>
        requires { code_of lit.now < length self.old.lists }
        ensures { OnOk result (Watches self.old self.new lit.now watch) }
    {
        self.lists[lit.number()].push(watch)?;
        Ok(())
    }

    /// Puts a list in the place of a literal's list, and gives that one.
    pub fn replace(&mut self, lit: &Packed, list: Vec<Watch>) -> Vec<Watch>
        requires { code_of lit.now < length self.old.lists }
        ensures taken { result.items ≡ watches_of self.old lit.now }
        ensures put { self.new ≡ with_list self.old lit.now list.items }
    {
        replace(&mut self.lists[lit.number()], list)
    }
}
