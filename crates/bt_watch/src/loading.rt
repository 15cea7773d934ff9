//! Loading the clauses of a formula: the search that begins.
ghost use Rattle.std.specs.Prelude.{◌≡◌, ◌<◌, Some, length, IfOk, OnOk};
ghost use Rattle.std.specs.List.{All};
ghost use Rattle.bt_cnf.specs.Units.{clause_at};
ghost use Rattle.bt_watch.specs.inner.Loads.{ArePaired, AreUnsetAll, HasLoaded, IsEmptySearch, IsOther, IsUnassigned, Loads};
ghost use Rattle.bt_watch.specs.Levels.{Stands};

use crate::assignment::{Assignment, assign};
use crate::search::{Search, keep};
use crate::watchers::{Counts, Watchers};
use bt_arena::{Arena, Pool};
use bt_cnf::{ClauseId, Formula, Lit, Truth, Values, is_lit_false, is_lit_true};
use std::alloc::{AllocError, Global};

/// The values of so many variables, of which none is set.
fn unset_values(alloc: Global, vars: usize) -> Result<Values, AllocError>
    ensures { IfOk result (λ values. AreUnsetAll vars values) }
{
    let mut values = Arena::new(alloc)?;
    for _ in 0..vars {
        values.add(Truth::unset())?;
    }
    Ok(values)
}

/// The assignment of so many variables in which none is set.
fn unassigned(alloc: Global, vars: usize) -> Result<Assignment, AllocError>
    ensures { IfOk result (λ a. IsUnassigned vars a) }
{
    Ok(Assignment {
        values: unset_values(alloc, vars)?,
        trail: Vec::new(alloc),
        reasons: Vec::new(alloc),
        places: vec![in alloc; 0; vars]?,
    })
}

/// Counts a clause for the two literals that it is going to watch. A clause without two different literals counts for
/// none.
fn count_watches(counts: &mut Counts, lits: &[Lit]) {
    if let Some(place) = other_place(lits) {
        counts.add(&lits[0]);
        counts.add(&lits[place]);
    }
}

/// For each literal, how many clauses of a formula are going to watch it.
fn watch_counts(alloc: Global, formula: &Formula) -> Result<Counts, AllocError> {
    let mut counts = Counts::new(alloc, formula.vars())?;
    for number in 0..formula.clauses() {
        if let Some(id) = formula.clause_at(number) {
            count_watches(&mut counts, formula.clause(id));
        }
    }
    Ok(counts)
}

/// A search over the variables of a formula that keeps no clauses, with room for the watches of its own.
fn empty_search(alloc: Global, formula: &Formula) -> Result<Search, AllocError>
    ensures { IfOk result (λ s. IsEmptySearch formula.now.vars s) }
{
    let vars = formula.vars();
    let counts = watch_counts(alloc, formula)?;
    Ok(Search {
        assignment: unassigned(alloc, vars)?,
        clauses: Pool::new(alloc)?,
        watchers: Watchers::new(alloc, vars, &counts)?,
        numbers: Vec::new(alloc),
        starts: Vec::new(alloc),
    })
}

/// The place of the first literal that differs from that at place 0. None where none does.
fn other_place(lits: &[Lit]) -> Option<usize>
    ensures { IsOther lits.now result }
{
    for (place, lit) in lits.iter().enumerate() {
        if *lit != lits[0] {
            return Some(place);
        }
    }
    None
}

/// Copies a clause to `paired`, where the literal at a place, which isn't the first one, changes places with the
/// second.
fn pair(paired: &mut Vec<Lit>, lits: &[Lit], place: usize) -> Result<(), AllocError>
    requires { IsOther lits.now (Some place) }
    ensures { OnOk result (ArePaired lits.now paired.new.items) }
{
    paired.clear();
    paired.extend_from_slice(lits)?;
    paired.swap(1, place);
    Ok(())
}

/// Makes the literal true of a clause that has no other one. Tells whether that can be: where it is false, nothing
/// changes.
fn load_lit(
    search: &mut Search,
    formula: &Formula,
    id: ClauseId,
    lit: &Lit,
) -> Result<bool, AllocError>
    requires below { id < length formula.now.clauses }
    requires loaded { HasLoaded formula.now.clauses id search.old }
    requires variable { lit.now.var < length search.old.assignment.values }
    requires some { 0 < length (clause_at formula.now.clauses id) }
    requires alone { All (λ m. m ≡ lit.now) (clause_at formula.now.clauses id) }
    ensures loads { IfOk result (Loads formula.now.clauses id search.new) }
    ensures same { OnOk result (length search.new.assignment.values ≡ length search.old.assignment.values) }
{
    if is_lit_false(&search.assignment.values, lit) {
        return Ok(false);
    }
    if !is_lit_true(&search.assignment.values, lit) {
        assign(&mut search.assignment, lit, Some(id.place()))?;
    }
    Ok(true)
}

/// Loads the clause that comes next: it is watched where two of its literals differ, else its literal is made true.
/// Tells false where it is empty or its only literal is false. `paired` is space to work in.
fn load_clause(
    search: &mut Search,
    formula: &Formula,
    id: ClauseId,
    paired: &mut Vec<Lit>,
) -> Result<bool, AllocError>
    requires below { id < length formula.now.clauses }
    requires loaded { HasLoaded formula.now.clauses id search.old }
    requires variables { length search.old.assignment.values ≡ formula.now.vars }
    ensures loads { IfOk result (Loads formula.now.clauses id search.new) }
    ensures same { OnOk result (length search.new.assignment.values ≡ formula.now.vars) }
{
    let lits = formula.clause(id);
    if lits.is_empty() {
        return Ok(false);
    }
    match other_place(lits) {
        Some(place) => {
            pair(paired, lits, place)?;
            keep(search, paired, id.place())?;
            Ok(true)
        }
        None => load_lit(search, formula, id, &lits[0]),
    }
}

/// Loads the clauses of a formula in turn, up to one that is empty or whose only literal is false. Gives the number of
/// that clause, or None where all are loaded. `paired` is space to work in.
fn load_clauses(
    search: &mut Search,
    formula: &Formula,
    paired: &mut Vec<Lit>,
) -> Result<Option<usize>, AllocError>
    requires { IsEmptySearch formula.now.vars search.old }
    ensures stands { IfOk result (Stands formula.now.clauses 0 search.new) }
    ensures same { OnOk result (length search.new.assignment.values ≡ formula.now.vars) }
{
    for number in 0..formula.clauses() {
        if let Some(id) = formula.clause_at(number) {
            if !load_clause(search, formula, id, paired)? {
                return Ok(Some(number));
            }
        }
    }
    Ok(None)
}

/// A search whose clauses are those of a formula, up to one that is empty or whose only literal is false, and the
/// number of that clause. Nothing is propagated yet: clauses are watched even where their literals are false already,
/// and the first propagation goes through the whole trail.
pub fn load_search(alloc: Global, formula: &Formula) -> Result<(Search, Option<usize>), AllocError>
    ensures stands { IfOk result (λ work. Stands formula.now.clauses 0 work.0 work.1) }
    ensures same { IfOk result (λ work. length work.0.assignment.values ≡ formula.now.vars) }
{
    let search = empty_search(alloc, formula)?;
    let mut search = search;
    let conflict = load_clauses(&mut search, formula, &mut Vec::new(alloc))?;
    Ok((search, conflict))
}
