//! Propagation over watched clauses: two watched literals each (Moskewicz and others, in Chaff) and a blocking one
//! (Sörensson and Eén, in MiniSat).
ghost use Rattle.std.specs.Prelude.{◌≡◌, ◌<◌, ◌≤◌, length, IfOk, OnOk, IsTrue, Some, slice_get, vec_len, Contains};
ghost use Rattle.std.specs.List.{All};
ghost use Rattle.bt_watch.specs.Keeping.{AreWatched, AreTrue, IsWatchable, kept_at};
ghost use Rattle.bt_watch.specs.inner.VisitingById.{VisitsById};
ghost use Rattle.bt_cnf.specs.Truths.{IsFalseIn};
ghost use Rattle.bt_watch.specs.inner.Watchers.{with_list};
ghost use Rattle.bt_watch.specs.inner.Roots.{bound_of};
ghost use Rattle.bt_watch.specs.inner.PropagatingLit.{Advances, Finds, PropagatesLit, with_watches};
ghost use Rattle.bt_watch.specs.Propagating.{IsPropagatedTo, Keeps, Propagates, root_of};

use crate::assignment::{Assignment, assign};
use crate::clause_pool::{ClausePool, PackedId, Watch};
use crate::opposites::negation;
use crate::watched::{Visit, visit_clause};
use crate::watchers::Watchers;
use bt_cnf::{Lit, Packed, Values, pack_all};
use std::alloc::AllocError;

/// What is true, and the clauses that say what follows.
#[derive(Drop)]
pub struct Search {
    pub assignment: Assignment,
    /// The clauses of two or more literals, whose first two are watched.
    pub clauses: ClausePool,
    pub watchers: Watchers,
    /// For each of these clauses, its number among those of the formula and of the log.
    pub numbers: Vec<usize>,
    /// For each literal that was chosen, its place on the trail. There a level begins.
    pub starts: Vec<usize>,
}

/// What became of a clause on the list of a literal that is false.
#[derive(Clone, Copy)]
pub enum Visited {
    /// It stays on the list.
    Stays,
    /// It is on the list no longer.
    Leaves,
    /// All its literals are false.
    Conflict(PackedId),
}

/// What comes next on the list of a literal that is false.
#[derive(Clone, Copy)]
pub enum Next {
    /// Nothing: all blocking literals are true.
    Nothing,
    /// The clause at this place, whose blocking literal is true for good.
    Done(usize),
    /// The clause at this place, whose blocking literal isn't true.
    Open(usize),
}

/// Visits the clause with an id, where a literal has become false.
fn visit_by_id(clauses: &mut ClausePool, id: PackedId, false_lit: &Packed, values: &Values) -> Visit
    requires id { id < length clauses.old }
    requires watchable { IsWatchable (length values.now) (kept_at clauses.old id) }
    requires false_lit { IsFalseIn values.now false_lit.now }
    ensures { VisitsById values.now false_lit.now id clauses.old clauses.new result }
{
    let id = id.unpack(clauses);
    visit_clause(clauses.slice_mut(id), false_lit, values)
}

/// The number of a kept clause among those of the formula and of the log. None where no such clause is kept.
pub fn number_of(numbers: &[usize], id: PackedId) -> Option<usize>
    ensures { result ≡ slice_get numbers.now id }
{
    numbers.get(id.place()).copied()
}

/// The place on the trail where the first level begins, or one beyond all places where there is none.
fn root_bound(starts: &[usize]) -> usize
    ensures { result ≡ bound_of starts.now }
{
    match starts.get(0) {
        Some(start) => *start,
        None => usize::MAX,
    }
}

/// Whether a literal is known to have been true before the first choice, or while nothing was chosen. `places` are
/// those of the variables on the trail; what stands before `root` follows from no choice.
fn is_rooted(search: &Search, places: &[usize], root: usize, lit: &Packed) -> bool
    requires { root ≡ bound_of search.now.starts.items }
    ensures { IsTrue result → Contains (root_of search.now) lit.now }
{
    match places.get(lit.place()) {
        Some(place) => *place < root && is_at(&search.assignment.trail, *place, lit),
        None => false,
    }
}

/// Whether a literal stands at a place of the trail.
fn is_at(trail: &[Lit], place: usize, lit: &Packed) -> bool
    ensures { IsTrue result → slice_get trail.now place ≡ Some lit.now }
{
    match trail.get(place) {
        Some(other) => lit.stands_for(other),
        None => false,
    }
}

/// Finds the next clause to deal with on a list, from a place on. Most blocking literals are true, and the walk
/// past those reads nothing else but where they stand, since propagation waits for memory.
fn find_next(search: &Search, root: usize, list: &[Watch], from: usize) -> Next
    requires bound { root ≡ bound_of search.now.starts.items }
    requires variables { All (λ w. w.blocker.var < length search.now.assignment.values) list.now }
    ensures { Finds search.now.assignment.values (root_of search.now) list.now from result }
{
    let places: &[usize] = &search.assignment.places;
    let mut place = from;
    while place < list.len() {
        let blocker = list[place].blocker;
        if !blocker.is_true(&search.assignment.values) {
            return Next::Open(place);
        }
        if is_rooted(search, places, root, &blocker) {
            return Next::Done(place);
        }
        place += 1;
    }
    Next::Nothing
}

/// Visits the clause at a place of the list of a literal that is false, which was taken out of the lists, and tells
/// what becomes of it. Where one literal is left that isn't false, that is made true.
pub fn visit_at(
    search: &mut Search,
    false_lit: &Packed,
    list: &mut Vec<Watch>,
    place: usize,
) -> Result<Visited, AllocError>
    requires watched { AreWatched (root_of search.old) (length search.old.assignment.values)
        search.old.clauses (with_list search.old.watchers false_lit.now list.old.items) }
    requires truths { AreTrue search.old.assignment.values search.old.assignment.trail.items }
    requires false_lit { IsFalseIn search.old.assignment.values false_lit.now }
    requires variable { false_lit.now.var < length search.old.assignment.values }
    requires place { place < vec_len list.old }
    ensures { IfOk result (Advances false_lit.now place (with_watches search.old false_lit.now list.old.items)
        (with_watches search.new false_lit.now list.new.items)) }
{
    let id = list[place].id;
    match visit_by_id(
        &mut search.clauses,
        id,
        false_lit,
        &search.assignment.values,
    ) {
        Visit::Stale => {
            let _ = list.swap_remove(place);
            Ok(Visited::Leaves)
        }
        Visit::Satisfied(blocker) => {
            list[place] = Watch { id, blocker };
            Ok(Visited::Stays)
        }
        Visit::NewWatch(lit, blocker) => {
            search.watchers.watch(&lit, Watch { id, blocker })?;
            let _ = list.swap_remove(place);
            Ok(Visited::Leaves)
        }
        Visit::UnitLit(lit) => {
            let lit = lit.unpack(&search.assignment.values);
            let reason = number_of(&search.numbers, id);
            assign(&mut search.assignment, &lit, reason)?;
            Ok(Visited::Stays)
        }
        Visit::Conflict => Ok(Visited::Conflict(id)),
    }
}

/// Visits all clauses on the list of a literal that is false, which was taken out of the lists, but for those
/// whose blocking literal is true: where that one was true before the first choice, no choice takes it back, and
/// the clause leaves the list, which leaves a third of the visits. Tells the clause whose literals are all false,
/// where there is one.
fn visit_list(
    search: &mut Search,
    false_lit: &Packed,
    list: &mut Vec<Watch>,
) -> Result<Option<PackedId>, AllocError>
    requires watched { AreWatched (root_of search.old) (length search.old.assignment.values)
        search.old.clauses (with_list search.old.watchers false_lit.now list.old.items) }
    requires truths { AreTrue search.old.assignment.values search.old.assignment.trail.items }
    requires false_lit { IsFalseIn search.old.assignment.values false_lit.now }
    requires variable { false_lit.now.var < length search.old.assignment.values }
    ensures { IfOk result (PropagatesLit false_lit.now (with_watches search.old false_lit.now list.old.items)
        (with_watches search.new false_lit.now list.new.items)) }
{
    let root = root_bound(&search.starts);
    let mut from = 0;
    while from < list.len() {
        match find_next(search, root, list, from) {
            Next::Nothing => from = list.len(),
            Next::Done(place) => {
                let _ = list.swap_remove(place);
                from = place;
            }
            Next::Open(place) => match visit_at(search, false_lit, list, place)? {
                Visited::Stays => from = place + 1,
                Visited::Leaves => from = place,
                Visited::Conflict(id) => return Ok(Some(id)),
            },
        }
    }
    Ok(None)
}

/// Visits all clauses that watch a literal that is false. Tells the clause whose literals are all false,
/// where there is one. The literal's list is taken out meanwhile, since no clause comes to watch a literal
/// that is false; so it is walked without a look at the others.
pub fn propagate_lit(
    search: &mut Search,
    false_lit: &Packed,
) -> Result<Option<PackedId>, AllocError>
    requires watched { AreWatched (root_of search.old) (length search.old.assignment.values)
        search.old.clauses search.old.watchers }
    requires truths { AreTrue search.old.assignment.values search.old.assignment.trail.items }
    requires false_lit { IsFalseIn search.old.assignment.values false_lit.now }
    requires variable { false_lit.now.var < length search.old.assignment.values }
    ensures { IfOk result (PropagatesLit false_lit.now search.old search.new) }
{
    let alloc = search.numbers.allocator().clone()?;
    let mut list = search.watchers.replace(false_lit, Vec::new(alloc));
    let failed = visit_list(search, false_lit, &mut list)?;
    let _ = search.watchers.replace(false_lit, list);
    Ok(failed)
}

/// Propagates the literals that are true, the first so many of which were propagated before. Where
/// it ends without a clause whose literals are all false, none of the clauses that were given is false, and
/// none is a unit. Else it tells such a clause. It ends since each literal that it adds sets one more variable.
pub fn propagate(search: &mut Search, propagated: usize) -> Result<Option<PackedId>, AllocError>
    requires { IsPropagatedTo propagated search.old }
    ensures { IfOk result (Propagates search.old search.new) }
{
    let mut head = propagated;
    while head < search.assignment.trail.len() {
        let false_lit = Packed::pack(&negation(&search.assignment.trail[head]))?;
        if let Some(id) = propagate_lit(search, &false_lit)? {
            return Ok(Some(id));
        }
        head += 1;
    }
    Ok(None)
}

/// Keeps a clause with this number, whose literals are packed, and lets it watch the first two.
fn keep_packed(search: &mut Search, lits: &[Packed], number: usize) -> Result<(), AllocError>
    requires watched { AreWatched (root_of search.old) (length search.old.assignment.values)
        search.old.clauses search.old.watchers }
    requires watchable { IsWatchable (length search.old.assignment.values) lits.now }
    ensures { OnOk result (Keeps lits.now number search.old search.new) }
{
    let added = search.clauses.add_slice(lits)?;
    let id = PackedId::pack(added)?;
    let first = lits[0];
    let second = lits[1];
    let by_first = Watch {
        id,
        blocker: second,
    };
    let by_second = Watch { id, blocker: first };
    search.watchers.watch(&first, by_first)?;
    search.watchers.watch(&second, by_second)?;
    search.numbers.push(number)?;
    Ok(())
}

/// Keeps a clause with this number, of two or more literals, the first two of which it watches.
pub fn keep(search: &mut Search, lits: &[Lit], number: usize) -> Result<(), AllocError>
    requires watched { AreWatched (root_of search.old) (length search.old.assignment.values)
        search.old.clauses search.old.watchers }
    requires watchable { IsWatchable (length search.old.assignment.values) lits.now }
    ensures { OnOk result (Keeps lits.now number search.old search.new) }
{
    let packed = pack_all(search.numbers.allocator().clone()?, lits)?;
    keep_packed(search, &packed, number)
}
