//! Tracing a conflict back to the clause that is learnt from it, by the first unique implication point (Marques-Silva and
//! Sakallah, in GRASP). The greatest place of the trail comes first: so the level at which the conflict is cut is that of
//! the first place, and nothing has to be known of the levels below it.
ghost use Rattle.std.specs.Prelude.{◌≡◌, ◌<◌, ◌↔◌, ℕ, length, Contains, IfOk, OnOk, IsTrue};
ghost use Rattle.std.specs.List.{All};
ghost use Rattle.bt_sat.specs.inner.Analysing.{IsConflictLevel, IsLearnable, IsReasonFor, IsTaken, IsTopLevel, IsTraced, IsTracing, MarksSeen};
ghost use Rattle.bt_sat.specs.inner.KnownLits.{lits_in};
ghost use Rattle.bt_sat.specs.inner.LoggedFormula.{clauses_in};
ghost use Rattle.bt_watch.specs.Levels.{AreLevels, IsInConflict, IsOrdered};

use crate::logged_formula::{KnownLits, LoggedFormula};
use crate::minimizing::{Minimizer, Scene};
use bt_watch::{Agenda, Search, level_of, start};
use std::alloc::AllocError;

/// A clause that is being learnt.
#[derive(Drop)]
pub struct Analysis {
    pub agenda: Agenda,
    /// The places of its literals, which are false there, the greatest first.
    pub picked: Vec<usize>,
    /// The numbers of the clauses from which it follows.
    pub hints: Vec<usize>,
    /// The variables that the conflict met, down to the literals of the clause before any of them was left out.
    pub met: Vec<usize>,
    /// Which literals the clause can do without.
    pub minimizer: Minimizer,
}

/// The level of a conflict, by places of the trail: it begins at `current`, from where on a learnt clause is to have
/// one literal alone (the first unique implication point), and the first level begins at `root`.
#[derive(Clone, Copy)]
pub struct ConflictLevel {
    pub root: usize,
    pub current: usize,
}

/// Puts the places of a clause's literals on the agenda, but for one. Each variable has its place in `places`.
pub fn mark_seen(
    agenda: &mut Agenda,
    places: &[usize],
    clause: KnownLits<'_>,
    but: usize,
) -> Result<(), AllocError>
    requires { All (λ l. l.var < length places.now) (lits_in clause) }
    ensures { OnOk result (MarksSeen places.now (lits_in clause.entry) but agenda.old agenda.new) }
{
    for n in 0..clause.len() {
        let place = places[clause.variable(n)];
        if place != but {
            agenda.add(place)?;
        }
    }
    Ok(())
}

/// Whether the literal at a place has to be traced back: it was true before the first choice, or it is of the
/// conflict's level and another of that level waits on the agenda.
fn is_traced(agenda: &Agenda, conflict_level: ConflictLevel, place: usize) -> bool
    ensures { IsTrue result ↔ IsTraced conflict_level agenda.now place }
{
    place < conflict_level.root
        || (conflict_level.current <= place && agenda.reaches(conflict_level.current))
}

/// Whether the literal at a place, before the conflict's level, can be left out of a clause with `picked` literals.
fn is_left_out(
    known: &LoggedFormula,
    search: &Search,
    agenda: &Agenda,
    minimizer: &mut Minimizer,
    conflict_level: ConflictLevel,
    picked: usize,
    place: usize,
) -> Result<bool, AllocError>
    ensures { IfOk result (λ is_left_out. IsTrue is_left_out → place < conflict_level.current) }
{
    if place >= conflict_level.current {
        return Ok(false);
    }
    let root = conflict_level.root;
    minimizer.is_implied(
        Scene {
            known,
            search,
            root,
        },
        agenda,
        picked,
        place,
    )
}

/// The number of the clause to which the literal at a place is traced back, because it has to be, or because the clause
/// that is learnt gets shorter. None where it isn't.
fn reason_for(
    known: &LoggedFormula,
    search: &Search,
    agenda: &Agenda,
    minimizer: &mut Minimizer,
    conflict_level: ConflictLevel,
    picked: usize,
    place: usize,
) -> Result<Option<usize>, AllocError>
    requires ordered { IsOrdered (clauses_in known.now) search.now }
    requires inside { place < length search.now.assignment.trail.items }
    ensures { IfOk result (IsReasonFor search.now conflict_level agenda.now place) }
{
    let Some(number) = search.assignment.reasons[place] else {
        return Ok(None);
    };
    if is_traced(agenda, conflict_level, place) {
        return Ok(Some(number));
    }
    let is_left_out = is_left_out(
        known,
        search,
        agenda,
        minimizer,
        conflict_level,
        picked,
        place,
    )?;
    if is_left_out {
        Ok(Some(number))
    } else {
        Ok(None)
    }
}

/// Lists the variable of the literal at a place as one that the conflict met, but for those before the first choice, and
/// for those that came up as reasons of what was left out.
fn meet(
    met: &mut Vec<usize>,
    search: &Search,
    minimizer: &Minimizer,
    conflict_level: ConflictLevel,
    place: usize,
) -> Result<(), AllocError> {
    if place < conflict_level.root || minimizer.is_marked_implied(place) {
        return Ok(());
    }
    if let Some(lit) = search.assignment.trail.get(place) {
        met.push(lit.var.place())?;
    }
    Ok(())
}

/// Traces the literal at a place, which was taken off the agenda, back to its reason, or picks it for the clause.
fn deal(
    analysis: &mut Analysis,
    known: &LoggedFormula,
    search: &Search,
    conflict_level: ConflictLevel,
    place: usize,
) -> Result<(), AllocError>
    requires ordered { IsOrdered (clauses_in known.now) search.now }
    requires taken { IsTaken (clauses_in known.now) search.now conflict_level place
        analysis.old.agenda analysis.old.picked.items analysis.old.hints.items }
    ensures { OnOk result (IsTracing (clauses_in known.now) search.now conflict_level
        analysis.new.agenda analysis.new.picked.items place analysis.new.hints.items) }
{
    meet(
        &mut analysis.met,
        search,
        &analysis.minimizer,
        conflict_level,
        place,
    )?;
    let reason = reason_for(
        known,
        search,
        &analysis.agenda,
        &mut analysis.minimizer,
        conflict_level,
        analysis.picked.len(),
        place,
    )?;
    match reason {
        Some(number) => {
            analysis.hints.push(number)?;
            mark_seen(
                &mut analysis.agenda,
                &search.assignment.places,
                known.clause(number),
                place,
            )?;
            Ok(())
        }
        None => {
            analysis.picked.push(place)?;
            Ok(())
        }
    }
}

/// The level of a conflict, which is that of its greatest place: from there on one literal is to be picked.
fn conflict_level(search: &Search, agenda: &Agenda) -> ConflictLevel
    requires ordered { AreLevels search.now }
    requires inside { (k : ℕ) → Contains agenda.now k → k < length search.now.assignment.trail.items }
    ensures { IsConflictLevel search.now agenda.now result }
{
    let root = start(search, 0);
    let level = top_level(search, agenda);
    if level > 0 {
        let current = start(search, level - 1);
        ConflictLevel { root, current }
    } else {
        ConflictLevel {
            root,
            current: root,
        }
    }
}

/// How many levels begin at the greatest place of the agenda or before it; 0 where the agenda is empty.
fn top_level(search: &Search, agenda: &Agenda) -> usize
    requires ordered { AreLevels search.now }
    requires inside { (k : ℕ) → Contains agenda.now k → k < length search.now.assignment.trail.items }
    ensures { IsTopLevel search.now agenda.now result }
{
    match agenda.greatest() {
        Some(place) => level_of(&search.starts, place),
        None => 0,
    }
}

/// Finds the clause that is learnt from a conflict, the number of a clause that is false: where the literals of the
/// learnt one are false, the hints lead in turn to a false clause.
pub fn analyse(
    analysis: &mut Analysis,
    known: &LoggedFormula,
    search: &Search,
    conflict: usize,
) -> Result<(), AllocError>
    requires { IsInConflict (clauses_in known.now) conflict search.now }
    ensures { OnOk result (IsLearnable (clauses_in known.now) search.now
        analysis.new.picked.items analysis.new.hints.items) }
{
    let conflict_level = begin(analysis, known, search, conflict)?;
    let mut bound = search.assignment.trail.len();
    while let Some(place) = analysis.agenda.take_greatest() {
        deal(analysis, known, search, conflict_level, place)?;
        bound = place;
    }
    analysis.hints.reverse();
    Ok(())
}

/// Begins anew with the clause of this number, whose literals are all false. Gives the level of the conflict.
fn begin(
    analysis: &mut Analysis,
    known: &LoggedFormula,
    search: &Search,
    conflict: usize,
) -> Result<ConflictLevel, AllocError>
    requires { IsInConflict (clauses_in known.now) conflict search.now }
    ensures { IfOk result (λ level. IsTracing (clauses_in known.now) search.now level analysis.new.agenda
        analysis.new.picked.items (length search.now.assignment.trail.items) analysis.new.hints.items) }
{
    analysis.agenda.clear();
    analysis.picked.clear();
    analysis.hints.clear();
    analysis.met.clear();
    analysis.minimizer.clear();
    analysis.hints.push(conflict)?;
    let size = search.assignment.trail.len();
    let clause = known.clause(conflict);
    mark_seen(
        &mut analysis.agenda,
        &search.assignment.places,
        clause,
        size,
    )?;
    Ok(conflict_level(search, &analysis.agenda))
}
