//! One round of a search: a model is asked for, and the rows of the atoms that are chosen within it are
//! checked, those of each scope first.
ghost use Rattle.std.specs.Prelude.{◌≡◌, ◌≤◌, IfOk, length, map, take};
ghost use Rattle.std.specs.List.{All};
ghost use Rattle.bt_theory.specs.inner.Bases.{IsBase};
ghost use Rattle.bt_theory.specs.inner.Scopes.{IsScopeOf, parts_of};
ghost use Rattle.bt_theory.specs.inner.Rounds.{IsReady, HasModel, HasChosen, IsRound, MakesLemma, IsLemmaLearnt};

use crate::base::Base;
use crate::binding::bind;
use crate::choosing::choose;
use crate::lemma::{Conflict, conflict_of};
use crate::outcome::Solution;
use crate::scope::{Scope, first_conflict};
use bt_cnf::Chooser;
use bt_frac::Frac;
use bt_sat::{Added, Answer, Solver};
use bt_simplex::{Check, PivotTrace, Tableau, Wide};
use std::alloc::{AllocError, Global};

/// How a search ends. The log stays with the solver.
#[derive(Drop)]
pub enum End {
    /// The formula is met.
    Sat(Solution),
    /// The log refutes the formula.
    Refuted,
    /// The log has as many steps as it may, and one more is needed.
    Spent,
    /// The pivots were as many as they may be.
    Pivots(PivotTrace),
    /// A number leaves 128 bits.
    Wide(Wide),
}

/// Asks for a model and checks it. None where the search goes on, with at least one step more.
pub fn round<C: Chooser>(
    alloc: Global,
    solver: &mut Solver<C>,
    scopes: &mut [Scope],
    tableau: &mut Tableau,
    base: &Base,
    pivots: u64,
) -> Result<Option<End>, AllocError>
    requires base { IsBase base.now solver.old.kernel.formula }
    requires ready { IsReady base.now solver.old.kernel tableau.old }
    requires scopes { All (IsScopeOf solver.old.kernel.formula) (map parts_of scopes.old) }
    ensures round { IfOk result (IsRound pivots base.now solver.old.kernel solver.new.kernel tableau.new) }
    ensures scopes { IfOk result (λ said. map parts_of scopes.new ≡ map parts_of scopes.old) }
{
    match solver.next_model()? {
        Answer::Refuted => Ok(Some(End::Refuted)),
        Answer::Spent => Ok(Some(End::Spent)),
        Answer::Model(model) => try_model(alloc, solver, scopes, tableau, base, &model, pivots),
    }
}

/// The first so many values.
fn front_of(model: &[bool], count: usize) -> &[bool]
    requires { count ≤ length model.now }
    ensures { result.now ≡ take count model.now }
{
    &model[..count]
}

/// Checks the rows of the atoms that are chosen within a model, those of each scope first, and adds the lemma of a
/// conflict. None where the search goes on.
fn try_model<C: Chooser>(
    alloc: Global,
    solver: &mut Solver<C>,
    scopes: &mut [Scope],
    tableau: &mut Tableau,
    base: &Base,
    model: &[bool],
    pivots: u64,
) -> Result<Option<End>, AllocError>
    requires base { IsBase base.now solver.old.kernel.formula }
    requires ready { IsReady base.now solver.old.kernel tableau.old }
    requires scopes { All (IsScopeOf solver.old.kernel.formula) (map parts_of scopes.old) }
    requires model { HasModel solver.old.kernel model.now }
    ensures round { IfOk result (IsRound pivots base.now solver.old.kernel solver.new.kernel tableau.new) }
    ensures scopes { IfOk result (λ said. map parts_of scopes.new ≡ map parts_of scopes.old) }
{
    let chosen = choose(alloc, solver.formula(), base, front_of(model, base.vars))?;
    match first_conflict(alloc, scopes, &chosen, pivots)? {
        Some(conflict) => learn(solver, &conflict),
        None => try_all(alloc, solver, tableau, base, chosen, pivots),
    }
}

/// Checks all rows whose atoms are chosen, and adds the lemma of a conflict. None where the search goes on.
fn try_all<C: Chooser>(
    alloc: Global,
    solver: &mut Solver<C>,
    tableau: &mut Tableau,
    base: &Base,
    chosen: Vec<bool>,
    pivots: u64,
) -> Result<Option<End>, AllocError>
    requires base { IsBase base.now solver.old.kernel.formula }
    requires ready { IsReady base.now solver.old.kernel tableau.old }
    requires chosen { HasChosen base.now solver.old.kernel chosen.items }
    ensures { IfOk result (IsRound pivots base.now solver.old.kernel solver.new.kernel tableau.new) }
{
    bind(tableau, base.atoms(), &chosen);
    match tableau.check(alloc, pivots)? {
        Check::Sat(values) => Ok(Some(End::Sat(Solution {
            values,
            assignment: chosen,
        }))),
        Check::Unsat(weighed) => learn(solver, &conflict_of(alloc, base.atoms(), &weighed)?),
        Check::Pivots(trace) => Ok(Some(End::Pivots(trace))),
        Check::Wide(wide) => Ok(Some(End::Wide(wide))),
    }
}

/// Adds the lemma of a conflict. None where the search goes on, and its end where the log has no room.
pub fn learn<C: Chooser>(
    solver: &mut Solver<C>,
    conflict: &Conflict,
) -> Result<Option<End>, AllocError>
    requires { MakesLemma solver.old.kernel conflict.now }
    ensures { IfOk result (IsLemmaLearnt solver.old.kernel solver.new.kernel conflict.now) }
{
    // A fraction is in lowest terms by its type, and a list of them by this call.
    Frac::all_known(&conflict.weights);
    match solver.add_lemma(&conflict.lits, &conflict.weights)? {
        Added::Kept => Ok(None),
        Added::Spent => Ok(Some(End::Spent)),
    }
}
