//! Goals: clauses that are likely to follow, each with the scopes that show it. They are tried in turn before the search,
//! and what they lead to are steps like any other.
ghost use Rattle.std.specs.Prelude.{◌≡◌, ◌≤◌, ℕ, IfOk, IsTrue, length, map};
ghost use Rattle.std.specs.List.{All};
ghost use Rattle.bt_theory.specs.inner.Goals.{AllFit, AreNegated, IsGrown, IsPossible, IsTried, IsTry};
ghost use Rattle.bt_theory.specs.inner.Rounds.{HasModel};
ghost use Rattle.bt_theory.specs.inner.Scopes.{IsConflict, IsScopeOf, parts_of};

use crate::lemma::Conflict;
use crate::round::{End, learn};
use crate::scope::{Scope, conflict_among};
use bt_cnf::{Chooser, Formula, Lit, is_true};
use bt_extend::{Goal, NamedLit};
use bt_sat::{Answer, Assumed, Solver};
use std::alloc::{AllocError, Global};

/// What one try at a goal comes to.
#[derive(Drop)]
pub enum Tried {
    /// It is done with: the clause follows by propagation, or no scope refutes its opposite.
    Done,
    /// The log has more steps, and it is worth another try.
    Again,
    /// The search is at its end.
    Ends(End),
}

/// Tries goals in turn, each scope with at most `pivots` pivots. Tells how the search ends where it does.
pub fn try_goals<C: Chooser>(
    alloc: Global,
    solver: &mut Solver<C>,
    scopes: &mut [Scope],
    goals: &[Goal],
    pivots: u64,
) -> Result<Option<End>, AllocError>
    requires within { length solver.old.kernel.steps ≤ solver.old.kernel.limit }
    requires fits { AllFit solver.old.kernel }
    requires scopes { All (IsScopeOf solver.old.kernel.formula) (map parts_of scopes.old) }
    ensures tried { IfOk result (IsTried pivots solver.old.kernel solver.new.kernel) }
    ensures scopes { IfOk result (λ said. map parts_of scopes.new ≡ map parts_of scopes.old) }
{
    for goal in goals {
        let end = try_goal(alloc, solver, scopes, goal, pivots)?;
        if end.is_some() {
            return Ok(end);
        }
    }
    Ok(None)
}

/// Tries a goal until it is done with. Tells how the search ends where it does.
fn try_goal<C: Chooser>(
    alloc: Global,
    solver: &mut Solver<C>,
    scopes: &mut [Scope],
    goal: &Goal,
    pivots: u64,
) -> Result<Option<End>, AllocError>
    requires within { length solver.old.kernel.steps ≤ solver.old.kernel.limit }
    requires fits { AllFit solver.old.kernel }
    requires scopes { All (IsScopeOf solver.old.kernel.formula) (map parts_of scopes.old) }
    ensures tried { IfOk result (IsTried pivots solver.old.kernel solver.new.kernel) }
    ensures scopes { IfOk result (λ said. map parts_of scopes.new ≡ map parts_of scopes.old) }
{
    loop {
        match attempt(alloc, solver, scopes, goal, pivots)? {
            Tried::Done => return Ok(None),
            Tried::Again => {}
            Tried::Ends(end) => return Ok(Some(end)),
        }
    }
}

/// Makes the goal's literals false, and asks its scopes for a conflict with what is true then.
fn attempt<C: Chooser>(
    alloc: Global,
    solver: &mut Solver<C>,
    scopes: &mut [Scope],
    goal: &Goal,
    pivots: u64,
) -> Result<Tried, AllocError>
    requires fits { AllFit solver.old.kernel }
    requires scopes { All (IsScopeOf solver.old.kernel.formula) (map parts_of scopes.old) }
    ensures tried { IfOk result (IsTry pivots solver.old.kernel solver.new.kernel) }
    ensures scopes { IfOk result (λ said. map parts_of scopes.new ≡ map parts_of scopes.old) }
{
    let lits = lits_in(alloc, solver.formula(), &goal.lits)?;
    match solver.assume(&lits)? {
        Assumed::Follows => Ok(Tried::Done),
        Assumed::Refuted => Ok(Tried::Ends(End::Refuted)),
        Assumed::Spent => Ok(Tried::Ends(End::Spent)),
        Assumed::Open(truths) => ask(alloc, solver, scopes, goal, &truths, pivots),
    }
}

/// The literals of a formula that have these names. A name of no variable is passed over.
fn lits_in(alloc: Global, formula: &Formula, names: &[NamedLit]) -> Result<Vec<Lit>, AllocError> {
    let mut lits = Vec::new(alloc);
    for name in names {
        if let Some(var) = formula.var_at(name.var) {
            lits.push(Lit {
                var,
                positive: name.positive,
            })?;
        }
    }
    Ok(lits)
}

/// Asks the goal's scopes for a conflict with what is true, and adds its lemma. Without one, the goal is done with.
fn ask<C: Chooser>(
    alloc: Global,
    solver: &mut Solver<C>,
    scopes: &mut [Scope],
    goal: &Goal,
    truths: &[bool],
    pivots: u64,
) -> Result<Tried, AllocError>
    requires within { length solver.old.kernel.steps ≤ solver.old.kernel.limit }
    requires fits { AllFit solver.old.kernel }
    requires scopes { All (IsScopeOf solver.old.kernel.formula) (map parts_of scopes.old) }
    ensures tried { IfOk result (IsTry pivots solver.old.kernel solver.new.kernel) }
    ensures scopes { IfOk result (λ said. map parts_of scopes.new ≡ map parts_of scopes.old) }
{
    match conflict_among(alloc, scopes, &goal.scopes, truths, pivots)? {
        Some(conflict) => complete(solver, &conflict),
        None => Ok(Tried::Done),
    }
}

/// Looks for a model from here on, and adds the lemma of a conflict whose atoms are true in it. Where they aren't, the
/// goal is worth another try if the log has grown.
fn complete<C: Chooser>(solver: &mut Solver<C>, conflict: &Conflict) -> Result<Tried, AllocError>
    requires fits { AllFit solver.old.kernel }
    requires conflict { IsPossible solver.old.kernel.formula conflict.now }
    ensures { IfOk result (λ tried. (pivots : ℕ) → IsTry pivots solver.old.kernel solver.new.kernel tried) }
{
    let before = solver.log().len();
    match solver.next_model()? {
        Answer::Refuted => Ok(Tried::Ends(End::Refuted)),
        Answer::Spent => Ok(Tried::Ends(End::Spent)),
        Answer::Model(model) => {
            if are_negated(&conflict.lits, &model) {
                add(solver, conflict, &model)
            } else {
                Ok(once_more(before, solver.log().len()))
            }
        }
    }
}

/// What a try comes to without a lemma: the goal is worth another one where the log has more steps `now` than `before`.
fn once_more(before: usize, now: usize) -> Tried
    ensures { IsGrown before now result }
{
    if before < now {
        Tried::Again
    } else {
        Tried::Done
    }
}

/// Adds the lemma of a conflict whose atoms are true in the model that was found last.
fn add<C: Chooser>(
    solver: &mut Solver<C>,
    conflict: &Conflict,
    model: &[bool],
) -> Result<Tried, AllocError>
    requires fits { AllFit solver.old.kernel }
    requires model { HasModel solver.old.kernel model.now }
    requires conflict { IsConflict solver.old.kernel.formula model.now conflict.now }
    ensures { IfOk result (λ tried. (pivots : ℕ) → IsTry pivots solver.old.kernel solver.new.kernel tried) }
{
    match learn(solver, conflict)? {
        None => Ok(Tried::Again),
        Some(end) => Ok(Tried::Ends(end)),
    }
}

/// Whether literals all negate atoms that are true in a model.
fn are_negated(lits: &[Lit], model: &[bool]) -> bool
    ensures { IsTrue result → AreNegated model.now lits.now }
{
    for lit in lits {
        if lit.positive || !is_true(model, lit.var.place()) {
            return false;
        }
    }
    true
}
