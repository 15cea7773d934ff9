//! Conflicts: rows that add up to one that no values meet. The clause that says that not all of them hold is
//! a lemma.
ghost use Rattle.std.specs.Prelude.{◌≡◌, ◌<◌, length, map, IfOk};
ghost use Rattle.std.specs.List.{All};
ghost use Rattle.bt_theory.specs.inner.Scopes.{IsConflictOf, negations, weights_of};

use bt_cnf::{Lit, Var};
use bt_frac::Frac;
use std::alloc::{AllocError, Global};

/// Atoms that aren't all true of any values.
#[derive(Drop)]
pub struct Conflict {
    /// The negation of each.
    pub lits: Vec<Lit>,
    /// The weight of each one's row in a sum that no values meet.
    pub weights: Vec<Frac>,
}

/// The conflict of weighed rows, each named by its place among these atoms, and with its weight.
pub fn conflict_of(
    alloc: Global,
    atoms: &[Var],
    weighed: &[(usize, Frac)],
) -> Result<Conflict, AllocError>
    requires { All (λ w. w.0 < length atoms.now) weighed.now }
    ensures { IfOk result (IsConflictOf atoms.now weighed.now) }
{
    let lits = negations(alloc, atoms, weighed)?;
    let weights = weights_of(alloc, weighed)?;
    Ok(Conflict { lits, weights })
}

/// The negations of the atoms that have the weighed rows, which are named by their places among these atoms.
fn negations(
    alloc: Global,
    atoms: &[Var],
    weighed: &[(usize, Frac)],
) -> Result<Vec<Lit>, AllocError>
    requires { All (λ w. w.0 < length atoms.now) weighed.now }
    ensures { IfOk result (λ lits. lits.items ≡ negations atoms.now weighed.now) }
{
    let mut lits = Vec::new(alloc);
    for (row, _) in weighed {
        lits.push(Lit {
            var: atoms[*row],
            positive: false,
        })?;
    }
    Ok(lits)
}

/// The weights of weighed rows, in their order.
fn weights_of(alloc: Global, weighed: &[(usize, Frac)]) -> Result<Vec<Frac>, AllocError>
    ensures { IfOk result (λ weights. weights.items ≡ weights_of weighed.now) }
{
    let mut weights = Vec::new(alloc);
    for (_, weight) in weighed {
        weights.push(*weight)?;
    }
    Ok(weights)
}
