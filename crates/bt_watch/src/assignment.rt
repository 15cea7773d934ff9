//! Which literals are true, in which order they became so, and why.
ghost use Rattle.std.specs.Prelude.{◌≡◌, ◌<◌, length, slice_set, OnOk};
ghost use Rattle.bt_watch.specs.Assigning.{Assigns};

use bt_cnf::{Lit, Truth, Values, Var};
use std::alloc::AllocError;

/// The values of the variables, and the literals that are true, in the order in which they were set.
#[derive(Drop)]
pub struct Assignment {
    pub values: Values,
    pub trail: Vec<Lit>,
    /// For each literal of the trail, the number of the clause that made it true, where it wasn't chosen.
    pub reasons: Vec<Option<usize>>,
    /// For each variable that is set, the place of its literal on the trail.
    pub places: Vec<usize>,
}

/// Makes a literal true, as the last one of the trail, by the clause with this number, or by choice where none is
/// named.
pub fn assign(
    assignment: &mut Assignment,
    lit: &Lit,
    reason: Option<usize>,
) -> Result<(), AllocError>
    requires { lit.now.var < length assignment.old.values }
    ensures { OnOk result (Assigns assignment.old assignment.new lit.now reason) }
{
    set_place(&mut assignment.places, lit.var, assignment.trail.len());
    assignment.trail.push(*lit)?;
    assignment.reasons.push(reason)?;
    *assignment.values.get_mut(lit.var) = Truth::set(lit.positive);
    Ok(())
}

/// Notes at which place of the trail a variable's literal stands. Nothing is noted of a variable beyond the list.
fn set_place(places: &mut [usize], var: Var, place: usize)
    ensures { places.new ≡ slice_set places.old var place }
{
    if var.place() < places.len() {
        places[var.place()] = place;
    }
}
