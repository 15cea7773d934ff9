//! The tableau of a formula's rows, and which of them are bound.
ghost use Rattle.std.specs.Prelude.{◌≡◌, length, map, IfOk};
ghost use Rattle.bt_cnf.specs.Assignments.{truth_in};
ghost use Rattle.bt_theory.specs.Reaching.{atom_rows};
ghost use Rattle.bt_theory.specs.inner.Bases.{IsBase, base_in};
ghost use Rattle.bt_theory.specs.inner.Rounds.{IsFirst};

use crate::base::Base;
use bt_cnf::{Formula, Var, is_true};
use bt_frac::Row;
use bt_simplex::Tableau;
use std::alloc::{AllocError, Global};

/// The rows that stand before the formula's definitions.
#[tactic(auto, using(crate::proofs::Bases::base_rows))]
fn rows_in<'a>(formula: &'a Formula, base: &Base) -> &'a [Row]
    requires { IsBase base.now formula.now }
    ensures { result.now ≡ atom_rows (base_in base.now formula.now) }
{
    &formula.rows()[..base.atoms.len()]
}

/// The tableau of the rows that stand before the formula's definitions, of which none is bound.
pub fn tableau_of(alloc: Global, formula: &Formula, base: &Base) -> Result<Tableau, AllocError>
    requires { IsBase base.now formula.now }
    ensures { IfOk result (IsFirst (base_in base.now formula.now)) }
{
    let tableau = Tableau::new(alloc, rows_in(formula, base), base.columns)?;
    tableau.all_known();
    Ok(tableau)
}

/// Binds the rows of the atoms that are true, and no other.
pub fn bind(tableau: &mut Tableau, atoms: &[Var], assignment: &[bool])
    requires { length atoms.now ≡ length tableau.old.rows }
    ensures { tableau.new ≡ record tableau.old { bound = map (truth_in assignment.now) atoms.now } }
{
    tableau.all_known();
    for (row, var) in atoms.iter().enumerate() {
        if is_true(assignment, var.place()) {
            tableau.set_bound(row);
        } else {
            tableau.clear_bound(row);
        }
    }
}
