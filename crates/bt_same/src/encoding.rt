//! The formula of two networks.
ghost use Rattle.std.specs.Prelude.{◌≡◌, IfOk, OnOk};
ghost use Rattle.bt_net.specs.Network.{IsNetwork};
ghost use Rattle.bt_cnf.specs.Formulas.{IsFormula};
ghost use Rattle.bt_flow_formula.specs.FlowFormula.{steady_formula};
ghost use Rattle.bt_same.specs.Sameness.{HaveEqualEnds};
ghost use Rattle.bt_same.specs.SameFormula.{same_formula};
ghost use Rattle.bt_same.specs.inner.Joining.{networks_formula};

use crate::difference::add_difference;
use crate::joining::{add_clauses, add_rows};
use crate::shift::Shift;
use bt_cnf::Formula;
use bt_flow_formula::encode_steady;
use bt_net::Net;
use std::alloc::{AllocError, Global};

/// The formulas of the steady states of two networks, side by side: with the marks of both first, then the rows of the
/// first and of the second as variables, and the clauses in the same order.
fn side_by_side(
    alloc: Global,
    first: &Net,
    second: &Net,
    of_first: &Formula,
    of_second: &Formula,
) -> Result<Formula, AllocError>
    requires first { of_first.now ≡ steady_formula first.now }
    requires second { of_second.now ≡ steady_formula second.now }
    ensures { IfOk result (λ formula. formula ≡ networks_formula first.now second.now) }
{
    let first_shift = Shift::of_first(first, second);
    let second_columns = Shift::of_second(first, second);
    let second_vars = Shift {
        far: of_first.vars(),
        ..second_columns
    };
    let marks = first.edges().len() + second.edges().len();
    let mut formula = Formula::new(alloc, marks)?;
    add_rows(alloc, &mut formula, of_first, first_shift)?;
    add_rows(alloc, &mut formula, of_second, second_columns)?;
    add_clauses(alloc, &mut formula, of_first, first_shift)?;
    add_clauses(alloc, &mut formula, of_second, second_vars)?;
    Ok(formula)
}

/// The formula of the steady states of two networks, side by side.
fn networks(alloc: Global, first: &Net, second: &Net) -> Result<Formula, AllocError>
    ensures formula { IfOk result (λ formula. formula ≡ networks_formula first.now second.now) }
    ensures networks { OnOk result (IsNetwork first.now × IsNetwork second.now) }
{
    let of_first = encode_steady(alloc, first)?;
    let of_second = encode_steady(alloc, second)?;
    side_by_side(alloc, first, second, &of_first, &of_second)
}

/// The formula of two networks, which is met by just the pairs of steady states with equal loads and rooms in which
/// the flow of some output differs. Its columns are the flows of the first network, those of the second, the loads and
/// the rooms. Its variables are the marks of the first, those of the second, and the atoms in the order of mention.
pub fn encode_same(alloc: Global, first: &Net, second: &Net) -> Result<Formula, AllocError>
    requires { HaveEqualEnds first.now second.now }
    ensures formula { IfOk result (λ formula. formula ≡ same_formula first.now second.now) }
    ensures known { IfOk result IsFormula }
    ensures networks { OnOk result (IsNetwork first.now × IsNetwork second.now) }
{
    let mut formula = networks(alloc, first, second)?;
    add_difference(alloc, first, second, &mut formula)?;
    // It is known as a formula by this call.
    let _vars = formula.vars();
    Ok(formula)
}
