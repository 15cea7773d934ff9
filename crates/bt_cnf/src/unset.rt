//! The variables that have no value.
ghost use Rattle.std.specs.Prelude.{◌<◌, ◌↔◌, length, IsTrue, OnOk};
ghost use Rattle.bt_cnf.specs.inner.Unset.{AddsUnset};
ghost use Rattle.bt_cnf.specs.Unset.{AreUnset};
ghost use Rattle.bt_cnf.specs.Truths.{LacksValue};

use crate::literal::Var;
use crate::truth::Values;
use std::alloc::AllocError;

/// Lists the variables that have no value, in ascending order, in place of what `unset` held.
pub fn list_unset(unset: &mut Vec<Var>, values: &Values) -> Result<(), AllocError>
    ensures { OnOk result (AreUnset values.now (length values.now) unset.new.items) }
{
    unset.clear();
    for place in 0..values.len() {
        add_unset(unset, values, place)?;
    }
    Ok(())
}

/// Appends the variable at a place, where it has no value.
fn add_unset(unset: &mut Vec<Var>, values: &Values, place: usize) -> Result<(), AllocError>
    requires { place < length values.now }
    ensures { OnOk result (AddsUnset values.now place unset.old.items unset.new.items) }
{
    let var = values.id_of(place);
    if values.get(var).is_unset() {
        unset.push(var)?;
    }
    Ok(())
}

/// Whether a variable is among those that these values are of, and has no value.
pub fn lacks_value(values: &Values, var: Var) -> bool
    ensures { IsTrue result ↔ LacksValue values.now var }
{
    var.place() < values.len() && values.get(var).is_unset()
}
