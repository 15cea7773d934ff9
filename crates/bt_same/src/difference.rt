//! The clause that the flows of some output differ.
ghost use Rattle.std.specs.Prelude.{◌≡◌, ◌<◌, ◌-◌, ◌^◌, ◌∷◌, [], OnOk, IfOk, true};
ghost use Rattle.bt_flow_formula.specs.Columns as columns;
ghost use Rattle.bt_same.specs.inner.Joining.{with_rows, with_lits, hold_from, difference_rows};

use bt_cnf::{Formula, Lit};
use bt_flow::{Ports, output_edge};
use bt_flow_formula::above;
use bt_net::Net;
use std::alloc::{AllocError, Global};

/// Adds the row that a column is above another, and gives the literal that says so.
fn add_above(alloc: Global, formula: &mut Formula, a: usize, b: usize) -> Result<Lit, AllocError>
    requires a { a < 2 ^ 64 - 1 }
    requires b { b < 2 ^ 64 - 1 }
    ensures row { OnOk result (formula.new ≡ with_rows formula.old (columns.above a b ∷ [])) }
    ensures literal { IfOk result (λ lit. lit ≡ record { var = formula.old.vars; positive = true }) }
{
    let row = above(alloc, a, b)?;
    let var = formula.add_atom(row)?;
    Ok(Lit {
        var,
        positive: true,
    })
}

/// Adds for each output the rows that its flow in either network is above that in the other, and gives the literals
/// that say so.
fn difference_lits(
    alloc: Global,
    first: &Net,
    second: &Net,
    formula: &mut Formula,
) -> Result<Vec<Lit>, AllocError>
    requires { first.now.outputs ≡ second.now.outputs }
    ensures rows { OnOk result (formula.new
        ≡ with_rows formula.old (difference_rows first.now second.now)) }
    ensures literals { IfOk result (λ lits. lits.items
        ≡ hold_from formula.old.vars (difference_rows first.now second.now)) }
{
    let of_first = Ports::of(first);
    let of_second = Ports::of(second);
    let mut lits = Vec::new(alloc);
    for output in 0..first.outputs() as usize {
        let one = output_edge(first, &of_first, output);
        let other = output_edge(second, &of_second, output) + first.edges().len();
        lits.push(add_above(alloc, formula, one, other)?)?;
        lits.push(add_above(alloc, formula, other, one)?)?;
    }
    Ok(lits)
}

/// Adds the clause that the flow of some output is not the same in both networks.
pub fn add_difference(
    alloc: Global,
    first: &Net,
    second: &Net,
    formula: &mut Formula,
) -> Result<(), AllocError>
    requires { first.now.outputs ≡ second.now.outputs }
    ensures { OnOk result (formula.new
        ≡ with_lits (with_rows formula.old (difference_rows first.now second.now))
        (hold_from formula.old.vars (difference_rows first.now second.now) ∷ [])) }
{
    let lits = difference_lits(alloc, first, second, formula)?;
    formula.add_clause(&lits)?;
    Ok(())
}
