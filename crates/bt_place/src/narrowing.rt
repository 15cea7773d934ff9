//! More clauses than a request's formula has, for a search that looks for models alone.
//! No answer rests on them, so they are drawn up over any cells, and those of facts that have no variable are left
//! out here: no bound has to be shown.
ghost use Rattle.std.specs.Prelude.{◌≡◌, ◌<◌, length, IfSome, OnOk};
ghost use Rattle.bt_cnf.specs.Formulas.{LitsBelow};
ghost use Rattle.bt_place.specs.Narrowed.{IsNarrowed};

use crate::numbering::Numbers;
use bt_arena::Pool;
use bt_cnf::{Formula, Lit};
use bt_facts::{Draft, Drafted, Fact, RuleFact};
use std::alloc::{AllocError, Global};

/// The literal that is true where a fact holds, or where it doesn't. None where the fact has no variable.
pub fn literal_of(formula: &Formula, numbers: &Numbers, fact: Fact, holds: bool) -> Option<Lit>
    ensures { IfSome result (λ lit. lit.var < formula.now.vars) }
{
    let Some(number) = numbers.find(fact) else {
        return None;
    };
    let Some(var) = formula.var_at(number) else {
        return None;
    };
    Some(Lit {
        var,
        positive: holds,
    })
}

/// Replaces the list by the literals of a rule. Whether each of the rule's facts has a variable: else literals are
/// lacking.
fn set_literals(
    lits: &mut Vec<Lit>,
    formula: &Formula,
    numbers: &Numbers,
    claims: &[RuleFact],
) -> Result<bool, AllocError>
    ensures { OnOk result (LitsBelow formula.now.vars lits.new.items) }
{
    lits.clear();
    for claim in claims {
        match literal_of(formula, numbers, claim.fact, claim.follows) {
            Some(lit) => lits.push(lit)?,
            None => return Ok(false),
        }
    }
    Ok(true)
}

/// Adds the clause of the rule at a place; nothing where some fact of the rule has no variable.
fn narrow_at(
    lits: &mut Vec<Lit>,
    formula: &mut Formula,
    numbers: &Numbers,
    rules: &Pool<RuleFact, Drafted>,
    place: usize,
) -> Result<(), AllocError>
    requires { place < length rules.now }
    ensures { OnOk result (IsNarrowed formula.old formula.new) }
{
    let Some(id) = rules.id_at(place) else {
        return Ok(());
    };
    if set_literals(lits, formula, numbers, rules.slice(id))? {
        formula.add_clause(lits)?;
    }
    Ok(())
}

/// Adds clauses of the rules, so that what meets the formula then met it before. Those that speak of what the request
/// doesn't have are left out.
pub fn narrow(
    alloc: Global,
    formula: &mut Formula,
    numbers: &Numbers,
    draft: &Draft,
) -> Result<(), AllocError>
    ensures { OnOk result (IsNarrowed formula.old formula.new) }
{
    let mut lits = Vec::new(alloc);
    let rules = draft.rules();
    for place in 0..rules.len() {
        narrow_at(&mut lits, formula, numbers, rules, place)?;
    }
    Ok(())
}
