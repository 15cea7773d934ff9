//! The numbering of claims: each mention of a row becomes a variable of its own, and the first row of a pair keeps the
//! variable that it has. A claim is what a literal says of a state.
//!
//! A lemma has only negative literals. With a row and its opposite as two variables, of which one is true, facts about
//! flows are literals, and logs grow about as the number of splitters; where each row is mentioned once, each lemma
//! carries a tree of marks.
ghost use Rattle.std.specs.Prelude.{◌≡◌, ◌<◌, ◌∷◌, [], OnOk, IfOk};
ghost use Rattle.std.specs.List.{AllByRecursion};
ghost use Rattle.bt_flow_formula.specs.declared.state_literal.StateLiteral.TheVariants.{Says};
ghost use Rattle.bt_flow_formula.specs.inner.Within.{IsWithin};
ghost use Rattle.bt_flow_formula.specs.inner.Adding.{IsAfter, with_clauses};
ghost use Rattle.bt_flow_formula.specs.inner.Variables.{at_in};

use crate::state_literal::{Pair, StateLiteral};
use crate::variables::PairVars;
use bt_cnf::{Formula, Lit, Var};
use bt_frac::Row;
use std::alloc::AllocError;

/// The variable at a place below the number of variables.
pub fn var_at(formula: &Formula, place: usize) -> Var
    requires { place < formula.now.vars }
    ensures { result ≡ place }
{
    match formula.var_at(place) {
        Some(var) => var,
        None => unreachable!(),
    }
}

/// The variable of the first row of a pair, which is below the number of variables.
fn first_var(formula: &Formula, pairs: &PairVars, pair: Pair) -> Var
    requires { at_in pairs.now pair < formula.now.vars }
    ensures { result ≡ at_in pairs.now pair }
{
    // It is below this number, so no sum overflows.
    let _vars = formula.vars();
    var_at(formula, pairs.at(pair))
}

/// The literal of a claim. A row that it mentions becomes a variable of its own.
pub fn literal_of(
    formula: &mut Formula,
    pairs: &PairVars,
    claim: StateLiteral,
) -> Result<Lit, AllocError>
    requires { IsWithin (at_in pairs.now) formula.old.vars claim }
    ensures { IfOk result (λ lit.
        IsAfter (at_in pairs.now) formula.old (claim ∷ []) formula.new (lit ∷ [])) }
{
    let (var, positive) = match claim {
        StateLiteral::Mark { edge, backed } => (var_at(formula, edge), backed),
        StateLiteral::Says(row) => (formula.add_atom(row)?, true),
        StateLiteral::First(pair) => (first_var(formula, pairs, pair), true),
    };
    Ok(Lit { var, positive })
}

/// Adds the clause that a row holds.
pub fn add_row(formula: &mut Formula, pairs: &PairVars, row: Row) -> Result<(), AllocError>
    ensures { OnOk result (formula.new
        ≡ with_clauses (at_in pairs.now) formula.old ((Says row ∷ []) ∷ [])) }
{
    let only = literal_of(formula, pairs, StateLiteral::Says(row))?;
    formula.add_clause(&[only])?;
    Ok(())
}

/// Adds a clause of two claims.
pub fn add_two(
    formula: &mut Formula,
    pairs: &PairVars,
    first: StateLiteral,
    second: StateLiteral,
) -> Result<(), AllocError>
    requires { AllByRecursion (IsWithin (at_in pairs.now) formula.old.vars) (first ∷ second ∷ []) }
    ensures { OnOk result (formula.new
        ≡ with_clauses (at_in pairs.now) formula.old ((first ∷ second ∷ []) ∷ [])) }
{
    let one = literal_of(formula, pairs, first)?;
    let two = literal_of(formula, pairs, second)?;
    formula.add_clause(&[one, two])?;
    Ok(())
}

/// Adds a clause of three claims.
pub fn add_three(
    formula: &mut Formula,
    pairs: &PairVars,
    first: StateLiteral,
    second: StateLiteral,
    third: StateLiteral,
) -> Result<(), AllocError>
    requires { AllByRecursion (IsWithin (at_in pairs.now) formula.old.vars)
        (first ∷ second ∷ third ∷ []) }
    ensures { OnOk result (formula.new
        ≡ with_clauses (at_in pairs.now) formula.old ((first ∷ second ∷ third ∷ []) ∷ [])) }
{
    let one = literal_of(formula, pairs, first)?;
    let two = literal_of(formula, pairs, second)?;
    let three = literal_of(formula, pairs, third)?;
    formula.add_clause(&[one, two, three])?;
    Ok(())
}
