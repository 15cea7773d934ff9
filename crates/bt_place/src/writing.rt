//! Rules as clauses of a formula.
ghost use Rattle.std.specs.Prelude.{◌≡◌, ◌<◌, ◌++◌, ◌∷◌, [], length, map, flat_map, get_or, OnOk};
ghost use Rattle.std.specs.List.{AllByRecursion};
ghost use Rattle.bt_facts.specs.Drafts.{rule_of};
ghost use Rattle.bt_place.specs.Numbering as numbering;
ghost use Rattle.bt_place.specs.PlaceFormula.{clause_of};
ghost use Rattle.bt_place.specs.Within.{IsNumbered, HasNumbered};
ghost use Rattle.bt_place.specs.inner.Writing.{HasVariables, with_rules, given_literal, following_literal};

use crate::numbering::Numbers;
use bt_arena::Pool;
use bt_cnf::{Formula, Lit, Var};
use bt_facts::{Draft, Drafted, Fact, RuleFact};
use std::alloc::{AllocError, Global};

/// The variable of a fact.
fn var_of(formula: &Formula, numbers: &Numbers, fact: Fact) -> Var
    requires within { IsNumbered numbers.now fact }
    requires vars { HasVariables numbers.now formula.now.vars }
    ensures { result ≡ numbering.variable_of numbers.now fact }
{
    match formula.var_at(numbers.variable(fact)) {
        Some(var) => var,
        None => unreachable!(),
    }
}

/// Adds the literal that a claim doesn't hold, where the claim is one of those that are given.
fn push_given(
    lits: &mut Vec<Lit>,
    formula: &Formula,
    numbers: &Numbers,
    claim: RuleFact,
) -> Result<(), AllocError>
    requires within { IsNumbered numbers.now claim.fact }
    requires vars { HasVariables numbers.now formula.now.vars }
    ensures { OnOk result (lits.new.items ≡ lits.old.items ++ given_literal numbers.now claim) }
{
    if claim.follows {
        return Ok(());
    }
    lits.push(Lit {
        var: var_of(formula, numbers, claim.fact),
        positive: false,
    })?;
    Ok(())
}

/// Adds the literal that a claim holds, where the claim is one of those of which one follows.
fn push_following(
    lits: &mut Vec<Lit>,
    formula: &Formula,
    numbers: &Numbers,
    claim: RuleFact,
) -> Result<(), AllocError>
    requires within { IsNumbered numbers.now claim.fact }
    requires vars { HasVariables numbers.now formula.now.vars }
    ensures { OnOk result (lits.new.items ≡ lits.old.items ++ following_literal numbers.now claim) }
{
    if !claim.follows {
        return Ok(());
    }
    lits.push(Lit {
        var: var_of(formula, numbers, claim.fact),
        positive: true,
    })?;
    Ok(())
}

/// Adds for each claim that is given the literal that it doesn't hold.
fn push_all_given(
    lits: &mut Vec<Lit>,
    formula: &Formula,
    numbers: &Numbers,
    claims: &[RuleFact],
) -> Result<(), AllocError>
    requires within { AllByRecursion (λ c. IsNumbered numbers.now c.fact) claims.now }
    requires vars { HasVariables numbers.now formula.now.vars }
    ensures { OnOk result (lits.new.items ≡ lits.old.items
        ++ flat_map (given_literal numbers.now) claims.now) }
{
    for claim in claims {
        push_given(lits, formula, numbers, *claim)?;
    }
    Ok(())
}

/// Adds for each claim of those of which one follows the literal that it holds.
fn push_all_following(
    lits: &mut Vec<Lit>,
    formula: &Formula,
    numbers: &Numbers,
    claims: &[RuleFact],
) -> Result<(), AllocError>
    requires within { AllByRecursion (λ c. IsNumbered numbers.now c.fact) claims.now }
    requires vars { HasVariables numbers.now formula.now.vars }
    ensures { OnOk result (lits.new.items ≡ lits.old.items
        ++ flat_map (following_literal numbers.now) claims.now) }
{
    for claim in claims {
        push_following(lits, formula, numbers, *claim)?;
    }
    Ok(())
}

/// Replaces the list by the literals of a rule's clause: some given claim doesn't hold, or one that follows does.
fn set_literals(
    lits: &mut Vec<Lit>,
    formula: &Formula,
    numbers: &Numbers,
    claims: &[RuleFact],
) -> Result<(), AllocError>
    requires within { HasNumbered numbers.now (rule_of claims.now) }
    requires vars { HasVariables numbers.now formula.now.vars }
    ensures { OnOk result (lits.new.items ≡ clause_of numbers.now (rule_of claims.now)) }
{
    lits.clear();
    push_all_given(lits, formula, numbers, claims)?;
    push_all_following(lits, formula, numbers, claims)?;
    Ok(())
}

/// Adds the clause of a rule, by way of a list of literals whose room is used again.
fn write_rule(
    lits: &mut Vec<Lit>,
    formula: &mut Formula,
    numbers: &Numbers,
    claims: &[RuleFact],
) -> Result<(), AllocError>
    requires within { HasNumbered numbers.now (rule_of claims.now) }
    requires vars { HasVariables numbers.now formula.old.vars }
    ensures { OnOk result (formula.new ≡ with_rules numbers.now formula.old (rule_of claims.now ∷ [])) }
{
    set_literals(lits, formula, numbers, claims)?;
    formula.add_clause(lits)?;
    Ok(())
}

/// Adds the clause of the rule at a place.
fn write_at(
    lits: &mut Vec<Lit>,
    formula: &mut Formula,
    numbers: &Numbers,
    rules: &Pool<RuleFact, Drafted>,
    place: usize,
) -> Result<(), AllocError>
    requires place { place < length rules.now }
    requires within { AllByRecursion (HasNumbered numbers.now) (map rule_of rules.now) }
    requires vars { HasVariables numbers.now formula.old.vars }
    ensures { OnOk result (formula.new ≡ with_rules numbers.now formula.old
        (rule_of (get_or rules.now place []) ∷ [])) }
{
    let Some(id) = rules.id_at(place) else {
        unreachable!()
    };
    write_rule(lits, formula, numbers, rules.slice(id))?;
    Ok(())
}

/// Adds the clauses of the rules.
fn write_rules(
    alloc: Global,
    formula: &mut Formula,
    numbers: &Numbers,
    rules: &Pool<RuleFact, Drafted>,
) -> Result<(), AllocError>
    requires within { AllByRecursion (HasNumbered numbers.now) (map rule_of rules.now) }
    requires vars { HasVariables numbers.now formula.old.vars }
    ensures { OnOk result (formula.new ≡ with_rules numbers.now formula.old (map rule_of rules.now)) }
{
    let mut lits = Vec::new(alloc);
    for place in 0..rules.len() {
        write_at(&mut lits, formula, numbers, rules, place)?;
    }
    Ok(())
}

/// Adds the clauses of the rules that are drawn up.
pub fn write(
    alloc: Global,
    formula: &mut Formula,
    numbers: &Numbers,
    draft: &Draft,
) -> Result<(), AllocError>
    requires within { AllByRecursion (HasNumbered numbers.now) draft.now }
    requires vars { HasVariables numbers.now formula.old.vars }
    ensures { OnOk result (formula.new ≡ with_rules numbers.now formula.old draft.now) }
{
    write_rules(alloc, formula, numbers, draft.rules())
}
