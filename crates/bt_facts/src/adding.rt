//! Rules about lists of facts.
ghost use Rattle.std.specs.Prelude.{◌≡◌, ◌++◌, ◌∷◌, [], map, OnOk};
ghost use Rattle.bt_facts.specs.Rules.{rule, not_all, rule_by, at_most_one, exactly_one, equals_one};

use crate::draft::Draft;
use crate::fact::{Fact, Half};
use std::alloc::AllocError;

/// Adds that each of the facts holds where the given ones do.
pub fn add_implied(draft: &mut Draft, given: &[Fact], facts: &[Fact]) -> Result<(), AllocError>
    ensures { OnOk result (draft.new ≡ draft.old ++ map (λ f. rule given.now (f ∷ [])) facts.now) }
{
    for fact in facts {
        draft.add(given, &[*fact])?;
    }
    Ok(())
}

/// Adds that where any of the facts holds, one of the others does.
fn add_implying(draft: &mut Draft, facts: &[Fact], one_of: &[Fact]) -> Result<(), AllocError>
    ensures { OnOk result (draft.new ≡ draft.old ++ map (λ f. rule (f ∷ []) one_of.now) facts.now) }
{
    for fact in facts {
        draft.add(&[*fact], one_of)?;
    }
    Ok(())
}

/// Adds that none of the others holds where the fact does.
pub fn add_excluded(draft: &mut Draft, fact: Fact, others: &[Fact]) -> Result<(), AllocError>
    ensures { OnOk result (draft.new ≡ draft.old ++ map (λ o. not_all (fact ∷ o ∷ [])) others.now) }
{
    for other in others {
        draft.add(&[fact, *other], &[])?;
    }
    Ok(())
}

/// Adds a rule for one half of a splitter: none of the others holds where the fact does. The rule for the lesser half
/// binds where `by_lesser` holds, that for the greater half where it doesn't.
pub fn add_excluded_by(
    draft: &mut Draft,
    half: Half,
    by_lesser: Fact,
    fact: Fact,
    others: &[Fact],
) -> Result<(), AllocError>
    ensures { OnOk result (draft.new ≡ draft.old
        ++ map (λ o. rule_by half by_lesser (fact ∷ o ∷ []) []) others.now) }
{
    for other in others {
        draft.add_by(half, by_lesser, &[fact, *other], &[])?;
    }
    Ok(())
}

/// Adds that at most one of the facts holds.
pub fn add_at_most_one(draft: &mut Draft, facts: &[Fact]) -> Result<(), AllocError>
    ensures { OnOk result (draft.new ≡ draft.old ++ at_most_one facts.now) }
{
    let mut rest = facts;
    while let Some((fact, others)) = rest.split_first() {
        add_excluded(draft, *fact, others)?;
        rest = others;
    }
    Ok(())
}

/// Adds that where the given facts hold, one of the others does, and that no two of the others hold, whether or not the
/// given facts do.
pub fn add_one_where(draft: &mut Draft, given: &[Fact], facts: &[Fact]) -> Result<(), AllocError>
    ensures { OnOk result (draft.new ≡ draft.old ++ rule given.now facts.now ∷ at_most_one facts.now) }
{
    draft.add(given, facts)?;
    add_at_most_one(draft, facts)
}

/// Adds that exactly one of the facts holds.
pub fn add_exactly_one(draft: &mut Draft, facts: &[Fact]) -> Result<(), AllocError>
    ensures { OnOk result (draft.new ≡ draft.old ++ exactly_one facts.now) }
{
    add_one_where(draft, &[], facts)
}

/// Adds that the fact holds exactly where one of the others does.
pub fn add_equals_one(draft: &mut Draft, fact: Fact, facts: &[Fact]) -> Result<(), AllocError>
    ensures { OnOk result (draft.new ≡ draft.old ++ equals_one fact facts.now) }
{
    draft.add(&[fact], facts)?;
    add_implying(draft, facts, &[fact])
}
