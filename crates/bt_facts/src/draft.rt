//! Rules as they are drawn up, before their facts have variables. A claim is a fact of a rule: a given one, or one of
//! those of which one follows.
ghost use Rattle.std.specs.Prelude.{◌≡◌, ◌++◌, ◌∷◌, [], map, IfOk, OnOk};
ghost use Rattle.bt_facts.specs.Drafts.{claim, rule_of};
ghost use Rattle.bt_facts.specs.inner.ByHalf as drafts;
ghost use Rattle.bt_facts.specs.Rules.{rule, rule_by};

use crate::fact::{Fact, Half};
use bt_arena::Pool;
use std::alloc::{AllocError, Global};
use std::marker::Model;

/// A fact of a rule: one of those that are given, or one of those of which one follows.
#[derive(Clone, Copy)]
pub struct RuleFact {
    /// What it says.
    pub fact: Fact,
    /// Whether it is one of those that follow.
    pub follows: bool,
}

/// The kind of a draft's rules.
pub struct Drafted;

/// A list of rules.
///
/// A draft is made for a part of a request's rules and let go once they are written, so that no more than a
/// part of them is held.
#[derive(Drop)]
pub struct Draft {
    rules: Pool<RuleFact, Drafted>,
    /// The claims of a rule while it is added.
    claims: Vec<RuleFact>,
}

impl Model for Draft {
    ghost use Rattle.std.specs.Prelude.{List, map};
    ghost use Rattle.bt_facts.specs.Rules.{Rule};
    ghost use Rattle.bt_facts.specs.Drafts.{rule_of};

    ghost Value = { List Rule };

    ghost view = { λ d. map rule_of d.rules };
}

/// Adds a claim for each fact: one of those of which one follows, or else a given one.
fn push_claims(claims: &mut Vec<RuleFact>, facts: &[Fact], follows: bool) -> Result<(), AllocError>
    ensures { OnOk result (claims.new.items ≡ claims.old.items ++ map (claim follows) facts.now) }
{
    for fact in facts {
        claims.push(RuleFact {
            fact: *fact,
            follows,
        })?;
    }
    Ok(())
}

impl Draft {
    /// A draft without rules.
    pub fn new(alloc: Global) -> Result<Draft, AllocError>
        ensures { IfOk result (λ draft. draft ≡ []) }
    {
        Ok(Draft {
            rules: Pool::new(alloc)?,
            claims: Vec::new(alloc),
        })
    }

    /// Adds the rule that where each of the given facts holds, one of the others does.
    pub fn add(&mut self, given: &[Fact], one_of: &[Fact]) -> Result<(), AllocError>
        ensures { OnOk result (self.new ≡ self.old ++ rule given.now one_of.now ∷ []) }
    {
        self.claims.clear();
        push_claims(&mut self.claims, given, false)?;
        push_claims(&mut self.claims, one_of, true)?;
        self.rules.add_slice(&self.claims)?;
        Ok(())
    }

    /// Adds a rule for one half of a splitter: where each of the given facts holds, one of the others does. The rule
    /// for the lesser half binds where `by_lesser` holds, that for the greater half where it doesn't.
    pub fn add_by(
        &mut self,
        half: Half,
        by_lesser: Fact,
        given: &[Fact],
        one_of: &[Fact],
    ) -> Result<(), AllocError>
        ensures { OnOk result (self.new ≡ self.old ++ rule_by half by_lesser given.now one_of.now ∷ []) }
    {
        self.claims.clear();
        self.claims.push(claim_by(half, by_lesser))?;
        push_claims(&mut self.claims, given, false)?;
        push_claims(&mut self.claims, one_of, true)?;
        self.rules.add_slice(&self.claims)?;
        Ok(())
    }

    /// The rules, each as a list of its claims.
    pub fn rules(&self) -> &Pool<RuleFact, Drafted>
        ensures { map rule_of result.now ≡ self.now }
    {
        &self.rules
    }
}

/// The claim that makes a rule bind for this half alone: the fact is given for the lesser half, and follows for the
/// greater one, so that the rule says nothing where it holds.
fn claim_by(half: Half, by_lesser: Fact) -> RuleFact
    ensures { result ≡ drafts.claim_by half by_lesser }
{
    let follows = match half {
        Half::Lesser => false,
        Half::Greater => true,
    };
    RuleFact {
        fact: by_lesser,
        follows,
    }
}
