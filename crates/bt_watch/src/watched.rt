//! One watched clause, the first two of whose literals are watched: what becomes of it where one of the
//! two is false.
ghost use Rattle.std.specs.Prelude.{◌≡◌, ◌<◌, ◌≤◌, length};
ghost use Rattle.bt_cnf.specs.Formulas.{LitsBelow};
ghost use Rattle.bt_watch.specs.inner.VisitingClause.{VisitsClause};
ghost use Rattle.bt_cnf.specs.Truths.{IsFalseIn};
ghost use Rattle.bt_watch.specs.inner.Visits.{BringsSecond, CanWatch, ReplacesSecond, Visits};

use bt_cnf::{Packed, Values};

/// What a clause does where a literal has become false.
#[derive(Clone, Copy)]
pub enum Visit {
    /// It doesn't watch the literal any more.
    Stale,
    /// It is true by its other watched literal, this one.
    Satisfied(Packed),
    /// It watches the first literal from now on, which isn't false, in place of the false one. The second is
    /// its other watched literal.
    NewWatch(Packed, Packed),
    /// It is a unit: this literal has no value, and all others are false.
    UnitLit(Packed),
    /// All its literals are false.
    Conflict,
}

/// What a clause does where a literal has become false. Where the clause still watches that one, it is moved to the
/// second place.
pub fn visit_clause(lits: &mut [Packed], false_lit: &Packed, values: &Values) -> Visit
    requires two { 2 ≤ length lits.old }
    requires variables { LitsBelow (length values.now) lits.old }
    requires false_lit { IsFalseIn values.now false_lit.now }
    ensures { VisitsClause values.now false_lit.now lits.old lits.new result }
{
    bring_second(lits, false_lit);
    if !lits[1].is(false_lit) {
        return Visit::Stale;
    }
    visit_second(lits, values)
}

/// Puts a literal into the second place, in exchange, where it stands in the first.
fn bring_second(lits: &mut [Packed], false_lit: &Packed)
    requires { 2 ≤ length lits.old }
    ensures { BringsSecond false_lit.now lits.old lits.new }
{
    if lits[0].is(false_lit) {
        lits.swap(0, 1);
    }
}

/// What a clause does whose second literal, one of the two that it watches, is false.
fn visit_second(lits: &mut [Packed], values: &Values) -> Visit
    requires two { 2 ≤ length lits.old }
    requires variables { LitsBelow (length values.now) lits.old }
    ensures { Visits values.now lits.old lits.new result }
{
    let other = lits[0];
    if other.is_true(values) {
        return Visit::Satisfied(other);
    }
    if let Some(lit) = replace_second(lits, &other, values) {
        return Visit::NewWatch(lit, other);
    }
    if other.is_false(values) {
        return Visit::Conflict;
    }
    Visit::UnitLit(other)
}

/// Puts a literal that isn't false and isn't the first in the second place, in exchange, and gives it. None where no
/// such one stands behind the first two. It looks from the third place on each time: a place remembered for each clause
/// reads fewer literals, but is read itself at each visit, and searches took no less time.
fn replace_second(lits: &mut [Packed], first: &Packed, values: &Values) -> Option<Packed>
    requires two { 2 ≤ length lits.old }
    requires variables { LitsBelow (length values.now) lits.old }
    ensures { ReplacesSecond values.now first.now lits.old lits.new result }
{
    for place in 2..lits.len() {
        let lit = lits[place];
        if can_watch(values, first, &lit) {
            lits.swap(1, place);
            return Some(lit);
        }
    }
    None
}

/// Whether a literal can be watched beside the first one: it is another, and isn't false.
fn can_watch(values: &Values, first: &Packed, lit: &Packed) -> bool
    requires { lit.now.var < length values.now }
    ensures { CanWatch values.now first.now lit.now result }
{
    !lit.is_false(values) && !lit.is(first)
}
