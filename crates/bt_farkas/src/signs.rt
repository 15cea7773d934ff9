//! The signs of weights, against what their rows allow.
ghost use Rattle.std.specs.Prelude.{◌≡◌, ◌<◌, length, IsTrue, ◌↔◌};
ghost use Rattle.std.specs.List.{All, Any};
ghost use Rattle.bt_farkas.specs.FalseSums.{MayHave, MakesStrict, MayWeigh, IsStrict};
ghost use Rattle.bt_farkas.specs.WeightedRows.{weighted};
ghost use Rattle.bt_farkas.specs.inner.Totals.{ArePicks};

use bt_frac::{Frac, Relation, Row};

/// Whether each row at the picked places may have its weight: of those that are no equations none has a negative one.
pub fn may_weigh(rows: &[Row], picks: &[usize], weights: &[Frac]) -> bool
    requires picks { All (λ pick. pick < length rows.now) picks.now }
    requires weights { length weights.now ≡ length picks.now }
    ensures { IsTrue result ↔ All MayWeigh (weighted rows.now picks.now weights.now) }
{
    for (i, pick) in picks.iter().enumerate() {
        if !may_have(rows[*pick].relation(), &weights[i]) {
            return false;
        }
    }
    true
}

/// Whether the sum of the weighted rows is strict: some row that says that its sum is above its bound has a positive
/// weight.
pub fn has_strict(rows: &[Row], picks: &[usize], weights: &[Frac]) -> bool
    requires picks { ArePicks rows.now picks.now }
    requires weights { length weights.now ≡ length picks.now }
    ensures { IsTrue result ↔ Any IsStrict (weighted rows.now picks.now weights.now) }
{
    for (i, pick) in picks.iter().enumerate() {
        if is_strict(rows[*pick].relation(), &weights[i]) {
            return true;
        }
    }
    false
}

/// Whether a row of this relation may have this weight. Only an equation may have a negative one.
fn may_have(relation: Relation, weight: &Frac) -> bool
    ensures { IsTrue result ↔ MayHave relation weight.now }
{
    relation == Relation::Equal || weight.numerator() >= 0
}

/// Whether a row of this relation with this weight makes a sum strict: it says that its sum is above its bound, and the
/// weight is positive.
fn is_strict(relation: Relation, weight: &Frac) -> bool
    ensures { IsTrue result ↔ MakesStrict relation weight.now }
{
    relation == Relation::Above && weight.numerator() > 0
}
