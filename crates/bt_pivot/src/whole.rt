//! Where the positions of a basis stand to their bounds, where small whole numbers tell it.
ghost use Rattle.std.specs.Prelude.{IfSome, IsTrue, ◌↔◌};
ghost use Rattle.bt_pivot.specs.Points.{Fails, IsBoundOrder};
ghost use Rattle.bt_pivot.specs.Sums.{AreKept};
ghost use Rattle.bt_pivot.specs.Tableaus.{with_slots};

use crate::basis::{Basis, Place};
use crate::short_points::{breaks_at, breaks_by, order_by};
use crate::sum_cache::{SumCache, class_sums};
use crate::table::Table;
use std::cmp::Ordering;

/// Whether a position is a bound row of the basis that doesn't hold. None where small whole numbers don't tell it. The
/// sums that are kept are those of the basis's lines.
pub fn fails_whole(
    tableau: &Table,
    basis: &Basis,
    position: usize,
    kept: &mut SumCache,
) -> Option<bool>
    requires kept { AreKept tableau.now basis.now kept.old.sums.items }
    ensures told { IfSome result
        (λ told. IsTrue told ↔ Fails (with_slots tableau.now basis.now) position) }
    ensures kept { AreKept tableau.now basis.now kept.new.sums.items }
{
    tableau.all_known();
    let rest = tableau.whole_rest(position)?;
    let Some(relation) = rest.relation else {
        return Some(false);
    };
    match basis.place(position) {
        Place::Line {
            class,
            first,
            line,
            negated,
        } => {
            line.known();
            let of_class = class_sums(tableau, kept, class, first, line)?;
            let told = breaks_by(relation, rest, of_class.sums, negated)?;
            Some(told)
        }
        Place::Like { other, negated } => {
            let other_rest = tableau.whole_rest(other)?;
            let told = breaks_at(relation, rest, other_rest, negated)?;
            Some(told)
        }
        Place::Outside => Some(false),
    }
}

/// How the bound value of a row of the basis compares with where the row stands. None where small whole numbers don't
/// tell it, or its class has no line. The sums that are kept are those of the basis's lines.
pub fn whole_order(
    tableau: &Table,
    basis: &Basis,
    position: usize,
    kept: &mut SumCache,
) -> Option<Ordering>
    requires kept { AreKept tableau.now basis.now kept.old.sums.items }
    ensures order { IfSome result (IsBoundOrder (with_slots tableau.now basis.now) position) }
    ensures kept { AreKept tableau.now basis.now kept.new.sums.items }
{
    tableau.all_known();
    let rest = tableau.whole_rest(position)?;
    match basis.place(position) {
        Place::Line {
            class,
            first,
            line,
            negated,
        } => {
            line.known();
            let of_class = class_sums(tableau, kept, class, first, line)?;
            let order = order_by(rest, of_class.sums, negated)?;
            Some(order)
        }
        Place::Like { .. } | Place::Outside => None,
    }
}
