//! Bland's rule: of the positions that fail the least leaves the basis, and of those that can enter the least does. A
//! position fails where it is a bound row of the basis that doesn't hold; one that its line names can enter for it
//! where moving that one brings the row towards its bound. No run of such pivots comes back to a basis, so each ends;
//! where the greatest leaves or enters, some go round.
ghost use Rattle.std.specs.Prelude.{◌<◌, ◌-◌, ◌^◌, ◌∷◌, [], ℕ, IfOk, IfErr, IsTrue, ◌↔◌, Some};
ghost use Rattle.bt_frac.specs.Deltas.{IsOrderOfDeltas};
ghost use Rattle.bt_frac.specs.Ratio.{Ratio};
ghost use Rattle.bt_frac.specs.Rows.{RowParts};
ghost use Rattle.bt_simplex.specs.Causes.{IsCause};
ghost use Rattle.bt_frac.specs.declared.delta.Delta.{Delta};
ghost use Rattle.bt_pivot.specs.Points.{bound_value, Breaks, Fails, IsBoundOrder};
ghost use Rattle.bt_linear_forms.specs.Lines.{signed_terms, one};
ghost use Rattle.bt_simplex.specs.Pivots.{MovesTowards, CanEnter};
ghost use Rattle.bt_pivot.specs.Tableaus.{with_slots};
ghost use Rattle.bt_simplex.specs.inner.Bases.{MayEnter, Names, Finds, IsLeastOf, IsNext};
ghost use Rattle.bt_pivot.specs.Sums.{AreKept};
ghost use Rattle.bt_linear_forms.specs.TermSigns.{IsSign, IsSignedTerm};

use crate::points::{bound_value, point};
use bt_frac::{Delta, Relation, Row};
use bt_linear_forms::Line;
use bt_pivot::{Basis, Cause, Pivot, Place, SumCache, Table, fails_whole, whole_order};
use std::cmp::Ordering;

/// The least position that has a property.
#[derive(Clone, Copy)]
pub enum Least {
    /// It stands here.
    At(usize),
    /// No position has the property.
    Nowhere,
    /// An operation that the property asks for leaves 128 bits.
    Wide(Cause),
}

/// What Bland's rule says of a basis.
#[derive(Clone, Copy)]
pub enum Next {
    /// This pivot comes next.
    Pivot(Pivot),
    /// No position fails.
    Met,
    /// This position fails, and none can enter for it.
    Stuck(usize),
    /// An operation that the rule asks for leaves 128 bits.
    Wide(Cause),
}

/// Whether a bound row doesn't hold where its sum stands at this point.
fn breaks(row: &Row, point: &Delta) -> bool
    ensures { IsTrue result ↔ Breaks row.now point.now }
{
    match point.compare(&bound_value(row)) {
        Ordering::Less => true,
        Ordering::Equal => false,
        Ordering::Greater => row.relation() == Relation::Equal,
    }
}

/// Whether raising a position with a number of this sign in a row's line moves the row towards its bound value. `bound`
/// is how the bound value compares with where the row stands.
fn moves_towards(bound: Ordering, sign: Ordering) -> bool
    ensures { (row : RowParts) (point : Delta) (number : Ratio)
        → IsOrderOfDeltas bound (bound_value row) point → IsSign sign number.over
        → (IsTrue result ↔ MovesTowards row point number) }
{
    match bound {
        Ordering::Less => sign == Ordering::Less,
        Ordering::Equal => false,
        Ordering::Greater => sign == Ordering::Greater,
    }
}

/// Whether a position with a number of this sign in the failing row's line may enter. One that is no bound row may move
/// either way, an equation's row not at all, and another bound row only upwards, which has to move the failing row
/// towards its bound value. `bound` is how this value compares with where the failing row stands.
fn may_enter(tableau: &Table, bound: Ordering, position: usize, sign: Ordering) -> bool
    ensures { (row : RowParts) (point : Delta) (number : Ratio)
        → IsOrderOfDeltas bound (bound_value row) point → IsSign sign number.over
        → (IsTrue result ↔ MayEnter tableau.now row point position number) }
{
    match tableau.bound_relation(position) {
        Some(relation) => relation != Relation::Equal && moves_towards(bound, sign),
        None => true,
    }
}

/// Whether a position is a bound row of the basis that doesn't hold, by fractions; or the operation for its point whose
/// result leaves 128 bits.
fn fails_long(tableau: &Table, basis: &Basis, position: usize) -> Result<bool, Cause>
    ensures told { IfOk result (λ told. IsTrue told ↔ Fails (with_slots tableau.now basis.now) position) }
    ensures unfit { IfErr result (IsCause (with_slots tableau.now basis.now)) }
{
    let Some(row) = tableau.bound_row(position) else {
        return Ok(false);
    };
    if !basis.has(position) {
        return Ok(false);
    }
    let point = point(tableau, basis, position)?;
    Ok(breaks(row, &point))
}

/// The least position that fails. None of the columns does, so these are passed over.
pub fn leaving(tableau: &Table, basis: &Basis, kept: &mut SumCache) -> Least
    requires { AreKept tableau.now basis.now kept.old.sums.items }
    ensures least { Finds (with_slots tableau.now basis.now)
        (λ p. Fails (with_slots tableau.now basis.now) p) result }
    ensures kept { AreKept tableau.now basis.now kept.new.sums.items }
{
    for position in tableau.columns()..basis.len() {
        match fails_whole(tableau, basis, position, kept) {
            Some(true) => return Least::At(position),
            Some(false) => {}
            None => match fails_long(tableau, basis, position) {
                Ok(true) => return Least::At(position),
                Ok(false) => {}
                Err(cause) => return Least::Wide(cause),
            },
        }
    }
    Least::Nowhere
}

/// The least position of a line that may enter, where the line's numbers are negated if `negated` is set. `bound` is
/// how the bound value of the line's row compares with where that row stands. None where no position may.
fn first_entering(tableau: &Table, bound: Ordering, line: &Line, negated: bool) -> Option<usize>
    ensures { (row : RowParts) (point : Delta) → IsOrderOfDeltas bound (bound_value row) point
        → IsLeastOf (λ e. Names (signed_terms negated line.now) (MayEnter tableau.now row point) e) result }
{
    line.known();
    for index in 0..line.len() {
        let (position, sign) = line.signed_at(index, negated);
        if may_enter(tableau, bound, position, sign) {
            return Some(position);
        }
    }
    None
}

/// How the bound value of a row of the basis compares with where the row stands, by fractions where whole numbers don't
/// tell it; or the operation for its point whose result leaves 128 bits.
fn bound_order(
    tableau: &Table,
    basis: &Basis,
    position: usize,
    kept: &mut SumCache,
) -> Result<Ordering, Cause>
    requires fails { Fails (with_slots tableau.now basis.now) position }
    requires kept { AreKept tableau.now basis.now kept.old.sums.items }
    ensures order { IfOk result (IsBoundOrder (with_slots tableau.now basis.now) position) }
    ensures unfit { IfErr result (IsCause (with_slots tableau.now basis.now)) }
    ensures kept { AreKept tableau.now basis.now kept.new.sums.items }
{
    if let Some(order) = whole_order(tableau, basis, position, kept) {
        return Ok(order);
    }
    let Some(row) = tableau.bound_row(position) else {
        unreachable!()
    };
    let point = point(tableau, basis, position)?;
    Ok(bound_value(row).compare(&point))
}

/// The least position that can enter for one that fails.
pub fn entering(tableau: &Table, basis: &Basis, leaves: usize, kept: &mut SumCache) -> Least
    requires fails { Fails (with_slots tableau.now basis.now) leaves }
    requires kept { AreKept tableau.now basis.now kept.old.sums.items }
    ensures least { Finds (with_slots tableau.now basis.now)
        (λ e. CanEnter (with_slots tableau.now basis.now) leaves e) result }
    ensures kept { AreKept tableau.now basis.now kept.new.sums.items }
{
    match bound_order(tableau, basis, leaves, kept) {
        Ok(order) => match entering_by(tableau, basis, leaves, order) {
            Some(enters) => Least::At(enters),
            None => Least::Nowhere,
        },
        Err(cause) => Least::Wide(cause),
    }
}

/// The least position that can enter for one that fails, where `order` is how the bound value of that one compares with
/// where it stands. None where none can.
fn entering_by(tableau: &Table, basis: &Basis, leaves: usize, order: Ordering) -> Option<usize>
    requires fails { Fails (with_slots tableau.now basis.now) leaves }
    requires order { IsBoundOrder (with_slots tableau.now basis.now) leaves order }
    ensures { IsLeastOf (λ e. CanEnter (with_slots tableau.now basis.now) leaves e) result }
{
    match basis.place(leaves) {
        Place::Line { line, negated, .. } => first_entering(tableau, order, line, negated),
        Place::Like { other, negated } => alone_entering(tableau, order, other, negated),
        Place::Outside => None,
    }
}

/// The sign of 1, or of -1 where `negated` is set.
fn alone_sign(negated: bool) -> Ordering
    ensures { (position : ℕ)
        → IsSignedTerm (signed_terms negated ((position, one) ∷ [])) 0 (position, result) }
{
    if negated {
        Ordering::Less
    } else {
        Ordering::Greater
    }
}

/// The position, where it may enter as the only one of a line, with the number 1, or -1 where `negated` is set. None
/// where it may not.
fn alone_entering(tableau: &Table, bound: Ordering, position: usize, negated: bool) -> Option<usize>
    requires { position < 2 ^ 64 - 1 }
    ensures { (row : RowParts) (point : Delta) → IsOrderOfDeltas bound (bound_value row) point
        → IsLeastOf
        (λ e. Names (signed_terms negated ((position, one) ∷ [])) (MayEnter tableau.now row point) e) result }
{
    let sign = alone_sign(negated);
    if may_enter(tableau, bound, position, sign) {
        Some(position)
    } else {
        None
    }
}

/// Bland's pivot of a basis, or how the basis is final, or the operation whose result leaves 128 bits.
pub fn blands_next(tableau: &Table, basis: &Basis, kept: &mut SumCache) -> Next
    requires { AreKept tableau.now basis.now kept.old.sums.items }
    ensures next { IsNext (with_slots tableau.now basis.now) result }
    ensures kept { AreKept tableau.now basis.now kept.new.sums.items }
{
    match leaving(tableau, basis, kept) {
        Least::At(leaves) => match entering(tableau, basis, leaves, kept) {
            Least::At(enters) => Next::Pivot(Pivot { leaves, enters }),
            Least::Nowhere => Next::Stuck(leaves),
            Least::Wide(cause) => Next::Wide(cause),
        },
        Least::Nowhere => Next::Met,
        Least::Wide(cause) => Next::Wide(cause),
    }
}
