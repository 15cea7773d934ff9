//! Where the positions of a tableau stand at a basis. A point is a value and how often the infinitesimal is added to
//! it.
ghost use Rattle.std.specs.Prelude.{◌≡◌, IfOk, IfErr, Some};
ghost use Rattle.bt_frac.specs.Ratio.{IsLowest};
ghost use Rattle.bt_simplex.specs.Causes.{IsCause};
ghost use Rattle.bt_linear_forms.specs.Lines.{IsLine};
ghost use Rattle.bt_pivot.specs.Points.{bound_value, resting, standing, point_at, IsSamePoint, signed_point};
ghost use Rattle.bt_pivot.specs.Tableaus.{with_slots};
ghost use Rattle.bt_linear_forms.specs.Unfits.{IsUnfitHere};
ghost use Rattle.bt_simplex.specs.inner.UnfitPoints.{AddsPart, AddsTerm, IsUnfitTerm, IsUnfitPoint, value_cause};

use bt_frac::{Delta, Frac, Relation, Row};
use bt_linear_forms::{Line, Operation, Term, Unfit, is_zero};
use bt_pivot::{Basis, Cause, Place, Table, WidePlace, short_point};

/// The least that the sum of a row may be: its bound, and the infinitesimal more where the row is strict.
pub fn bound_value(row: &Row) -> Delta
    ensures { result ≡ bound_value row.now }
{
    let tiny = match row.relation() {
        Relation::AtLeast => Frac::whole(0),
        Relation::Above => Frac::whole(1),
        Relation::Equal => Frac::whole(0),
    };
    Delta {
        value: row.bound(),
        tiny,
    }
}

/// Where a position stands while it is outside the basis: a bound row at its bound value, any other at 0.
pub fn rest(tableau: &Table, position: usize) -> Delta
    ensures { result ≡ resting tableau.now position }
{
    match tableau.bound_row(position) {
        Some(row) => bound_value(row),
        None => Delta {
            value: Frac::whole(0),
            tiny: Frac::whole(0),
        },
    }
}

/// The sum with `number` times a part of a point added to it; or the operation whose result leaves 128 bits. A part of
/// 0 asks for no operation.
pub fn added_part(sum: &Frac, position: usize, number: &Frac, part: &Frac) -> Result<Frac, Unfit>
    ensures known { IsLowest sum.now × IsLowest number.now × IsLowest part.now }
    ensures sum { IfOk result (AddsPart sum.now number.now part.now) }
    ensures unfit { IfErr result (IsUnfitHere position (Some sum.now) number.now part.now) }
{
    // This tells a proof that the fractions are in lowest terms.
    let _ = (sum.denominator(), number.denominator(), part.denominator());
    if is_zero(part) {
        return Ok(*sum);
    }
    let Some(product) = number.mul(part) else {
        return Err(Unfit {
            column: position,
            operation: Operation::Mul,
            left: *number,
            right: *part,
        });
    };
    let Some(next) = sum.add(&product) else {
        return Err(Unfit {
            column: position,
            operation: Operation::Add,
            left: *sum,
            right: product,
        });
    };
    Ok(next)
}

/// The sum with a term added to it where its position rests; or the operation whose result leaves 128 bits.
fn added_term(tableau: &Table, sum: &Delta, term: &Term) -> Result<Delta, Unfit>
    ensures sum { IfOk result (AddsTerm (resting tableau.now term.now.0) sum.now term.now.1) }
    ensures unfit { IfErr result (IsUnfitTerm (resting tableau.now term.now.0) sum.now term.now) }
{
    // This tells a proof that the fractions are in lowest terms.
    let _ = (sum.value.denominator(), sum.tiny.denominator());
    let Some(row) = tableau.bound_row(term.0) else {
        return Ok(*sum);
    };
    let point = bound_value(row);
    let value = added_part(&sum.value, term.0, &term.1, &point.value)?;
    let tiny = added_part(&sum.tiny, term.0, &term.1, &point.tiny)?;
    Ok(Delta { value, tiny })
}

/// What the line of a position adds up to where its positions rest; or the operation whose result leaves 128 bits.
pub fn line_point(tableau: &Table, position: usize, line: &Line) -> Result<Delta, Cause>
    ensures known { IsLine line.now }
    ensures point { IfOk result (λ d. IsSamePoint d (standing (resting tableau.now) 0 (Some line.now))) }
    ensures unfit { IfErr result (IsUnfitPoint (resting tableau.now) position line.now) }
{
    line.known();
    if let Some(short) = line.short() {
        if let Some(point) = short_point(tableau, short) {
            return Ok(point);
        }
    }
    long_point(tableau, position, line)
}

/// What the line of a position adds up to where its positions rest, by fractions; or the first product or sum that
/// leaves 128 bits.
fn long_point(tableau: &Table, position: usize, line: &Line) -> Result<Delta, Cause>
    ensures point { IfOk result (λ d. IsSamePoint d (standing (resting tableau.now) 0 (Some line.now))) }
    ensures unfit { IfErr result (IsUnfitPoint (resting tableau.now) position line.now) }
{
    tableau.all_known();
    line.known();
    let mut sum = Delta {
        value: Frac::whole(0),
        tiny: Frac::whole(0),
    };
    for index in 0..line.len() {
        let term = line.term_at(index);
        match added_term(tableau, &sum, &term) {
            Ok(next) => sum = next,
            Err(unfit) => return Err(value_cause(position, unfit)),
        }
    }
    Ok(sum)
}

/// What tells that this operation, for where the position `row` stands, leaves 128 bits.
fn value_cause(row: usize, unfit: Unfit) -> Cause
    ensures { result ≡ value_cause row unfit }
{
    Cause {
        place: WidePlace::Value,
        row,
        column: unfit.column,
        operation: unfit.operation,
        left: unfit.left,
        right: unfit.right,
    }
}

/// The point, negated where `negated` is set.
fn signed_point(point: Delta, negated: bool) -> Delta
    ensures { result ≡ signed_point negated point }
{
    if negated {
        Delta {
            value: point.value.negate(),
            tiny: point.tiny.negate(),
        }
    } else {
        point
    }
}

/// Where a position stands: in the basis by its line, and outside where it rests. Or the operation whose result leaves
/// 128 bits.
pub fn point(tableau: &Table, basis: &Basis, position: usize) -> Result<Delta, Cause>
    ensures point { IfOk result (λ d. IsSamePoint d (point_at (with_slots tableau.now basis.now) position)) }
    ensures unfit { IfErr result (IsCause (with_slots tableau.now basis.now)) }
{
    tableau.all_known();
    match basis.place(position) {
        Place::Line {
            first,
            line,
            negated,
            ..
        } => match line_point(tableau, first, line) {
            Ok(point) => Ok(signed_point(point, negated)),
            Err(cause) => Err(cause),
        },
        Place::Like { other, negated } => Ok(signed_point(rest(tableau, other), negated)),
        Place::Outside => Ok(rest(tableau, position)),
    }
}
