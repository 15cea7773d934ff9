//! Rows and weights that show that no values meet the bound rows, at a basis at which a position fails
//! and none can enter for it.
ghost use Rattle.std.specs.Prelude.{◌≡◌, ◌<◌, ◌≤◌, ◌-◌, ◌^◌, [], ◌∷◌, IfOk, IfErr, map, length, Some, None, IsTrue, ◌↔◌};
ghost use Rattle.std.specs.List.{All};
ghost use Rattle.bt_frac.specs.Ratio.{negated};
ghost use Rattle.bt_frac.specs.Deltas.{IsLessDelta};
ghost use Rattle.bt_farkas.specs.Farkas.{IsFarkas};
ghost use Rattle.bt_farkas.specs.WeightedRows.{coefficient_at, weighted};
ghost use Rattle.bt_simplex.specs.Causes.{IsCause};
ghost use Rattle.bt_simplex.specs.Checks.{RefutesBoundRows};
ghost use Rattle.bt_linear_forms.specs.Lines.{one, IsLine, IsCombination};
ghost use Rattle.bt_pivot.specs.Points.{bound_value};
ghost use Rattle.bt_pivot.specs.Tableaus.{IsTableau, with_slots};
ghost use Rattle.bt_simplex.specs.Pivots.{IsStuckAt};
ghost use Rattle.bt_simplex.specs.inner.Lemmas.{weight_of, AreLineWeights};

use crate::points::{bound_value, line_point};
use crate::sums::sum_cause;
use bt_farkas::{SumFault, Weigher, WideAt};
use bt_frac::{Delta, Frac, Row};
use bt_linear_forms::{Line, Term, combined};
use bt_pivot::{Basis, Cause, Table};
use std::alloc::{AllocError, Global};
use std::cmp::Ordering;

/// Whether a row stands above its bound value.
fn is_above(row: &Row, point: &Delta) -> bool
    ensures { IsTrue result ↔ IsLessDelta (bound_value row.now) point.now }
{
    bound_value(row).compare(point) == Ordering::Less
}

/// What is 0 wherever a line holds of its position: the line less the position, which it lacks.
fn difference(alloc: Global, position: usize, terms: &[Term]) -> Result<Line, AllocError>
    requires position { position < 2 ^ 64 - 1 }
    requires line { IsLine terms.now }
    requires lacks { coefficient_at position terms.now ≡ None }
    ensures line { IfOk result IsLine }
    ensures sum { IfOk result (IsCombination ((position, negated one) ∷ []) one terms.now) }
{
    match combined(
        alloc,
        &[(position, Frac::whole(-1))],
        &Frac::whole(1),
        terms,
    )? {
        Ok(line) => Ok(line),
        Err(_) => unreachable!(),
    }
}

/// The rows of a line's positions, which are no columns, each with its number in the line as its weight: as it is where
/// the failing row is above its bound value, and else negated.
fn weights_of(
    alloc: Global,
    columns: usize,
    above: bool,
    line: &[Term],
) -> Result<Vec<(usize, Frac)>, AllocError>
    requires { All (λ t. columns ≤ t.0) line.now }
    ensures { IfOk result (λ v. v.items ≡ map (weight_of columns above) line.now) }
{
    let mut weights = Vec::with_capacity(alloc, line.len())?;
    for (position, number) in line {
        let weight = if above { *number } else { number.negate() };
        weights.push((*position - columns, weight))?;
    }
    Ok(weights)
}

/// The weights of the failing row and of the rows of its line, where none of these can enter; or the operation for
/// where it stands whose result leaves 128 bits.
fn stuck_weights(
    tableau: &Table,
    alloc: Global,
    basis: &Basis,
    position: usize,
) -> Result<Result<Vec<(usize, Frac)>, Cause>, AllocError>
    requires tableau { IsTableau (with_slots tableau.now basis.now) }
    requires stuck { IsStuckAt (with_slots tableau.now basis.now) position }
    ensures weights { IfOk result
        (λ o. IfOk o (λ v. AreLineWeights (with_slots tableau.now basis.now) position v.items)) }
    ensures unfit { IfOk result (λ o. IfErr o (IsCause (with_slots tableau.now basis.now))) }
{
    let Some(found) = basis.line(alloc, Vec::new(alloc), position)? else {
        unreachable!()
    };
    let terms = found.terms(alloc)?;
    // This tells a proof that the number of positions fits 64 bits.
    let _ = basis.len();
    let Some(row) = tableau.bound_row(position) else {
        unreachable!()
    };
    let point = match line_point(tableau, position, &found) {
        Ok(point) => point,
        Err(cause) => return Ok(Err(cause)),
    };
    let line = difference(alloc, position, &terms)?;
    let others = line.terms(alloc)?;
    let weights = weights_of(alloc, tableau.columns(), is_above(row, &point), &others)?;
    Ok(Ok(weights))
}

/// The rows of weights, and the weights.
fn parted(alloc: Global, weights: &[(usize, Frac)]) -> Result<(Vec<usize>, Vec<Frac>), AllocError>
    ensures picks { IfOk result (λ p. p.0.items ≡ map (λ w. w.0) weights.now) }
    ensures numbers { IfOk result (λ p. p.1.items ≡ map (λ w. w.1) weights.now) }
{
    let mut picks = Vec::with_capacity(alloc, weights.len())?;
    let mut numbers = Vec::with_capacity(alloc, weights.len())?;
    for (row, weight) in weights {
        picks.push(*row)?;
        numbers.push(*weight)?;
    }
    Ok((picks, numbers))
}

/// Whether weighted rows add up to a row that no values meet, or where their sum leaves 128 bits.
fn weighed(
    alloc: Global,
    rows: &[Row],
    picks: &[usize],
    weights: &[Frac],
) -> Result<Result<bool, WideAt>, AllocError>
    requires picks { All (λ pick. pick < length rows.now) picks.now }
    requires weights { length weights.now ≡ length picks.now }
    ensures { IfOk result (IsFarkas (weighted rows.now picks.now weights.now)) }
{
    match Weigher::new(alloc).farkas(rows, picks, weights) {
        Ok(is_false) => Ok(Ok(is_false)),
        Err(SumFault::Wide(at)) => Ok(Err(at)),
        Err(SumFault::Memory) => Err(AllocError),
    }
}

/// Bound rows and weights that `farkas` accepts, where a position fails and none can enter for it; or the operation for
/// them whose result leaves 128 bits.
pub fn lemma(
    tableau: &Table,
    alloc: Global,
    basis: &Basis,
    position: usize,
) -> Result<Result<Vec<(usize, Frac)>, Cause>, AllocError>
    requires tableau { IsTableau (with_slots tableau.now basis.now) }
    requires stuck { IsStuckAt (with_slots tableau.now basis.now) position }
    ensures weights { IfOk result
        (λ o. IfOk o (λ v. RefutesBoundRows (with_slots tableau.now basis.now) v.items)) }
    ensures unfit { IfOk result (λ o. IfErr o (IsCause (with_slots tableau.now basis.now))) }
{
    let weights = match stuck_weights(tableau, alloc, basis, position)? {
        Ok(weights) => weights,
        Err(cause) => return Ok(Err(cause)),
    };
    let (picks, numbers) = parted(alloc, &weights)?;
    match weighed(alloc, tableau.rows(), &picks, &numbers)? {
        Ok(_) => Ok(Ok(weights)),
        Err(at) => Ok(Err(sum_cause(tableau.rows(), &weights, at))),
    }
}
