//! The judging of a lemma.
ghost use Rattle.std.specs.Prelude.{◌≡◌, ◌<◌, length, IfOk, IsTrue, ◌↔◌};
ghost use Rattle.std.specs.List.{All};
ghost use Rattle.bt_cnf.specs.Formulas.{LitsBelow};
ghost use Rattle.bt_frac.specs.Ratio.{IsLowest};
ghost use Rattle.bt_farkas.specs.WeightedRows.{picked};
ghost use Rattle.bt_cert.specs.Judging.{MayWeighRows};
ghost use Rattle.bt_cert.specs.inner.Weighing.{IsNegatedRow, IsPicked, JudgesLemma, rows_of};

use crate::fault::{Cause, StepFault};
use bt_cnf::{Formula, Lit};
use bt_farkas::{SumFault, Weigher, may_weigh};
use bt_frac::Frac;
use std::alloc::{AllocError, Global};

/// Room in which a lemma is judged, and which serves each lemma anew.
#[derive(Drop)]
pub struct LemmaRoom {
    /// The places of the rows of the atoms.
    picks: Vec<usize>,
    weigher: Weigher,
}

impl LemmaRoom {
    /// Room before the first lemma.
    pub fn new(alloc: Global) -> LemmaRoom {
        LemmaRoom {
            picks: Vec::new(alloc),
            weigher: Weigher::new(alloc),
        }
    }
}

/// Whether the rows of a lemma's atoms, each times its weight, add up to a row that no values meet, and
/// if not, why.
pub fn judge_lemma(
    formula: &Formula,
    lits: &[Lit],
    weights: &[Frac],
    room: &mut LemmaRoom,
) -> Result<(), StepFault>
    requires lits { LitsBelow formula.now.vars lits.now }
    requires fractions { All IsLowest weights.now }
    ensures { JudgesLemma formula.now lits.now weights.now result }
{
    if !pick_atoms(formula, lits, &mut room.picks)? {
        return Err(StepFault::Fails(Cause::Literal));
    }
    if !may_weigh_picked(formula, &room.picks, weights) {
        return Err(StepFault::Fails(Cause::Weight));
    }
    match room.weigher.farkas(formula.rows(), &room.picks, weights) {
        Ok(true) => Ok(()),
        Ok(false) => Err(StepFault::Fails(Cause::Sum)),
        Err(SumFault::Wide(at)) => Err(StepFault::Wide(at)),
        Err(SumFault::Memory) => Err(StepFault::Memory),
    }
}

/// Puts the places of the rows whose atoms the literals negate into `picks`, and tells whether each
/// literal negates an atom.
fn pick_atoms(formula: &Formula, lits: &[Lit], picks: &mut Vec<usize>) -> Result<bool, AllocError>
    requires { LitsBelow formula.now.vars lits.now }
    ensures { IfOk result (IsPicked formula.now lits.now picks.new.items) }
{
    picks.clear();
    for lit in lits {
        let Some(place) = negated_row(formula, *lit) else {
            return Ok(false);
        };
        picks.push(place)?;
    }
    Ok(true)
}

/// The place of the row whose atom a literal negates, where it negates one.
fn negated_row(formula: &Formula, lit: Lit) -> Option<usize>
    requires { lit.var < formula.now.vars }
    ensures { IsNegatedRow formula.now lit result }
{
    if lit.positive {
        return None;
    }
    formula.row_of(lit.var)
}

/// Whether there is a weight for each picked row, and only an equation has a negative one.
fn may_weigh_picked(formula: &Formula, picks: &[usize], weights: &[Frac]) -> bool
    requires { All (λ pick. pick < length (rows_of formula.now)) picks.now }
    ensures { IsTrue result ↔ MayWeighRows (picked (rows_of formula.now) picks.now) weights.now }
{
    weights.len() == picks.len() && may_weigh(formula.rows(), picks, weights)
}
