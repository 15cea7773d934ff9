//! Sums of many weighted rows, in room that serves one sum after another.
ghost use Rattle.std.specs.Prelude.{◌≡◌, ◌<◌, length};
ghost use Rattle.std.specs.List.{All};
ghost use Rattle.bt_text.specs.Answers.{Answers};
ghost use Rattle.bt_farkas.specs.Farkas.{IsSumJudged};
ghost use Rattle.bt_farkas.specs.WeightedRows.{weighted};
ghost use Rattle.bt_farkas.specs.declared.wide.SumFault.TheVariants.{Memory};

use crate::gathering::{Entry, gather};
use crate::runs::sum_runs;
use crate::signs::may_weigh;
use crate::weighing::judged;
use crate::wide::SumFault;
use bt_frac::{Frac, Row};
use std::alloc::Global;

/// Room for the terms of the rows of a sum.
#[derive(Drop)]
pub struct Weigher {
    entries: Vec<Entry>,
}

impl Weigher {
    /// No room yet.
    pub fn new(alloc: Global) -> Weigher {
        Weigher {
            entries: Vec::new(alloc),
        }
    }

    /// The answer of [`farkas`](crate::farkas), in the time of sorting the terms of the picked rows; or the error that
    /// no memory could be had.
    pub fn farkas(
        &mut self,
        rows: &[Row],
        picks: &[usize],
        weights: &[Frac],
    ) -> Result<bool, SumFault>
        requires picks { All (λ pick. pick < length rows.now) picks.now }
        requires weights { length weights.now ≡ length picks.now }
        ensures { Answers Memory (IsSumJudged (weighted rows.now picks.now weights.now)) result }
    {
        if !may_weigh(rows, picks, weights) {
            return Ok(false);
        }
        gather(&mut self.entries, rows, picks)?;
        let columns = sum_runs(&self.entries, weights);
        match judged(rows, picks, weights, columns) {
            Ok(is_false) => Ok(is_false),
            Err(at) => Err(SumFault::Wide(at)),
        }
    }
}
