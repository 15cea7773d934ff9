//! Steps as callers see them.
use bt_cnf::Packed;
use bt_frac::Frac;

/// A step of a log, whose lists are lent.
#[derive(Clone, Copy)]
pub enum StepView<'a> {
    /// A clause of negated atoms, whose rows with these weights, one for each literal, add up to a row
    /// that no values meet.
    Lemma {
        lits: &'a [Packed],
        weights: &'a [Frac],
    },
    /// A clause, and the numbers, from 0 on, of the clauses from which it follows.
    Learnt {
        lits: &'a [Packed],
        hints: &'a [u32],
    },
}
