//! Steps as they are written.
use bt_extend::WrittenLit;
use bt_frac::Frac;

/// The two kinds of steps.
#[derive(Clone, Copy, PartialEq, Eq)]
pub enum StepKind {
    /// Literals, and a weight for each of them.
    Lemma,
    /// Literals, and hints.
    Learnt,
}

/// A written step, whose lists are lent.
#[derive(Clone, Copy)]
pub enum WrittenView<'a> {
    /// Literals, and the weights that follow them.
    Lemma {
        lits: &'a [WrittenLit],
        weights: &'a [Frac],
    },
    /// Literals, and the numbers, from 1 on, of the hinted clauses.
    Learnt {
        lits: &'a [WrittenLit],
        hints: &'a [u64],
    },
}
