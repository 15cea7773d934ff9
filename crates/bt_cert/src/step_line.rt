//! The step of a line, in lists that are used again for the next line.
ghost use Rattle.std.specs.Prelude.{◌≡◌, [], ◌∷◌, IfOk};
ghost use Rattle.bt_cert.specs.StepLines.{Lemma, IsWritten};
ghost use Rattle.bt_cert.specs.inner.Lines.{IsStepRead};
ghost use Rattle.bt_cert.specs.inner.Views.{written_of};

use crate::written::{StepKind, WrittenView};
use bt_extend::{WrittenLit, read_items};
use bt_frac::Frac;
use bt_text::after_word;
use std::alloc::{AllocError, Global};
use std::marker::Model;

/// A written step. It keeps its memory when it is cleared, so that one serves for all lines.
#[derive(Drop)]
pub struct StepLine {
    kind: StepKind,
    lits: Vec<WrittenLit>,
    weights: Vec<Frac>,
    hints: Vec<u64>,
}

impl Model for StepLine {
    ghost use Rattle.bt_cert.specs.StepLines.{WrittenStep};
    ghost use Rattle.bt_cert.specs.inner.Views.{step_of_kind, AreWritten};

    ghost Value = { WrittenStep };

    ghost view = { λ s. step_of_kind s.kind s.lits.items s.weights.items s.hints.items };

    ghost invariant = { λ s. AreWritten s.lits.items s.weights.items s.hints.items };
}

impl StepLine {
    /// A lemma without literals and weights.
    pub fn new(alloc: Global) -> StepLine
        ensures { result ≡ Lemma [] [] }
    {
        StepLine {
            kind: StepKind::Lemma,
            lits: Vec::new(alloc),
            weights: Vec::new(alloc),
            hints: Vec::new(alloc),
        }
    }

    /// The step with its lists.
    pub fn view(&self) -> WrittenView<'_>
        ensures value { written_of result ≡ self.now }
        ensures known { IsWritten self.now }
    {
        match self.kind {
            StepKind::Lemma => WrittenView::Lemma {
                lits: &self.lits,
                weights: &self.weights,
            },
            StepKind::Learnt => WrittenView::Learnt {
                lits: &self.lits,
                hints: &self.hints,
            },
        }
    }

    /// Reads the step of a line, and tells whether there is one.
    pub fn read(&mut self, line: &[u8]) -> Result<bool, AllocError>
        ensures { IfOk result (IsStepRead line.now self.new) }
    {
        match line {
            [b'f', rest @ ..] => self.read_lemma(rest),
            [b'r', rest @ ..] => self.read_learnt(rest),
            _ => Ok(false),
        }
    }

    /// Reads a lemma, whose line begins with `f` and goes on with this text, and tells whether it is one.
    fn read_lemma(&mut self, text: &[u8]) -> Result<bool, AllocError>
        ensures { IfOk result (IsStepRead (102 ∷ text.now) self.new) }
    {
        self.kind = StepKind::Lemma;
        let rest = read_items(&mut self.lits, text)?;
        let Some(weights) = after_word(rest, b" 0") else {
            return Ok(false);
        };
        let rest = read_items(&mut self.weights, weights)?;
        Ok(rest.is_empty())
    }

    /// Reads a learnt clause, whose line begins with `r` and goes on with this text, and tells whether it is one.
    fn read_learnt(&mut self, text: &[u8]) -> Result<bool, AllocError>
        ensures { IfOk result (IsStepRead (114 ∷ text.now) self.new) }
    {
        self.kind = StepKind::Learnt;
        let rest = read_items(&mut self.lits, text)?;
        let Some(hints) = after_word(rest, b" 0") else {
            return Ok(false);
        };
        let rest = read_items(&mut self.hints, hints)?;
        Ok(rest == b" 0".as_slice())
    }
}
