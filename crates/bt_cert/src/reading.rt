//! Reading a certificate piece by piece.
//!
//! What was read of a text is known by its stage, so that pieces may end anywhere, also within a line.
ghost use Rattle.std.specs.Prelude.{◌≡◌, ℕ, ◌+◌, ◌<◌, ◌≤◌, ◌^◌, List, [], ◌∷◌, ◌++◌, ◌↔◌, IsTrue, false, length, IfOk};
ghost use Rattle.bt_text.specs.Answers.{UnlessMemory};
ghost use Rattle.bt_text.specs.Lines.{Lacks};
ghost use Rattle.bt_cnf.specs.Formulas.{IsFormula};
ghost use Rattle.bt_cert.specs.Certificates.{AreStepsRead};
ghost use Rattle.bt_cert.specs.inner.Checking.{start_of};
ghost use Rattle.bt_cert.specs.declared.fault.CertFault.TheVariants.{Memory};
ghost use Rattle.bt_cert.specs.declared.stage.Stage.TheVariants.{Steps, Blanks};
ghost use Rattle.bt_cert.specs.inner.Lines.{IsFound};
ghost use Rattle.bt_cert.specs.inner.Stages.{HasRead, ReadsOn, IsEnded, advanced, answer_at, fault_on};

use crate::checker::Checker;
use crate::fault::{CertFault, StepFault};
use crate::line::{Found, find};
use crate::stage::Stage;
use crate::step_line::StepLine;
use bt_cnf::Formula;
use bt_text::{line_feeds, skip_blanks, split_once};
use std::alloc::{AllocError, Global};
use std::marker::Model;

/// The number of the first line of steps. The line before it tells what is certified.
pub const FIRST_LINE: usize = 2;

/// A certificate of which some bytes were read. It holds the clauses of the steps so far, and no more
/// of the text than one line.
#[derive(Drop)]
pub struct Reading<'a> {
    checker: Checker<'a>,
    step: StepLine,
    /// The bytes of a line whose line feed has not come.
    part: Vec<u8>,
    /// The number of the line that comes next or goes on.
    line: usize,
    /// Whether the last step adds the empty clause.
    is_refuted: bool,
    stage: Stage,
}

impl<'a> Model for Reading<'a> {
    ghost use Rattle.bt_cert.specs.inner.Stages.{Progress};

    ghost Value = { Progress };

    ghost view = { λ r. record {
      known = r.checker;
      part = r.part.items;
      line = r.line;
      is_refuted = r.is_refuted;
      stage = r.stage;
    } };
}

impl<'a> Reading<'a> {
    /// A certificate for a formula of which no byte was read, and whose first line has this number.
    pub fn new(alloc: Global, formula: &'a Formula, first: usize) -> Result<Reading<'a>, AllocError>
        ensures formula { IfOk result (λ r. r.known.formula ≡ formula.now) }
        ensures line { IfOk result (λ r. r.line ≡ first) }
        ensures read { IfOk result (HasRead first []) }
        ensures known { IfOk result (λ _. IsFormula formula.now) }
    {
        Ok(Reading {
            checker: Checker::new(alloc, formula)?,
            step: StepLine::new(alloc),
            part: Vec::new(alloc),
            line: first,
            is_refuted: false,
            stage: Stage::Steps,
        })
    }

    /// Reads one more piece of the text. Nothing is done with it where the text was refused.
    pub fn take(&mut self, piece: &[u8])
        requires { self.old.line + length piece.now < 2 ^ 64 }
        ensures line { self.new.line ≤ self.old.line + length piece.now }
        ensures reads { ReadsOn self.old piece.now self.new }
    {
        let mut rest = piece;
        while self.reads_steps() {
            let Some((line, after)) = split_once(rest, b'\n') else {
                self.keep(rest);
                return;
            };
            self.take_line(line);
            rest = after;
        }
        if self.reads_blanks() {
            self.pass_blanks(rest);
        }
    }

    /// The answer to all that was read, which goes no further.
    pub fn finish(mut self) -> Result<(), CertFault>
        requires { self.line + 1 < 2 ^ 64 }
        ensures { (start : ℕ) (text : List ℕ) → HasRead start text self.entry →
            UnlessMemory Memory (AreStepsRead start self.entry.known.formula text) result }
    {
        self.take_last_line();
        self.answer()
    }
}

impl<'a> Reading<'a> {
    /// Whether lines of steps may come.
    fn reads_steps(&self) -> bool
        ensures { IsTrue result ↔ (self.now.stage ≡ Steps) }
    {
        match self.stage {
            Stage::Steps => true,
            _ => false,
        }
    }

    /// Whether blanks may come.
    fn reads_blanks(&self) -> bool
        ensures { IsTrue result ↔ (self.now.stage ≡ Blanks) }
    {
        match self.stage {
            Stage::Blanks => true,
            _ => false,
        }
    }

    /// Whether no byte of a line was read.
    fn has_no_part(&self) -> bool
        ensures none { IsTrue result → self.now.part ≡ [] }
        ensures some { result ≡ false → 0 < length self.now.part }
    {
        self.part.is_empty()
    }

    /// The answer at this stage, where nothing more comes.
    fn answer(&self) -> Result<(), CertFault>
        ensures { result ≡ answer_at self.now.line self.now.stage }
    {
        match self.stage {
            Stage::Steps => Err(CertFault::CertLine(self.line)),
            Stage::Blanks => Ok(()),
            Stage::Refused(fault) => Err(fault),
        }
    }
}

impl<'a> Reading<'a> {
    /// Reads the rest of a line of the steps, and its line feed.
    fn take_line(&mut self, line: &[u8])
        requires stage { self.old.stage ≡ Steps }
        requires room { self.old.line + 1 < 2 ^ 64 }
        requires lacks { Lacks 10 line.now }
        ensures line { self.new.line ≤ self.old.line + 1 }
        ensures reads { ReadsOn self.old (line.now ++ 10 ∷ []) self.new }
    {
        let found = self.find(line);
        self.advance(found);
    }

    /// Reads the last line of the text, where it lacks its line feed.
    fn take_last_line(&mut self)
        requires { self.old.line + 1 < 2 ^ 64 }
        ensures { (start : ℕ) (text : List ℕ) → HasRead start text self.old →
            IsEnded start self.old.known.formula text self.new }
    {
        if self.reads_steps() {
            self.take_part();
        }
    }

    /// Reads what there is of a line of the steps as a whole line.
    fn take_part(&mut self)
        requires stage { self.old.stage ≡ Steps }
        requires room { self.old.line + 1 < 2 ^ 64 }
        ensures { (start : ℕ) (text : List ℕ) → HasRead start text self.old →
            IsEnded start self.old.known.formula text self.new }
    {
        if self.has_no_part() {
            return;
        }
        let found = self.find(b"");
        self.advance(found);
    }

    /// Finds what the line is that begins with what was kept of it and ends with these bytes.
    fn find(&mut self, line: &[u8]) -> Found
        ensures found { IsFound self.old.known (self.old.part ++ line.now) self.new.known result }
        ensures same { self.new ≡ record self.old { known = self.new.known; part = [] } }
    {
        if self.part.is_empty() {
            return find(&mut self.checker, &mut self.step, line);
        }
        let found = match self.part.extend_from_slice(line) {
            Ok(()) => find(&mut self.checker, &mut self.step, &self.part),
            Err(_) => Found::Refused(StepFault::Memory),
        };
        self.part.clear();
        found
    }

    /// Goes on after a whole line that is this: to the next one, to the blanks after the line `end`, or to a fault.
    fn advance(&mut self, found: Found)
        requires { self.old.line + 1 < 2 ^ 64 }
        ensures { self.new ≡ advanced self.old found }
    {
        match found {
            Found::Step(is_empty) => {
                self.line += 1;
                self.is_refuted = is_empty;
            }
            Found::End => {
                self.line += 1;
                self.stage = if self.is_refuted {
                    Stage::Blanks
                } else {
                    Stage::Refused(CertFault::NoVerdict)
                };
            }
            Found::Refused(fault) => self.stage = Stage::Refused(on_line(self.line, fault)),
            Found::Other => self.stage = Stage::Refused(CertFault::CertLine(self.line)),
        }
    }

    /// Keeps the front of a line that goes on. Where memory runs out, the text is refused.
    fn keep(&mut self, part: &[u8])
        requires stage { self.old.stage ≡ Steps }
        requires lacks { Lacks 10 part.now }
        ensures line { self.new.line ≡ self.old.line }
        ensures reads { ReadsOn self.old part.now self.new }
    {
        if self.part.extend_from_slice(part).is_err() {
            self.stage = Stage::Refused(CertFault::Memory);
        }
    }

    /// Passes over blanks, which alone may stand after the line `end`.
    fn pass_blanks(&mut self, text: &[u8])
        requires stage { self.old.stage ≡ Blanks }
        requires room { self.old.line + length text.now < 2 ^ 64 }
        ensures line { self.new.line ≤ self.old.line + length text.now }
        ensures reads { ReadsOn self.old text.now self.new }
    {
        let rest = skip_blanks(text);
        self.line += line_feeds(&text[..text.len() - rest.len()]);
        if rest.is_empty() {
            return;
        }
        self.stage = Stage::Refused(CertFault::CertLine(self.line));
    }
}

/// The fault of a certificate whose step on this line has a fault.
fn on_line(line: usize, fault: StepFault) -> CertFault
    ensures { result ≡ fault_on line fault }
{
    match fault {
        StepFault::Fails(cause) => CertFault::BadStep(line, cause),
        StepFault::Wide(at) => CertFault::CertWide(line, at.row, at.column),
        StepFault::Memory => CertFault::Memory,
    }
}
