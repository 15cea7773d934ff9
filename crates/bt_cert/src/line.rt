//! Whole lines of a certificate.
ghost use Rattle.bt_cert.specs.inner.Lines.{IsFound};

use crate::checker::Checker;
use crate::fault::StepFault;
use crate::step_line::StepLine;

/// What a whole line is.
#[derive(Clone, Copy)]
pub enum Found {
    /// The line after the last step.
    End,
    /// A valid step, whose clause was kept, and whether that is empty.
    Step(bool),
    /// A step that was not kept.
    Refused(StepFault),
    /// No line of a certificate.
    Other,
}

/// Judges a whole line. The step is read into `step`, whatever stood there.
pub fn find(checker: &mut Checker<'_>, step: &mut StepLine, line: &[u8]) -> Found
    ensures { IsFound checker.old line.now checker.new result }
{
    match step.read(line) {
        Err(_) => Found::Refused(StepFault::Memory),
        Ok(true) => match checker.judge(step) {
            Ok(is_empty) => Found::Step(is_empty),
            Err(fault) => Found::Refused(fault),
        },
        Ok(false) if line == b"end".as_slice() => Found::End,
        Ok(false) => Found::Other,
    }
}
