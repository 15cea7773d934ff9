//! Checking a certificate that a source tells.
ghost use Rattle.std.specs.Prelude.{◌+◌, ◌<◌, ◌≤◌, ◌^◌};
ghost use Rattle.bt_text.specs.Answers.{UnlessMemory};
ghost use Rattle.bt_io.specs.Passages.{passage};
ghost use Rattle.bt_cert.specs.Certificates.{AreStepsRead};
ghost use Rattle.bt_cert.specs.Readings.{ChecksBy, ChecksLog};
ghost use Rattle.bt_cert.specs.declared.fault.CertFault.TheVariants.{Memory};
ghost use Rattle.bt_cert.specs.inner.Feeding.{ReadsRest};

use crate::defining::Defining;
use crate::fault::CertFault;
use crate::reading::{FIRST_LINE, Reading};
use bt_cnf::Formula;
use bt_io::Source;
use std::alloc::Global;

/// The most bytes that one call asks of its source.
const BLOCK: usize = 65536;

/// Checks that the steps of a text refute the formula that its definitions extend. The text is `head` and
/// what is left of the source, of which at most `limit` bytes are read: lines of definitions, at most
/// 1048576, step lines, the line `end`, and blanks. Its first line has the number 2. The formula is taken, since
/// the definitions extend it in place.
///
/// `ReadFault` comes only where the source's count of faults rose, and `TooLong` exactly where one byte
/// past the limit was taken. Both come before any other fault. What is held meanwhile is the clauses of the steps
/// so far, and one line.
pub fn check_log<S: Source>(
    alloc: Global,
    mut formula: Formula,
    head: &[u8],
    source: &mut S,
    limit: usize,
) -> Result<(), CertFault>
    requires { limit < 2 ^ 62 }
    ensures checked { ChecksLog formula head.now limit
        (passage S.left S.faults source.old source.new) result }
{
    check_text(alloc, &mut formula, head, source, limit)
}

/// Checks that the steps of a text refute a formula, which is left extended as far as definitions were read.
fn check_text<S: Source>(
    alloc: Global,
    formula: &mut Formula,
    head: &[u8],
    source: &mut S,
    limit: usize,
) -> Result<(), CertFault>
    requires { limit < 2 ^ 62 }
    ensures { ChecksLog formula.old head.now limit
        (passage S.left S.faults source.old source.new) result }
{
    let mut defining = Defining::new(alloc, formula);
    defining.take(alloc, formula, head)?;
    match defining.read_on(alloc, formula, source, limit) {
        Ok(Some(taken)) => check_steps(alloc, formula, &defining, source, limit - taken),
        Ok(None) => finish_steps(alloc, formula, &defining),
        Err(fault) => Err(fault),
    }
}

/// Checks the steps behind the definitions.
fn check_steps<S: Source>(
    alloc: Global,
    formula: &Formula,
    defining: &Defining,
    source: &mut S,
    limit: usize,
) -> Result<(), CertFault>
    requires { limit < 2 ^ 62 }
    ensures { ChecksBy (AreStepsRead (FIRST_LINE + defining.now.count) formula.now) defining.now.part limit
        (passage S.left S.faults source.old source.new) result }
{
    let mut reading = Reading::new(alloc, formula, FIRST_LINE + defining.count())?;
    reading.take(defining.part());
    match read_rest(&mut reading, source, limit) {
        Ok(()) => reading.finish(),
        Err(fault) => Err(fault),
    }
}

/// Checks the steps behind the definitions of a text that is at its end.
fn finish_steps(alloc: Global, formula: &Formula, defining: &Defining) -> Result<(), CertFault>
    ensures { UnlessMemory Memory
        (AreStepsRead (FIRST_LINE + defining.now.count) formula.now defining.now.part) result }
{
    let mut reading = Reading::new(alloc, formula, FIRST_LINE + defining.count())?;
    reading.take(defining.part());
    reading.finish()
}

/// Reads on what is left of a source, of which at most `limit` bytes are read.
fn read_rest<S: Source>(
    reading: &mut Reading<'_>,
    source: &mut S,
    limit: usize,
) -> Result<(), CertFault>
    requires limit { limit < 2 ^ 62 }
    requires line { reading.old.line + limit + 1 < 2 ^ 64 }
    ensures rest { ReadsRest limit (passage S.left S.faults source.old source.new)
        reading.old reading.new result }
    ensures count { S.faults source.old ≤ S.faults source.new }
{
    let mut block = [0u8; BLOCK];
    let mut taken = 0;
    while taken <= limit {
        let room = (limit + 1 - taken).min(BLOCK);
        let piece = &mut block[..room];
        let Ok(count) = source.read(piece) else {
            return Err(CertFault::ReadFault);
        };
        if count == 0 {
            return Ok(());
        }
        reading.take(&piece[..count]);
        taken += count;
    }
    Err(CertFault::TooLong)
}
