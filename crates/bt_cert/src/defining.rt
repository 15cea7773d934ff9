//! The lines of definitions, which come first in a certificate.
ghost use Rattle.std.specs.Prelude.{◌≡◌, ◌<◌, ◌≤◌, ◌^◌, ◌↔◌, [], ◌++◌, true, IsTrue, IfOk, OnOk};
ghost use Rattle.bt_text.specs.Lines.{Lacks};
ghost use Rattle.bt_io.specs.Passages.{passage};
ghost use Rattle.bt_cnf.specs.Formulas.{IsFormula};
ghost use Rattle.bt_extend.specs.Definitions.{IsDefinition};
ghost use Rattle.bt_extend.specs.Extending.{with_definition};
ghost use Rattle.bt_cert.specs.inner.Defining.{DefinesLine, DefinesOn, GoesOn, HasDefined, MaySo, TakesLine};
ghost use Rattle.bt_cert.specs.inner.Defining.{ReadsDefinitions, TakesLastLine};
ghost use Rattle.bt_cert.specs.Certificates.{IsOfVariable};

use crate::fault::CertFault;
use bt_cnf::Formula;
use bt_extend::{Definition, extend, is_definition, read_definition};
use bt_io::Source;
use bt_text::split_once;
use std::alloc::{AllocError, Global};
use std::marker::Model;
use std::mem::replace;

/// The most definitions of a certificate.
pub const MOST_DEFINITIONS: usize = 1_048_576;

/// The most bytes that one call asks of its source.
const BLOCK: usize = 65536;

/// The definitions at the front of a certificate, of which some bytes were read. They extend the formula
/// as they come, so it holds no more of the text than one line, and what was read behind the definitions.
#[derive(Drop)]
pub struct Defining {
    /// The bytes of a line whose line feed has not come; or what was read behind the definitions.
    part: Vec<u8>,
    /// How many definitions came.
    count: usize,
    /// Whether a line came that is of no definition.
    stopped: bool,
}

impl Model for Defining {
    ghost use Rattle.std.specs.Prelude.{◌≤◌};
    ghost use Rattle.bt_cert.specs.inner.Defining.{DefiningParts};
    ghost use Rattle.bt_cert.specs.declared.defining.TheConstants.{MOST_DEFINITIONS};

    ghost Value = { DefiningParts };

    ghost view = { λ d. record { part = d.part.items; count = d.count; stopped = d.stopped } };

    ghost invariant = { λ d. d.count ≤ MOST_DEFINITIONS };
}

impl Defining {
    /// The definitions of a certificate for a formula, of which no byte was read.
    pub fn new(alloc: Global, formula: &Formula) -> Defining
        ensures read { HasDefined formula.now [] formula.now result }
        ensures known { IsFormula formula.now }
    {
        let _ = formula.vars();
        Defining {
            part: Vec::new(alloc),
            count: 0,
            stopped: false,
        }
    }

    /// Reads one more piece of the text, and keeps what comes behind the definitions.
    pub fn take(
        &mut self,
        alloc: Global,
        formula: &mut Formula,
        piece: &[u8],
    ) -> Result<(), AllocError>
        ensures { OnOk result (DefinesOn formula.old self.old piece.now formula.new self.new) }
    {
        let mut rest = piece;
        while self.goes_on() {
            let Some((line, after)) = split_once(rest, b'\n') else {
                return self.keep(rest);
            };
            if !self.take_line(alloc, formula, line)? {
                return self.stop(rest);
            }
            rest = after;
        }
        self.keep(rest)
    }

    /// Reads on what is left of a source, of which at most `limit` bytes are read, up to a line that is of no
    /// definition. Gives how many bytes were read, or None where the source ended.
    pub fn read_on<S: Source>(
        &mut self,
        alloc: Global,
        formula: &mut Formula,
        source: &mut S,
        limit: usize,
    ) -> Result<Option<usize>, CertFault>
        requires { limit < 2 ^ 62 }
        ensures reads { ReadsDefinitions limit (passage S.left S.faults source.old source.new)
            formula.old self.old formula.new self.new result }
        ensures count { S.faults source.old ≤ S.faults source.new }
    {
        let mut block = [0u8; BLOCK];
        let mut taken = 0;
        while self.goes_on() {
            let room = (limit + 1 - taken).min(BLOCK);
            let piece = &mut block[..room];
            let Ok(count) = source.read(piece) else {
                return Err(CertFault::ReadFault);
            };
            if count == 0 {
                let Ok(()) = self.take_last_line(alloc, formula) else {
                    return Err(CertFault::Memory);
                };
                return Ok(None);
            }
            taken += count;
            if limit < taken {
                return Err(CertFault::TooLong);
            }
            let Ok(()) = self.take(alloc, formula, &piece[..count]) else {
                return Err(CertFault::Memory);
            };
        }
        Ok(Some(taken))
    }

    /// What was read behind the definitions.
    pub fn part(&self) -> &[u8]
        ensures { result.now ≡ self.now.part }
    {
        &self.part
    }

    /// How many definitions came.
    pub fn count(&self) -> usize
        ensures value { result ≡ self.now.count }
        ensures few { result ≤ MOST_DEFINITIONS }
    {
        self.count
    }
}

impl Defining {
    /// Whether one more definition may come.
    fn goes_on(&self) -> bool
        ensures { IsTrue result ↔ GoesOn self.now }
    {
        !self.stopped && self.count < MOST_DEFINITIONS
    }

    /// Keeps the front of a line that goes on, or what comes behind the definitions.
    fn keep(&mut self, rest: &[u8]) -> Result<(), AllocError>
        ensures { OnOk result (self.new ≡ record self.old { part = self.old.part ++ rest.now }) }
    {
        self.part.extend_from_slice(rest)?;
        Ok(())
    }

    /// Keeps what begins with a line that is of no definition.
    fn stop(&mut self, rest: &[u8]) -> Result<(), AllocError>
        ensures { OnOk result
            (self.new ≡ record self.old { part = self.old.part ++ rest.now; stopped = true }) }
    {
        self.stopped = true;
        self.keep(rest)
    }

    /// Reads the last line of the text, which lacks its line feed.
    fn take_last_line(&mut self, alloc: Global, formula: &mut Formula) -> Result<(), AllocError>
        requires { GoesOn self.old }
        ensures { OnOk result (TakesLastLine formula.old self.old formula.new self.new) }
    {
        self.take_line(alloc, formula, b"")?;
        Ok(())
    }

    /// Reads the rest of a line, and tells whether the line is that of a definition, which then extends the formula.
    /// Where it isn't, the rest isn't kept.
    fn take_line(
        &mut self,
        alloc: Global,
        formula: &mut Formula,
        line: &[u8],
    ) -> Result<bool, AllocError>
        requires { GoesOn self.old }
        ensures { IfOk result (TakesLine formula.old self.old line.now formula.new self.new) }
    {
        let read = self.part.len();
        self.part.extend_from_slice(line)?;
        let defines = define(alloc, formula, &self.part)?;
        if defines {
            self.part.clear();
            self.count += 1;
        } else {
            self.part.truncate(read);
        }
        Ok(defines)
    }
}

/// Extends the formula by the definition of a line, and tells whether the line is that of one that may stand there.
fn define(alloc: Global, formula: &mut Formula, line: &[u8]) -> Result<bool, AllocError>
    ensures { IfOk result (DefinesLine formula.old line.now formula.new) }
{
    let Some(definition) = read_definition(alloc, line)? else {
        return Ok(false);
    };
    if !may_stand(formula, &definition) {
        return Ok(false);
    }
    extend_in_place(alloc, formula, &definition)?;
    Ok(true)
}

/// Extends the formula by a definition. Where memory runs out, an empty formula is left.
fn extend_in_place(
    alloc: Global,
    formula: &mut Formula,
    definition: &Definition,
) -> Result<(), AllocError>
    requires { IsDefinition formula.old definition.now }
    ensures { OnOk result (formula.new ≡ with_definition formula.old definition.now) }
{
    // The empty formula stands in for the one that `extend` takes, and has no memory of its own.
    let whole = replace(formula, Formula::new(alloc, 0)?);
    *formula = extend(alloc, whole, definition)?;
    Ok(())
}

/// Whether a definition may come next where this is the formula so far: where that has no rows, only a variable may be
/// defined.
fn may_stand(formula: &Formula, definition: &Definition) -> bool
    ensures { IsTrue result ↔ MaySo formula.now definition.now }
{
    if formula.rows().is_empty() && !is_of_variable(definition) {
        return false;
    }
    is_definition(formula, definition)
}

/// Whether a definition is of a variable, which is that of a disjunction.
fn is_of_variable(definition: &Definition) -> bool
    ensures { IsTrue result ↔ IsOfVariable definition.now }
{
    match definition {
        Definition::Disjunction(_) => true,
        _ => false,
    }
}
