//! A list or an object as far as it is read. Both go on alike, with commas between their values and
//! a byte that closes, and in an object each value has a name before it: so one loop reads both.
ghost use Rattle.std.specs.Prelude.{◌≡◌, ◌<◌, ◌≤◌, ◌+◌, length, IsTrue, IfOk, OnOk};
ghost use Rattle.bt_json.specs.Stands.{json_of, is_full};
ghost use Rattle.bt_json.specs.inner.Running.{ReadsOn};
ghost use Rattle.bt_json.specs.inner.Names.{names_of, TakesName, TakesNameAndColon};
ghost use Rattle.bt_json.specs.inner.Frames.{closing_of, closed};
ghost use Rattle.bt_json.specs.inner.Ahead.{ComesFirst, ComesNext, place_of};

use crate::fault::JsonFault;
use crate::kind::Kind;
use crate::limits::MOST_LEVELS;
use crate::names::{KnownNames, NamesSoFar};
use crate::scan::{expect_byte, skip_blanks, stands_at};
use crate::text::{Unescaped, plain_text};
use crate::tree::Tree;
use std::alloc::{AllocError, Global};

/// What comes behind an opening bracket, or behind a value.
pub enum Ahead {
    /// A value, or its name, from this place on.
    Item(usize),
    /// Nothing more: this is the place behind the closing bracket.
    End(usize),
}

/// What comes behind an opening bracket: the end, where the byte `closing` is the first that is no blank, or else an
/// item, whatever stands there.
fn first_ahead(bytes: &[u8], start: usize, closing: u8) -> Ahead
    requires { start ≤ length bytes.now }
    ensures { ComesFirst bytes.now start closing result }
{
    let at = skip_blanks(bytes, start);
    if stands_at(bytes, at, closing) {
        Ahead::End(at + 1)
    } else {
        Ahead::Item(at)
    }
}

/// What comes behind a value: the end, where the byte `closing` is the first that is no blank, or an item behind a
/// comma. Another byte is a fault.
fn next_ahead(bytes: &[u8], start: usize, closing: u8) -> Result<Ahead, JsonFault>
    requires { start ≤ length bytes.now }
    ensures read { ComesNext bytes.now start closing result }
    ensures later { IfOk result (λ ahead. start < place_of ahead) }
{
    let at = skip_blanks(bytes, start);
    if stands_at(bytes, at, closing) {
        return Ok(Ahead::End(at + 1));
    }
    expect_byte(bytes, at, b',')?;
    Ok(Ahead::Item(at + 1))
}

/// Reads a name whose opening quote stands before `start`, and puts it behind the names before, unless it is among
/// them. Gives whether it was put, and the place behind its closing quote.
fn take_name(
    alloc: Global,
    bytes: &[u8],
    start: usize,
    names: &mut NamesSoFar,
    known: &KnownNames,
) -> Result<(bool, usize), JsonFault>
    requires { start ≤ length bytes.now }
    ensures { TakesName bytes.now start (names_of names.old) (names_of names.new) result }
{
    if let Some(end) = plain_text(bytes, start) {
        let added = match std::str::from_utf8(&bytes[start..end]) {
            Ok(name) => names.push(alloc, name, known)?,
            Err(_) => unreachable!(),
        };
        return Ok((added, end + 1));
    }
    let (name, end) = Unescaped::read(alloc, bytes, start)?;
    let added = names.push(alloc, name.as_str(), known)?;
    Ok((added, end))
}

/// Reads a name and the colon behind it, puts the name behind those before, and gives the place behind the colon. A
/// name that the object has already is a fault.
fn read_name(
    alloc: Global,
    bytes: &[u8],
    start: usize,
    names: &mut NamesSoFar,
    known: &KnownNames,
) -> Result<usize, JsonFault>
    requires { start ≤ length bytes.now }
    ensures read { TakesNameAndColon bytes.now start (names_of names.old) (names_of names.new) result }
    ensures grows { OnOk result (length (names_of names.new) ≡ length (names_of names.old) + 1) }
{
    let quote = skip_blanks(bytes, start);
    expect_byte(bytes, quote, b'"')?;
    let (added, end) = take_name(alloc, bytes, quote + 1, names, known)?;
    if !added {
        return Err(JsonFault::DuplicateKey(quote));
    }
    let colon = skip_blanks(bytes, end);
    expect_byte(bytes, colon, b':')?;
    Ok(colon + 1)
}

/// Makes room for as many values as the object is likely to have names, where there is no room yet.
fn make_room(values: &mut Vec<Tree>, names: &NamesSoFar) -> Result<(), AllocError>
    ensures { OnOk result (values.new.items ≡ values.old.items) }
{
    if values.capacity() == 0 {
        values.reserve_exact(names.likely_len())?;
    }
    Ok(())
}

/// A list or an object as far as it is read.
#[derive(Drop)]
pub struct Nested {
    /// The names of an object. The last one has no value as long as that is read.
    names: Option<NamesSoFar>,
    values: Vec<Tree>,
}

impl Nested {
    ghost use Rattle.bt_json.specs.inner.Nested.{frame_of, IsFilled, IsNamed, Begins, ReadsName, Pushes};

    /// The list or the object that a byte of that kind opens at a place, within that many others. `None` where such a
    /// byte opens none. The 65th level is a fault.
    pub fn begun(
        alloc: Global,
        kind: Kind,
        at: usize,
        depth: usize,
        known: &KnownNames,
    ) -> Result<Option<Nested>, JsonFault>
        ensures { Begins kind at depth result }
    {
        let names = match kind {
            Kind::ListOpens => None,
            Kind::ObjectOpens => Some(known.no_names()?),
            _ => return Ok(None),
        };
        if depth >= MOST_LEVELS {
            return Err(JsonFault::Deep(at));
        }
        let values = Vec::new(alloc);
        Ok(Some(Nested { names, values }))
    }

    /// The byte that closes the list or the object.
    fn closing(&self) -> u8
        ensures { result ≡ closing_of (frame_of self.now) }
    {
        match self.names {
            None => b']',
            Some(_) => b'}',
        }
    }

    /// What comes behind its opening bracket, which stands before `start`: a value or its name, or its end.
    pub fn first(&self, bytes: &[u8], start: usize) -> Ahead
        requires { start ≤ length bytes.now }
        ensures { ComesFirst bytes.now start (closing_of (frame_of self.now)) result }
    {
        first_ahead(bytes, start, self.closing())
    }

    /// Reads in an object the name of the next value and the colon, and gives the place behind them, where the value is
    /// due. In a list a value has no name, and that place is `start`.
    pub fn read_name(
        &mut self,
        alloc: Global,
        bytes: &[u8],
        start: usize,
        known: &KnownNames,
    ) -> Result<usize, JsonFault>
        requires { start ≤ length bytes.now }
        ensures read { ReadsName bytes.now start (frame_of self.old) (frame_of self.new) result }
        ensures named { OnOk result (IsFilled self.old → IsNamed self.new) }
    {
        let Some(names) = &mut self.names else {
            return Ok(start);
        };
        let due = read_name(alloc, bytes, start, names, known)?;
        make_room(&mut self.values, names)?;
        Ok(due)
    }

    /// Puts a value that ends at a place behind the others, and tells what comes there.
    pub fn push(&mut self, bytes: &[u8], value: Tree, end: usize) -> Result<Ahead, JsonFault>
        requires { end ≤ length bytes.now }
        ensures read { Pushes bytes.now end (json_of value) (frame_of self.old) (frame_of self.new) result }
        ensures later { IfOk result (λ ahead. end < place_of ahead) }
        ensures filled { OnOk result (IsTrue (is_full value) → IsNamed self.old → IsFilled self.new) }
    {
        self.values.push(value)?;
        next_ahead(bytes, end, self.closing())
    }

    /// The tree that it is, once it is closed.
    pub fn close(self, alloc: Global, known: &mut KnownNames) -> Result<Tree, AllocError>
        ensures value { IfOk result (λ tree. json_of tree ≡ closed (frame_of self)) }
        ensures full { IfOk result (λ tree. IsFilled self → IsTrue (is_full tree)) }
    {
        let Nested { names, values } = self;
        let mut values = values;
        values.shrink_to_fit();
        match names {
            None => Ok(Tree::List(values)),
            Some(names) => Ok(Tree::Object {
                names: names.finish(alloc, known)?,
                values,
            }),
        }
    }
}
