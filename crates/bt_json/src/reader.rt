//! Reading a value (RFC 8259): blanks, and then a text, a number, a word, or a list or an object of
//! further values.
ghost use Rattle.std.specs.Prelude.{◌≡◌, ◌≤◌, ◌<◌, [], length, None, IsTrue, IfOk, OnOk};
ghost use Rattle.bt_text.specs.Answers.{seen, Answers};
ghost use Rattle.bt_json.specs.Answers.{IsRead};
ghost use Rattle.bt_json.specs.Json.{boolean, null};
ghost use Rattle.bt_json.specs.Stands.{value_and_place, is_full};
ghost use Rattle.bt_json.specs.inner.Reading.{due, in_text, between, as_value, in_number, numeral, in_word};
ghost use Rattle.bt_json.specs.declared.kind.Phase.TheVariants.{BeforeWhole};
ghost use Rattle.bt_json.specs.inner.Frames.{frame_begun, IsFresh};
ghost use Rattle.bt_json.specs.inner.Nested.{frame_of, IsFilled, IsToken, FindsToken, ReadsTree, ReadsValue, ReadsNested, Fills};
ghost use Rattle.bt_json.specs.declared.fault.JsonFault.TheVariants.{Memory};

use crate::fault::JsonFault;
use crate::kind::{Kind, kind_of};
use crate::limits::MOST_LEVELS;
use crate::names::KnownNames;
use crate::nested::{Ahead, Nested};
use crate::number::Numeral;
use crate::scan::{skip_blanks, skip_word};
use crate::text::Unescaped;
use crate::tree::Tree;
use std::alloc::Global;

/// The first place from `start` on that has no blank, and what its byte may begin. The end of the bytes is a fault.
fn find_token(bytes: &[u8], start: usize) -> Result<(usize, Kind), JsonFault>
    requires { start ≤ length bytes.now }
    ensures read { FindsToken bytes.now start result }
    ensures token { IfOk result (λ token. IsToken bytes.now token.0 token.1) }
{
    let at = skip_blanks(bytes, start);
    if at >= bytes.len() {
        return Err(JsonFault::Json(at));
    }
    Ok((at, kind_of(bytes[at])))
}

/// The text behind an opening quote, and the place behind the closing one.
fn read_text(alloc: Global, bytes: &[u8], start: usize) -> Result<(Tree, usize), JsonFault>
    requires { start ≤ length bytes.now }
    ensures read { ReadsTree bytes.now start (in_text [] None between as_value) result }
    ensures full { IfOk result (λ read. IsTrue (is_full read.0)) }
{
    let (text, end) = Unescaped::read(alloc, bytes, start)?;
    Ok((Tree::Text(text), end))
}

/// The number whose whole part is due at a place, and the place behind it.
fn read_number(
    alloc: Global,
    negative: bool,
    bytes: &[u8],
    start: usize,
) -> Result<(Tree, usize), JsonFault>
    requires { start ≤ length bytes.now }
    ensures read { ReadsTree bytes.now start (in_number BeforeWhole (numeral negative [])) result }
    ensures full { IfOk result (λ read. IsTrue (is_full read.0)) }
{
    let (decimal, end) = Numeral::read(alloc, negative, bytes, start)?;
    Ok((Tree::Num(decimal), end))
}

/// The truth value whose word has these letters behind its first one, and the place behind the word. Other letters at
/// `start` are a fault.
fn read_bool(
    bytes: &[u8],
    start: usize,
    letters: &[u8],
    value: bool,
) -> Result<(Tree, usize), JsonFault>
    requires within { start ≤ length bytes.now }
    requires some { 0 < length letters.now }
    ensures read { ReadsTree bytes.now start (in_word letters.now (boolean value)) result }
    ensures full { IfOk result (λ read. IsTrue (is_full read.0)) }
{
    let end = skip_word(bytes, start, letters)?;
    Ok((Tree::Bool(value), end))
}

/// Null, whose word has these letters behind its first one, and the place behind the word. Other letters at `start` are
/// a fault.
fn read_null(bytes: &[u8], start: usize, letters: &[u8]) -> Result<(Tree, usize), JsonFault>
    requires within { start ≤ length bytes.now }
    requires some { 0 < length letters.now }
    ensures read { ReadsTree bytes.now start (in_word letters.now null) result }
    ensures full { IfOk result (λ read. IsTrue (is_full read.0)) }
{
    let end = skip_word(bytes, start, letters)?;
    Ok((Tree::Null, end))
}

/// The text, the number, the truth value or the null that a byte of this kind begins at `start`, and the place behind
/// it. A byte that begins none is a fault.
fn read_leaf(
    alloc: Global,
    bytes: &[u8],
    start: usize,
    kind: Kind,
) -> Result<(Tree, usize), JsonFault>
    requires token { IsToken bytes.now start kind }
    requires leaf { frame_begun kind ≡ None }
    ensures read { ReadsTree bytes.now start due result }
    ensures full { IfOk result (λ read. IsTrue (is_full read.0)) }
{
    match kind {
        Kind::Quote => read_text(alloc, bytes, start + 1),
        Kind::Minus => read_number(alloc, true, bytes, start + 1),
        Kind::Digit => read_number(alloc, false, bytes, start),
        Kind::LetterT => read_bool(bytes, start + 1, b"rue", true),
        Kind::LetterF => read_bool(bytes, start + 1, b"alse", false),
        Kind::LetterN => read_null(bytes, start + 1, b"ull"),
        _ => Err(JsonFault::Json(start)),
    }
}

/// The value that is due at a place within that many open lists and objects, and the place behind it.
#[cycle(reading)]
fn read_value(
    alloc: Global,
    bytes: &[u8],
    start: usize,
    depth: usize,
    known: &mut KnownNames,
) -> Result<(Tree, usize), JsonFault>
    requires within { start ≤ length bytes.now }
    requires shallow { depth ≤ MOST_LEVELS }
    ensures read { ReadsValue bytes.now start depth result }
    ensures full { IfOk result (λ read. IsTrue (is_full read.0)) }
{
    let (at, kind) = find_token(bytes, start)?;
    match Nested::begun(alloc, kind, at, depth, known)? {
        None => read_leaf(alloc, bytes, at, kind),
        Some(nested) => read_nested(alloc, bytes, at + 1, depth, known, nested),
    }
}

/// Reads the rest of a list or an object behind its opening bracket, within that many others, and gives it with the
/// place behind its closing bracket.
#[cycle(reading)]
fn read_nested(
    alloc: Global,
    bytes: &[u8],
    start: usize,
    depth: usize,
    known: &mut KnownNames,
    nested: Nested,
) -> Result<(Tree, usize), JsonFault>
    requires within { start ≤ length bytes.now }
    requires shallow { depth < MOST_LEVELS }
    requires fresh { IsFresh (frame_of nested) }
    requires filled { IsFilled nested }
    ensures read { ReadsNested bytes.now start depth (frame_of nested) result }
    ensures full { IfOk result (λ read. IsTrue (is_full read.0)) }
{
    let mut nested = nested;
    let end = fill(alloc, bytes, start, depth, known, &mut nested)?;
    let tree = nested.close(alloc, known)?;
    Ok((tree, end))
}

/// Reads the values of a list or an object, within that many others, up to the closing bracket, and gives the place
/// behind that.
#[cycle(reading)]
fn fill(
    alloc: Global,
    bytes: &[u8],
    start: usize,
    depth: usize,
    known: &mut KnownNames,
    nested: &mut Nested,
) -> Result<usize, JsonFault>
    requires within { start ≤ length bytes.now }
    requires shallow { depth < MOST_LEVELS }
    requires fresh { IsFresh (frame_of nested.old) }
    requires filled { IsFilled nested.old }
    ensures read { Fills bytes.now start depth (frame_of nested.old) (frame_of nested.new) result }
    ensures filled { OnOk result (IsFilled nested.new) }
{
    let mut ahead = nested.first(bytes, start);
    loop {
        let at = match ahead {
            Ahead::Item(at) => at,
            Ahead::End(end) => return Ok(end),
        };
        let due = nested.read_name(alloc, bytes, at, known)?;
        let (value, end) = read_value(alloc, bytes, due, depth + 1, known)?;
        ahead = nested.push(bytes, value, end)?;
    }
}

/// Reads blanks and the JSON value behind them (RFC 8259) at the front of the bytes, and gives the
/// value with the place after it. A number goes on as long as its characters do.
///
/// # Errors
///
/// The first thing that is wrong, in reading order; `JsonFault::Memory` where memory runs out.
pub fn read(alloc: Global, bytes: &[u8]) -> Result<(Tree, usize), JsonFault>
    ensures answer { Answers Memory (IsRead bytes.now) (seen value_and_place result) }
    ensures full { IfOk result (λ read. IsTrue (is_full read.0)) }
{
    let mut known = KnownNames::new(alloc)?;
    read_value(alloc, bytes, 0, 0, &mut known)
}
