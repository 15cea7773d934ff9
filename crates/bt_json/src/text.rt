//! Reading texts. Runs of characters that stand for themselves are taken at once, since most texts are
//! one; a character of several bytes is checked to be UTF-8, and an escape is put in its place.
ghost use Rattle.std.specs.Prelude.{◌≡◌, ◌≢◌, ◌≤◌, ◌<◌, ◌-◌, ◌+◌, ◌++◌, [], length, slice_range, slice_index, false, true, IfOk, IfErr, IfSome, OnOk, MatchOption, None, option_map, string_bytes};
ghost use Rattle.std.specs.Option.{ForSome};
ghost use Rattle.std.specs.Str.{IsUtf8};
ghost use Rattle.std.specs.Char.{encode_utf8, is_digit};
ghost use Rattle.std.specs.Char.Utf16.{is_high_surrogate, is_low_surrogate, surrogate_pair_char};
ghost use Rattle.bt_json.specs.Grammar.{short_escape, alone};
ghost use Rattle.bt_json.specs.inner.Tails.{place_of};
ghost use Rattle.bt_json.specs.inner.Bytes.{HasByteIn, LacksByteIn, IsHexDigit};
ghost use Rattle.bt_json.specs.inner.Reading.{in_text, between, escape, hex, lead_of};
ghost use Rattle.bt_json.specs.inner.Running.{IsLater, is_plain, WritesUnit, EndsWithin, IsCharacter, ArePlain, EndsText, ReadsUpTo};
ghost use Rattle.bt_json.specs.declared.fault.JsonFault.TheVariants.{Json, Memory};

use crate::fault::JsonFault;
use crate::scan::stands_at;
use std::alloc::{AllocError, Global};

/// The bytes that may come next in a character of several bytes, and how many more come after.
#[derive(Clone, Copy)]
struct Tail {
    low: u8,
    top: u8,
    more: u8,
}

/// What may follow the first byte of a character of several bytes. None where the byte begins none.
#[tactic(auto, unfolding(crate::specs::inner::Reading::lead_of))]
fn tail_of(byte: u8) -> Option<Tail>
    ensures { option_map place_of result ≡ lead_of byte }
{
    let (low, top, more) = match byte {
        0xC2..=0xDF => (0x80, 0xBF, 0),
        0xE0 => (0xA0, 0xBF, 1),
        0xED => (0x80, 0x9F, 1),
        0xE1..=0xEF => (0x80, 0xBF, 1),
        0xF0 => (0x90, 0xBF, 2),
        0xF1..=0xF3 => (0x80, 0xBF, 2),
        0xF4 => (0x80, 0x8F, 2),
        _ => return None,
    };
    Some(Tail { low, top, more })
}

/// The code of the character that a backslash and this byte stand for. None where they stand for none, or for more
/// bytes.
fn short_escape(byte: u8) -> Option<u16>
    ensures { result ≡ short_escape byte }
{
    match byte {
        b'"' | b'\\' | b'/' => Some(u16::from(byte)),
        b'b' => Some(8),
        b'f' => Some(12),
        b'n' => Some(10),
        b'r' => Some(13),
        b't' => Some(9),
        _ => None,
    }
}

/// The character of sixteen bits that are in no surrogate pair: U+FFFD, the replacement, where they are a surrogate.
fn alone(unit: u16) -> char
    ensures { encode_utf8 result ≡ alone unit }
{
    if is_high(unit) || is_low(unit) {
        return '\u{FFFD}';
    }
    char::from_u32(u32::from(unit)).unwrap_or('\u{FFFD}')
}

/// Whether sixteen bits are a high surrogate.
fn is_high(unit: u16) -> bool
    ensures { result ≡ is_high_surrogate unit }
{
    (0xD800..0xDC00).contains(&unit)
}

/// Whether sixteen bits are a low surrogate.
fn is_low(unit: u16) -> bool
    ensures { result ≡ is_low_surrogate unit }
{
    (0xDC00..0xE000).contains(&unit)
}

/// The character of a surrogate pair.
fn paired(high: u16, low: u16) -> char
    requires high { is_high_surrogate high ≡ true }
    requires low { is_low_surrogate low ≡ true }
    ensures { result ≡ surrogate_pair_char high low }
{
    let code = 0x1_0000 + (u32::from(high) - 0xD800) * 0x400 + (u32::from(low) - 0xDC00);
    char::from_u32(code).unwrap_or('\u{FFFD}')
}

/// A text so far, and a high surrogate that waits for a low one.
#[derive(Drop)]
pub struct Unescaped {
    bytes: String,
    high: Option<u16>,
    ghost waits: { ForSome high (λ h. is_high_surrogate h ≡ true) },
}

impl Unescaped {
    ghost use Rattle.bt_json.specs.inner.Unescaping.{HasText, flushed_text, shown_text, plus_unit};

    /// Adds the high surrogate that waits, where one does, as one that is in no pair.
    fn flush(&mut self) -> Result<(), AllocError>
        ensures { OnOk result (HasText self.new (flushed_text self.old)) }
    {
        if let Some(high) = self.high {
            self.bytes.push(alone(high))?;
            self.high = None;
        }
        Ok(())
    }

    /// Adds the sixteen bits that an escape writes. A high surrogate waits; a low one behind it makes a pair with it.
    fn push_unit(&mut self, unit: u16) -> Result<(), AllocError>
        ensures { OnOk result (shown_text self.new ≡ plus_unit self.old unit) }
    {
        if let Some(high) = self.high {
            if is_low(unit) {
                self.bytes.push(paired(high, unit))?;
                self.high = None;
                return Ok(());
            }
            self.bytes.push(alone(high))?;
        }
        if is_high(unit) {
            self.high = Some(unit);
        } else {
            self.bytes.push(alone(unit))?;
            self.high = None;
        }
        Ok(())
    }

    /// Adds characters that stand for themselves.
    fn push_plain(&mut self, plain: &[u8]) -> Result<(), AllocError>
        requires { IsUtf8 plain.now }
        ensures { OnOk result (HasText self.new (flushed_text self.old ++ plain.now)) }
    {
        self.flush()?;
        match std::str::from_utf8(plain) {
            Ok(text) => self.bytes.push_str(text),
            Err(_) => unreachable!(),
        }
    }
}

/// The value of a hexadecimal digit. None where the byte is none.
fn hex_digit(byte: u8) -> Option<u16>
    ensures { MatchOption result (is_digit byte 16 ≡ false) (IsHexDigit byte) }
{
    let Some(digit) = char::from(byte).to_digit(16) else {
        return None;
    };
    Some(digit as u16)
}

/// The sixteen bits that four hexadecimal digits from `start` on write. Another byte, or the end of the bytes, is a
/// fault.
fn read_hex(bytes: &[u8], start: usize) -> Result<u16, JsonFault>
    requires { start ≤ length bytes.now }
    ensures within { OnOk result (start + 4 ≤ length bytes.now) }
    ensures ok { IfOk result (WritesUnit bytes.now start) }
    ensures err { IfErr result (EndsWithin bytes.now start (hex 3 0)) }
{
    let mut unit: u16 = 0;
    for index in 0..4 {
        let at = start + index;
        if at >= bytes.len() {
            return Err(JsonFault::Json(at));
        }
        let Some(digit) = hex_digit(bytes[at]) else {
            return Err(JsonFault::Json(at));
        };
        unit = unit * 16 + digit;
    }
    Ok(unit)
}

/// Checks that a byte from `low` to `top`, each included, stands at a place. Where another does, or the bytes end, the
/// place is told as a fault.
fn check_byte(bytes: &[u8], at: usize, low: u8, top: u8) -> Result<(), JsonFault>
    ensures ok { OnOk result (HasByteIn bytes.now at low top) }
    ensures err { IfErr result (λ f. (f ≡ Json at) × LacksByteIn bytes.now at low top) }
{
    if at >= bytes.len() {
        return Err(JsonFault::Json(at));
    }
    if bytes[at] < low || bytes[at] > top {
        return Err(JsonFault::Json(at));
    }
    Ok(())
}

/// The place behind the character of several bytes at a place. The first byte that is not UTF-8 is a fault.
fn character_end(bytes: &[u8], start: usize) -> Result<usize, JsonFault>
    requires within { start < length bytes.now }
    requires wide { 128 ≤ slice_index bytes.now start }
    ensures later { IfOk result (λ n. (start < n) × (n ≤ length bytes.now)) }
    ensures utf8 { IfOk result (λ n. IsUtf8 (slice_range bytes.now start n)) }
    ensures ok { IfOk result (IsCharacter bytes.now start) }
    ensures err { IfErr result (EndsWithin bytes.now start between) }
{
    let Some(tail) = tail_of(bytes[start]) else {
        return Err(JsonFault::Json(start));
    };
    check_byte(bytes, start + 1, tail.low, tail.top)?;
    if tail.more == 0 {
        return Ok(start + 2);
    }
    check_byte(bytes, start + 2, 0x80, 0xBF)?;
    if tail.more == 1 {
        return Ok(start + 3);
    }
    check_byte(bytes, start + 3, 0x80, 0xBF)?;
    Ok(start + 4)
}

/// Whether the byte is a character that stands for itself: of ASCII, and no control character below 0x20, quote or
/// backslash.
fn is_plain(byte: u8) -> bool
    ensures { result ≡ is_plain byte }
{
    (0x20..0x80).contains(&byte) && byte != b'"' && byte != b'\\'
}

/// The first place from `start` on that has no character of one byte which stands for itself.
fn plain_end(bytes: &[u8], start: usize) -> usize
    requires { start ≤ length bytes.now }
    ensures later { IsLater bytes.now start result }
    ensures utf8 { IsUtf8 (slice_range bytes.now start result) }
    ensures read { ArePlain bytes.now start result }
    ensures ends { result < length bytes.now → is_plain (slice_index bytes.now result) ≡ false }
{
    let mut at = start;
    while at < bytes.len() && is_plain(bytes[at]) {
        at += 1;
    }
    at
}

/// The place of the closing quote of the text behind an opening quote, where each character is of one byte and stands
/// for itself; else None.
pub fn plain_text(bytes: &[u8], start: usize) -> Option<usize>
    requires { start ≤ length bytes.now }
    ensures later { IfSome result (λ n. (start ≤ n) × (n < length bytes.now)) }
    ensures utf8 { IfSome result (λ n. IsUtf8 (slice_range bytes.now start n)) }
    ensures ok { IfSome result (λ n. ReadsUpTo bytes.now start n (n + 1) (slice_range bytes.now start n)) }
{
    let end = plain_end(bytes, start);
    if stands_at(bytes, end, b'"') {
        Some(end)
    } else {
        None
    }
}

impl Unescaped {
    ghost use Rattle.bt_json.specs.inner.Unescaping.{state_of, LeadsTo, HasText, flushed_text};

    /// Adds the characters of one byte that stand for themselves from a place on, and gives the place behind them.
    fn read_plain(&mut self, bytes: &[u8], start: usize) -> Result<usize, JsonFault>
        requires { start ≤ length bytes.now }
        ensures later { IfOk result (λ n. IsLater bytes.now start n) }
        ensures ok { IfOk result (LeadsTo bytes.now start self.old between self.new) }
        ensures err { IfErr result (λ f. f ≡ Memory) }
        ensures ends { IfOk result (λ n. n < length bytes.now → is_plain (slice_index bytes.now n) ≡ false) }
    {
        let end = plain_end(bytes, start);
        if start < end {
            self.push_plain(&bytes[start..end])?;
        }
        Ok(end)
    }

    /// Adds the character of several bytes at a place, and gives the place behind it.
    fn read_wide(&mut self, bytes: &[u8], start: usize) -> Result<usize, JsonFault>
        requires within { start < length bytes.now }
        requires wide { 128 ≤ slice_index bytes.now start }
        ensures later { IfOk result (λ n. (start < n) × (n ≤ length bytes.now)) }
        ensures ok { IfOk result (LeadsTo bytes.now start self.old between self.new) }
        ensures err { IfErr result (EndsText bytes.now start (state_of self.old between)) }
    {
        let end = character_end(bytes, start)?;
        self.push_plain(&bytes[start..end])?;
        Ok(end)
    }

    /// Adds what the escape behind a backslash stands for, and gives the place behind it.
    fn read_escape(&mut self, bytes: &[u8], start: usize) -> Result<usize, JsonFault>
        requires { start ≤ length bytes.now }
        ensures later { IfOk result (λ n. (start < n) × (n ≤ length bytes.now)) }
        ensures ok { IfOk result (LeadsTo bytes.now start self.old escape self.new) }
        ensures err { IfErr result (EndsText bytes.now start (state_of self.old escape)) }
    {
        if start >= bytes.len() {
            return Err(JsonFault::Json(start));
        }
        if bytes[start] == b'u' {
            let unit = read_hex(bytes, start + 1)?;
            self.push_unit(unit)?;
            return Ok(start + 5);
        }
        let Some(unit) = short_escape(bytes[start]) else {
            return Err(JsonFault::Json(start));
        };
        self.push_unit(unit)?;
        Ok(start + 1)
    }

    /// Adds the escape or the character of several bytes at a place, and gives the place behind it. A control character
    /// below 0x20 is a fault.
    fn read_special(&mut self, bytes: &[u8], start: usize) -> Result<usize, JsonFault>
        requires within { start < length bytes.now }
        requires special { is_plain (slice_index bytes.now start) ≡ false }
        requires no_quote { slice_index bytes.now start ≢ 34 }
        ensures later { IfOk result (λ n. (start < n) × (n ≤ length bytes.now)) }
        ensures ok { IfOk result (LeadsTo bytes.now start self.old between self.new) }
        ensures err { IfErr result (EndsText bytes.now start (state_of self.old between)) }
    {
        if bytes[start] < 0x20 {
            return Err(JsonFault::Json(start));
        }
        if bytes[start] == b'\\' {
            return self.read_escape(bytes, start + 1);
        }
        self.read_wide(bytes, start)
    }

    /// An empty text, of which nothing waits.
    fn new(alloc: Global) -> Self
        ensures { HasText result [] }
    {
        Unescaped {
            bytes: String::new(alloc),
            high: None,
        }
    }

    /// The text, once it has ended: a high surrogate that still waits is in no pair.
    fn into_string(mut self) -> Result<String, AllocError>
        ensures { IfOk result (λ s. string_bytes s ≡ flushed_text self) }
    {
        self.flush()?;
        let Unescaped { bytes, high: _ } = self;
        Ok(bytes)
    }

    /// The text behind an opening quote, and the place behind its closing quote.
    pub fn read(alloc: Global, bytes: &[u8], start: usize) -> Result<(String, usize), JsonFault>
        requires { start ≤ length bytes.now }
        ensures later { IfOk result (λ r. (start < r.1) × (r.1 ≤ length bytes.now)) }
        ensures ok { IfOk result (λ r. ReadsUpTo bytes.now start (r.1 - 1) r.1 (string_bytes r.0)) }
        ensures err { IfErr result (EndsText bytes.now start (in_text [] None between)) }
    {
        let mut text = Unescaped::new(alloc);
        let mut at = start;
        loop {
            let stop = text.read_plain(bytes, at)?;
            if stop >= bytes.len() {
                return Err(JsonFault::Json(stop));
            }
            if bytes[stop] == b'"' {
                return Ok((text.into_string()?, stop + 1));
            }
            at = text.read_special(bytes, stop)?;
        }
    }
}
