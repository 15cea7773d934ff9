//! Small steps over bytes: blanks, the letters of a word, one byte.
ghost use Rattle.std.specs.Prelude.{◌≡◌, ◌≢◌, OnOk, IsTrue, ◌≤◌, ◌<◌, length, slice_index, true, false, IfOk, IfErr, List, ℕ};
ghost use Rattle.bt_json.specs.Grammar.{is_blank};
ghost use Rattle.bt_json.specs.inner.Bytes.{HasByte, LacksByte};
ghost use Rattle.bt_json.specs.inner.Running.{SkipsTo, IsLater};
ghost use Rattle.bt_json.specs.inner.Words.{SkipsWord};
ghost use Rattle.bt_json.specs.declared.fault.JsonFault.TheVariants.{Json as JsonAt};

use crate::fault::JsonFault;
use crate::kind::is_blank;

/// The first place from `start` on that has no blank, which is the end of the bytes where only blanks follow.
pub fn skip_blanks(bytes: &[u8], start: usize) -> usize
    requires { start ≤ length bytes.now }
    ensures later { IsLater bytes.now start result }
    ensures blanks { SkipsTo bytes.now start result }
    ensures ends { result < length bytes.now → is_blank (slice_index bytes.now result) ≡ false }
{
    let mut at = start;
    while at < bytes.len() && is_blank(bytes[at]) {
        at += 1;
    }
    at
}

/// The place behind these letters, which are the rest of a word from `start` on. Another byte, or the end of the bytes,
/// is a fault.
pub fn skip_word(bytes: &[u8], start: usize, letters: &[u8]) -> Result<usize, JsonFault>
    requires within { start ≤ length bytes.now }
    requires some { 0 < length letters.now }
    ensures { SkipsWord bytes.now start letters.now result }
{
    let mut at = start;
    for letter in letters {
        if at >= bytes.len() || bytes[at] != *letter {
            return Err(JsonFault::Json(at));
        }
        at += 1;
    }
    Ok(at)
}

/// Checks that this byte stands at a place. Where another does, or the bytes end, the place is told as a fault.
pub fn expect_byte(bytes: &[u8], at: usize, byte: u8) -> Result<(), JsonFault>
    ensures ok { OnOk result (HasByte bytes.now at byte) }
    ensures err { IfErr result (λ f. (f ≡ JsonAt at) × LacksByte bytes.now at byte) }
{
    if at >= bytes.len() {
        return Err(JsonFault::Json(at));
    }
    if bytes[at] != byte {
        return Err(JsonFault::Json(at));
    }
    Ok(())
}

/// Whether this byte stands at a place; false behind the end of the bytes.
pub fn stands_at(bytes: &[u8], at: usize, byte: u8) -> bool
    ensures yes { IsTrue result → HasByte bytes.now at byte }
    ensures no { result ≡ false → LacksByte bytes.now at byte }
{
    if at < bytes.len() {
        bytes[at] == byte
    } else {
        false
    }
}
