//! Lines of a text, and the two sides of its first byte of a kind.
ghost use Rattle.std.specs.Prelude.{◌≡◌, ◌≤◌, length, IfSome, IfNone};
ghost use Rattle.bt_text.specs.Lines.{Lacks, SplitsAt, IsFirstLine, line_feeds};

use memchr::memchr;

/// What stands before the first such byte of a text, and what stands after it. None where the text lacks the byte.
pub fn split_once(text: &[u8], byte: u8) -> Option<(&[u8], &[u8])>
    ensures some { IfSome result (λ parts. SplitsAt byte text.now parts.0.now parts.1.now) }
    ensures none { IfNone result (Lacks byte text.now) }
{
    let at = memchr(byte, text)?;
    Some((&text[..at], &text[at + 1..]))
}

/// The bytes of a text's first line, without the line feed, and what follows the line. The last line
/// may lack its line feed.
pub fn first_line(text: &[u8]) -> (&[u8], &[u8])
    ensures { IsFirstLine text.now result.0.now result.1.now }
{
    match split_once(text, b'\n') {
        Some(parts) => parts,
        None => (text, &text[text.len()..]),
    }
}

/// How many line feeds a text has, at most its length.
pub fn line_feeds(text: &[u8]) -> usize
    ensures feeds { result ≡ line_feeds text.now }
    ensures few { result ≤ length text.now }
{
    text.iter().filter(|byte| **byte == b'\n').count()
}
