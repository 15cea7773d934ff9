//! The lines of a text that have their line feeds.
ghost use Rattle.bt_text.specs.Whole.{EndsLines};

use memchr::memrchr;

/// The lines of a text that have their line feeds: its bytes up to the last line feed.
pub fn whole_lines(text: &[u8]) -> &[u8]
    ensures { EndsLines text.now result.now }
{
    match memrchr(b'\n', text) {
        Some(at) => &text[..at + 1],
        None => &text[..0],
    }
}
