//! Blanks: the bytes that may stand around a text and between its parts.
ghost use Rattle.std.specs.Prelude.{◌↔◌, IsTrue};
ghost use Rattle.bt_text.specs.Blanks.{IsBlank, SkipsBlanks};

/// What follows the blanks at the front of a text: spaces, tabs, line feeds and carriage returns.
pub fn skip_blanks(text: &[u8]) -> &[u8]
    ensures { SkipsBlanks text.now result.now }
{
    for (i, byte) in text.iter().enumerate() {
        if !is_blank(*byte) {
            return &text[i..];
        }
    }
    &text[text.len()..]
}

/// Whether the byte is a space, a tab, a line feed or a carriage return.
fn is_blank(byte: u8) -> bool
    ensures { IsTrue result ↔ IsBlank byte }
{
    byte == b' ' || byte == b'\t' || byte == b'\n' || byte == b'\r'
}
