//! What is held of an input that is read block by block.
ghost use Rattle.std.specs.Prelude.{◌≡◌, ◌+◌, ◌≤◌, false, length};
ghost use Rattle.bt_io.specs.Passages.{passage};
ghost use Rattle.bt_designs.specs.declared.held.TheConstants.{MOST_CHECKED};
ghost use Rattle.bt_designs.specs.inner.Dropping.{DropsBlanks};
ghost use Rattle.bt_designs.specs.Gathering.{GathersOn};

use bt_io::{ReadAll, Source, read_on};
use bt_text::skip_blanks;

/// The most bytes that `flow-check`, `check`, `check-layout` and `check-same` read: a written state or a certificate may
/// be long.
pub const MOST_CHECKED: usize = 1_073_741_824;

/// What was read of a source so far: blanks, which were dropped, and the bytes behind them.
#[derive(Drop)]
pub struct Gathered {
    /// How many blanks there were.
    pub skipped: usize,
    pub bytes: Vec<u8>,
    /// Whether the source has ended.
    pub ended: bool,
}

/// The same, lent.
#[derive(Clone, Copy)]
pub struct Held<'a> {
    /// How many blanks there were.
    pub skipped: usize,
    pub bytes: &'a [u8],
    /// Whether the source has ended.
    pub ended: bool,
}

/// Reads the next block of a source, or notes that the source has ended. Drops all that is held where it is blanks.
pub fn gather_on<S: Source>(gathered: &mut Gathered, source: &mut S) -> Result<(), ReadAll>
    requires few { gathered.old.skipped + length gathered.old.bytes.items ≤ MOST_CHECKED }
    requires goes_on { gathered.old.ended ≡ false }
    ensures { GathersOn gathered.old (passage S.left S.faults source.old source.new) gathered.new result }
{
    let limit = MOST_CHECKED - gathered.skipped;
    match read_on(source, &mut gathered.bytes, limit) {
        Ok(true) => {
            drop_blanks(gathered);
            Ok(())
        }
        Ok(false) => {
            gathered.ended = true;
            Ok(())
        }
        Err(fault) => Err(fault),
    }
}

/// Drops all bytes that are held where they are blanks alone, and counts them.
fn drop_blanks(gathered: &mut Gathered)
    requires { gathered.old.skipped + length gathered.old.bytes.items ≤ MOST_CHECKED }
    ensures { DropsBlanks gathered.old gathered.new }
{
    if skip_blanks(&gathered.bytes).is_empty() {
        gathered.skipped += gathered.bytes.len();
        gathered.bytes.clear();
    }
}
