//! The readers of std as sources, whose faults are counted.
ghost use Rattle.std.specs.Prelude.{◌≡◌, OnOk, OnErr};
ghost use Rattle.std.specs.Io.{ReadsAtMost};
ghost use Rattle.bt_io.specs.Causes.{HasCause, next_count};
ghost use Rattle.bt_io.specs.Streams.{StreamConsumes};

use crate::fault::Failed;
use crate::source::Source;
use std::io::Read;
use std::marker::Model;

/// A source over a reader of std.
///
/// It tells the bytes that are left only where its reader does, which no stream of the system
/// does.
#[derive(Drop)]
pub struct StdSource<R> {
    input: R,
    faults: u64,
}

impl<R> Model for StdSource<R> {
    ghost use Rattle.bt_io.specs.Streams.{Counted};

    ghost Value = { Counted R };

    ghost view = { λ s. record { stream = s.input; faults = s.faults } };
}

impl<R: Read> StdSource<R> {
    /// A source over `input`, with no fault so far.
    pub fn new(input: R) -> StdSource<R>
        ensures { result ≡ record { stream = input; faults = 0 } }
    {
        StdSource { input, faults: 0 }
    }
}

impl<R: Read> Source for StdSource<R> {
    ghost left = { λ s. R.remaining s.stream };

    ghost faults = { λ s. s.faults };

    /// Reads from the reader into the front of `buf`, and gives the number of bytes. A fault of the reader is counted.
    fn read(&mut self, buf: &mut [u8]) -> Result<usize, Failed>
        ensures bound { ReadsAtMost result buf.new }
        ensures bytes { StreamConsumes R.remaining self.old.stream self.new.stream result buf.new }
        ensures cause { HasCause self.old.faults self.new.faults result }

        // The count rises at each fault and at no other call.
        ensures counted { OnErr result (self.new.faults ≡ next_count self.old.faults) }
        ensures uncounted { OnOk result (self.new.faults ≡ self.old.faults) }
    {
        match self.input.read(buf) {
            Ok(count) => Ok(count),
            Err(_) => {
                self.faults = self.faults.saturating_add(1);
                Err(Failed)
            }
        }
    }
}
