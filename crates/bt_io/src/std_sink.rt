//! The writers of std as sinks, whose faults are counted.
ghost use Rattle.std.specs.Prelude.{◌≡◌, OnOk, OnErr};
ghost use Rattle.std.specs.Io.{WritesAtMost};
ghost use Rattle.std.specs.Io.KnownBytes.{Keeps};
ghost use Rattle.bt_io.specs.Bytes.{TakesSome};
ghost use Rattle.bt_io.specs.Causes.{HasCause, next_count};
ghost use Rattle.bt_io.specs.Streams.{StreamAppends};

use crate::fault::{Failed, WriteFault};
use crate::sink::Sink;
use std::io::Write;
use std::marker::Model;

/// A sink over a writer of std.
///
/// It tells the bytes that it holds only where its writer does, which no stream of the system
/// does. A write of no byte of a nonempty piece counts as a fault.
#[derive(Drop)]
pub struct StdSink<W> {
    output: W,
    faults: u64,
}

impl<W> Model for StdSink<W> {
    ghost use Rattle.bt_io.specs.Streams.{Counted};

    ghost Value = { Counted W };

    ghost view = { λ s. record { stream = s.output; faults = s.faults } };
}

impl<W: Write> StdSink<W> {
    /// A sink over `output`, with no fault so far.
    pub fn new(output: W) -> StdSink<W>
        ensures { result ≡ record { stream = output; faults = 0 } }
    {
        StdSink { output, faults: 0 }
    }

    /// Has the writer pass on what it keeps back, as one with a buffer does. The bytes that it holds stay.
    /// The count rises where that fails, and only there.
    pub fn flush(&mut self) -> Result<(), WriteFault>
        ensures held { Keeps (W.contents self.old.stream) (W.contents self.new.stream) }
        ensures counted { OnErr result (self.new.faults ≡ next_count self.old.faults) }
        ensures uncounted { OnOk result (self.new.faults ≡ self.old.faults) }
    {
        match self.output.flush() {
            Ok(()) => Ok(()),
            Err(_) => {
                self.faults = self.faults.saturating_add(1);
                Err(WriteFault)
            }
        }
    }
}

impl<W: Write> Sink for StdSink<W> {
    ghost held = { λ s. W.contents s.stream };

    ghost faults = { λ s. s.faults };

    /// Writes the first bytes of `piece`, and gives their number. A fault of the writer is counted, and so is a call
    /// that writes no byte of a nonempty piece.
    fn write(&mut self, piece: &[u8]) -> Result<usize, Failed>
        ensures bound { WritesAtMost result piece.now }
        ensures some { TakesSome result piece.now }
        ensures bytes { StreamAppends W.contents self.old.stream self.new.stream result piece.now }
        ensures cause { HasCause self.old.faults self.new.faults result }

        // The count rises at each fault and at no other call.
        ensures counted { OnErr result (self.new.faults ≡ next_count self.old.faults) }
        ensures uncounted { OnOk result (self.new.faults ≡ self.old.faults) }
    {
        match self.output.write(piece) {
            Ok(count) if count > 0 || piece.is_empty() => Ok(count),
            _ => {
                self.faults = self.faults.saturating_add(1);
                Err(Failed)
            }
        }
    }
}
