//! What a source of bytes promises.
ghost use Rattle.std.specs.Prelude.{ℕ, List};
ghost use Rattle.std.specs.declared.option.Option.{Option};
ghost use Rattle.std.specs.Io.{ReadsAtMost};
ghost use Rattle.std.specs.Io.KnownBytes.{ReadConsumes};
ghost use Rattle.bt_io.specs.Causes.{HasCause};

use crate::fault::Failed;

/// A source of bytes.
pub trait Source {
    /// The bytes that are left, where the source tells them.
    ghost left: { Self → Option (List ℕ) };

    /// How often it has failed, as a `u64` that stays at its last value.
    ghost faults: { Self → ℕ };

    /// Takes the next bytes into the front of `buf`, and gives their number.
    ///
    /// Where `buf` isn't empty, 0 means the end. A call that fails takes nothing and raises the
    /// count of faults, which never falls.
    fn read(&mut self, buf: &mut [u8]) -> Result<usize, Failed>
        ensures bound { ReadsAtMost result buf.new }
        ensures bytes { ReadConsumes (left self.old) (left self.new) result buf.new }
        ensures cause { HasCause (faults self.old) (faults self.new) result };
}
