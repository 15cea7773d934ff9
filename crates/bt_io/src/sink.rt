//! What a sink of bytes promises.
ghost use Rattle.std.specs.Prelude.{ℕ, List};
ghost use Rattle.std.specs.declared.option.Option.{Option};
ghost use Rattle.std.specs.Io.{WritesAtMost};
ghost use Rattle.std.specs.Io.KnownBytes.{WriteAppends};
ghost use Rattle.bt_io.specs.Bytes.{TakesSome};
ghost use Rattle.bt_io.specs.Causes.{HasCause};

use crate::fault::Failed;

/// A sink of bytes.
pub trait Sink {
    /// The bytes that it holds, where the sink tells them.
    ghost held: { Self → Option (List ℕ) };

    /// How often it has failed, as a `u64` that stays at its last value.
    ghost faults: { Self → ℕ };

    /// Appends the first bytes of `piece`, and gives their number.
    ///
    /// It is at least 1 where the piece isn't empty. A call that fails appends nothing and raises
    /// the count of faults, which never falls.
    fn write(&mut self, piece: &[u8]) -> Result<usize, Failed>
        ensures bound { WritesAtMost result piece.now }
        ensures some { TakesSome result piece.now }
        ensures bytes { WriteAppends (held self.old) (held self.new) result piece.now }
        ensures cause { HasCause (faults self.old) (faults self.new) result };
}
