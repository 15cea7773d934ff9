//! Laws of networks and their texts.
ghost use Rattle.std.specs.Prelude.{◌≡◌, ℕ, List};
ghost use Rattle.bt_net.specs.declared.network.Admitted.{Admitted};
ghost use Rattle.bt_net.specs.Network.{Network, IsNetwork};
ghost use Rattle.bt_net.specs.NetText.{BeginsWithNet};
ghost use Rattle.bt_net.specs.Readings.{IsNetRead, PrintedIsRead, PrintedIsPlain, ReadAlike};
ghost use Rattle.bt_net.specs.Longer.{Stays, StaysRefused};

use crate::network::{MOST_CAP, MOST_OF_EACH, NO_COORDINATE};

/// Bytes begin with the text of at most one network, and only in one way: one text follows it.
pub fn one_net()
    ensures { (bytes : List ℕ) (m n : Network) (r s : List ℕ) → IsNetwork m → IsNetwork n
        → BeginsWithNet bytes m r → BeginsWithNet bytes n s → (m ≡ n) × (r ≡ s) }
{}

/// The one text of a network is read as that network, with the edges that its splitters prefer, to its end, where lines
/// of priorities may stand; and where none prefers an edge, whatever may stand.
pub fn printed_is_read()
    ensures plain { PrintedIsPlain }
    ensures read { PrintedIsRead }
{}

/// Of a text without pins, sides, rows, blocks and preferred edges the same is told, whichever lines are admitted.
pub fn read_alike()
    ensures { ReadAlike }
{}

/// What is read of bytes is read of longer ones that begin with them, but where the last line lacks its
/// line feed; and so is a refusal, but where it is that of a line which the bytes don't have yet.
pub fn longer_is_read()
    ensures read { (admitted : Admitted) → Stays (IsNetRead admitted) }
    ensures refused { (admitted : Admitted) → StaysRefused (IsNetRead admitted) }
{}

/// The limits of a network and of its text, as numbers.
pub fn limits_are()
    ensures each { MOST_OF_EACH ≡ 2048 }
    ensures cap { MOST_CAP ≡ 4 }
    ensures coordinate { NO_COORDINATE ≡ 1000000000 }
{}
