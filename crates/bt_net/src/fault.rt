//! Why a text or a list of edges makes no network.
ghost use Rattle.std.specs.Prelude.{◌≡◌};
ghost use Rattle.bt_net.specs.declared.fault.NetFault.TheVariants.{Memory};

use std::alloc::AllocError;

/// Why there is no network.
#[derive(Clone, Copy, Debug, PartialEq, Eq)]
pub enum NetFault {
    /// This line, from 1, may not stand there.
    NetLine(usize),
    /// More than `MOST_OF_EACH` inputs, outputs, splitters or edges.
    TooLarge,
    /// No input, or no output.
    NoEnds,
    /// No memory could be had.
    Memory,
}

impl From<AllocError> for NetFault {
    ghost from_gives = { λ _ e. e ≡ Memory };

    fn from(_: AllocError) -> Self {
        NetFault::Memory
    }
}
