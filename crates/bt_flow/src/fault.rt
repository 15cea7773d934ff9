//! Why bytes are no state.
ghost use Rattle.std.specs.Prelude.{◌≡◌};
ghost use Rattle.bt_flow.specs.declared.fault.StateFault.TheVariants.{Memory};

use std::alloc::{AllocError, AllocFailed};

/// Why there is no state.
#[derive(Clone, Copy, PartialEq, Eq)]
pub enum StateFault {
    /// This line, from 1, isn't the line that belongs there.
    CertLine(usize),
    /// No memory could be had.
    Memory,
}

impl From<AllocError> for StateFault {
    ghost from_gives = { λ _ e. e ≡ Memory };

    fn from(_: AllocError) -> Self {
        StateFault::Memory
    }
}

impl<T: Drop> From<AllocFailed<T>> for StateFault {
    ghost from_gives = { λ _ e. e ≡ Memory };

    fn from(_: AllocFailed<T>) -> Self {
        StateFault::Memory
    }
}
