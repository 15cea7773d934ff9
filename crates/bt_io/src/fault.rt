//! Why a read or a write was not done.
ghost use Rattle.std.specs.Prelude.{◌≡◌};
ghost use Rattle.bt_io.specs.declared.fault.ReadAll.TheVariants.{Memory};

use std::alloc::{AllocError, AllocFailed};

/// A read or a write that failed.
#[derive(Clone, Copy, PartialEq, Eq)]
pub struct Failed;

/// A write that failed before the whole text was written.
#[derive(Clone, Copy, PartialEq, Eq)]
pub struct WriteFault;

/// Why a source was not read to its end.
#[derive(Clone, Copy, Debug, PartialEq, Eq)]
pub enum ReadAll {
    /// The source failed.
    ReadFault,
    /// The source has more bytes than the limit.
    TooLong,
    /// There was no memory.
    Memory,
}

impl From<AllocError> for ReadAll {
    ghost from_gives = { λ _ e. e ≡ Memory };

    fn from(_: AllocError) -> Self {
        ReadAll::Memory
    }
}
