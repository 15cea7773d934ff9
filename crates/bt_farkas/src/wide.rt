//! Where a sum leaves 128 bits.
ghost use Rattle.std.specs.Prelude.{◌≡◌};
ghost use Rattle.bt_farkas.specs.declared.wide.SumFault.TheVariants.{Memory};

use std::alloc::AllocError;

/// The first product or running sum that no fraction of 128 bits can hold.
#[derive(Clone, Copy, PartialEq, Eq)]
pub struct WideAt {
    /// The row's place among the rows of the sum, from 0 on.
    pub row: usize,
    /// The column, from 0 on. A bound counts as the column after the greatest of all rows.
    pub column: usize,
}

/// Why a weighted sum of rows was not judged.
#[derive(Clone, Copy, PartialEq, Eq)]
pub enum SumFault {
    /// The sum leaves 128 bits there.
    Wide(WideAt),
    /// No memory could be had.
    Memory,
}

impl From<AllocError> for SumFault {
    ghost from_gives = { λ _ e. e ≡ Memory };

    fn from(_: AllocError) -> Self {
        SumFault::Memory
    }
}
