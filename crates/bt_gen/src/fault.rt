//! Why there is no network of an order.
ghost use Rattle.std.specs.Prelude.{◌≡◌};
ghost use Rattle.bt_gen.specs.declared.fault.GenFault.TheVariants.{Memory};

use std::alloc::AllocError;

/// Why no network was made.
#[derive(Clone, Copy, Debug, PartialEq, Eq)]
pub enum GenFault {
    /// No network of that kind has this order.
    Order(u32),
    /// No memory could be had.
    Memory,
}

impl From<AllocError> for GenFault {
    ghost from_gives = { λ _ e. e ≡ Memory };

    fn from(_: AllocError) -> Self {
        GenFault::Memory
    }
}
