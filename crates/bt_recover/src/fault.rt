//! Why no network is recovered.
use std::alloc::AllocError;

/// Why no network is recovered from a layout.
///
/// The fault that stands first here comes first; of one fault the part with the least index does.
#[derive(Clone, Copy, PartialEq, Eq)]
pub enum RecoverFault {
    /// The underground piece is in no pair.
    Unpaired(usize),

    /// The belt has two or more feeders, or a part looks at the underground piece from a side.
    SideLoad(usize),

    /// The part looks at a part that takes nothing from there.
    Blocked(usize),

    /// The part is on a ring of belts and underground pieces.
    Ring(usize),

    /// More than `MOST_OF_EACH` inputs, outputs, splitters or edges.
    TooLarge,

    /// No input, or no output.
    NoEnds,

    /// There is no memory.
    Memory,
}

impl From<AllocError> for RecoverFault {
    ghost use Rattle.std.specs.Prelude.{◌≡◌};
    ghost use Rattle.bt_recover.specs.declared.fault.RecoverFault.TheVariants.{Memory};

    ghost from_gives = { λ _ fault. fault ≡ Memory };

    fn from(_: AllocError) -> RecoverFault {
        RecoverFault::Memory
    }
}
