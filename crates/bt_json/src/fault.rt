//! Why no value was read.
ghost use Rattle.std.specs.Prelude.{◌≡◌};
ghost use Rattle.bt_json.specs.declared.fault.JsonFault.TheVariants.{Memory};

use std::alloc::{AllocError, AllocFailed};

/// Why no JSON value was read. An offset counts the bytes from the first one of the text.
#[derive(Clone, Copy, Debug, PartialEq, Eq)]
pub enum JsonFault {
    /// No text that begins with the bytes up to and with the one at this offset has a JSON value
    /// at its front; or the bytes end at this offset, and no value has ended.
    Json(usize),
    /// The bracket or brace at this offset opens the 65th level.
    Deep(usize),
    /// The name whose opening quote stands at this offset is in its object already.
    DuplicateKey(usize),
    /// Memory ran out.
    Memory,
}

impl From<AllocError> for JsonFault {
    ghost from_gives = { λ _ e. e ≡ Memory };

    fn from(_e: AllocError) -> JsonFault {
        JsonFault::Memory
    }
}

impl<T: Drop> From<AllocFailed<T>> for JsonFault {
    ghost from_gives = { λ _ e. e ≡ Memory };

    fn from(_e: AllocFailed<T>) -> JsonFault {
        JsonFault::Memory
    }
}
