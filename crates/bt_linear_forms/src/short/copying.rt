//! Copies of short lines, in the memory of others.
ghost use Rattle.std.specs.Prelude.{◌≡◌, ◌∷◌, [], ◌<◌, ◌-◌, ◌^◌, IfOk, IfSome};
ghost use Rattle.bt_linear_forms.specs.Lines.{one};

use crate::short::{Entry, Room, Short};
use std::alloc::AllocError;

impl Short {
    /// The same line, in the room of a list whose terms are dropped.
    pub fn copied_in(&self, room: Room) -> Result<Short, AllocError>
        ensures { IfOk result (λ line. line ≡ self.now) }
    {
        let mut terms = room;
        terms.clear();
        terms.extend_from_slice(&self.terms)?;
        Ok(Short {
            terms,
            under: self.under,
        })
    }
}

/// The line of one position with the number 1, in the room of a list whose terms are dropped. None where the position
/// doesn't fit 32 bits.
pub fn lone_short(room: Room, position: usize) -> Result<Option<Short>, AllocError>
    requires { position < 2 ^ 64 - 1 }
    ensures { IfOk result (λ o. IfSome o (λ line. line ≡ (position, one) ∷ [])) }
{
    let Some(entry) = Entry::fitting(position, 1) else {
        return Ok(None);
    };
    let mut terms = room;
    terms.clear();
    terms.push(entry)?;
    Ok(Some(Short { terms, under: 1 }))
}
