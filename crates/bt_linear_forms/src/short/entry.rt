//! A position with its whole number, as a short line holds it.
ghost use Rattle.std.specs.Prelude.{◌≡◌, IfSome};
ghost use Rattle.bt_linear_forms.specs.Shorts.{IsSmall};

use std::marker::Model;

/// A position with its number, in eight bytes, since each pivot walks over those of all lines.
#[derive(Clone, Copy)]
pub struct Entry {
    position: u32,
    number: i32,
}

impl Model for Entry {
    ghost use Rattle.std.specs.Prelude.{ℕ, ℤ};

    ghost Value = { ℕ × ℤ };

    ghost view = { λ e. (e.position, e.number) };

    ghost inverse = { λ pair. record { position = pair.0; number = pair.1 } };
}

impl Entry {
    /// The entry of a position and a small number.
    pub fn of(position: u32, number: i64) -> Entry
        requires { IsSmall number }
        ensures { result ≡ (position, number) }
    {
        Entry {
            position,
            number: number as i32,
        }
    }

    /// The entry of a position and a small number. None where the position doesn't fit 32 bits.
    pub fn fitting(position: usize, number: i64) -> Option<Entry>
        requires { IsSmall number }
        ensures { IfSome result (λ entry. entry ≡ (position, number)) }
    {
        match u32::try_from(position) {
            Ok(place) => Some(Entry::of(place, number)),
            Err(_) => None,
        }
    }

    /// The position and the number.
    pub fn parts(self) -> (u32, i64)
        ensures { result ≡ self }
    {
        (self.position, i64::from(self.number))
    }

    /// The position.
    pub fn position(self) -> u32
        ensures { result ≡ self.0 }
    {
        self.position
    }

    /// The number.
    pub fn number(self) -> i64
        ensures { result ≡ self.1 }
    {
        i64::from(self.number)
    }
}

/// A list whose entries are dropped, so that a line can be formed in its memory.
pub type Room = Vec<Entry>;
