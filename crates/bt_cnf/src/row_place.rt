//! The place of a variable's row, in 32 bits.
ghost use Rattle.std.specs.Prelude.{◌≡◌, Some, None, IfOk};

use std::alloc::AllocError;
use std::marker::Model;

/// The place of a row, where there is one, in four bytes, since a formula keeps one for each variable.
#[derive(Drop)]
pub struct RowPlace {
    /// One more than the place, or 0 where there is none.
    end: u32,
}

impl Model for RowPlace {
    ghost use Rattle.std.specs.Prelude.{Option, ℕ};
    ghost use Rattle.bt_cnf.specs.inner.RowPlaces.{place_before};

    ghost Value = { Option ℕ };

    ghost view = { λ p. place_before p.end };
}

impl RowPlace {
    /// No place: that of a variable without a row.
    pub fn none() -> RowPlace
        ensures { result ≡ None }
    {
        RowPlace { end: 0 }
    }

    /// This place of a row. Memory counts as run out where it is 2^32 - 1 or more.
    pub fn of(place: usize) -> Result<RowPlace, AllocError>
        ensures { IfOk result (λ kept. kept ≡ Some place) }
    {
        match u32::try_from(place) {
            Ok(narrow) if narrow < u32::MAX => Ok(RowPlace { end: narrow + 1 }),
            _ => Err(AllocError),
        }
    }

    /// The place of the row, where there is one.
    pub fn row(&self) -> Option<usize>
        ensures { result ≡ self.now }
    {
        if self.end == 0 {
            return None;
        }
        Some(self.end as usize - 1)
    }
}
