//! Ids, whose numbers only an arena or a pool gives.
ghost use Rattle.std.specs.Prelude.{◌≡◌};

use std::marker::{Model, PhantomData};

/// The place of an item among those of the kind K. Only an arena or a pool issues one.
#[derive_where(Clone, Copy, PartialEq, Eq)]
pub struct Id<K> {
    place: usize,
    kind: PhantomData<K>,
}

impl<K> Model for Id<K> {
    ghost use Rattle.std.specs.Prelude.{ℕ};

    ghost Value = { ℕ };

    ghost view = { λ i. i.place };

    ghost inverse = { λ place. record { place = place; kind = record {} } };
}

impl<K> Id<K> {
    // The id of the item at a place.
    pub(crate) fn new(place: usize) -> Id<K>
        ensures { result ≡ place }
    {
        Id {
            place,
            kind: PhantomData,
        }
    }

    /// The place of what it names, from 0: the number of items, or lists, that were added before it.
    pub fn place(self) -> usize
        ensures { result ≡ self }
    {
        self.place
    }
}
