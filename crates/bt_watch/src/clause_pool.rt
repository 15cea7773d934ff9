//! The kind of the clauses that are kept for watching, and how a literal's list names one.
ghost use Rattle.std.specs.Prelude.{◌≡◌, ◌<◌, length, IfOk};

use bt_arena::{Id, Pool};
use bt_cnf::Packed;
use std::alloc::AllocError;
use std::marker::Model;

/// The kind of the clauses of two or more literals, whose first two are watched.
pub struct Watched;

/// The clauses of two or more literals, whose first two are watched.
pub type ClausePool = Pool<Packed, Watched>;

/// The id of a kept clause, in four bytes.
#[derive(Clone, Copy)]
pub struct PackedId {
    place: u32,
}

impl Model for PackedId {
    ghost use Rattle.std.specs.Prelude.{ℕ};

    ghost Value = { ℕ };

    ghost view = { λ i. i.place };

    ghost inverse = { λ place. record { place = place } };
}

impl PackedId {
    /// The same id, packed. Memory counts as run out where it is 2^32 or more.
    pub fn pack(id: Id<Watched>) -> Result<PackedId, AllocError>
        ensures { IfOk result (λ packed. packed ≡ id) }
    {
        match u32::try_from(id.place()) {
            Ok(place) => Ok(PackedId { place }),
            Err(_) => Err(AllocError),
        }
    }

    /// The same id, that of one of these clauses.
    pub fn unpack(self, clauses: &ClausePool) -> Id<Watched>
        requires { self < length clauses.now }
        ensures { result ≡ self }
    {
        clauses.id_of(self.place as usize)
    }

    /// Its number: so many clauses were kept before this one.
    pub fn place(self) -> usize
        ensures { result ≡ self }
    {
        self.place as usize
    }
}

/// A clause that watches a literal. While another literal of it, the blocking one, is true, the clause isn't
/// looked at. It takes eight bytes, since propagation waits for memory.
#[derive(Clone, Copy)]
pub struct Watch {
    pub id: PackedId,
    pub blocker: Packed,
}
