//! Lists of items in one vector, since many short vectors would take a block of memory each.
ghost use Rattle.std.specs.Prelude.{◌≡◌, ◌<◌, ◌≤◌, [], ◌∷◌, ◌++◌, length, slice_get, slice_range, Some, OnErr, OnOk, IfOk, IsOkAnd, IfSome, IsNone, ◌↔◌};
ghost use Rattle.std.specs.Allocator.{alloc_error};
ghost use Rattle.std.specs.Borrow.{sem};
ghost use Rattle.bt_text.specs.Answers.{seen, Answers};
ghost use Rattle.bt_arena.specs.Items.{with_id, IsAdded, KeepsItems};
ghost use Rattle.bt_arena.specs.Pieces.{AreEnds, start_of, IsSpan};
ghost use Rattle.bt_arena.specs.PoolLends.{lends_list};

use crate::id::Id;
use std::alloc::{AllocError, Global};
use std::marker::{Model, PhantomData};

/// Lists of items in one vector, named by the ids of one kind.
///
/// Lists are added and never removed, so an id that was issued names the same list for ever.
#[derive(Drop)]
pub struct Pool<T, K> {
    items: Vec<T>,
    ends: Vec<usize>,
    kind: PhantomData<K>,
}

impl<T, K> Model for Pool<T, K> {
    ghost use Rattle.std.specs.Prelude.{List};
    ghost use Rattle.bt_arena.specs.Pieces.{pieces, AreEnds};

    ghost Value = { List (List T) };

    ghost view = { λ p. pieces 0 p.ends.items p.items.items };

    ghost invariant = { λ p. AreEnds 0 p.ends.items p.items.items };
}

// Where the list at a place begins among the items: where the one before it ends.
fn start(ends: &[usize], place: usize) -> usize
    requires { place < length ends.now }
    ensures { result ≡ start_of 0 ends.now place }
{
    if place == 0 {
        return 0;
    }
    ends[place - 1]
}

// Where the list at a place begins and ends among the items, by where each list ends.
fn span<T>(items: &[T], ends: &[usize], place: usize) -> (usize, usize)
    requires place { place < length ends.now }
    requires ends { AreEnds 0 ends.now items.now }
    ensures order { result.0 ≤ result.1 }
    ensures within { result.1 ≤ length items.now }
    ensures piece { IsSpan ends.now items.now place result }
    ensures start { result.0 ≡ start_of 0 ends.now place }
{
    (start(ends, place), ends[place])
}

impl<T: Copy, K> Pool<T, K> {
    /// A pool without lists.
    pub fn new(alloc: Global) -> Result<Pool<T, K>, AllocError>
        ensures { IsOkAnd result (λ p. p ≡ []) }
    {
        Ok(Pool {
            items: Vec::new(alloc),
            ends: Vec::new(alloc),
            kind: PhantomData,
        })
    }

    /// The number of lists.
    pub fn len(&self) -> usize
        ensures { result ≡ length self.now }
    {
        self.ends.len()
    }

    /// The list that an id names.
    pub fn slice(&self, id: Id<K>) -> &[T]
        requires { id < length self.now }
        ensures { slice_get self.now id ≡ Some result.now }
    {
        let (from, end) = span(&self.items, &self.ends, id.place());
        &self.items[from..end]
    }

    /// The list that an id names, to be changed item by item. Its length stays, and so does every other
    /// list.
    pub fn slice_mut(&mut self, id: Id<K>) -> &mut [T]
        requires { id < length self.old }
        ensures* writes_back { sem 𝓛 (lends_list T.row K.row self.entry id result) }
        ensures value { slice_get self.old id ≡ Some result.now }
    {
        let (from, end) = span(&self.items, &self.ends, id.place());
        self.items.slice_mut(from..end)
    }

    /// The id of the list at a place, where there is one.
    pub fn id_at(&self, place: usize) -> Option<Id<K>>
        ensures none { IsNone result ↔ (length self.now ≤ place) }
        ensures some { IfSome result (λ id. id ≡ place) }
    {
        if place < self.len() {
            Some(Id::new(place))
        } else {
            None
        }
    }

    /// The id of the list at a place.
    pub fn id_of(&self, place: usize) -> Id<K>
        requires { place < length self.now }
        ensures { result ≡ place }
    {
        Id::new(place)
    }

    /// Appends a list, and gives its id. Where memory runs out, nothing changes.
    pub fn add_slice(&mut self, items: &[T]) -> Result<Id<K>, AllocError>
        ensures added { Answers alloc_error (IsAdded self.old items.now) (seen (with_id self.new) result) }
        ensures same { OnErr result (self.new ≡ self.old) }
        ensures kept { KeepsItems self.old self.new }
    {
        // The room for the end is made first, so that a refusal leaves the pool as it was.
        self.ends.reserve(1)?;
        self.items.extend_from_slice(items)?;
        let place = self.ends.len();
        self.ends.push(self.items.len()).unwrap();
        Ok(Id::new(place))
    }
}
