//! Items one by one. They stay where they are, so an id stays good.
ghost use Rattle.std.specs.Prelude.{◌≡◌, ◌<◌, ◌≤◌, [], ◌∷◌, ◌++◌, length, slice_get, slice_set, Some, OnErr, OnOk, IfOk, IsOkAnd, IfSome, IsNone, ◌↔◌};
ghost use Rattle.std.specs.Borrow.{sem};
ghost use Rattle.std.specs.Allocator.{alloc_error};
ghost use Rattle.bt_text.specs.Answers.{seen, Answers};
ghost use Rattle.bt_arena.specs.Items.{with_id, IsAdded, KeepsItems};
ghost use Rattle.bt_arena.specs.Lends.{lends_item};

use crate::id::Id;
use std::alloc::{AllocError, Global};
use std::marker::{Model, PhantomData};

/// Items that are named by the ids of one kind.
///
/// Items are added and never removed, so an id that was issued names the same item for ever.
#[derive(Drop)]
pub struct Arena<T, K> {
    items: Vec<T>,
    kind: PhantomData<K>,
}

impl<T, K> Model for Arena<T, K> {
    ghost use Rattle.std.specs.Prelude.{List};

    ghost Value = { List T };

    ghost view = { λ a. a.items.items };
}

impl<T, K> Arena<T, K> {
    /// An arena without items.
    pub fn new(alloc: Global) -> Result<Arena<T, K>, AllocError>
        ensures { IsOkAnd result (λ a. a ≡ []) }
    {
        Ok(Arena {
            items: Vec::new(alloc),
            kind: PhantomData,
        })
    }

    /// The number of items.
    pub fn len(&self) -> usize
        ensures { result ≡ length self.now }
    {
        self.items.len()
    }

    /// The item that an id names.
    pub fn get(&self, id: Id<K>) -> &T
        requires { id < length self.now }
        ensures { slice_get self.now id ≡ Some result.now }
    {
        &self.items[id.place()]
    }

    /// The item that an id names, to be changed. Every other item stays.
    pub fn get_mut(&mut self, id: Id<K>) -> &mut T
        requires { id < length self.old }
        ensures* writes_back { sem 𝓛 (lends_item T.row K.row self.entry id result) }
        ensures value { slice_get self.old id ≡ Some result.now }
    {
        &mut self.items[id.place()]
    }

    /// The id of the item at a place, where there is one.
    pub fn id_at(&self, place: usize) -> Option<Id<K>>
        ensures none { IsNone result ↔ (length self.now ≤ place) }
        ensures some { IfSome result (λ id. id ≡ place) }
    {
        if place < self.items.len() {
            Some(Id::new(place))
        } else {
            None
        }
    }

    /// The id of the item at a place.
    pub fn id_of(&self, place: usize) -> Id<K>
        requires { place < length self.now }
        ensures { result ≡ place }
    {
        Id::new(place)
    }
}

impl<T: Drop, K> Arena<T, K> {
    /// Appends an item, and gives its id. Where memory runs out, nothing changes.
    pub fn add(&mut self, value: T) -> Result<Id<K>, AllocError>
        ensures added { Answers alloc_error (IsAdded self.old value) (seen (with_id self.new) result) }
        ensures same { OnErr result (self.new ≡ self.old) }
        ensures kept { KeepsItems self.old self.new }
    {
        let place = self.items.len();
        self.items.push(value)?;
        Ok(Id::new(place))
    }
}
