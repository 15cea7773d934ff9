//! The names of objects. A text has many objects with the same names in the same order, so a set that
//! was read is kept a while, and shared by the objects that follow it: a tree of them takes less memory,
//! and a name that stands where it stood before is not looked up.
ghost use Rattle.std.specs.Prelude.{◌≡◌, ◌<◌, ◌+◌, ◌^◌, ◌++◌, ◌∷◌, [], take, length, slice_index_or, not, IsTrue, IfOk, IfSome, map, string_bytes};
ghost use Rattle.bt_json.specs.inner.Reading.{has_name};
ghost use Rattle.bt_json.specs.inner.Names.{names_of, keys_of, front_of, set_of, GoesOn, AddsName};

use indexmap::IndexSet;
use std::alloc::{AllocError, Global};
use std::rc::Rc;

/// How many sets of names are kept.
const SETS: usize = 16;

/// How many names a kept set has at most.
const NAMES: usize = 32;

/// Sets of names of objects that were read before. Objects with the same names in the same order
/// share their set.
#[derive(Drop)]
pub struct KnownNames {
    none: Rc<IndexSet<String>>,
    sets: Vec<Rc<IndexSet<String>>>,
    /// The place of the set that was kept first, where there are as many as may be.
    oldest: usize,
    ghost empty: { none.value.keys ≡ [] },
}

/// The names of an object so far.
#[derive(Drop)]
pub enum NamesSoFar {
    /// The first names of a kept set, that many.
    Front(Rc<IndexSet<String>>, usize),
    Own(IndexSet<String>),
}

/// Whether the name at that place in the set is this one. False where the set has no name there.
fn stands_next(set: &IndexSet<String>, place: usize, name: &str) -> bool
    ensures next { IsTrue result → GoesOn (keys_of set.now) place name.now }
    ensures small { IsTrue result → place + 1 < 2 ^ 64 }
{
    let names = set.as_slice();
    place < names.len() && names[place].as_str() == name
}

/// Whether the first `count` names of both sets are the same, in the same order. False where a set has fewer.
fn begin_alike(one: &IndexSet<String>, other: &IndexSet<String>, count: usize) -> bool
    ensures { IsTrue result → front_of one.now count ≡ front_of other.now count }
{
    let one = one.as_slice();
    let other = other.as_slice();
    if one.len() < count || other.len() < count {
        return false;
    }
    for place in 0..count {
        if one[place].as_str() != other[place].as_str() {
            return false;
        }
    }
    true
}

/// Puts the name behind the set's others, unless it is among them, and gives whether it was put.
fn insert(alloc: Global, set: &mut IndexSet<String>, name: &str) -> Result<bool, AllocError>
    ensures added { IfOk result (λ added. added ≡ not (has_name (keys_of set.old) name.now)) }
    ensures names { IfOk result (λ added. IsTrue added → keys_of set.new ≡ keys_of set.old ++ name.now ∷ []) }
{
    let (_, added) = set.insert_full(String::from_str(alloc, name)?)?;
    Ok(added)
}

/// A set of the first `count` names of a set, or of all of them where it has fewer.
fn front(
    alloc: Global,
    set: &IndexSet<String>,
    count: usize,
) -> Result<IndexSet<String>, AllocError>
    ensures { IfOk result (λ front. keys_of front ≡ front_of set.now count) }
{
    let names = set.as_slice();
    let mut front = IndexSet::new(alloc);
    for place in 0..count.min(names.len()) {
        insert(alloc, &mut front, names[place].as_str())?;
    }
    Ok(front)
}

impl KnownNames {
    /// No sets are kept yet.
    pub fn new(alloc: Global) -> Result<KnownNames, AllocError>
        ensures { IfOk result (λ known. known.sets.items ≡ []) }
    {
        Ok(KnownNames {
            none: Rc::new(alloc, IndexSet::new(alloc))?,
            sets: Vec::new(alloc),
            oldest: 0,
        })
    }

    /// A kept set whose first `count` names are those of `set`, and whose next one is `name`. None where none is kept.
    fn that_goes_on(
        &self,
        set: &IndexSet<String>,
        count: usize,
        name: &str,
    ) -> Option<&Rc<IndexSet<String>>>
        ensures alike { IfSome result (λ other. front_of other.now.value count ≡ front_of set.now count) }
        ensures next { IfSome result (λ other. GoesOn (keys_of other.now.value) count name.now) }
        ensures small { IfSome result (λ _. count + 1 < 2 ^ 64) }
    {
        for other in &self.sets {
            if stands_next(other, count, name) && begin_alike(set, other, count) {
                return Some(other);
            }
        }
        None
    }

    /// A kept set of just the first `count` names of `set`. None where none is kept.
    fn that_ends(&self, set: &IndexSet<String>, count: usize) -> Option<&Rc<IndexSet<String>>>
        ensures { IfSome result (λ other. keys_of other.now.value ≡ front_of set.now count) }
    {
        for other in &self.sets {
            if other.len() == count && begin_alike(set, other, count) {
                return Some(other);
            }
        }
        None
    }

    /// The set, to be shared. It is kept unless it has more than `NAMES` names: where `SETS` sets are kept already, in
    /// the place of the oldest.
    fn keep(
        &mut self,
        alloc: Global,
        set: IndexSet<String>,
    ) -> Result<Rc<IndexSet<String>>, AllocError>
        ensures { IfOk result (λ kept. kept.value ≡ set) }
    {
        let set = Rc::new(alloc, set)?;
        if set.len() > NAMES {
            return Ok(set);
        }
        let kept = set.clone()?;
        if self.sets.len() < SETS {
            self.sets.push(kept)?;
        } else {
            let oldest = self.oldest % SETS;
            self.sets[oldest] = kept;
            self.oldest = oldest + 1;
        }
        Ok(set)
    }

    /// The names of an object that has none so far.
    pub fn no_names(&self) -> Result<NamesSoFar, AllocError>
        ensures { IfOk result (λ names. names_of names ≡ []) }
    {
        Ok(NamesSoFar::Front(self.none.clone()?, 0))
    }
}

impl NamesSoFar {
    /// Puts the name behind the others, unless it is among them, and gives whether it was put. As long as a kept set
    /// has the same names in the same order, that set serves; else the object gets one of its own.
    pub fn push(
        &mut self,
        alloc: Global,
        name: &str,
        known: &KnownNames,
    ) -> Result<bool, AllocError>
        ensures { IfOk result (AddsName (names_of self.old) (names_of self.new) name.now) }
    {
        match self {
            NamesSoFar::Own(set) => insert(alloc, set, name),
            NamesSoFar::Front(set, count) => {
                if stands_next(set, *count, name) {
                    *count += 1;
                    return Ok(true);
                }
                if let Some(other) = known.that_goes_on(set, *count, name) {
                    *set = other.clone()?;
                    *count += 1;
                    return Ok(true);
                }
                let mut own = front(alloc, set, *count)?;
                let added = insert(alloc, &mut own, name)?;
                *self = NamesSoFar::Own(own);
                Ok(added)
            }
        }
    }

    /// How many names the object will have if it goes on as the kept set does, or ends there.
    pub fn likely_len(&self) -> usize
        ensures { result ≡ length (set_of self.now).keys }
    {
        match self {
            NamesSoFar::Front(set, _) => set.len(),
            NamesSoFar::Own(set) => set.len(),
        }
    }

    /// The set of the names: a kept one that has just these in this order, or a new one, which is kept unless it is
    /// large.
    pub fn finish(
        self,
        alloc: Global,
        known: &mut KnownNames,
    ) -> Result<Rc<IndexSet<String>>, AllocError>
        ensures { IfOk result (λ set. keys_of set.value ≡ names_of self) }
    {
        match self {
            NamesSoFar::Own(set) => {
                let mut set = set;
                set.shrink_to_fit();
                known.keep(alloc, set)
            }
            NamesSoFar::Front(set, count) => {
                if count == set.len() {
                    return Ok(set);
                }
                if let Some(other) = known.that_ends(&set, count) {
                    return other.clone();
                }
                known.keep(alloc, front(alloc, &set, count)?)
            }
        }
    }
}
