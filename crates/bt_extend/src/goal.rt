//! What a search is asked to show first.
use crate::definition::NamedLit;

/// A clause that is likely to follow from a formula that definitions extend, and with which scopes, by their places among
/// those of the search: lists of rows that are checked by themselves. Its variables may be such as definitions add.
/// Nothing rests on it: literals of variables that there aren't and places of no scope are passed over.
#[derive(Drop)]
pub struct Goal {
    pub lits: Vec<NamedLit>,
    pub scopes: Vec<usize>,
}
