//! What the pairs are told as: for each part's index the index of the other end.

ghost use Rattle.std.specs.Prelude.{◌≡◌};
ghost use Rattle.bt_recover.specs.Pairing.{partner_of};

use std::marker::Model;

/// The pairs of a grid's underground pieces: for each part the other end of its pair.
#[derive(Drop)]
pub struct Pairs {
    partners: Vec<Option<usize>>,
}

impl Model for Pairs {
    ghost use Rattle.std.specs.Prelude.{ℕ, List, Option};

    ghost Value = { List (Option ℕ) };

    ghost view = { λ pairs. pairs.partners.items };
}

impl Pairs {
    /// The pairs whose other ends these are.
    pub(crate) fn new(partners: Vec<Option<usize>>) -> Pairs
        ensures { result ≡ partners.items }
    {
        Pairs { partners }
    }

    /// The index of the other end of the part's pair; there is none where the part is no underground piece.
    pub fn partner(&self, i: usize) -> Option<usize>
        ensures { result ≡ partner_of self.now i }
    {
        match self.partners.get(i) {
            Some(partner) => *partner,
            None => None,
        }
    }
}
