//! A wish, and the word that says it.
ghost use Rattle.std.specs.Prelude.{◌≡◌, ℕ, List, MatchOption};
ghost use Rattle.bt_flow.specs.declared.property.Property.{Property as AProperty};
ghost use Rattle.bt_flow.specs.Names.{property_name};
ghost use Rattle.bt_gen.specs.Wishes.{IsWishWord, wishes_for, with_property, only};
ghost use Rattle.bt_gen.specs.inner.WishReading.{Adds};
ghost use Rattle.bt_gen.specs.declared.wish.Wish.{Wish as AWish};

use bt_flow::Property;
use bt_text::split_once;

/// Which properties a balancer is to have.
#[derive(Clone, Copy, PartialEq, Eq)]
pub struct Wish {
    pub balanced: bool,
    pub drawn_evenly: bool,
    pub unlimited: bool,
    pub full: bool,
    pub fair: bool,
    pub drawn_fairly: bool,
}

/// No property is wished for.
const NOTHING: Wish = Wish {
    balanced: false,
    drawn_evenly: false,
    unlimited: false,
    full: false,
    fair: false,
    drawn_fairly: false,
};

impl Wish {
    /// The wish of a word: the names of one property or more, joined by commas, each at most once. None where the word
    /// is no such list.
    pub fn named(word: &[u8]) -> Option<Wish>
        ensures { MatchOption result ((w : AWish) → IsWishWord w word.now → ⊥) (λ w. IsWishWord w word.now) }
    {
        let mut wish = NOTHING;
        let mut rest = word;
        while let Some((name, behind)) = split_once(rest, b',') {
            wish = wish.with_named(name)?;
            rest = behind;
        }
        wish.with_named(rest)
    }

    /// Whether the wish is for this property.
    pub fn includes(self, property: Property) -> bool
        ensures { result ≡ wishes_for self property }
    {
        match property {
            Property::Balanced => self.balanced,
            Property::DrawnEvenly => self.drawn_evenly,
            Property::Unlimited => self.unlimited,
            Property::Full => self.full,
            Property::Fair => self.fair,
            Property::DrawnFairly => self.drawn_fairly,
        }
    }

    /// The property that alone is wished for. None where more than one is wished for, or none is.
    pub fn single(self) -> Option<Property>
        ensures { MatchOption result ((p : AProperty) → self ≡ only p → ⊥) (λ p. self ≡ only p) }
    {
        match self {
            Wish {
                balanced: true,
                drawn_evenly: false,
                unlimited: false,
                full: false,
                fair: false,
                drawn_fairly: false,
            } => Some(Property::Balanced),
            Wish {
                balanced: false,
                drawn_evenly: true,
                unlimited: false,
                full: false,
                fair: false,
                drawn_fairly: false,
            } => Some(Property::DrawnEvenly),
            Wish {
                balanced: false,
                drawn_evenly: false,
                unlimited: true,
                full: false,
                fair: false,
                drawn_fairly: false,
            } => Some(Property::Unlimited),
            Wish {
                balanced: false,
                drawn_evenly: false,
                unlimited: false,
                full: true,
                fair: false,
                drawn_fairly: false,
            } => Some(Property::Full),
            Wish {
                balanced: false,
                drawn_evenly: false,
                unlimited: false,
                full: false,
                fair: true,
                drawn_fairly: false,
            } => Some(Property::Fair),
            Wish {
                balanced: false,
                drawn_evenly: false,
                unlimited: false,
                full: false,
                fair: false,
                drawn_fairly: true,
            } => Some(Property::DrawnFairly),
            _ => None,
        }
    }

    /// This wish with a property more.
    fn with(self, property: Property) -> Wish
        ensures { result ≡ with_property self property }
    {
        match property {
            Property::Balanced => Wish {
                balanced: true,
                ..self
            },
            Property::DrawnEvenly => Wish {
                drawn_evenly: true,
                ..self
            },
            Property::Unlimited => Wish {
                unlimited: true,
                ..self
            },
            Property::Full => Wish { full: true, ..self },
            Property::Fair => Wish { fair: true, ..self },
            Property::DrawnFairly => Wish {
                drawn_fairly: true,
                ..self
            },
        }
    }

    /// This wish with the property of this name more. None where no property has the name, or it is wished for already.
    fn with_named(self, name: &[u8]) -> Option<Wish>
        ensures { MatchOption result ((w : AWish) → Adds self name.now w → ⊥) (λ w. Adds self name.now w) }
    {
        let property = property_named(name)?;
        if self.includes(property) {
            return None;
        }
        Some(self.with(property))
    }
}

/// The property of this name, in lower case with hyphens. None where no property has it.
fn property_named(name: &[u8]) -> Option<Property>
    ensures { MatchOption result ((p : AProperty) → name.now ≡ property_name p → ⊥)
        (λ p. name.now ≡ property_name p) }
{
    if name == b"balanced".as_slice() {
        return Some(Property::Balanced);
    }
    if name == b"drawn-evenly".as_slice() {
        return Some(Property::DrawnEvenly);
    }
    if name == b"unlimited".as_slice() {
        return Some(Property::Unlimited);
    }
    if name == b"full".as_slice() {
        return Some(Property::Full);
    }
    if name == b"fair".as_slice() {
        return Some(Property::Fair);
    }
    if name == b"drawn-fairly".as_slice() {
        return Some(Property::DrawnFairly);
    }
    None
}

/// A word says one wish at most: no two wishes have the same word.
pub fn one_wish()
    ensures { (v w : AWish) (word : List ℕ) → IsWishWord v word → IsWishWord w word → v ≡ w }
{}
