//! What is given behind a command's word, each argument at most once.
ghost use Rattle.std.specs.Prelude.{◌≡◌, ℕ, IfSome, List, [], ◌∷◌, Option, Some, None, MatchOption, map, string_bytes};
ghost use Rattle.std.specs.Prelude.{◌↔◌, IsTrue};
ghost use Rattle.bt_flow.specs.declared.property.Property.{Property as AProperty};
ghost use Rattle.bt_parts.specs.declared.part.Rect.{Rect as ARect};
ghost use Rattle.bt_words.specs.Commands.{HasFewCells, IsAmong, IsGiven, IsToDecide, IsToMake, IsToLay, IsToCheckLayout, IsToSearch, IsToFind, IsToCompare, IsToBuild, IsCount};
ghost use Rattle.bt_words.specs.Commands.{are_kept, is_chain, is_request, limits_of, one_property, nothing};
ghost use Rattle.bt_words.specs.inner.Reading.{Adds, IsFollowed};
ghost use Rattle.bt_words.specs.declared.argument.Argument.{Argument as AnArgument};
ghost use Rattle.bt_words.specs.declared.argument.Argument.TheVariants.{Wished, Number};
ghost use Rattle.bt_words.specs.declared.given.Given.{Given as AGiven};
ghost use Rattle.bt_words.specs.declared.given.Places.{Places as APlaces};
ghost use Rattle.bt_gen.specs.declared.wish.Wish.{Wish as AWish};

use crate::argument::{Argument, next_argument};
use crate::command::{
    AskedSides, BuiltText, MOST_LINES, NetworkFamily, USUAL_ACROSS, USUAL_LEARNT, USUAL_PIVOTS,
};
use bt_cnf::Limits;
use bt_flow::Property;
use bt_gen::Wish;
use bt_model::MOST_CELLS;
use bt_parts::{Rect, Tier};

/// What is given behind a command's word.
#[derive(Clone, Copy)]
pub struct Given {
    pub places: Places,
    pub chain: bool,
    pub learnt: Option<u64>,
    pub pivots: Option<u64>,
    pub grid: Option<Rect>,
    pub tier: Option<Tier>,
    pub most: Option<Rect>,
    pub from: Option<Rect>,
    pub found: bool,
    pub sides: bool,
    pub request: bool,
}

/// The properties and the numbers that are given, which stand in an order of their own among options.
#[derive(Clone, Copy)]
pub enum Places {
    Nothing,
    Wish(Wish),
    Number(u32),
    WishAndNumber(Wish, u32),
    /// Properties, and how many inputs and how many outputs.
    Whole(Wish, u32, u32),
}

/// The greatest grid that is searched, where none is given.
const USUAL_GRID: Rect = Rect {
    width: USUAL_ACROSS,
    height: USUAL_ACROSS,
};

/// Nothing is given.
pub const NOTHING: Given = Given {
    places: Places::Nothing,
    chain: false,
    learnt: None,
    pivots: None,
    grid: None,
    tier: None,
    most: None,
    from: None,
    found: false,
    sides: false,
    request: false,
};

/// What the words behind a command's word give. None where a word is no argument, or an argument stands twice or where
/// it may not.
pub fn read_given(words: &[String]) -> Option<Given>
    ensures { MatchOption result ((g : AGiven) → IsGiven g (map string_bytes words.now) → ⊥)
        (λ g. IsGiven g (map string_bytes words.now)) }
{
    let mut given = NOTHING;
    let mut rest = words;
    while !rest.is_empty() {
        let (argument, behind) = next_argument(rest)?;
        given = given.with(argument)?;
        rest = behind;
    }
    Some(given)
}

impl Given {
    /// What is given, with one more argument. None where the argument is given already, or properties or a number may
    /// not stand there.
    fn with(self, argument: Argument) -> Option<Given>
        ensures { MatchOption result
            ((g : AGiven) (more : List AnArgument) → Adds self (argument ∷ more) g → ⊥)
            (λ g. Adds self (argument ∷ []) g) }
    {
        match argument {
            Argument::Wished(wish) => self.with_places(self.places.with_wish(wish)),
            Argument::Number(number) => self.with_places(self.places.with_number(number)),
            Argument::Chain if !self.chain => Some(Given {
                chain: true,
                ..self
            }),
            Argument::Learnt(learnt) if self.learnt.is_none() => Some(Given {
                learnt: Some(learnt),
                ..self
            }),
            Argument::Pivots(pivots) if self.pivots.is_none() => Some(Given {
                pivots: Some(pivots),
                ..self
            }),
            Argument::Grid(grid) if self.grid.is_none() => Some(Given {
                grid: Some(grid),
                ..self
            }),
            Argument::OfTier(tier) if self.tier.is_none() => Some(Given {
                tier: Some(tier),
                ..self
            }),
            Argument::Most(most) if self.most.is_none() => Some(Given {
                most: Some(most),
                ..self
            }),
            Argument::From(first) if self.from.is_none() => Some(Given {
                from: Some(first),
                ..self
            }),
            Argument::Found if !self.found => Some(Given {
                found: true,
                ..self
            }),
            Argument::Sides if !self.sides => Some(Given {
                sides: true,
                ..self
            }),
            Argument::Request if !self.request => Some(Given {
                request: true,
                ..self
            }),
            _ => None,
        }
    }
}

impl Given {
    /// What is given, with these properties and numbers in place of its own. None where there are none such.
    fn with_places(self, places: Option<Places>) -> Option<Given>
        ensures { MatchOption result (places ≡ None) (λ g. (p : APlaces) × (places ≡ Some p)
            × (g ≡ record self { places = p })) }
    {
        match places {
            Some(places) => Some(Given { places, ..self }),
            None => None,
        }
    }
}

impl Places {
    /// The properties and the numbers, with these properties behind them. None where there are some already.
    fn with_wish(self, wish: Wish) -> Option<Places>
        ensures { MatchOption result
            ((more : List AnArgument) (p : APlaces) → IsFollowed self (Wished wish ∷ more) p → ⊥)
            (λ p. IsFollowed self (Wished wish ∷ []) p) }
    {
        match self {
            Places::Nothing => Some(Places::Wish(wish)),
            _ => None,
        }
    }

    /// The properties and the numbers, with one more number behind them. None where they are a number alone, or have
    /// two numbers already.
    fn with_number(self, number: u32) -> Option<Places>
        ensures { MatchOption result
            ((more : List AnArgument) (p : APlaces) → IsFollowed self (Number number ∷ more) p → ⊥)
            (λ p. IsFollowed self (Number number ∷ []) p) }
    {
        match self {
            Places::Nothing => Some(Places::Number(number)),
            Places::Wish(wish) => Some(Places::WishAndNumber(wish, number)),
            Places::WishAndNumber(wish, inputs) => Some(Places::Whole(wish, inputs, number)),
            Places::Number(_) | Places::Whole(..) => None,
        }
    }
}

/// Whether a network that is built may have so many inputs, or outputs: from 1 to `MOST_LINES`.
fn is_count(number: u32) -> bool
    ensures { IsTrue result ↔ IsCount number }
{
    number >= 1 && number <= MOST_LINES
}

impl Given {
    /// Whether nothing is given.
    pub fn is_nothing(self) -> bool
        ensures { IsTrue result ↔ (self ≡ nothing) }
    {
        match self {
            Given {
                places: Places::Nothing,
                chain: false,
                learnt: None,
                pivots: None,
                grid: None,
                tier: None,
                most: None,
                from: None,
                found: false,
                sides: false,
                request: false,
            } => true,
            _ => false,
        }
    }

    /// Whether nothing is given but limits, the most steps of a log and the most turns of a call.
    pub fn is_limits(self) -> bool
        ensures { IsTrue result ↔ IsToCompare self }
    {
        match self {
            Given {
                places: Places::Nothing,
                chain: false,
                grid: None,
                tier: None,
                most: None,
                from: None,
                found: false,
                sides: false,
                request: false,
                ..
            } => true,
            _ => false,
        }
    }

    /// The property, where it alone is given. None where anything else is, or several properties are.
    pub fn only_property(self) -> Option<Property>
        ensures { MatchOption result ((p : AProperty) → self ≡ record nothing { places = one_property p } → ⊥)
            (λ p. self ≡ record nothing { places = one_property p }) }
    {
        match self {
            Given {
                places: Places::Wish(wish),
                chain: false,
                learnt: None,
                pivots: None,
                grid: None,
                tier: None,
                most: None,
                from: None,
                found: false,
                sides: false,
                request: false,
            } => wish.single(),
            _ => None,
        }
    }

    /// The property, where nothing else is given but limits. None where anything else is, or several properties are.
    pub fn property_and_limits(self) -> Option<Property>
        ensures { MatchOption result ((p : AProperty) → IsToDecide p self → ⊥) (λ p. IsToDecide p self) }
    {
        match self {
            Given {
                places: Places::Wish(wish),
                chain: false,
                grid: None,
                tier: None,
                most: None,
                from: None,
                found: false,
                sides: false,
                request: false,
                ..
            } => wish.single(),
            _ => None,
        }
    }

    /// The order of a network that is made. None where no number is given, or anything else is but limits and which
    /// kind of network it is.
    pub fn order_and_limits(self) -> Option<u32>
        ensures { MatchOption result ((k : ℕ) → IsToMake k self → ⊥) (λ k. IsToMake k self) }
    {
        match self {
            Given {
                places: Places::Number(order),
                grid: None,
                tier: None,
                most: None,
                from: None,
                found: false,
                sides: false,
                request: false,
                ..
            } => Some(order),
            _ => None,
        }
    }

    /// The kind of network that is made: a chain where `--chain` is given, and else a butterfly.
    pub fn family(self) -> NetworkFamily
        ensures { is_chain result ≡ self.chain }
    {
        if self.chain {
            NetworkFamily::Chain
        } else {
            NetworkFamily::Butterfly
        }
    }

    /// The grid, where nothing else is given but the tier and the most steps of a log. None where anything else is, or
    /// no grid is.
    pub fn grid_to_lay(self) -> Option<Rect>
        ensures { MatchOption result ((r : ARect) → IsToLay r self → ⊥) (λ r. IsToLay r self) }
    {
        match self {
            Given {
                places: Places::Nothing,
                chain: false,
                pivots: None,
                grid,
                most: None,
                from: None,
                found: false,
                sides: false,
                request: false,
                ..
            } => grid,
            _ => None,
        }
    }

    /// The grid, where nothing else is given but the tier. None where anything else is, or no grid is.
    pub fn grid_to_check(self) -> Option<Rect>
        ensures { MatchOption result ((r : ARect) → IsToCheckLayout r self → ⊥)
            (λ r. IsToCheckLayout r self) }
    {
        match self {
            Given {
                places: Places::Nothing,
                chain: false,
                learnt: None,
                pivots: None,
                grid,
                most: None,
                from: None,
                found: false,
                sides: false,
                request: false,
                ..
            } => grid,
            _ => None,
        }
    }

    /// The greatest grid that is searched: the one of `--most`, or else the usual one. None where anything is given but
    /// this, the grid with which a search begins, the tier and the most steps of a log; where it has more than
    /// `MOST_CELLS` cells; or where the grid with which a search begins isn't one of those up to it.
    pub fn most_to_search(self) -> Option<Rect>
        ensures { MatchOption result ((r : ARect) → IsToSearch r self → ⊥) (λ r. IsToSearch r self) }
    {
        match self {
            Given {
                places: Places::Nothing,
                chain: false,
                pivots: None,
                grid: None,
                most,
                from,
                found: false,
                sides: false,
                request: false,
                ..
            } => most_from(most.unwrap_or(USUAL_GRID), from),
            _ => None,
        }
    }

    /// Where small layouts are looked for, the greatest grid, or none where `--most` isn't given. None where `--found`
    /// isn't given, or anything is but these, the tier, the sides and the most steps of a log.
    pub fn most_to_find(self) -> Option<Option<Rect>>
        ensures { MatchOption result ((most : Option ARect) → IsToFind most self → ⊥)
            (λ most. IsToFind most self) }
    {
        match self {
            Given {
                places: Places::Nothing,
                chain: false,
                pivots: None,
                grid: None,
                most,
                from: None,
                found: true,
                request: false,
                ..
            } => Some(most),
            _ => None,
        }
    }

    /// The sides that are asked of the ends of a blueprint.
    pub fn asked_sides(self) -> AskedSides
        ensures { are_kept result ≡ self.sides }
    {
        if self.sides {
            AskedSides::Kept
        } else {
            AskedSides::Any
        }
    }

    /// The properties and the numbers of inputs and outputs. None where one of these is lacking or a number isn't from
    /// 1 to `MOST_LINES`, or where anything else is given but limits and as what the network is written.
    pub fn wish_and_counts(self) -> Option<(Wish, u32, u32)>
        ensures { MatchOption result
            ((w : AWish) (i o : ℕ) → IsToBuild w i o self → ⊥) (λ r. IsToBuild r.0 r.1 r.2 self) }
    {
        match self {
            Given {
                places: Places::Whole(wish, inputs, outputs),
                chain: false,
                grid: None,
                tier: None,
                most: None,
                from: None,
                found: false,
                sides: false,
                ..
            } if is_count(inputs) && is_count(outputs) => Some((wish, inputs, outputs)),
            _ => None,
        }
    }

    /// As what a network that is built is written.
    pub fn built_text(self) -> BuiltText
        ensures { is_request result ≡ self.request }
    {
        if self.request {
            BuiltText::Request
        } else {
            BuiltText::Network
        }
    }

    /// The limits that are given, or else the usual ones.
    pub fn limits(self) -> Limits
        ensures { result ≡ limits_of self }
    {
        Limits {
            learnt: self.learnt.unwrap_or(USUAL_LEARNT),
            pivots: self.pivots.unwrap_or(USUAL_PIVOTS),
        }
    }
}

/// The greatest grid. None where it has more than `MOST_CELLS` cells, or the grid with which a search begins isn't one
/// of those up to it.
fn most_from(most: Rect, from: Option<Rect>) -> Option<Rect>
    ensures { MatchOption result (HasFewCells most → IfSome from (IsAmong most) → ⊥)
        (λ r. (r ≡ most) × HasFewCells most × IfSome from (IsAmong most)) }
{
    if u64::from(most.width) * u64::from(most.height) > u64::from(MOST_CELLS) {
        return None;
    }
    match from {
        Some(grid) if grid.width > most.width || grid.height > most.height => None,
        _ => Some(most),
    }
}
