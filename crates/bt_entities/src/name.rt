//! What an entity's name tells: the game's twelve names of belts, undergrounds and splitters.

ghost use Rattle.std.specs.Prelude.{◌≡◌, ◌≢◌, MatchOption};
ghost use Rattle.bt_parts.specs.declared.part.Tier.{Tier};
ghost use Rattle.bt_entities.specs.Names.{name_of};
ghost use Rattle.bt_entities.specs.declared.name.EntityFamily.{EntityFamily};

use bt_parts::Tier;

/// What an entity's name says of its kind. Of an underground piece its `type` says the rest.
#[derive(Clone, Copy)]
pub enum EntityFamily {
    /// Transport belts.
    Belts,
    /// Underground belts, entrances and exits alike.
    Undergrounds,
    /// Splitters.
    Splitters,
}

/// The family and the tier that a name tells (Factorio Wiki, belt transport system). None where it is none of the
/// twelve.
pub fn named(name: &str) -> Option<(EntityFamily, Tier)>
    ensures { MatchOption result
        ((family : EntityFamily) (tier : Tier) → name.now ≢ name_of family tier)
        (λ named. name.now ≡ name_of named.0 named.1) }
{
    match name {
        "transport-belt" => Some((EntityFamily::Belts, Tier::Basic)),
        "fast-transport-belt" => Some((EntityFamily::Belts, Tier::Fast)),
        "express-transport-belt" => Some((EntityFamily::Belts, Tier::Express)),
        "turbo-transport-belt" => Some((EntityFamily::Belts, Tier::Turbo)),
        "underground-belt" => Some((EntityFamily::Undergrounds, Tier::Basic)),
        "fast-underground-belt" => Some((EntityFamily::Undergrounds, Tier::Fast)),
        "express-underground-belt" => Some((EntityFamily::Undergrounds, Tier::Express)),
        "turbo-underground-belt" => Some((EntityFamily::Undergrounds, Tier::Turbo)),
        "splitter" => Some((EntityFamily::Splitters, Tier::Basic)),
        "fast-splitter" => Some((EntityFamily::Splitters, Tier::Fast)),
        "express-splitter" => Some((EntityFamily::Splitters, Tier::Express)),
        "turbo-splitter" => Some((EntityFamily::Splitters, Tier::Turbo)),
        _ => None,
    }
}
