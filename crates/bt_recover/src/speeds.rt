//! The speeds of parts, as multiples of the basic tier's, and whether all parts have one tier.
ghost use Rattle.std.specs.Prelude.{◌≡◌, ◌↔◌, ℕ, ◌<◌, length, IsTrue};
ghost use Rattle.bt_model.specs.Speeds.{HasSpeed, HasOneTier};
ghost use Rattle.bt_recover.specs.inner.Speeds.{IsSlowedBy};

use crate::grid::Grid;
use bt_parts::{Part, Tier};

/// Whether the part is of the tier.
fn is_of_tier(part: &Part, tier: Tier) -> bool
    ensures { IsTrue result ↔ (part.now.tier ≡ tier) }
{
    part.tier == tier
}

/// Whether all parts have one tier, as those of an empty list do.
pub(crate) fn has_one_tier(parts: &[Part]) -> bool
    ensures { IsTrue result ↔ HasOneTier parts.now }
{
    let Some(first) = parts.first() else {
        return true;
    };
    for part in parts {
        if !is_of_tier(part, first.tier) {
            return false;
        }
    }
    true
}

/// The speed of the part.
pub(crate) fn speed_at(grid: &Grid, i: usize) -> u32
    requires { i < length grid.now }
    ensures { HasSpeed grid.now i result }
{
    grid.part(i).tier.speed()
}

/// The lesser of this speed and the part's.
pub(crate) fn slowed_by(grid: &Grid, speed: u32, i: usize) -> u32
    requires { i < length grid.now }
    ensures { IsSlowedBy grid.now speed i result }
{
    speed.min(speed_at(grid, i))
}
