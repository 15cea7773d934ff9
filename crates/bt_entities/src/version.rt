//! The versions of the game of which blueprints are written.
ghost use Rattle.std.specs.Prelude.{◌≡◌};
ghost use Rattle.bt_entities.specs.Entities.{direction_value, quarters_of};
ghost use Rattle.bt_entities.specs.Written.{end_text, is_turbo, major_of, version_for};

use bt_parts::{Dir, Part, Tier};

/// A version of the game, which the text of a blueprint names.
#[derive(Clone, Copy)]
pub enum Version {
    /// 1.1.0, whose directions are eighths of a turn.
    Older,
    /// 2.0.0, whose directions are sixteenths, and which alone has the turbo tier.
    Newer,
}

/// The older version, or the newer one where some part is of the turbo tier, which the older one lacks.
pub fn version_for(parts: &[Part]) -> Version
    ensures { result ≡ version_for parts.now }
{
    for part in parts {
        if is_turbo(part) {
            return Version::Newer;
        }
    }
    Version::Older
}

/// Whether a part is of the turbo tier.
fn is_turbo(part: &Part) -> bool
    ensures { result ≡ is_turbo part.now }
{
    match part.tier {
        Tier::Basic | Tier::Fast | Tier::Express => false,
        Tier::Turbo => true,
    }
}

impl Version {
    /// A direction's value in a blueprint of this version: 0 for north, and clockwise from there 2 more for each
    /// quarter of a turn, or 4 more in the newer version.
    pub fn direction(self, dir: Dir) -> u64
        ensures { result ≡ direction_value (major_of self) dir }
    {
        match self {
            Version::Older => 2 * quarters(dir),
            Version::Newer => 4 * quarters(dir),
        }
    }

    /// The end of a blueprint's text behind its last entity, which names the version.
    pub fn end(self) -> &'static [u8]
        ensures { result.now ≡ end_text self }
    {
        match self {
            Version::Older => b"],\"version\":281479271677952}}\n",
            Version::Newer => b"],\"version\":562949953421312}}\n",
        }
    }
}

/// A direction in quarters of a turn, clockwise from north.
fn quarters(dir: Dir) -> u64
    ensures { result ≡ quarters_of dir }
{
    match dir {
        Dir::North => 0,
        Dir::East => 1,
        Dir::South => 2,
        Dir::West => 3,
    }
}
