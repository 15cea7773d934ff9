//! From where one part comes upon another, and which kinds take from there (Factorio Wiki, belts).

ghost use Rattle.std.specs.Prelude.{◌↔◌, IsTrue};
ghost use Rattle.bt_parts.specs.Handing.{ComesFrom, TakesFrom};

use crate::part::{Dir, Kind, Side};

/// From where the giver comes upon the taker, by their directions.
pub fn side(giver: Dir, taker: Dir) -> Side
    ensures { ComesFrom giver taker result }
{
    if giver == taker {
        Side::Behind
    } else if giver == taker.opposite() {
        Side::Ahead
    } else {
        Side::Across
    }
}

/// Whether a part of this kind takes items from a part that comes upon it from this side.
///
/// A belt takes from behind and across, an entrance and a splitter take from behind alone, and an exit takes from no
/// part that faces it.
pub fn accepts(kind: Kind, side: Side) -> bool
    ensures { IsTrue result ↔ TakesFrom kind side }
{
    match kind {
        Kind::Belt => side != Side::Ahead,
        Kind::Entrance | Kind::Splitter => side == Side::Behind,
        Kind::Exit => false,
    }
}
