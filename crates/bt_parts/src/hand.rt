//! Hands, and the half of a splitter on each of them.

ghost use Rattle.std.specs.Prelude.{◌≡◌, ◌↔◌, IsTrue};
ghost use Rattle.bt_parts.specs.Cells.{IsInRange, beside};
ghost use Rattle.bt_parts.specs.Hands.{half_on, IsPreferred};

use crate::part::{Cell, Dir, Part};

/// One of the two hands of one who looks in the direction of a splitter.
#[derive(Clone, Copy, PartialEq, Eq)]
pub enum Hand {
    /// To the west of one who looks north.
    Left,
    /// To the east of one who looks north.
    Right,
}

/// Which of its halves a splitter prefers.
#[derive(Clone, Copy, PartialEq, Eq)]
pub struct Priority {
    /// The half by which items leave while it isn't full.
    pub give: Option<Hand>,
    /// The half of which all items are taken that come there.
    pub take: Option<Hand>,
}

/// The greater half of a splitter: the cell across its direction, to the east or to the south.
fn greater_half(splitter: &Part) -> Cell
    requires { IsInRange splitter.now.cell }
    ensures { result ≡ beside splitter.now.dir splitter.now.cell }
{
    match splitter.dir {
        Dir::North | Dir::South => splitter.cell.ahead(Dir::East, 1),
        Dir::East | Dir::West => splitter.cell.ahead(Dir::South, 1),
    }
}

/// The half of the splitter on this hand of one who looks in its direction.
pub fn half_on(hand: Hand, splitter: &Part) -> Cell
    requires { IsInRange splitter.now.cell }
    ensures { result ≡ half_on hand splitter.now.dir splitter.now.cell }
{
    match (hand, splitter.dir) {
        (Hand::Left, Dir::North | Dir::East) | (Hand::Right, Dir::South | Dir::West) => {
            splitter.cell
        }
        _ => greater_half(splitter),
    }
}

/// Whether this half of the splitter is the one on the preferred hand; false where no hand is preferred.
pub fn is_preferred(preferred: Option<Hand>, splitter: &Part, half: Cell) -> bool
    requires { IsInRange splitter.now.cell }
    ensures { IsTrue result ↔ IsPreferred preferred splitter.now half }
{
    match preferred {
        Some(hand) => half == half_on(hand, splitter),
        None => false,
    }
}
