//! Cells, directions and the parts of a belt layout, the pairs of its underground pieces, and which half of a splitter is
//! on which hand, after the Factorio Wiki. All that reads or judges a layout stands on these tables.
#![tactic(auto)]

mod hand;
mod handing;
mod hands;
mod law;
mod part;
mod piece;

pub use hand::{Hand, Priority, half_on, is_preferred};
pub use handing::{accepts, side};
pub use hands::left_of_right;
pub use law::limits_are;
pub use part::{
    Cell, DIRS, Dir, Kind, MOST_COORDINATE, Part, Rect, Side, Tier, back, cells_of, front, inside,
};
pub use piece::{Layout, is_underground, other_end};
