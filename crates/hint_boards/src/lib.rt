//! Boards: rectangles of cells of which each knows what stands there and which chains of a layout come there and leave, so
//! that a part of one can be laid anew without the rest; and seams, which are cut out of them.
//!
//! Nothing is claimed of what is found: whoever takes it tests it.
#![tactic(auto)]

mod board;
mod own;
mod seams;
mod tile;

pub use board::{Board, Joint, Plan, aside, mark};
pub use own::{Own, own_of};
pub use seams::{seam, turned, without};
pub use std::alloc::AllocError as Memory;
pub use tile::{BARE, Below, Chain, Piece, Tile};
