//! The strategy of a search for layouts: which sketches, windows, half turns and greater layouts are tried for a
//! request, in which order and for how long, and by which plans a search of the placement formula makes its choices.
//!
//! It is handed the searches (`Search`), and tells what they find as a sketch of the request. Nothing is claimed of
//! that: whoever takes a sketch tests it, or shows it by a search.
#![tactic(auto)]

mod ground;
mod half_turns;
mod lessening;
mod means;
mod own;
mod plans;
mod room;
mod search;
mod seeking;
mod showing;
mod turning;

pub use lessening::{Least, seek_lesser};
pub use means::Means;
pub use own::{OwnLayout, narrow_own};
pub use plans::{plan_of_attempt, plan_of_whole};
pub use room::is_tight;
pub use search::Search;
pub use seeking::{seek_by_sketch, seek_where_likely};
pub use showing::plan_of_sketch;
pub use std::alloc::AllocError as Memory;
