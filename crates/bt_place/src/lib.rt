//! The placement formula of a request: the rules that layouts keep, as a formula over numbered facts, and the
//! layout that an assignment of it describes.
#![tactic(auto)]

mod blocks;
mod decoding;
mod encoding;
mod grid;
mod having;
mod law;
mod narrowing;
mod numbering;
mod order;
mod reaching;
mod reading;
mod writing;

pub use blocks::Starts;
pub use decoding::decode;
pub use encoding::encode_place;
pub use having::has_formula;
pub use law::{laying_meets, meeting_keeps, unlaid_is_unmet};
pub use narrowing::{literal_of, narrow};
pub use numbering::Numbers;
pub use std::alloc::AllocError as Memory;
