//! The parts of a blueprint, read and written, after the Factorio Wiki's description of blueprint JSON.
#![tactic(auto)]

mod blueprint;
mod entity;
mod fault;
mod law;
mod member;
mod name;
mod number;
mod piece;
mod reading_back;
mod shift;
mod version;
mod writing;

pub use blueprint::{MOST_ENTITIES, Prioritised, parts_and_priorities, parts_of};
pub use fault::{EntityFault, EntityName, Member};
pub use law::limits_are;
pub use reading_back::written_is_read;
pub use std::alloc::AllocError as Memory;
pub use writing::text_of;
