//! Definitions that extend a formula, and never make it false.
#![tactic(auto)]

mod definition;
mod extending;
mod extension;
mod form;
mod goal;
mod item;
mod items;
mod law;
mod printing;
mod reading;
mod written;

pub use definition::{Definition, Literals, NamedLit, is_definition};
pub use extending::extend_all;
pub use extension::extend;
pub use form::Form;
pub use goal::Goal;
pub use item::Item;
pub use items::{next_item, read_items};
pub use law::{
    cut_meets, definitions_are_conservative, extended_is_formula, meeting_goes_on,
    printed_definition_is_read, refuted_extension_is_unmet,
};
pub use printing::print_definitions;
pub use reading::read_definition;
pub use std::alloc::AllocError as Memory;
pub use written::{MOST_NUMBER, WrittenLit, place_of};
