//! Networks that are made by a rule of their order, butterflies and chains; what a network keeps where outputs lead back
//! to inputs; and the wishes for which networks are made.
#![tactic(auto)]

mod butterflies;
mod chains;
mod fault;
mod law;
mod led_back;
mod order;
mod wish;

pub use butterflies::{MOST_STAGES, butterfly, one_splitter_has_a_line};
pub use chains::{MOST_IN_CHAIN, chain};
pub use fault::GenFault;
pub use law::limits_are;
pub use led_back::{balanced_led_back, drawn_evenly_led_back, unlimited_led_back};
pub use std::alloc::AllocError as Memory;
pub use wish::{Wish, one_wish};
