//! Logs of steps by which a formula is refuted, their text, and what is left of one without the steps that its last one
//! doesn't need.
#![tactic(auto)]

mod law;
mod log;
mod marking;
mod needed;
mod pooled_step;
mod printing;
mod step;
mod trimming;
mod trimming_law;
mod word;

pub use law::refuted_is_unmet;
pub use log::Log;
pub use printing::print_words;
pub use std::alloc::AllocError as Memory;
pub use step::StepView;
pub use trimming::trimmed;
pub use trimming_law::{trimmed_is_short, trimmed_refutes};
pub use word::{Spelled, Word};
