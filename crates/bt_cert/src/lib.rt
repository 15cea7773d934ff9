//! Certificates: lines of definitions, which extend a formula, and the step lines of a log, read line by line
//! and judged one after another.
#![tactic(auto)]

mod assumptions;
mod check;
mod checker;
mod clause_database;
mod defining;
mod fault;
mod law;
mod learnt;
mod lemma;
mod line;
mod reading;
mod stage;
mod step_line;
mod units;
mod written;

pub use check::check_log;
pub use defining::MOST_DEFINITIONS;
pub use fault::{Cause, CertFault};
pub use law::{
    certificate_shows_unmet, log_is_certificate, numbers_are, printed_is_certificate,
    printed_is_read, text_tells_log,
};
pub use reading::FIRST_LINE;
pub use std::alloc::AllocError as Memory;
