//! What the program answers, and the texts that it writes.
//!
//! `answer` has the answers with their statuses, `made` the one of `make`, and `faults` those to what can't be read; `text`
//! forms what has to be formed of a text, and `printing` gives texts to a sink: of it `networks` prints a network, and that
//! with lines of a request, `traces` the trace that a check of a tableau leaves behind where it gives no answer, and
//! `formulas` a formula, its clauses in DIMACS behind comments that tell what the variables mean. `titles` reads the first
//! lines of certificates again.
#![tactic(auto)]

mod answer;
mod blocks;
mod clauses;
mod columns;
mod faults;
mod formulas;
mod law;
mod line_buffer;
mod made;
mod networks;
mod printing;
mod rows;
mod text;
mod titles;
mod traces;

pub use answer::{Answer, Brief};
pub use columns::Columns;
pub use faults::{no_state, refused, steps_told, ungenerated};
pub use formulas::{print_flow_formula, print_place_formula};
pub use law::built_is_read;
pub use made::Made;
pub use networks::{print, print_with};
pub use printing::print_answer;
pub use std::alloc::AllocError as Memory;
pub use text::formed_of;
pub use titles::{says_differ, says_no, says_none, says_same, says_yes};
pub use traces::{print_pivots, print_wide};
