//! All that the program does, over words, a source of bytes and a sink of bytes.
//!
//! `program` reads the words and the source and writes the answer; `flow_check`, `recover`, `decide`, `make`, `build`,
//! `layout`, `smallest`, `smallest_found`, `formula` and `same` find the answer to an input that is read whole.
//! `blocks` finds that of `check`, `check-layout` and `check-same` as the input is gathered: by what is told of a
//! design at its front, `flow_front`, `layout_front` and `same_front` give a `front`, and `front_answer` the answer
//! that it tells, with `pair_check` of a pair of states. `bt_print` has the answers, and writes them.
#![tactic(auto)]

mod blocks;
mod build;
mod choosers;
mod claim;
mod decide;
mod flow_check;
mod flow_front;
mod formula;
mod front;
mod front_answer;
mod input;
mod law;
mod layout;
mod layout_front;
mod make;
mod pair_check;
mod program;
mod recover;
mod same;
mod same_front;
mod smallest;
mod smallest_found;

pub use bt_designs::{MOST_CHECKED, Refusal};
pub use choosers::Choosers;
pub use input::{MOST_OF_DESIGN, MOST_OF_TWO};
pub use law::{
    ample_is_never_spent, ample_pivots_are_never_made, compared_is_checked, decided_is_checked,
    laid_out_is_checked, least_is_checked, longer_is_read, none_is_accepted, numbers_are,
    one_right_answer,
};
pub use program::{NO_MEMORY, READ_FAULT, WRITE_FAULT, run};
pub use std::alloc::AllocError as Memory;
