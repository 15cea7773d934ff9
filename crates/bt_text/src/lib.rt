//! Lines, words and blanks, which the readers of texts share; and what the contracts of all crates say alike of answers.
#![tactic(auto)]

mod blank;
mod line;
mod piece;
mod whole;

pub use blank::skip_blanks;
pub use line::{first_line, line_feeds, split_once};
pub use piece::{after_word, cut, next_piece};
pub use whole::whole_lines;
